//! INSERT: what is wrong with its list and its tuples, and the rows that they are.
ghost use Rattle.std.specs.Prelude.{◌≡◌, ◌==◌, ◌∷◌, [], not, map, length, IfOk, Some};
ghost use Rattle.std.specs.List.{list_any};
ghost use Rattle.cdb_values.specs.Tables.{has_twice};
ghost use Rattle.sql_grammar.specs.Views.{name_in, literal_in, tuple_in};
ghost use Rattle.sql_bind.specs.Faults.{own_column, own_columns, names_listed, tuple_kinds as kinds_of_tuple, tuple_differs, width as width_of};
ghost use Rattle.sql_bind.specs.Meaning.{value_of, listed_value as value_listed, bound_row};
ghost use Rattle.sql_bind.specs.Scope.{is_unknown as unknown, kind_meant};
ghost use Rattle.sql_bind.specs.Seen.{visible_in, names_in_list};

use crate::conditions::value;
use crate::kinds::tuple_is_wrong;
use crate::names::is_twice;
use crate::scope::VisibleTable;
use cdb_values::{ColumnDef, ColumnType, List, Name, Row, Value};
use sql_grammar::{Literal, Seq};
use std::alloc::{AllocError, Global};

/// Whether INSERT lists a column that the table has not.
#[tactic(auto, using(crate::proofs::ListLemmas::any_listed))]
pub(crate) fn lists_unknown(table: &VisibleTable, columns: &Option<Seq<Name>>) -> bool
    ensures { result ≡ list_any (unknown (visible_in table.now ∷ [])) (own_columns (names_in_list columns.now)) }
{
    match columns {
        None => false,
        Some(names) => lacks_one(table, names.as_slice()),
    }
}

/// Whether the table lacks one of these columns.
fn lacks_one(table: &VisibleTable, names: &[Name]) -> bool
    ensures { result ≡ list_any (λ name. unknown (visible_in table.now ∷ []) (own_column (name_in name))) names.now }
{
    names.iter().any(|name| table.lacks(name.as_bytes()))
}

/// Whether INSERT lists a column twice.
pub(crate) fn lists_twice(alloc: Global, columns: &Option<Seq<Name>>) -> Result<bool, AllocError>
    ensures { IfOk result (λ twice. twice ≡ has_twice (names_listed (names_in_list columns.now))) }
{
    match columns {
        None => Ok(false),
        Some(names) => {
            let names = names_of(alloc, names.as_slice())?;
            Ok(is_twice(names.as_slice()))
        }
    }
}

/// The bytes of these names.
fn names_of<'a>(alloc: Global, names: &'a [Name]) -> Result<Vec<&'a [u8]>, AllocError>
    ensures { IfOk result (λ found. map (λ n. n.now) found.items ≡ map name_in names.now) }
{
    let mut found = Vec::new(alloc);
    'names: for name in names {
        found.push(name.as_bytes())?;
    }
    Ok(found)
}

/// Whether a value of these tuples is not of the type of its column of the table.
pub(crate) fn has_wrong_value(
    alloc: Global,
    table: &VisibleTable,
    columns: &Option<Seq<Name>>,
    tuples: &[Seq<Literal>],
) -> Result<bool, AllocError>
    ensures { IfOk result (λ wrong. wrong
        ≡ list_any (tuple_differs (kinds_of_tuple (visible_in table.now) (names_in_list columns.now))) (map tuple_in tuples.now)) }
{
    let kinds = kinds(alloc, table, columns)?;
    Ok(has_wrong_type(kinds.as_slice(), tuples))
}

/// The types of a tuple's columns: of those that are listed, or of all columns of the table.
fn kinds(
    alloc: Global,
    table: &VisibleTable,
    columns: &Option<Seq<Name>>,
) -> Result<Vec<Option<ColumnType>>, AllocError>
    ensures { IfOk result (λ kinds. kinds.items ≡ kinds_of_tuple (visible_in table.now) (names_in_list columns.now)) }
{
    match columns {
        None => kinds_of_columns(alloc, table.table.columns.as_slice()),
        Some(names) => kinds_of_names(alloc, table, names.as_slice()),
    }
}

/// The types of these columns.
fn kinds_of_columns(
    alloc: Global,
    columns: &[ColumnDef],
) -> Result<Vec<Option<ColumnType>>, AllocError>
    ensures { IfOk result (λ kinds. kinds.items ≡ map (λ column. Some column.kind) columns.now) }
{
    let mut kinds = Vec::new(alloc);
    'columns: for column in columns {
        kinds.push(Some(column.kind))?;
    }
    Ok(kinds)
}

/// The types of the columns with these names.
fn kinds_of_names(
    alloc: Global,
    table: &VisibleTable,
    names: &[Name],
) -> Result<Vec<Option<ColumnType>>, AllocError>
    ensures { IfOk result (λ kinds. kinds.items ≡ map (λ name. kind_meant (visible_in table.now ∷ []) (own_column name)) (map name_in names.now)) }
{
    let mut kinds = Vec::new(alloc);
    'names: for name in names {
        kinds.push(table.kind_of(name.as_bytes()))?;
    }
    Ok(kinds)
}

/// Whether a value of these tuples is not of its column's type.
fn has_wrong_type(kinds: &[Option<ColumnType>], tuples: &[Seq<Literal>]) -> bool
    ensures { result ≡ list_any (tuple_differs kinds.now) (map tuple_in tuples.now) }
{
    tuples
        .iter()
        .any(|tuple| tuple_is_wrong(kinds, tuple.as_slice()))
}

/// How many values a tuple has to have.
pub(crate) fn width(table: &VisibleTable, columns: &Option<Seq<Name>>) -> usize
    ensures { result ≡ width_of (visible_in table.now) (names_in_list columns.now) }
{
    match columns {
        None => table.table.columns.len(),
        Some(names) => names.len(),
    }
}

/// Whether one of these tuples has not so many values.
pub(crate) fn has_wrong_count(width: usize, tuples: &[Seq<Literal>]) -> bool
    ensures { result ≡ list_any (λ tuple. not (length tuple == width)) (map tuple_in tuples.now) }
{
    tuples.iter().any(|tuple| is_miscounted(width, tuple))
}

/// Whether a tuple has not so many values.
fn is_miscounted(width: usize, tuple: &Seq<Literal>) -> bool
    ensures { result ≡ not (length (tuple_in tuple.now) == width) }
{
    tuple.len() != width
}

/// The rows of these tuples.
pub(crate) fn rows(
    alloc: Global,
    table: &VisibleTable,
    columns: &Option<Seq<Name>>,
    tuples: &[Seq<Literal>],
) -> Result<List<Row>, AllocError>
    ensures { IfOk result (λ rows. rows ≡ map (bound_row (visible_in table.now) (names_in_list columns.now)) (map tuple_in tuples.now)) }
{
    let mut rows = List::new(alloc);
    'tuples: for tuple in tuples {
        rows.push(row(alloc, table, columns, tuple.as_slice())?)?;
    }
    Ok(rows)
}

/// The row of a tuple.
fn row(
    alloc: Global,
    table: &VisibleTable,
    columns: &Option<Seq<Name>>,
    tuple: &[Literal],
) -> Result<Row, AllocError>
    ensures { IfOk result (λ row. row ≡ bound_row (visible_in table.now) (names_in_list columns.now) (map literal_in tuple.now)) }
{
    match columns {
        None => values(alloc, tuple),
        Some(names) => placed(
            alloc,
            table.table.columns.as_slice(),
            names.as_slice(),
            tuple,
        ),
    }
}

/// The values of a tuple.
fn values(alloc: Global, tuple: &[Literal]) -> Result<Row, AllocError>
    ensures { IfOk result (λ row. row ≡ map value_of (map literal_in tuple.now)) }
{
    let mut row = List::new(alloc);
    'values: for literal in tuple {
        row.push(value(alloc, literal)?)?;
    }
    Ok(row)
}

/// The values of a tuple that stands in the order of these names, in the order of the table's columns.
fn placed(
    alloc: Global,
    columns: &[ColumnDef],
    names: &[Name],
    tuple: &[Literal],
) -> Result<Row, AllocError>
    ensures { IfOk result (λ row. row ≡ map (λ column. value_listed (map name_in names.now) (map literal_in tuple.now) column.name) columns.now) }
{
    let mut row = List::new(alloc);
    'columns: for column in columns {
        row.push(listed_value(alloc, names, tuple, column)?)?;
    }
    Ok(row)
}

/// The value of a tuple for a column, NULL where the list leaves the column out.
fn listed_value(
    alloc: Global,
    names: &[Name],
    tuple: &[Literal],
    column: &ColumnDef,
) -> Result<Value, AllocError>
    ensures { IfOk result (λ value. value ≡ value_listed (map name_in names.now) (map literal_in tuple.now) column.now.name) }
{
    let mut names_left = names;
    let mut rest = tuple;
    'values: while let (Some((name, names_after)), Some((literal, after))) = (
        names_left.split_first(),
        rest.split_first(),
    ) {
        if name.is(column.name.as_bytes()) {
            return value(alloc, literal);
        }
        names_left = names_after;
        rest = after;
    }
    Ok(Value::Null)
}
