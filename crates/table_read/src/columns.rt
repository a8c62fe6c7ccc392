//! The columns that a definition declares, in the order of its text.
ghost use Rattle.std.specs.Prelude.{◌≡◌, ◌++◌, map, IfOk, OnOk};
ghost use Rattle.std.specs.List.{list_any};
ghost use Rattle.cdb_values.specs.Tables.{is_named};
ghost use Rattle.sql_grammar.specs.Views.{part_in};
ghost use Rattle.table_read.specs.Tables.{is_primary_over, is_in_primary as in_primary, is_not_null as not_null, type_of, column_with, columns_of_part, columns_with};

use crate::keys::{PRIMARY, WrittenKey};
use cdb_values::{ColumnDef, ColumnType, List, Name};
use sql_grammar::{CreatePart, Kind, Mark};
use std::alloc::{AllocError, Global};

/// The columns of these parts, for a table that has these keys.
pub(crate) fn columns(
    alloc: Global,
    keys: &[WrittenKey],
    parts: &[CreatePart],
) -> Result<List<ColumnDef>, AllocError>
    ensures { IfOk result (λ columns. columns ≡ columns_with keys.now (map part_in parts.now)) }
{
    let mut columns = List::new(alloc);
    let mut rest = parts;
    'parts: while let Some((part, after)) = rest.split_first() {
        add_part(alloc, keys, &mut columns, part)?;
        rest = after;
    }
    Ok(columns)
}

/// Adds the column of a part, if it declares one.
fn add_part(
    alloc: Global,
    keys: &[WrittenKey],
    columns: &mut List<ColumnDef>,
    part: &CreatePart,
) -> Result<(), AllocError>
    ensures { OnOk result (columns.new ≡ columns.old ++ columns_of_part keys.now (part_in part.now)) }
{
    match part {
        CreatePart::Column { name, kind, marks } => columns.push(column(
            alloc,
            keys,
            name.as_bytes(),
            *kind,
            marks.as_slice(),
        )?),
        CreatePart::Primary { .. } => Ok(()),
        CreatePart::Key { .. } => Ok(()),
    }
}

/// A column of a table that has these keys.
fn column(
    alloc: Global,
    keys: &[WrittenKey],
    name: &[u8],
    kind: Kind,
    marks: &[Mark],
) -> Result<ColumnDef, AllocError>
    ensures { IfOk result (λ column. column ≡ column_with keys.now name.now kind marks.now) }
{
    Ok(ColumnDef {
        name: Name::copied(alloc, name)?,
        kind: column_type(kind),
        nullable: !(forbid_null(marks) || is_in_primary(keys, name)),
    })
}

/// The type of a column.
fn column_type(kind: Kind) -> ColumnType
    ensures { result ≡ type_of kind }
{
    match kind {
        Kind::Integer => ColumnType::Integer,
        Kind::Text => ColumnType::Text,
        Kind::Blob => ColumnType::Blob,
    }
}

/// Whether the mark is `not null`.
fn is_not_null(mark: Mark) -> bool
    ensures { result ≡ not_null mark }
{
    match mark {
        Mark::NotNull => true,
        Mark::PrimaryKey => false,
        Mark::Unique => false,
    }
}

/// Whether one of these marks is `not null`.
fn forbid_null(marks: &[Mark]) -> bool
    ensures { result ≡ list_any not_null marks.now }
{
    marks.iter().any(|mark| is_not_null(*mark))
}

/// Whether a primary key of these is over this column.
fn is_in_primary(keys: &[WrittenKey], column: &[u8]) -> bool
    ensures { result ≡ in_primary keys.now column.now }
{
    keys.iter().any(|key| is_primary(key, column))
}

/// Whether this is a primary key, over this column.
fn is_primary(key: &WrittenKey, column: &[u8]) -> bool
    ensures { result ≡ is_primary_over column.now key.now }
{
    key.name.is(PRIMARY) && is_among(column, key.columns.as_slice())
}

/// Whether a name is among these.
fn is_among(name: &[u8], names: &[Name]) -> bool
    ensures { result ≡ is_named name.now names.now }
{
    names.iter().any(|other| other.is(name))
}
