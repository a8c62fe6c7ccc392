//! The keys of a table, over the places of their columns.
ghost use Rattle.std.specs.Prelude.{◌≡◌, ◌<◌, ℕ, List, map, length, slice_get, IfOk};
ghost use Rattle.std.specs.Option.{option_copied};
ghost use Rattle.std.specs.List.{list_any};
ghost use Rattle.cdb_values.specs.Tables.{is_bad_column};
ghost use Rattle.cdb_values.specs.declared.tables.TableDef.{TableDef};
ghost use Rattle.table_read.specs.Tables.{place_among, key_over, table_with, table_over};
ghost use Rattle.table_read.specs.StandIns.{is_bad_name, is_bad_key, stand_in};
ghost use Rattle.table_read.specs.Verdict.{judged};

use crate::keys::WrittenKey;
use cdb_values::limits::MOST_COLUMNS;
use cdb_values::{ColumnDef, KeyDef, List, Name};
use std::alloc::{AllocError, Global};

/// The keys of a table of these columns. Of a table of more than 64 columns, which is refused in
/// any case, they are stand-ins for which it is refused as for its own keys.
#[tactic(auto, using(crate::proofs::StandInLemmas::one_verdict))]
pub(crate) fn keys(
    alloc: Global,
    columns: &[ColumnDef],
    keys: &[WrittenKey],
) -> Result<List<KeyDef>, AllocError>
    ensures { IfOk result (λ found. (tables : List TableDef) (name : List ℕ) → judged tables (table_with name columns.now found) ≡ judged tables (table_over name columns.now keys.now)) }
{
    if MOST_COLUMNS < columns.len() {
        return stand_ins(alloc, columns, keys);
    }
    placed_keys(alloc, columns, keys)
}

/// These keys, over the places of their columns.
fn placed_keys(
    alloc: Global,
    columns: &[ColumnDef],
    keys: &[WrittenKey],
) -> Result<List<KeyDef>, AllocError>
    requires { length columns.now < 256 }
    ensures { IfOk result (λ found. found ≡ map (key_over columns.now) keys.now) }
{
    let mut found = List::new(alloc);
    let mut rest = keys;
    'keys: while let Some((key, after)) = rest.split_first() {
        found.push(placed_key(alloc, columns, key)?)?;
        rest = after;
    }
    Ok(found)
}

/// A key, over the places of its columns.
fn placed_key(alloc: Global, columns: &[ColumnDef], key: &WrittenKey) -> Result<KeyDef, AllocError>
    requires { length columns.now < 256 }
    ensures { IfOk result (λ found. found ≡ key_over columns.now key.now) }
{
    Ok(KeyDef {
        name: key.name.clone()?,
        columns: places(alloc, columns, key.columns.as_slice())?,
        unique: key.unique,
    })
}

/// The places of the columns with these names.
fn places(alloc: Global, columns: &[ColumnDef], names: &[Name]) -> Result<List<u8>, AllocError>
    requires { length columns.now < 256 }
    ensures { IfOk result (λ places. places ≡ map (place_among columns.now) names.now) }
{
    let places = names.iter().map(|name| place(columns, name));
    Ok(List::from_vec(places.collect(alloc)?))
}

/// The place of the first of these columns with that name, or the place behind the last one.
fn place(columns: &[ColumnDef], name: &Name) -> u8
    requires { length columns.now < 256 }
    ensures { result ≡ place_among columns.now name.now }
{
    let mut rest = columns;
    let mut at = 0u8;
    'columns: while let Some((column, after)) = rest.split_first() {
        if column.name.is(name.as_bytes()) {
            return at;
        }
        rest = after;
        at += 1;
    }
    at
}

/// The stand-ins of these keys.
fn stand_ins(
    alloc: Global,
    columns: &[ColumnDef],
    keys: &[WrittenKey],
) -> Result<List<KeyDef>, AllocError>
    ensures { IfOk result (λ found. found ≡ map (stand_in columns.now) keys.now) }
{
    let mut found = List::new(alloc);
    let mut rest = keys;
    'keys: while let Some((key, after)) = rest.split_first() {
        found.push(stand_in_key(alloc, columns, key)?)?;
        rest = after;
    }
    Ok(found)
}

/// The stand-in of a key: over no column where the key is bad, else over the first one.
fn stand_in_key(
    alloc: Global,
    columns: &[ColumnDef],
    key: &WrittenKey,
) -> Result<KeyDef, AllocError>
    ensures { IfOk result (λ found. found ≡ stand_in columns.now key.now) }
{
    let mut places = List::new(alloc);
    if !is_bad(columns, key) {
        places.push(0u8)?;
    }
    Ok(KeyDef {
        name: key.name.clone()?,
        columns: places,
        unique: false,
    })
}

/// Whether a key is over no column, or over one that it can't be over.
fn is_bad(columns: &[ColumnDef], key: &WrittenKey) -> bool
    ensures { result ≡ is_bad_key columns.now key.now }
{
    key.columns.is_empty() || has_bad_name(columns, key.unique, key.columns.as_slice())
}

/// Whether no such key can be over one of the columns with these names.
fn has_bad_name(columns: &[ColumnDef], unique: bool, names: &[Name]) -> bool
    ensures { result ≡ list_any (is_bad_name columns.now unique) names.now }
{
    names
        .iter()
        .any(|name| is_refused(unique, column_named(columns, name)))
}

/// Whether no such key can be over this column.
fn is_refused(unique: bool, column: Option<&ColumnDef>) -> bool
    ensures { result ≡ is_bad_column unique (option_copied column.entry) }
{
    match column {
        None => true,
        Some(column) => unique && column.nullable,
    }
}

/// The first of these columns with that name.
fn column_named<'a>(columns: &'a [ColumnDef], name: &Name) -> Option<&'a ColumnDef>
    ensures { option_copied result ≡ slice_get columns.now (place_among columns.now name.now) }
{
    let mut rest = columns;
    'columns: while let Some((column, after)) = rest.split_first() {
        if column.name.is(name.as_bytes()) {
            return Some(column);
        }
        rest = after;
    }
    None
}
