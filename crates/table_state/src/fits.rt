//! Whether a row may stand in a table.
ghost use Rattle.std.specs.Prelude.{◌≡◌, IfOk, nat_lt};
ghost use Rattle.cdb_values.specs.Good.{bytes_of_key};
ghost use Rattle.cdb_values.specs.declared.limits.TheConstants.{MOST_KEY_BYTES};
ghost use Rattle.table_state.specs.Fits.{is_integer, is_text, is_blob, fits_column, fits_columns, is_long_row, is_long_key, has_long_key as has_long_key_of, fits_table};

use cdb_values::limits::{MOST_KEY_BYTES, MOST_ROW_BYTES};
use cdb_values::{ColumnDef, ColumnType, KeyDef, Row, TableDef, Value};
use key_code::{key_size, row_size};
use std::alloc::{AllocError, Global};
use table_store::key_values;

/// Whether a row may stand in a table. `Err` is want of memory.
pub(crate) fn is_fitting(alloc: Global, table: &TableDef, row: &Row) -> Result<bool, AllocError>
    ensures { IfOk result (λ fits. fits ≡ fits_table table.now row.now) }
{
    let long = has_long_key(alloc, table.keys.as_slice(), row)?;
    Ok(are_fitting(table.columns.as_slice(), row.as_slice()) && (!is_row_long(row) && !long))
}

/// Whether there is one value for each column, each of which may stand there.
fn are_fitting(columns: &[ColumnDef], row: &[Value]) -> bool
    ensures { result ≡ fits_columns columns.now row.now }
{
    let mut rest = columns;
    let mut values = row;
    'columns: while let Some((column, others)) = rest.split_first() {
        let Some((value, later)) = values.split_first() else {
            return false;
        };
        if !may_hold(column, value) {
            return false;
        }
        rest = others;
        values = later;
    }
    match values.split_first() {
        None => true,
        Some(_) => false,
    }
}

/// Whether a value may stand in a column.
fn may_hold(column: &ColumnDef, value: &Value) -> bool
    ensures { result ≡ fits_column column.now value.now }
{
    match value {
        Value::Null => column.nullable,
        Value::Int(_) => holds_integers(column.kind),
        Value::Text(_) => holds_texts(column.kind),
        Value::Blob(_) => holds_blobs(column.kind),
    }
}

/// Whether a column of this type holds integers.
fn holds_integers(kind: ColumnType) -> bool
    ensures { result ≡ is_integer kind }
{
    match kind {
        ColumnType::Integer => true,
        ColumnType::Text | ColumnType::Blob => false,
    }
}

/// Whether a column of this type holds texts.
fn holds_texts(kind: ColumnType) -> bool
    ensures { result ≡ is_text kind }
{
    match kind {
        ColumnType::Text => true,
        ColumnType::Integer | ColumnType::Blob => false,
    }
}

/// Whether a column of this type holds blobs.
fn holds_blobs(kind: ColumnType) -> bool
    ensures { result ≡ is_blob kind }
{
    match kind {
        ColumnType::Blob => true,
        ColumnType::Integer | ColumnType::Text => false,
    }
}

/// Whether the code of a row is too long.
fn is_row_long(row: &Row) -> bool
    ensures { result ≡ is_long_row row.now }
{
    row_size(row) > MOST_ROW_BYTES
}

/// Whether the code of one of these keys of a row is too long.
fn has_long_key(alloc: Global, keys: &[KeyDef], row: &Row) -> Result<bool, AllocError>
    ensures { IfOk result (λ long. long ≡ has_long_key_of keys.now row.now) }
{
    let mut rest = keys;
    'keys: while let Some((key, others)) = rest.split_first() {
        let long = is_key_long(alloc, key, row)?;
        if long {
            return Ok(true);
        }
        rest = others;
    }
    Ok(false)
}

/// Whether the code of a key of a row is too long.
fn is_key_long(alloc: Global, key: &KeyDef, row: &Row) -> Result<bool, AllocError>
    ensures { IfOk result (λ long. long ≡ is_long_key row.now key.now) }
{
    let values = key_values(alloc, key, row)?;
    Ok(are_long(values.as_slice()))
}

/// Whether the code of these values in a key is too long.
fn are_long(values: &[Value]) -> bool
    ensures { result ≡ nat_lt MOST_KEY_BYTES (bytes_of_key values.now) }
{
    key_size(values) > MOST_KEY_BYTES
}
