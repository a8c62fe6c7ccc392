//! The errors of a row that is written.
ghost use Rattle.std.specs.Prelude.{◌≡◌, ◌&&◌, not, nat_lt, Some, IfOk};
ghost use Rattle.std.specs.List.{list_any};
ghost use Rattle.std.specs.Option.{option_copied};
ghost use Rattle.cdb_values.specs.Good.{bytes_of_key, bytes_of_row, key_of as key_of_def};
ghost use Rattle.cdb_values.specs.declared.limits.TheConstants.{MOST_ROW_BYTES, MOST_KEY_BYTES};
ghost use Rattle.session_language.specs.Intervals.{is_null};
ghost use Rattle.sql_answer.specs.Writes.{has_null as has_null_of, is_too_long as is_too_long_of, row_error as row_error_of, rows_error as rows_error_of, columns_of as columns_of_def, keys_of as keys_of_def};

use crate::steps::cell;
use cdb_values::limits::{MOST_KEY_BYTES, MOST_ROW_BYTES};
use cdb_values::{ColumnDef, KeyDef, List, Row, StatementError, TableDef, Value};
use key_code::{key_size, row_size};
use std::alloc::{AllocError, Global};

/// The first error of rows that are written to a table, in their order; `None` as a row stands for one with a value
/// outside 64 bits.
pub(crate) fn rows_error(
    alloc: Global,
    table: Option<&TableDef>,
    rows: &[Option<Row>],
) -> Result<Option<StatementError>, AllocError>
    ensures { IfOk result (λ error. error ≡ rows_error_of (option_copied table.entry) rows.now) }
{
    let mut rest = rows;
    'rows: while let Some((row, others)) = rest.split_first() {
        if let Some(error) = row_error(alloc, table, row)? {
            return Ok(Some(error));
        }
        rest = others;
    }
    Ok(None)
}

/// The first error of a row.
fn row_error(
    alloc: Global,
    table: Option<&TableDef>,
    row: &Option<Row>,
) -> Result<Option<StatementError>, AllocError>
    ensures { IfOk result (λ error. error ≡ row_error_of (option_copied table.entry) row.now) }
{
    match row {
        Some(row) => error_of(alloc, table, row),
        None => Ok(Some(StatementError::Overflow)),
    }
}

/// The first error of a row whose values are there.
fn error_of(
    alloc: Global,
    table: Option<&TableDef>,
    row: &Row,
) -> Result<Option<StatementError>, AllocError>
    ensures { IfOk result (λ error. error ≡ row_error_of (option_copied table.entry) (Some row.now)) }
{
    if has_null(columns_of(table), row.as_slice()) {
        return Ok(Some(StatementError::NotNull));
    }
    if is_too_long(alloc, keys_of(table), row)? {
        return Ok(Some(StatementError::TooLong));
    }
    Ok(None)
}

/// The columns of a table; none where it is not there.
fn columns_of(table: Option<&TableDef>) -> &[ColumnDef]
    ensures { result.now ≡ columns_of_def (option_copied table.entry) }
{
    match table {
        Some(table) => table.columns.as_slice(),
        None => &[],
    }
}

/// The keys of a table; none where it is not there.
fn keys_of(table: Option<&TableDef>) -> &[KeyDef]
    ensures { result.now ≡ keys_of_def (option_copied table.entry) }
{
    match table {
        Some(table) => table.keys.as_slice(),
        None => &[],
    }
}

/// Whether a NULL stands in a column that may not hold it.
fn has_null(columns: &[ColumnDef], row: &[Value]) -> bool
    ensures { result ≡ has_null_of columns.now row.now }
{
    let mut rest = columns;
    let mut values = row;
    'columns: while let Some((column, others)) = rest.split_first() {
        let Some((value, later)) = values.split_first() else {
            return false;
        };
        if refuses(column, value) {
            return true;
        }
        rest = others;
        values = later;
    }
    false
}

/// Whether a value is a NULL that a column may not hold.
fn refuses(column: &ColumnDef, value: &Value) -> bool
    ensures { result ≡ (not column.now.nullable && is_null value.now) }
{
    match value {
        Value::Null => !column.nullable,
        Value::Int(_) | Value::Text(_) | Value::Blob(_) => false,
    }
}

/// Whether the code of a row, or of one of its keys, is too long.
fn is_too_long(alloc: Global, keys: &[KeyDef], row: &Row) -> Result<bool, AllocError>
    ensures { IfOk result (λ long. long ≡ is_too_long_of keys.now row.now) }
{
    if is_row_too_long(row) {
        return Ok(true);
    }
    has_long_key(alloc, keys, row)
}

/// Whether the code of a row is too long.
fn is_row_too_long(row: &Row) -> bool
    ensures { result ≡ nat_lt MOST_ROW_BYTES (bytes_of_row row.now) }
{
    row_size(row) > MOST_ROW_BYTES
}

/// Whether the code of one of these keys of a row is too long.
fn has_long_key(alloc: Global, keys: &[KeyDef], row: &Row) -> Result<bool, AllocError>
    ensures { IfOk result (λ long. long
        ≡ list_any (λ key. nat_lt MOST_KEY_BYTES (bytes_of_key (key_of_def key row.now))) keys.now) }
{
    let mut rest = keys;
    'keys: while let Some((key, others)) = rest.split_first() {
        if is_key_too_long(alloc, key, row)? {
            return Ok(true);
        }
        rest = others;
    }
    Ok(false)
}

/// Whether the code of a key is too long.
fn is_key_too_long(alloc: Global, key: &KeyDef, row: &Row) -> Result<bool, AllocError>
    ensures { IfOk result (λ long. long ≡ nat_lt MOST_KEY_BYTES (bytes_of_key (key_of_def key.now row.now))) }
{
    let values = key_of(alloc, key, row)?;
    Ok(are_too_long(values.as_slice()))
}

/// Whether the code of these values in a key is too long.
fn are_too_long(values: &[Value]) -> bool
    ensures { result ≡ nat_lt MOST_KEY_BYTES (bytes_of_key values.now) }
{
    key_size(values) > MOST_KEY_BYTES
}

/// The values of a row at the columns of a key.
fn key_of(alloc: Global, key: &KeyDef, row: &Row) -> Result<Row, AllocError>
    ensures { IfOk result (λ values. values ≡ key_of_def key.now row.now) }
{
    let mut values = List::new(alloc);
    let mut rest = key.columns.as_slice();
    'columns: while let Some((column, others)) = rest.split_first() {
        values.push(cell(row, *column)?)?;
        rest = others;
    }
    Ok(values)
}
