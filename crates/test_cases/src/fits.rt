//! Whether operations write rows that fit the trees of their tables.
ghost use Rattle.std.specs.Prelude.{◌≡◌, ◌≤◌, true, IfOk};
ghost use Rattle.std.specs.List.{AllByRecursion};
ghost use Rattle.cdb_values.specs.Good.{bytes_of_key, key_of};
ghost use Rattle.cdb_values.specs.declared.limits.TheConstants.{MOST_KEY_BYTES};
ghost use Rattle.table_edits.specs.Fits.{FitsAt, WritesFitting};

use cdb_values::limits::{MOST_KEY_BYTES, MOST_ROW_BYTES};
use cdb_values::{KeyDef, Row, RowOp, Schema};
use key_code::{key_size, row_size};
use std::alloc::{AllocError, Global};
use table_store::key_values;

/// Whether all rows that operations write fit the trees of their tables.
pub fn all_fit(alloc: Global, schema: &Schema, ops: &[RowOp]) -> Result<bool, AllocError>
    ensures { IfOk result (λ fit. fit ≡ true → AllByRecursion (WritesFitting schema.now) ops.now) }
{
    let mut rest = ops;
    'ops: while let Some((op, others)) = rest.split_first() {
        if !is_fitting(alloc, schema, op)? {
            return Ok(false);
        }
        rest = others;
    }
    Ok(true)
}

/// Whether the row that an operation writes fits.
fn is_fitting(alloc: Global, schema: &Schema, op: &RowOp) -> Result<bool, AllocError>
    ensures { IfOk result (λ fit. fit ≡ true → WritesFitting schema.now op.now) }
{
    match op {
        RowOp::Insert { table, row } => fits_at(alloc, schema, *table, row),
        RowOp::Update { table, row, .. } => fits_at(alloc, schema, *table, row),
        RowOp::Delete { .. } => Ok(true),
    }
}

/// Whether a row fits the trees of the table at a place.
fn fits_at(alloc: Global, schema: &Schema, table: u16, row: &Row) -> Result<bool, AllocError>
    ensures { IfOk result (λ fit. fit ≡ true → FitsAt schema.now table row.now) }
{
    match schema.at(table) {
        None => Ok(true),
        Some(table) => {
            if row_size(row) > MOST_ROW_BYTES {
                return Ok(false);
            }
            keys_fit(alloc, table.keys.as_slice(), row)
        }
    }
}

/// Whether the code of a row fits at each of these keys.
fn keys_fit(alloc: Global, keys: &[KeyDef], row: &Row) -> Result<bool, AllocError>
    ensures { IfOk result (λ fit. fit ≡ true →
        AllByRecursion (λ key. bytes_of_key (key_of key row.now) ≤ MOST_KEY_BYTES) keys.now) }
{
    let mut rest = keys;
    'keys: while let Some((key, others)) = rest.split_first() {
        if key_size(key_values(alloc, key, row)?.as_slice()) > MOST_KEY_BYTES {
            return Ok(false);
        }
        rest = others;
    }
    Ok(true)
}
