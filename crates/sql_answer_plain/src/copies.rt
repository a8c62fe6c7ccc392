//! Copies of values, rows and operations.
ghost use Rattle.std.specs.Prelude.{◌≡◌, IfOk};

use cdb_values::{Row, RowOp, Value};
use std::alloc::AllocError;

/// A copy of a value.
pub(crate) fn copied_value(value: &Value) -> Result<Value, AllocError>
    ensures { IfOk result (λ copy. copy ≡ value.now) }
{
    value.clone()
}

/// A copy of a row.
pub(crate) fn copied_row(row: &Row) -> Result<Row, AllocError>
    ensures { IfOk result (λ copy. copy ≡ row.now) }
{
    row.clone()
}

/// A copy of an operation.
pub(crate) fn copied_op(op: &RowOp) -> Result<RowOp, AllocError>
    ensures { IfOk result (λ copy. copy ≡ op.now) }
{
    op.clone()
}
