//! SET: the value that a column gets, on the old row.
ghost use Rattle.std.specs.Prelude.{◌≡◌, ◌+ℤ◌, ◌-ℤ◌, if◌then◌else◌, [], ◌∷◌, slice_set, IfOk, Some};
ghost use Rattle.sql_answer.specs.Conditions.{operand_value as operand_value_of};
ghost use Rattle.session_language.specs.Intervals.{cell as cell_of};
ghost use Rattle.sql_answer.specs.Writes.{changed as changed_of, stepped as stepped_of, assigned as assigned_of, set_row as set_row_of};

use crate::copies::{copied_row, copied_value};
use cdb_values::{Row, Value};
use sql_bind::{BoundAssign, BoundOperand, BoundStep};
use sql_eval::int_value;
use std::alloc::AllocError;

/// The row that SET makes of a row; `None` exactly where a value leaves 64 bits.
pub(crate) fn set_row(assigns: &[BoundAssign], row: &Row) -> Result<Option<Row>, AllocError>
    ensures { IfOk result (λ new. new ≡ set_row_of assigns.now row.now) }
{
    let mut new = copied_row(row)?;
    let mut rest = assigns;
    'assigns: while let Some((assign, others)) = rest.split_first() {
        let Some(value) = assigned(row, assign)? else {
            return Ok(None);
        };
        put(&mut new, assign.column, value);
        rest = others;
    }
    Ok(Some(new))
}

/// Puts a value into a column, where the row has it.
fn put(row: &mut Row, column: u8, value: Value)
    ensures { row.new ≡ slice_set row.old column value }
{
    if (column as usize) < row.len() {
        row.replace_at(column as usize, value);
    }
}

/// The value that a column gets.
fn assigned(row: &Row, assign: &BoundAssign) -> Result<Option<Value>, AllocError>
    ensures { IfOk result (λ value. value ≡ assigned_of (row.now ∷ []) assign.now) }
{
    stepped(
        row,
        operand_value(row, &assign.first)?,
        assign.rest.as_slice(),
    )
}

/// A value after these steps.
#[tactic(auto, using(crate::proofs::StepLemmas::stays_missing))]
fn stepped(row: &Row, first: Value, steps: &[BoundStep]) -> Result<Option<Value>, AllocError>
    ensures { IfOk result (λ value. value ≡ stepped_of (row.now ∷ []) (Some first) steps.now) }
{
    let mut value = first;
    let mut rest = steps;
    'steps: while let Some((step, others)) = rest.split_first() {
        let Some(next) = changed_by(row, &value, step)? else {
            return Ok(None);
        };
        value = next;
        rest = others;
    }
    Ok(Some(value))
}

/// A value after a step.
fn changed_by(row: &Row, value: &Value, step: &BoundStep) -> Result<Option<Value>, AllocError>
    ensures { IfOk result (λ new. new ≡ changed_of step.now.minus value.now (operand_value_of (row.now ∷ []) step.now.operand)) }
{
    let operand = operand_value(row, &step.operand)?;
    Ok(changed(step.minus, value, &operand))
}

/// The value of an operand on a row.
fn operand_value(row: &Row, operand: &BoundOperand) -> Result<Value, AllocError>
    ensures { IfOk result (λ value. value ≡ operand_value_of (row.now ∷ []) operand.now) }
{
    match operand {
        BoundOperand::Value(value) => copied_value(value),
        BoundOperand::Column(column) => {
            if column.place == 0 {
                cell(row, column.column)
            } else {
                Ok(Value::Null)
            }
        }
    }
}

/// The value in a column, NULL where there is none.
pub(crate) fn cell(row: &Row, column: u8) -> Result<Value, AllocError>
    ensures { IfOk result (λ value. value ≡ cell_of row.now column) }
{
    match row.as_slice().get(column as usize) {
        Some(value) => copied_value(value),
        None => Ok(Value::Null),
    }
}

/// A value with another added to it or taken away; `None` exactly where that leaves 64 bits.
fn changed(minus: bool, x: &Value, y: &Value) -> Option<Value>
    ensures { result ≡ changed_of minus x.now y.now }
{
    match (x, y) {
        (Value::Int(x), Value::Int(y)) => int_value(moved(minus, *x, *y)),
        _ => Some(Value::Null),
    }
}

/// A number with another added to it or taken away.
fn moved(minus: bool, x: i64, y: i64) -> i128
    ensures { result ≡ (if minus then x -ℤ y else (x +ℤ y)) }
{
    if minus {
        i128::from(x) - i128::from(y)
    } else {
        i128::from(x) + i128::from(y)
    }
}
