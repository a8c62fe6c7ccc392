//! SUM: integers are added in 128 bits, which no number of integers that a walk lives to see leaves. So only the total has
//! to be one of 64 bits, whatever the partial sums are.
ghost use Rattle.std.specs.Prelude.{◌≡◌, ◌+ℤ◌, pos, unwrap_or, Some, IfOk};
ghost use Rattle.std.specs.Option.{option_copied};
ghost use Rattle.sql_answer.specs.Aggregates.{int_value as int_value_of};
ghost use Rattle.sql_eval.specs.Folds.{added as added_of, total_value};
ghost use Rattle.sql_eval.specs.Gives.{Gives};
ghost use Rattle.sql_eval.specs.Views.{value_or_null};

use crate::faults::EvalFault;
use cdb_values::Value;
use std::alloc::AllocError;

/// A total with one value more; `None` is NULL.
pub(crate) fn added(total: Option<i128>, value: Option<&Value>) -> Result<Option<i128>, AllocError>
    ensures { IfOk result (λ sum. sum ≡ added_of total (value_or_null (option_copied value.entry))) }
{
    match value {
        Some(value) => added_value(total, value),
        None => Ok(total),
    }
}

/// A total with one value more. What is no integer is skipped.
fn added_value(total: Option<i128>, value: &Value) -> Result<Option<i128>, AllocError>
    ensures { IfOk result (λ sum. sum ≡ added_of total value.now) }
{
    match value {
        Value::Int(x) => plus(total, *x),
        Value::Null | Value::Text(_) | Value::Blob(_) => Ok(total),
    }
}

/// The total of an integer more. One that leaves 128 bits is told as want of memory.
fn plus(total: Option<i128>, x: i64) -> Result<Option<i128>, AllocError>
    ensures { IfOk result (λ sum. sum ≡ Some (unwrap_or total (pos 0) +ℤ x)) }
{
    match total {
        Some(total) => more(total, x),
        None => Ok(Some(i128::from(x))),
    }
}

/// A total and an integer more.
fn more(total: i128, x: i64) -> Result<Option<i128>, AllocError>
    ensures { IfOk result (λ sum. sum ≡ Some (total +ℤ x)) }
{
    match total.checked_add(i128::from(x)) {
        Some(sum) => Ok(Some(sum)),
        None => Err(AllocError),
    }
}

/// The value of a total: NULL of no integer. `Overflow` is told where it leaves 64 bits.
pub(crate) fn value_of_total(total: Option<i128>) -> Result<Value, EvalFault>
    ensures { Gives (λ value. value) result (total_value total) }
{
    match total {
        Some(total) => value_of_sum(total),
        None => Ok(Value::Null),
    }
}

/// The value of a sum. `Overflow` is told where it leaves 64 bits.
fn value_of_sum(sum: i128) -> Result<Value, EvalFault>
    ensures { Gives (λ value. value) result (int_value_of sum) }
{
    match int_value(sum) {
        Some(value) => Ok(value),
        None => Err(EvalFault::Overflow),
    }
}

/// The value that an integer is; `None` exactly where it leaves 64 bits.
pub fn int_value(x: i128) -> Option<Value>
    ensures { result ≡ int_value_of x }
{
    match i64::try_from(x) {
        Ok(x) => Some(Value::Int(x)),
        Err(_) => None,
    }
}
