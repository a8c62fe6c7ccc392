//! MIN and MAX: the first of the least or the greatest values of a column in a group, without NULL.
ghost use Rattle.std.specs.Prelude.{◌≡◌, IfOk};
ghost use Rattle.std.specs.Option.{option_copied};
ghost use Rattle.sql_eval.specs.Folds.{beats as beats_of, better as better_of};
ghost use Rattle.sql_eval.specs.Views.{value_or_null};

use crate::truths::is_null;
use cdb_values::{Value, order};
use std::alloc::AllocError;
use std::cmp::Ordering;

/// Which of the values is asked for.
#[derive(Clone, Copy)]
pub(crate) enum Extreme {
    /// MIN
    Least,
    /// MAX
    Greatest,
}

/// The better of the best value so far and one more. NULL is no value.
pub(crate) fn better(
    extreme: Extreme,
    best: Value,
    value: Option<&Value>,
) -> Result<Value, AllocError>
    ensures { IfOk result (λ v. v ≡ better_of extreme best (value_or_null (option_copied value.entry))) }
{
    match value {
        Some(value) => better_value(extreme, best, value),
        None => Ok(best),
    }
}

/// The better of two values. NULL is no value.
fn better_value(extreme: Extreme, best: Value, value: &Value) -> Result<Value, AllocError>
    ensures { IfOk result (λ v. v ≡ better_of extreme best value.now) }
{
    if is_null(value) {
        return Ok(best);
    }
    if is_null(&best) {
        return value.clone();
    }
    if beats(extreme, order(value, &best)) {
        value.clone()
    } else {
        Ok(best)
    }
}

/// Whether a value that stands so to the best one takes its place.
fn beats(extreme: Extreme, order: Ordering) -> bool
    ensures { result ≡ beats_of extreme order }
{
    match extreme {
        Extreme::Least => order.is_lt(),
        Extreme::Greatest => order.is_gt(),
    }
}
