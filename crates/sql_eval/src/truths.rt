ghost use Rattle.std.specs.Prelude.{◌≡◌};
ghost use Rattle.session_language.specs.Intervals.{is_null as is_null_of};
ghost use Rattle.sql_answer.specs.Truth.{not3 as not_of, and3 as and_of, or3 as or_of, truth_of, stands as stands_of, compared};
ghost use Rattle.sql_eval.specs.Views.{truth_in};

use cdb_values::{Value, order};
use sql_bind::Cmp;
use std::cmp::Ordering;

/// What is known of a condition.
#[derive(Clone, Copy, PartialEq, Eq, Debug)]
pub enum Truth {
    No,
    Unknown,
    Yes,
}

/// NOT: yes becomes no and no becomes yes, and the unknown stays unknown.
pub fn not3(a: Truth) -> Truth
    ensures { truth_in result ≡ not_of (truth_in a) }
{
    match a {
        Truth::No => Truth::Yes,
        Truth::Unknown => Truth::Unknown,
        Truth::Yes => Truth::No,
    }
}

/// AND: the least of the two, where no is below unknown and unknown below yes.
pub fn and3(a: Truth, b: Truth) -> Truth
    ensures { truth_in result ≡ and_of (truth_in a) (truth_in b) }
{
    match (a, b) {
        (Truth::No, _) => Truth::No,
        (Truth::Unknown, Truth::No) => Truth::No,
        (Truth::Unknown, _) => Truth::Unknown,
        (Truth::Yes, b) => b,
    }
}

/// OR: the greatest of the two, where no is below unknown and unknown below yes.
pub fn or3(a: Truth, b: Truth) -> Truth
    ensures { truth_in result ≡ or_of (truth_in a) (truth_in b) }
{
    match (a, b) {
        (Truth::Yes, _) => Truth::Yes,
        (Truth::Unknown, Truth::Yes) => Truth::Yes,
        (Truth::Unknown, _) => Truth::Unknown,
        (Truth::No, b) => b,
    }
}

/// The truth of a comparison of two values. With NULL it is unknown.
pub fn compare(op: Cmp, a: &Value, b: &Value) -> Truth
    ensures { truth_in result ≡ compared op a.now b.now }
{
    if is_null(a) || is_null(b) {
        return Truth::Unknown;
    }
    known(stands(op, order(a, b)))
}

/// The truth of what is known to be so, or known not to be.
pub(crate) fn known(holds: bool) -> Truth
    ensures { truth_in result ≡ truth_of holds }
{
    if holds { Truth::Yes } else { Truth::No }
}

/// Whether a value is NULL.
pub(crate) fn is_null(value: &Value) -> bool
    ensures { result ≡ is_null_of value.now }
{
    match value {
        Value::Null => true,
        Value::Int(_) | Value::Text(_) | Value::Blob(_) => false,
    }
}

/// Whether values that stand so in the order of values compare so.
fn stands(op: Cmp, order: Ordering) -> bool
    ensures { result ≡ stands_of op order }
{
    match op {
        Cmp::Eq => order.is_eq(),
        Cmp::Ne => order.is_ne(),
        Cmp::Lt => order.is_lt(),
        Cmp::Le => order.is_le(),
        Cmp::Gt => order.is_gt(),
        Cmp::Ge => order.is_ge(),
    }
}
