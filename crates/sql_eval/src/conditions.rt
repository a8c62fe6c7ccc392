ghost use Rattle.std.specs.Prelude.{◌≡◌};
ghost use Rattle.std.specs.Option.{option_copied};
ghost use Rattle.sql_bind.specs.Views.{cond_in};
ghost use Rattle.session_language.specs.Intervals.{is_null as is_null_of};
ghost use Rattle.sql_answer.specs.Truth.{compared};
ghost use Rattle.sql_answer.specs.Conditions.{truth, tests_null as tests_null_of};
ghost use Rattle.sql_eval.specs.Views.{truth_in, rows_in, value_or_null};

use crate::operands::operand_of;
use crate::truths::{Truth, and3, compare, is_null, known, not3, or3};
use cdb_values::{Value, Version};
use sql_bind::{Cmp, Condition};

/// The truth of a condition on a combination: one version for each table of FROM, in order.
///
/// It takes no memory, and goes as deep as the condition does. A column of a place that the combination lacks, or of a
/// place that the row lacks, is NULL.
pub fn test(condition: &Condition, rows: &[Version]) -> Truth
    ensures { truth_in result ≡ truth (cond_in condition.now) (rows_in rows.now) }
{
    match condition {
        Condition::Or(parts) => {
            let mut value = Truth::No;
            'alternatives: for part in parts.as_slice() {
                value = or3(value, test(part, rows));
            }
            value
        }
        Condition::And(parts) => {
            let mut value = Truth::Yes;
            'parts: for part in parts.as_slice() {
                value = and3(value, test(part, rows));
            }
            value
        }
        Condition::Not(part) => not3(test(part, rows)),
        Condition::Group(part) => test(part, rows),
        Condition::Compare { op, left, right } => {
            compare_sides(*op, operand_of(left, rows), operand_of(right, rows))
        }
        Condition::IsNull { side, negated } => {
            known(tests_null(operand_of(side, rows), *negated))
        }
    }
}

/// The truth of a comparison of two operands, of which each may have no value.
fn compare_sides(op: Cmp, left: Option<&Value>, right: Option<&Value>) -> Truth
    ensures { truth_in result
        ≡ compared op (value_or_null (option_copied left.entry)) (value_or_null (option_copied right.entry)) }
{
    match (left, right) {
        (Some(left), Some(right)) => compare(op, left, right),
        _ => Truth::Unknown,
    }
}

/// Whether an operand is NULL, or is not where the question is negated.
fn tests_null(side: Option<&Value>, negated: bool) -> bool
    ensures { result ≡ tests_null_of negated (value_or_null (option_copied side.entry)) }
{
    let null = lacks_value(side);
    if negated { !null } else { null }
}

/// Whether an operand is NULL.
fn lacks_value(side: Option<&Value>) -> bool
    ensures { result ≡ is_null_of (value_or_null (option_copied side.entry)) }
{
    match side {
        Some(value) => is_null(value),
        None => true,
    }
}
