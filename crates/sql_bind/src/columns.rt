//! Whether one of the columns that a statement names is unknown, or ambiguous.
ghost use Rattle.std.specs.Prelude.{◌≡◌, ◌++◌, ◌||◌, map, flat_map};
ghost use Rattle.std.specs.List.{list_any};
ghost use Rattle.sql_grammar.specs.Views.{column_in, operand_in, condition_in, filter_in, item_in, setting_in, change_in};
ghost use Rattle.sql_bind.specs.Faults.{side_columns, cond_columns, filter_columns, item_columns, setting_columns};
ghost use Rattle.sql_bind.specs.Seen.{visible_in, doubted, doubts_cond};

use crate::scope::{VisibleTable, is_ambiguous, is_unknown};
use sql_grammar::{Assign, ColumnName, Operand, SelectItem, Test};

/// What may be wrong with the name of a column.
#[derive(Clone, Copy)]
pub(crate) enum Doubt {
    /// No table has it.
    Unknown,
    /// Two tables have it.
    Ambiguous,
}

/// Whether this is wrong with the name of a column.
pub(crate) fn has_doubt(scope: &[VisibleTable], doubt: Doubt, column: &ColumnName) -> bool
    ensures { result ≡ doubted (map visible_in scope.now) doubt (column_in column.now) }
{
    match doubt {
        Doubt::Unknown => is_unknown(scope, column),
        Doubt::Ambiguous => is_ambiguous(scope, column),
    }
}

/// Whether this is wrong with the column of an operand, if it is one.
fn operand_has_doubt(scope: &[VisibleTable], doubt: Doubt, side: &Operand) -> bool
    ensures { result ≡ list_any (doubted (map visible_in scope.now) doubt) (side_columns (operand_in side.now)) }
{
    match side {
        Operand::Literal(_) => false,
        Operand::Column(column) => has_doubt(scope, doubt, column),
    }
}

/// Whether this is wrong with a column of a condition.
pub(crate) fn condition_has_doubt(scope: &[VisibleTable], doubt: Doubt, test: &Test) -> bool
    ensures { result ≡ doubts_cond (map visible_in scope.now) doubt (condition_in test.now) }
{
    match test {
        Test::Or(parts) => {
            'parts: for part in parts.as_slice() {
                if condition_has_doubt(scope, doubt, part) {
                    return true;
                }
            }
            false
        }
        Test::And(parts) => {
            'parts: for part in parts.as_slice() {
                if condition_has_doubt(scope, doubt, part) {
                    return true;
                }
            }
            false
        }
        Test::Not(part) => condition_has_doubt(scope, doubt, part),
        Test::Group(part) => condition_has_doubt(scope, doubt, part),
        Test::Compare { left, right, .. } => {
            operand_has_doubt(scope, doubt, left) || operand_has_doubt(scope, doubt, right)
        }
        Test::IsNull { side, .. } => operand_has_doubt(scope, doubt, side),
    }
}

/// Whether this is wrong with a column of WHERE.
pub(crate) fn filter_has_doubt(scope: &[VisibleTable], doubt: Doubt, filter: &Option<Test>) -> bool
    ensures { result ≡ list_any (doubted (map visible_in scope.now) doubt) (filter_columns (filter_in filter.now)) }
{
    match filter {
        None => false,
        Some(test) => condition_has_doubt(scope, doubt, test),
    }
}

/// Whether this is wrong with the column of an item, if it has one.
pub(crate) fn item_has_doubt(scope: &[VisibleTable], doubt: Doubt, item: &SelectItem) -> bool
    ensures { result ≡ list_any (doubted (map visible_in scope.now) doubt) (item_columns (item_in item.now)) }
{
    match item {
        SelectItem::Column(column) => has_doubt(scope, doubt, column),
        SelectItem::Count => false,
        SelectItem::Sum(column) => has_doubt(scope, doubt, column),
        SelectItem::Min(column) => has_doubt(scope, doubt, column),
        SelectItem::Max(column) => has_doubt(scope, doubt, column),
    }
}

/// Whether this is wrong with a column of the value that SET gives.
#[tactic(auto, using(crate::proofs::ListLemmas::any_seen))]
pub(crate) fn assign_has_doubt(scope: &[VisibleTable], doubt: Doubt, assign: &Assign) -> bool
    ensures { result ≡ list_any (doubted (map visible_in scope.now) doubt) (setting_columns (setting_in assign.now)) }
{
    operand_has_doubt(scope, doubt, &assign.first)
        || assign
            .rest
            .as_slice()
            .iter()
            .any(|step| operand_has_doubt(scope, doubt, &step.operand))
}
