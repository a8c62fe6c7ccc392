//! The types of operands and values. NULL has none, and goes with each.
ghost use Rattle.std.specs.Prelude.{◌≡◌, ◌||◌, List, Option, map};
ghost use Rattle.std.specs.List.{list_any};
ghost use Rattle.cdb_values.specs.declared.tables.ColumnType.{ColumnType};
ghost use Rattle.sql_grammar.specs.Views.{column_in, operand_in, literal_in, condition_in, filter_in, item_in, setting_in, change_in};
ghost use Rattle.sql_bind.specs.Faults.{literal_kind, side_kind, is_same_type, differ as types_differ, is_no_number, cond_differs, filter_differs as filters_differ, item_differs, tuple_differs};
ghost use Rattle.sql_bind.specs.Seen.{visible_in};

use crate::scope::{VisibleTable, kind};
use cdb_values::ColumnType;
use sql_grammar::{Assign, Literal, Operand, SelectItem, Test};

/// The type of a value as it is written.
pub(crate) fn kind_of_literal(literal: &Literal) -> Option<ColumnType>
    ensures { result ≡ literal_kind (literal_in literal.now) }
{
    match literal {
        Literal::Null => None,
        Literal::Int(_) => Some(ColumnType::Integer),
        Literal::Text(_) => Some(ColumnType::Text),
        Literal::Blob(_) => Some(ColumnType::Blob),
    }
}

/// The type of an operand.
pub(crate) fn kind_of_operand(scope: &[VisibleTable], side: &Operand) -> Option<ColumnType>
    ensures { result ≡ side_kind (map visible_in scope.now) (operand_in side.now) }
{
    match side {
        Operand::Literal(literal) => kind_of_literal(literal),
        Operand::Column(column) => kind(scope, column),
    }
}

/// Whether two types are one.
fn is_same(a: ColumnType, b: ColumnType) -> bool
    ensures { result ≡ is_same_type a b }
{
    match (a, b) {
        (ColumnType::Integer, ColumnType::Integer) => true,
        (ColumnType::Text, ColumnType::Text) => true,
        (ColumnType::Blob, ColumnType::Blob) => true,
        _ => false,
    }
}

/// Whether these are two types, and not one.
pub(crate) fn differ(a: Option<ColumnType>, b: Option<ColumnType>) -> bool
    ensures { result ≡ types_differ a b }
{
    match (a, b) {
        (Some(a), Some(b)) => !is_same(a, b),
        _ => false,
    }
}

/// Whether an operand is neither an integer nor NULL.
pub(crate) fn is_not_integer(scope: &[VisibleTable], side: &Operand) -> bool
    ensures { result ≡ is_no_number (map visible_in scope.now) (operand_in side.now) }
{
    differ(kind_of_operand(scope, side), Some(ColumnType::Integer))
}

/// Whether a condition compares operands of different types.
fn condition_differs(scope: &[VisibleTable], test: &Test) -> bool
    ensures { result ≡ cond_differs (map visible_in scope.now) (condition_in test.now) }
{
    match test {
        Test::Or(parts) => {
            'parts: for part in parts.as_slice() {
                if condition_differs(scope, part) {
                    return true;
                }
            }
            false
        }
        Test::And(parts) => {
            'parts: for part in parts.as_slice() {
                if condition_differs(scope, part) {
                    return true;
                }
            }
            false
        }
        Test::Not(part) => condition_differs(scope, part),
        Test::Group(part) => condition_differs(scope, part),
        Test::Compare { left, right, .. } => {
            differ(kind_of_operand(scope, left), kind_of_operand(scope, right))
        }
        Test::IsNull { .. } => false,
    }
}

/// Whether WHERE compares operands of different types.
pub(crate) fn filter_differs(scope: &[VisibleTable], filter: &Option<Test>) -> bool
    ensures { result ≡ filters_differ (map visible_in scope.now) (filter_in filter.now) }
{
    match filter {
        None => false,
        Some(test) => condition_differs(scope, test),
    }
}

/// Whether an item is a SUM of what is no integer.
pub(crate) fn item_is_wrong(scope: &[VisibleTable], item: &SelectItem) -> bool
    ensures { result ≡ item_differs (map visible_in scope.now) (item_in item.now) }
{
    match item {
        SelectItem::Column(_) => false,
        SelectItem::Count => false,
        SelectItem::Sum(column) => differ(kind(scope, column), Some(ColumnType::Integer)),
        SelectItem::Min(_) => false,
        SelectItem::Max(_) => false,
    }
}

/// Whether a value of a tuple is not of its column's type.
pub(crate) fn tuple_is_wrong(kinds: &[Option<ColumnType>], tuple: &[Literal]) -> bool
    ensures { result ≡ tuple_differs kinds.now (map literal_in tuple.now) }
{
    let mut kinds_left = kinds;
    let mut rest = tuple;
    'values: while let (Some((kind, kinds_after)), Some((literal, after))) = (
        kinds_left.split_first(),
        rest.split_first(),
    ) {
        if differ(*kind, kind_of_literal(literal)) {
            return true;
        }
        kinds_left = kinds_after;
        rest = after;
    }
    false
}
