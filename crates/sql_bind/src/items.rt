//! The items of a query and of its ORDER BY, and what is wrong with them.
ghost use Rattle.std.specs.Prelude.{◌≡◌, ◌++◌, ◌||◌, ◌&&◌, not, map, flat_map, is_none, IfOk};
ghost use Rattle.std.specs.List.{list_any};
ghost use Rattle.sql_grammar.specs.Views.{column_in, item_in, items_in, key_in, filter_in};
ghost use Rattle.sql_bind.specs.Faults.{listed, is_aggregate as aggregate, is_empty as empty, is_outside as outside, item_columns, item_differs, filter_columns};
ghost use Rattle.sql_bind.specs.Scope.{may_be_same as same};
ghost use Rattle.sql_bind.specs.Seen.{visible_in, item_at, doubted};

use crate::columns::{Doubt, filter_has_doubt, has_doubt, item_has_doubt};
use crate::kinds::item_is_wrong;
use crate::scope::{VisibleTable, may_be_same};
use sql_grammar::{ColumnName, OrderKey, SelectItem, Seq, Test};
use std::alloc::{AllocError, Global};

/// The items of a query, and behind them those of its ORDER BY.
pub(crate) fn all_items<'a>(
    alloc: Global,
    items: &'a Option<Seq<SelectItem>>,
    order: &'a [OrderKey],
) -> Result<Vec<&'a SelectItem>, AllocError>
    ensures { IfOk result (λ found. map item_at found.items ≡ listed (items_in items.now) ++ map (λ key. key.item) (map key_in order.now)) }
{
    let mut found = listed_items(alloc, items)?;
    'order: for key in order {
        found.push(&key.item)?;
    }
    Ok(found)
}

/// The items that a query lists.
fn listed_items<'a>(
    alloc: Global,
    items: &'a Option<Seq<SelectItem>>,
) -> Result<Vec<&'a SelectItem>, AllocError>
    ensures { IfOk result (λ found. map item_at found.items ≡ listed (items_in items.now)) }
{
    match items {
        None => Ok(Vec::new(alloc)),
        Some(items) => borrowed(alloc, items.as_slice()),
    }
}

/// These items, each borrowed.
fn borrowed(alloc: Global, items: &[SelectItem]) -> Result<Vec<&SelectItem>, AllocError>
    ensures { IfOk result (λ found. map item_at found.items ≡ map item_in items.now) }
{
    let mut found = Vec::new(alloc);
    'items: for item in items {
        found.push(item)?;
    }
    Ok(found)
}

/// Whether it is an aggregate.
fn is_aggregate(item: &SelectItem) -> bool
    ensures { result ≡ aggregate (item_in item.now) }
{
    match item {
        SelectItem::Column(_) => false,
        SelectItem::Count => true,
        SelectItem::Sum(_) => true,
        SelectItem::Min(_) => true,
        SelectItem::Max(_) => true,
    }
}

/// Whether one of these is an aggregate.
fn has_aggregate(items: &[&SelectItem]) -> bool
    ensures { result ≡ list_any aggregate (map item_at items.now) }
{
    items.iter().any(|item| is_aggregate(item))
}

/// Whether a query is grouped: it has GROUP BY, or an aggregate among these.
fn is_grouped(group: &[ColumnName], items: &[&SelectItem]) -> bool
    ensures { result ≡ (not (empty (map column_in group.now)) || list_any aggregate (map item_at items.now)) }
{
    match group.split_first() {
        Some(_) => true,
        None => has_aggregate(items),
    }
}

/// Whether a name may mean a column of GROUP BY.
fn is_in_group(scope: &[VisibleTable], group: &[ColumnName], column: &ColumnName) -> bool
    ensures { result ≡ list_any (same (map visible_in scope.now) (column_in column.now)) (map column_in group.now) }
{
    group.iter().any(|other| may_be_same(scope, column, other))
}

/// Whether it is a plain column that cannot be one of GROUP BY.
fn is_outside(scope: &[VisibleTable], group: &[ColumnName], item: &SelectItem) -> bool
    ensures { result ≡ outside (map visible_in scope.now) (map column_in group.now) (item_in item.now) }
{
    match item {
        SelectItem::Column(column) => !is_in_group(scope, group, column),
        SelectItem::Count => false,
        SelectItem::Sum(_) => false,
        SelectItem::Min(_) => false,
        SelectItem::Max(_) => false,
    }
}

/// Whether one of these is a plain column that cannot be one of GROUP BY.
fn has_outside(scope: &[VisibleTable], group: &[ColumnName], items: &[&SelectItem]) -> bool
    ensures { result ≡ list_any (outside (map visible_in scope.now) (map column_in group.now)) (map item_at items.now) }
{
    items.iter().any(|item| is_outside(scope, group, item))
}

/// Whether a query is grouped and has `*`, or a plain column that cannot be one of GROUP BY.
pub(crate) fn is_badly_grouped(
    scope: &[VisibleTable],
    listed: &Option<Seq<SelectItem>>,
    items: &[&SelectItem],
    group: &[ColumnName],
) -> bool
    ensures { result ≡ ((not (empty (map column_in group.now)) || list_any aggregate (map item_at items.now)) && (is_none (items_in listed.now) || list_any (outside (map visible_in scope.now) (map column_in group.now)) (map item_at items.now))) }
{
    is_grouped(group, items) && (listed.is_none() || has_outside(scope, group, items))
}

/// Whether one of these is a SUM of what is no integer.
pub(crate) fn has_wrong_item(scope: &[VisibleTable], items: &[&SelectItem]) -> bool
    ensures { result ≡ list_any (item_differs (map visible_in scope.now)) (map item_at items.now) }
{
    items.iter().any(|item| item_is_wrong(scope, item))
}

/// Whether this is wrong with a column of these items, of WHERE or of GROUP BY.
#[tactic(auto, using(crate::proofs::ListLemmas::any_of_query))]
pub(crate) fn query_has_doubt(
    scope: &[VisibleTable],
    doubt: Doubt,
    items: &[&SelectItem],
    filter: &Option<Test>,
    group: &[ColumnName],
) -> bool
    ensures { result ≡ list_any (doubted (map visible_in scope.now) doubt) (flat_map item_columns (map item_at items.now) ++ (filter_columns (filter_in filter.now) ++ map column_in group.now)) }
{
    items_have_doubt(scope, doubt, items)
        || filter_has_doubt(scope, doubt, filter)
        || columns_have_doubt(scope, doubt, group)
}

/// Whether this is wrong with a column of these items.
fn items_have_doubt(scope: &[VisibleTable], doubt: Doubt, items: &[&SelectItem]) -> bool
    ensures { result ≡ list_any (λ item. list_any (doubted (map visible_in scope.now) doubt) (item_columns (item_at item))) items.now }
{
    items.iter().any(|item| item_has_doubt(scope, doubt, item))
}

/// Whether this is wrong with one of these columns.
fn columns_have_doubt(scope: &[VisibleTable], doubt: Doubt, columns: &[ColumnName]) -> bool
    ensures { result ≡ list_any (λ column. doubted (map visible_in scope.now) doubt (column_in column)) columns.now }
{
    columns.iter().any(|column| has_doubt(scope, doubt, column))
}
