//! What a query means: its items, tables, groups and order by their places.
ghost use Rattle.std.specs.Prelude.{◌≡◌, ◌≤◌, ◌++◌, length, map, IfOk, OnOk};
ghost use Rattle.sql_grammar.specs.Views.{column_in, item_in, items_in, key_in, query_in};
ghost use Rattle.sql_bind.specs.Meaning.{bound_item as item_meant, bound_items as items_meant, bound_key as key_meant, bound_query, columns_from, all_from};
ghost use Rattle.sql_bind.specs.Scope.{meant};
ghost use Rattle.sql_bind.specs.Seen.{visible_in};
ghost use Rattle.sql_bind.specs.Views.{bound_query_in};

use crate::conditions::filter;
use crate::scope::{VisibleTable, column, named, with_places};
use crate::types::{BoundColumn, BoundItem, BoundKey, BoundSelect};
use cdb_values::{ColumnDef, List};
use sql_grammar::{ColumnName, OrderKey, SelectItem, SelectStmt, Seq};
use std::alloc::{AllocError, Global};

/// What a query over these tables means.
pub(crate) fn query(
    alloc: Global,
    sources: &[VisibleTable],
    query: &SelectStmt,
) -> Result<BoundSelect, AllocError>
    ensures { IfOk result (λ bound. bound_query_in bound ≡ bound_query (map visible_in sources.now) (query_in query.now)) }
{
    let scope = named(sources);
    Ok(BoundSelect {
        selectv: query.selectv,
        items: items(alloc, scope, &query.items)?,
        tables: tables(alloc, sources)?,
        filter: filter(alloc, scope, &query.filter)?,
        group: columns(alloc, scope, query.group.as_slice())?,
        order: keys(alloc, scope, query.order.as_slice())?,
        limit: query.limit,
    })
}

/// The places of these tables in the schema.
fn tables(alloc: Global, sources: &[VisibleTable]) -> Result<List<u16>, AllocError>
    ensures { IfOk result (λ tables. tables ≡ map (λ table. table.table) (map visible_in sources.now)) }
{
    let mut tables = List::new(alloc);
    'tables: for table in sources {
        tables.push(table.place)?;
    }
    Ok(tables)
}

/// What the items of a query mean; `*` is all columns of the tables, in FROM order.
fn items(
    alloc: Global,
    scope: &[VisibleTable],
    items: &Option<Seq<SelectItem>>,
) -> Result<List<BoundItem>, AllocError>
    requires { length scope.now ≤ 256 }
    ensures { IfOk result (λ bound. bound ≡ items_meant (map visible_in scope.now) (items_in items.now)) }
{
    match items {
        None => all_columns(alloc, scope),
        Some(items) => listed_items(alloc, scope, items.as_slice()),
    }
}

/// What these items mean.
fn listed_items(
    alloc: Global,
    scope: &[VisibleTable],
    items: &[SelectItem],
) -> Result<List<BoundItem>, AllocError>
    requires { length scope.now ≤ 256 }
    ensures { IfOk result (λ bound. bound ≡ map (item_meant (map visible_in scope.now)) (map item_in items.now)) }
{
    let mut bound = List::new(alloc);
    'items: for item in items {
        bound.push(bound_item(scope, item))?;
    }
    Ok(bound)
}

/// What an item means.
fn bound_item(scope: &[VisibleTable], item: &SelectItem) -> BoundItem
    requires { length scope.now ≤ 256 }
    ensures { result ≡ item_meant (map visible_in scope.now) (item_in item.now) }
{
    match item {
        SelectItem::Column(name) => BoundItem::Column(column(scope, name)),
        SelectItem::Count => BoundItem::Count,
        SelectItem::Sum(name) => BoundItem::Sum(column(scope, name)),
        SelectItem::Min(name) => BoundItem::Min(column(scope, name)),
        SelectItem::Max(name) => BoundItem::Max(column(scope, name)),
    }
}

/// All columns of these tables, in FROM order.
fn all_columns(alloc: Global, scope: &[VisibleTable]) -> Result<List<BoundItem>, AllocError>
    requires { length scope.now ≤ 256 }
    ensures { IfOk result (λ items. items ≡ all_from 0 (map visible_in scope.now)) }
{
    let mut items = List::new(alloc);
    'tables: for (place, table) in scope.iter().enumerate() {
        add_columns(
            &mut items,
            place as u8,
            with_places(table.table.columns.as_slice()),
        )?;
    }
    Ok(items)
}

/// Adds the columns of the table at a place of FROM.
fn add_columns(
    items: &mut List<BoundItem>,
    place: u8,
    columns: &[ColumnDef],
) -> Result<(), AllocError>
    requires { length columns.now ≤ 256 }
    ensures { OnOk result (items.new ≡ items.old ++ columns_from place 0 columns.now) }
{
    'columns: for (at, _) in columns.iter().enumerate() {
        items.push(BoundItem::Column(BoundColumn {
            place,
            column: at as u8,
        }))?;
    }
    Ok(())
}

/// What the columns of GROUP BY mean.
fn columns(
    alloc: Global,
    scope: &[VisibleTable],
    names: &[ColumnName],
) -> Result<List<BoundColumn>, AllocError>
    requires { length scope.now ≤ 256 }
    ensures { IfOk result (λ bound. bound ≡ map (meant (map visible_in scope.now)) (map column_in names.now)) }
{
    let mut bound = List::new(alloc);
    'names: for name in names {
        bound.push(column(scope, name))?;
    }
    Ok(bound)
}

/// What the keys of ORDER BY mean.
fn keys(
    alloc: Global,
    scope: &[VisibleTable],
    keys: &[OrderKey],
) -> Result<List<BoundKey>, AllocError>
    requires { length scope.now ≤ 256 }
    ensures { IfOk result (λ bound. bound ≡ map (key_meant (map visible_in scope.now)) (map key_in keys.now)) }
{
    let mut bound = List::new(alloc);
    'keys: for key in keys {
        bound.push(bound_key(scope, key))?;
    }
    Ok(bound)
}

/// What a key of ORDER BY means.
fn bound_key(scope: &[VisibleTable], key: &OrderKey) -> BoundKey
    requires { length scope.now ≤ 256 }
    ensures { result ≡ key_meant (map visible_in scope.now) (key_in key.now) }
{
    BoundKey {
        item: bound_item(scope, &key.item),
        descending: key.descending,
    }
}
