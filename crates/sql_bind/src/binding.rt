//! Binding: each statement is judged by its kinds of errors in order, and then bound.
ghost use Rattle.std.specs.Prelude.{◌≡◌, map, option_map, Ok, IfOk, IfErr};
ghost use Rattle.std.specs.List.{list_any};
ghost use Rattle.sql_grammar.specs.Trees.{InsertInto, UpdateOf, DeleteFrom, SelectOf};
ghost use Rattle.sql_grammar.specs.Views.{name_in, tuple_in, setting_in, filter_in, query_in, statement_in};
ghost use Rattle.sql_bind.specs.Answers.{Refuses};
ghost use Rattle.sql_bind.specs.Binding.{binding};
ghost use Rattle.sql_bind.specs.Seen.{names_in_list};
ghost use Rattle.sql_bind.specs.Views.{bound_in};

use crate::columns::{Doubt, filter_has_doubt};
use crate::conditions::filter as bound_filter;
use crate::faults::BindFault;
use crate::inserts::{has_wrong_count, has_wrong_value, lists_twice, lists_unknown, rows, width};
use crate::items::{all_items, has_wrong_item, is_badly_grouped, query_has_doubt};
use crate::kinds::filter_differs;
use crate::names::is_twice;
use crate::queries::query as bound_query;
use crate::scope::named;
use crate::sources::{names_of, sources, target};
use crate::types::Bound;
use crate::updates::{assigns as bound_assigns, columns_written, has_wrong_assign, names_unknown};
use cdb_values::{Level, Name, Schema};
use sql_grammar::{Assign, Literal, SelectStmt, Seq, Stmt, Test};
use std::alloc::Global;

/// What a statement means in a schema; or the first kind of error that it has there, unless memory runs out.
pub fn bind(alloc: Global, stmt: &Stmt, schema: &Schema) -> Result<Bound, BindFault>
    ensures bound { IfOk result (λ b. binding schema.now (statement_in stmt.now) ≡ Ok (bound_in b)) }
    ensures refused { IfErr result (λ fault. Refuses fault (binding schema.now (statement_in stmt.now))) }
{
    match stmt {
        Stmt::Begin => Ok(Bound::Begin),
        Stmt::Commit => Ok(Bound::Commit),
        Stmt::Rollback => Ok(Bound::Rollback),
        Stmt::SetSnapshot => Ok(Bound::SetLevel(Level::Snapshot)),
        Stmt::SetSerializable => Ok(Bound::SetLevel(Level::Serializable)),
        Stmt::Insert {
            table,
            columns,
            rows,
        } => insert(alloc, schema, table, columns, rows.as_slice()),
        Stmt::Update {
            table,
            assigns,
            filter,
        } => update(alloc, schema, table, assigns.as_slice(), filter),
        Stmt::Delete { table, filter } => delete(alloc, schema, table, filter),
        Stmt::Select(query) => select(alloc, schema, query),
    }
}

/// What an INSERT means, or its first error.
fn insert(
    alloc: Global,
    schema: &Schema,
    table: &Name,
    columns: &Option<Seq<Name>>,
    tuples: &[Seq<Literal>],
) -> Result<Bound, BindFault>
    ensures bound { IfOk result (λ b. binding schema.now (InsertInto (name_in table.now) (names_in_list columns.now) (map tuple_in tuples.now)) ≡ Ok (bound_in b)) }
    ensures refused { IfErr result (λ fault. Refuses fault (binding schema.now (InsertInto (name_in table.now) (names_in_list columns.now) (map tuple_in tuples.now)))) }
{
    let table = target(alloc, schema, table)?;
    if lists_unknown(&table, columns) {
        return Err(BindFault::Column);
    }
    let twice = lists_twice(alloc, columns)?;
    if twice {
        return Err(BindFault::Ambiguous);
    }
    let wrong = has_wrong_value(alloc, &table, columns, tuples)?;
    if wrong {
        return Err(BindFault::Type_);
    }
    if has_wrong_count(width(&table, columns), tuples) {
        return Err(BindFault::Count);
    }
    let rows = rows(alloc, &table, columns, tuples)?;
    Ok(Bound::Insert {
        table: table.place,
        rows,
    })
}

/// What an UPDATE means, or its first error.
fn update(
    alloc: Global,
    schema: &Schema,
    table: &Name,
    assigns: &[Assign],
    filter: &Option<Test>,
) -> Result<Bound, BindFault>
    ensures bound { IfOk result (λ b. binding schema.now (UpdateOf (name_in table.now) (map setting_in assigns.now) (filter_in filter.now)) ≡ Ok (bound_in b)) }
    ensures refused { IfErr result (λ fault. Refuses fault (binding schema.now (UpdateOf (name_in table.now) (map setting_in assigns.now) (filter_in filter.now)))) }
{
    let table = target(alloc, schema, table)?;
    let scope = [table];
    if names_unknown(&table, assigns, filter) {
        return Err(BindFault::Column);
    }
    let written = columns_written(alloc, assigns)?;
    if is_twice(written.as_slice()) {
        return Err(BindFault::Ambiguous);
    }
    if has_wrong_assign(&table, assigns) || filter_differs(&scope, filter) {
        return Err(BindFault::Type_);
    }
    let assigns = bound_assigns(alloc, &table, assigns)?;
    let filter = bound_filter(alloc, &scope, filter)?;
    Ok(Bound::Update {
        table: table.place,
        assigns,
        filter,
    })
}

/// What a DELETE means, or its first error.
fn delete(
    alloc: Global,
    schema: &Schema,
    table: &Name,
    filter: &Option<Test>,
) -> Result<Bound, BindFault>
    ensures bound { IfOk result (λ b. binding schema.now (DeleteFrom (name_in table.now) (filter_in filter.now)) ≡ Ok (bound_in b)) }
    ensures refused { IfErr result (λ fault. Refuses fault (binding schema.now (DeleteFrom (name_in table.now) (filter_in filter.now)))) }
{
    let table = target(alloc, schema, table)?;
    let scope = [table];
    if filter_has_doubt(&scope, Doubt::Unknown, filter) {
        return Err(BindFault::Column);
    }
    if filter_differs(&scope, filter) {
        return Err(BindFault::Type_);
    }
    let filter = bound_filter(alloc, &scope, filter)?;
    Ok(Bound::Delete {
        table: table.place,
        filter,
    })
}

/// What a query means, or its first error.
fn select(alloc: Global, schema: &Schema, query: &SelectStmt) -> Result<Bound, BindFault>
    ensures bound { IfOk result (λ b. binding schema.now (SelectOf (query_in query.now)) ≡ Ok (bound_in b)) }
    ensures refused { IfErr result (λ fault. Refuses fault (binding schema.now (SelectOf (query_in query.now)))) }
{
    let sources = sources(alloc, schema, query.tables.as_slice())?;
    let scope = named(sources.as_slice());
    let items = all_items(alloc, &query.items, query.order.as_slice())?;
    let items = items.as_slice();
    let group = query.group.as_slice();
    if is_badly_grouped(scope, &query.items, items, group)
        || query_has_doubt(scope, Doubt::Unknown, items, &query.filter, group)
    {
        return Err(BindFault::Column);
    }
    let names = names_of(alloc, sources.as_slice())?;
    if is_twice(names.as_slice())
        || query_has_doubt(scope, Doubt::Ambiguous, items, &query.filter, group)
    {
        return Err(BindFault::Ambiguous);
    }
    if has_wrong_item(scope, items) || filter_differs(scope, &query.filter) {
        return Err(BindFault::Type_);
    }
    let bound = bound_query(alloc, sources.as_slice(), query)?;
    Ok(Bound::Select(bound))
}
