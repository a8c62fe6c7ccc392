//! INSERT, UPDATE and DELETE: what they write.
ghost use Rattle.std.specs.Prelude.{◌≡◌, ◌++◌, ◌∷◌, [], List as Many, map, IfOk, OnOk, Some};
ghost use Rattle.std.specs.List.{filter_map};
ghost use Rattle.std.specs.Option.{option_copied};
ghost use Rattle.cdb_values.specs.declared.rows.RowOp.{RowOp as OneOp};
ghost use Rattle.cdb_values.specs.declared.rows.RowOp.TheVariants as op;
ghost use Rattle.sql_answer.specs.Answers.{inserted as inserted_of, updated as updated_of, deleted as deleted_of, updating, deleting};
ghost use Rattle.sql_answer.specs.Writes.{set_row as set_row_of, rows_error as rows_error_of};
ghost use Rattle.sql_answer_plain.specs.Views.{all_seen_in, seen_in, outcome_in};

use crate::copies::copied_row;
use crate::outcomes::Outcome;
use crate::seen::Seen;
use crate::sizes::rows_error;
use crate::steps::set_row;
use cdb_values::{List, Reply, Row, RowOp, StatementError, TableDef};
use sql_bind::BoundAssign;
use std::alloc::{AllocError, Global};

/// What an INSERT of these rows comes to.
pub(crate) fn inserted(
    alloc: Global,
    tables: &[TableDef],
    table: u16,
    rows: &[Row],
) -> Result<Outcome, AllocError>
    ensures { IfOk result (λ outcome. (ops : Many OneOp) → outcome_in ops outcome ≡ inserted_of tables.now table rows.now ops) }
{
    match insert_error(alloc, tables.get(table as usize), rows)? {
        Some(cause) => Ok(Outcome::Fails(cause)),
        None => Ok(Outcome::Writes(inserts(alloc, table, rows)?)),
    }
}

/// The first error of an INSERT of these rows.
fn insert_error(
    alloc: Global,
    table: Option<&TableDef>,
    rows: &[Row],
) -> Result<Option<StatementError>, AllocError>
    ensures { IfOk result (λ error. error ≡ rows_error_of (option_copied table.entry) (map (λ row. Some row) rows.now)) }
{
    let made = each_made(alloc, rows)?;
    rows_error(alloc, table, made.as_slice())
}

/// Copies of rows, each of which is there.
fn each_made(alloc: Global, rows: &[Row]) -> Result<List<Option<Row>>, AllocError>
    ensures { IfOk result (λ made. made ≡ map (λ row. Some row) rows.now) }
{
    let mut made = List::new(alloc);
    let mut rest = rows;
    'rows: while let Some((row, others)) = rest.split_first() {
        made.push(Some(copied_row(row)?))?;
        rest = others;
    }
    Ok(made)
}

/// The inserts of rows.
fn inserts(alloc: Global, table: u16, rows: &[Row]) -> Result<List<RowOp>, AllocError>
    ensures { IfOk result (λ writes. writes ≡ map (op.Insert table) rows.now) }
{
    let mut writes = List::new(alloc);
    let mut rest = rows;
    'rows: while let Some((row, others)) = rest.split_first() {
        writes.push(insert_of(table, row)?)?;
        rest = others;
    }
    Ok(writes)
}

/// The insert of a row.
fn insert_of(table: u16, row: &Row) -> Result<RowOp, AllocError>
    ensures { IfOk result (λ write. write ≡ op.Insert table row.now) }
{
    let row = copied_row(row)?;
    Ok(RowOp::Insert { table, row })
}

/// What an UPDATE of these rows comes to.
pub(crate) fn updated(
    alloc: Global,
    tables: &[TableDef],
    table: u16,
    assigns: &[BoundAssign],
    rows: List<Seen>,
) -> Result<Outcome, AllocError>
    ensures { IfOk result (λ outcome. (ops : Many OneOp) → outcome_in ops outcome
        ≡ updated_of tables.now table assigns.now ops (all_seen_in rows)) }
{
    match update_error(alloc, tables.get(table as usize), assigns, rows.as_slice())? {
        Some(cause) => Ok(Outcome::Fails(cause)),
        None => Ok(Outcome::Writes(updates(alloc, table, assigns, rows)?)),
    }
}

/// The first error of an UPDATE of these rows.
fn update_error(
    alloc: Global,
    table: Option<&TableDef>,
    assigns: &[BoundAssign],
    rows: &[Seen],
) -> Result<Option<StatementError>, AllocError>
    ensures { IfOk result (λ error. error
        ≡ rows_error_of (option_copied table.entry) (map (λ s. set_row_of assigns.now s.row) (all_seen_in rows.now))) }
{
    let made = each_set(alloc, assigns, rows)?;
    rows_error(alloc, table, made.as_slice())
}

/// The rows that SET makes of rows.
fn each_set(
    alloc: Global,
    assigns: &[BoundAssign],
    rows: &[Seen],
) -> Result<List<Option<Row>>, AllocError>
    ensures { IfOk result (λ made. made ≡ map (λ s. set_row_of assigns.now s.row) (all_seen_in rows.now)) }
{
    let mut made = List::new(alloc);
    let mut rest = rows;
    'rows: while let Some((seen, others)) = rest.split_first() {
        made.push(set_row(assigns, &seen.row)?)?;
        rest = others;
    }
    Ok(made)
}

/// The updates of rows.
fn updates(
    alloc: Global,
    table: u16,
    assigns: &[BoundAssign],
    rows: List<Seen>,
) -> Result<List<RowOp>, AllocError>
    ensures { IfOk result (λ writes. writes ≡ filter_map (updating table assigns.now) (all_seen_in rows)) }
{
    let mut writes = List::new(alloc);
    let items = rows.into_vec();
    'rows: for seen in items {
        add_update(&mut writes, table, assigns, seen)?;
    }
    Ok(writes)
}

/// Adds the update of a row, where SET gives one.
fn add_update(
    writes: &mut List<RowOp>,
    table: u16,
    assigns: &[BoundAssign],
    seen: Seen,
) -> Result<(), AllocError>
    ensures { OnOk result (writes.new ≡ writes.old ++ filter_map (updating table assigns.now) (seen_in seen ∷ [])) }
{
    match set_row(assigns, &seen.row)? {
        Some(row) => writes.push(RowOp::Update {
            table,
            target: seen.source,
            old: seen.row,
            row,
        }),
        None => Ok(()),
    }
}

/// What a DELETE of these rows comes to.
pub(crate) fn deleted(alloc: Global, table: u16, rows: List<Seen>) -> Result<Outcome, AllocError>
    ensures { IfOk result (λ outcome. (ops : Many OneOp) → outcome_in ops outcome ≡ deleted_of table ops (all_seen_in rows)) }
{
    Ok(Outcome::Writes(deletes(alloc, table, rows)?))
}

/// The deletes of rows.
fn deletes(alloc: Global, table: u16, rows: List<Seen>) -> Result<List<RowOp>, AllocError>
    ensures { IfOk result (λ writes. writes ≡ map (deleting table) (all_seen_in rows)) }
{
    let mut writes = List::new(alloc);
    let items = rows.into_vec();
    'rows: for seen in items {
        writes.push(RowOp::Delete {
            table,
            target: seen.source,
            old: seen.row,
        })?;
    }
    Ok(writes)
}

/// One line alone.
pub(crate) fn one(alloc: Global, line: Reply) -> Result<List<Reply>, AllocError>
    ensures { IfOk result (λ lines. lines ≡ line ∷ []) }
{
    let mut lines = List::new(alloc);
    lines.push(line)?;
    Ok(lines)
}
