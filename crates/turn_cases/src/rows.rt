//! The rows of all tables, and what operations make of them.
ghost use Rattle.std.specs.Prelude.{◌≡◌, ◌++◌, ◌∷◌, [], IfOk, OnOk};
ghost use Rattle.cdb_values.specs.Changes.{changes_of};
ghost use Rattle.cdb_values.specs.Rows.{added, apply as apply_to, apply_all, no_rows, taken, without as without_of};
ghost use Rattle.turn_cases.specs.Plain.{rows_of};

use cdb_values::{Change, List, Row, RowOp, RowRef, TableDef, Version};
use std::alloc::{AllocError, Global};

/// The versions of each table, by the table's place and by rising genid, and the next genid.
#[derive(Drop)]
pub(crate) struct PlainRows {
    pub tables: List<List<Version>>,
    pub next: u64,
}

/// An entry of the history: what it changed, and the rows behind it.
#[derive(Drop)]
pub(crate) struct PlainEntry {
    pub changes: List<Change>,
    pub rows: PlainRows,
}

/// The rows of tables that have none.
pub(crate) fn empty_rows(alloc: Global, tables: &[TableDef]) -> Result<PlainRows, AllocError>
    ensures { IfOk result (λ r. rows_of r ≡ no_rows tables.now) }
{
    let mut lists: List<List<Version>> = List::new(alloc);
    let mut rest = tables;
    'tables: while let Some((_table, after)) = rest.split_first() {
        lists.push(List::new(alloc))?;
        rest = after;
    }
    Ok(PlainRows {
        tables: lists,
        next: 1,
    })
}

/// The entry that operations make behind these rows. Want of memory is answered where one of them is on no table.
#[tactic(auto, using(crate::proofs::RowLemmas::changes_then))]
pub(crate) fn entry_behind(
    alloc: Global,
    before: &PlainRows,
    ops: &[RowOp],
) -> Result<PlainEntry, AllocError>
    ensures rows { IfOk result (λ e. rows_of e.rows ≡ apply_all (rows_of before.now) ops.now) }
    ensures changes { IfOk result (λ e. e.changes ≡ changes_of ops.now before.now.next) }
{
    let tables = copied(alloc, before.tables.as_slice())?;
    let mut rows = PlainRows {
        tables,
        next: before.next,
    };
    let mut changes = List::new(alloc);
    let mut rest = ops;
    'ops: while let Some((op, after)) = rest.split_first() {
        add_change(&mut changes, op, rows.next)?;
        apply(alloc, &mut rows, op)?;
        rest = after;
    }
    Ok(PlainEntry { changes, rows })
}

/// Equal versions of each table.
pub(crate) fn copied(
    alloc: Global,
    tables: &[List<Version>],
) -> Result<List<List<Version>>, AllocError>
    ensures { IfOk result (λ copies. copies ≡ tables.now) }
{
    let mut copies = List::new(alloc);
    let mut rest = tables;
    'tables: while let Some((versions, others)) = rest.split_first() {
        copies.push(copied_versions(alloc, versions.as_slice())?)?;
        rest = others;
    }
    Ok(copies)
}

/// Equal versions.
fn copied_versions(alloc: Global, versions: &[Version]) -> Result<List<Version>, AllocError>
    ensures { IfOk result (λ copies. copies ≡ versions.now) }
{
    let mut copies = List::new(alloc);
    let mut rest = versions;
    'versions: while let Some((version, others)) = rest.split_first() {
        copies.push(copied_version(version)?)?;
        rest = others;
    }
    Ok(copies)
}

/// An equal version.
fn copied_version(version: &Version) -> Result<Version, AllocError>
    ensures { IfOk result (λ copy. copy ≡ version.now) }
{
    version.clone()
}

/// An equal row.
fn copied_row(row: &Row) -> Result<Row, AllocError>
    ensures { IfOk result (λ copy. copy ≡ row.now) }
{
    row.clone()
}

/// Adds what an operation changes where the version that it adds gets that genid.
fn add_change(changes: &mut List<Change>, op: &RowOp, genid: u64) -> Result<(), AllocError>
    ensures { OnOk result (changes.new ≡ changes.old ++ changes_of (op.now ∷ []) genid) }
{
    match op {
        RowOp::Insert { table, row } => {
            let row = row.clone()?;
            changes.push(Change::Insert {
                table: *table,
                genid,
                row,
            })
        }
        RowOp::Update {
            table,
            target: RowRef::Base(old_genid),
            old,
            row,
        } => add_update(changes, *table, *old_genid, old, genid, row),
        RowOp::Delete {
            table,
            target: RowRef::Base(old_genid),
            old,
        } => {
            let old = old.clone()?;
            changes.push(Change::Delete {
                table: *table,
                old_genid: *old_genid,
                old,
            })
        }
        RowOp::Update { .. } | RowOp::Delete { .. } => Ok(()),
    }
}

/// Adds what an update changes.
fn add_update(
    changes: &mut List<Change>,
    table: u16,
    old_genid: u64,
    old: &Row,
    genid: u64,
    row: &Row,
) -> Result<(), AllocError>
    ensures { OnOk result (changes.new ≡ changes.old ++ Change.Update table old_genid old.now genid row.now ∷ []) }
{
    let old = old.clone()?;
    let row = row.clone()?;
    changes.push(Change::Update {
        table,
        old_genid,
        old,
        genid,
        row,
    })
}

/// Makes of rows what an operation makes of them.
fn apply(alloc: Global, rows: &mut PlainRows, op: &RowOp) -> Result<(), AllocError>
    ensures { OnOk result (rows_of rows.new ≡ apply_to (rows_of rows.old) op.now) }
{
    match op {
        RowOp::Insert { table, row } => insert(alloc, rows, *table, row),
        RowOp::Update {
            table,
            target: RowRef::Base(genid),
            row,
            ..
        } => {
            delete(alloc, rows, *table, *genid)?;
            insert(alloc, rows, *table, row)
        }
        RowOp::Delete {
            table,
            target: RowRef::Base(genid),
            ..
        } => delete(alloc, rows, *table, *genid),
        RowOp::Update { .. } | RowOp::Delete { .. } => Ok(()),
    }
}

/// Writes a row at the end of its table, under the next genid.
fn insert(alloc: Global, rows: &mut PlainRows, table: u16, row: &Row) -> Result<(), AllocError>
    ensures { OnOk result (rows_of rows.new ≡ added (rows_of rows.old) table row.now) }
{
    let genid = rows.next;
    let Some(next) = genid.checked_add(1) else {
        return Err(AllocError);
    };
    let row = copied_row(row)?;
    if rows.tables.len() <= table as usize {
        return Err(AllocError);
    }
    let mut versions = rows.tables.replace_at(table as usize, List::new(alloc));
    versions.push(Version { genid, row })?;
    let _empty = rows.tables.replace_at(table as usize, versions);
    rows.next = next;
    Ok(())
}

/// Takes a version away.
fn delete(alloc: Global, rows: &mut PlainRows, table: u16, genid: u64) -> Result<(), AllocError>
    ensures { OnOk result (rows_of rows.new ≡ taken (rows_of rows.old) table genid) }
{
    if rows.tables.len() <= table as usize {
        return Err(AllocError);
    }
    let versions = rows.tables.replace_at(table as usize, List::new(alloc));
    let versions = without(versions, genid);
    let _empty = rows.tables.replace_at(table as usize, versions);
    Ok(())
}

/// These versions without the one of a genid.
fn without(versions: List<Version>, genid: u64) -> List<Version>
    ensures { result ≡ without_of genid versions }
{
    let mut items = versions.into_vec();
    items.retain(|version| version.genid != genid);
    List::from_vec(items)
}
