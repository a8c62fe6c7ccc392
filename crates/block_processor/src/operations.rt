//! The operations of a request: whether they can be done at the end of a log, and the changes that they are.
ghost use Rattle.std.specs.Prelude.{◌≡◌, ◌+◌, ◌<◌, ◌≤◌, ◌^◌, ◌++◌, ◌∷◌, [], true, None, IfOk, drop, length};
ghost use Rattle.std.specs.List.{AllByRecursion, list_all};
ghost use Rattle.cdb_values.specs.Changes.{changes_of};
ghost use Rattle.key_code.specs.Codes.{IsInRange};
ghost use Rattle.log_rows.specs.History.{Ground};
ghost use Rattle.table_changes.specs.Changed.{next_of};
ghost use Rattle.block_processor.specs.Able.{IsAble, is_commit as is_commit_of};
ghost use Rattle.block_processor.specs.Asked.{IsAsked, Writes};
ghost use Rattle.block_processor.specs.Conflicts.{conflict_of};

use cdb_values::limits::GENID_LIMIT;
use cdb_values::{Change, List, Row, RowOp, RowRef, Value};
use log_replay::PagedLog;
use log_rows::next_genid;
use phys_log::{CommitRequest, Entry};
use std::alloc::{AllocError, Global};

/// Whether the operations of a request that no entry touches can be done at the end of a log. They can but for want of
/// genids, and where the log has a setup behind the begin position, which no log that is kept has. Takes no memory.
pub(crate) fn are_able(request: &CommitRequest, log: &PagedLog) -> bool
    ghost footing: { Ground }
    requires asked { IsAsked footing request.now log.now }
    requires free { conflict_of request.now log.now ≡ None }
    ensures { result ≡ true → IsAble footing request.now log.now }
{
    read_ops(request.ops.as_slice());
    are_commits(log.entries(), request.begin) && has_room(next_genid(log), request.ops.as_slice())
}

/// Whether the entries after a position are those of transactions.
fn are_commits(entries: &[Entry], begin: u64) -> bool
    requires { begin ≤ length entries.now }
    ensures { result ≡ list_all is_commit_of (drop begin entries.now) }
{
    let (_, later) = entries.split_at(begin as usize);
    later
        .iter()
        .all(|entry| matches!(entry, Entry::Commit { .. }))
}

/// Whether there is a genid for each operation, from the next one on.
fn has_room(next: u64, ops: &[RowOp]) -> bool
    ensures { result ≡ true → next + length ops.now < 2 ^ 62 }
{
    next < GENID_LIMIT && (ops.len() as u64) < GENID_LIMIT - next
}

/// Goes over what operations write: each integer there is one of 64 bits, since it is one of the code.
fn read_ops(ops: &[RowOp])
    ensures { AllByRecursion (Writes IsInRange) ops.now }
{
    let mut rest = ops;
    'ops: while let Some((op, others)) = rest.split_first() {
        read_op(op);
        rest = others;
    }
}

/// Goes over what an operation writes.
fn read_op(op: &RowOp)
    ensures { Writes IsInRange op.now }
{
    match op {
        RowOp::Insert { row, .. } => read_row(row),
        RowOp::Update { row, .. } => read_row(row),
        RowOp::Delete { .. } => {}
    }
}

/// Goes over the values of a row.
fn read_row(row: &Row)
    ensures { AllByRecursion IsInRange row.now }
{
    let mut rest = row.as_slice();
    'values: while let Some((value, others)) = rest.split_first() {
        read_value(value);
        rest = others;
    }
}

/// Looks at a value. An integer of the code is one of 64 bits.
fn read_value(value: &Value)
    ensures { IsInRange value.now }
{
    match value {
        Value::Int(x) => {
            let _in_range = *x;
        }
        Value::Null | Value::Text(_) | Value::Blob(_) => {}
    }
}

/// The changes that operations are, from a next genid on: their rows are moved. The error is want of memory.
pub(crate) fn changes_made(
    alloc: Global,
    ops: List<RowOp>,
    next: u64,
) -> Result<List<Change>, AllocError>
    requires room { next + length ops < 2 ^ 62 }
    ensures { IfOk result (λ changes. changes ≡ changes_of ops next) }
{
    let mut changes = List::new(alloc);
    let mut genid = next;
    'ops: for op in ops.into_vec() {
        genid = add_change(&mut changes, op, genid)?;
    }
    Ok(changes)
}

/// Adds the change that an operation is, and tells the next genid behind it.
fn add_change(changes: &mut List<Change>, op: RowOp, genid: u64) -> Result<u64, AllocError>
    requires room { genid + 1 < 2 ^ 64 }
    ensures added { IfOk result (λ _. changes.new ≡ changes.old ++ changes_of (op ∷ []) genid) }
    ensures next { IfOk result (λ next. next ≡ next_of genid op) }
{
    match op {
        RowOp::Insert { table, row } => {
            changes.push(Change::Insert { table, genid, row })?;
            Ok(genid + 1)
        }
        RowOp::Update {
            table,
            target: RowRef::Base(old_genid),
            old,
            row,
        } => {
            changes.push(Change::Update {
                table,
                old_genid,
                old,
                genid,
                row,
            })?;
            Ok(genid + 1)
        }
        RowOp::Delete {
            table,
            target: RowRef::Base(old_genid),
            old,
        } => {
            changes.push(Change::Delete {
                table,
                old_genid,
                old,
            })?;
            Ok(genid)
        }
        RowOp::Update { .. } | RowOp::Delete { .. } => Ok(genid),
    }
}
