//! What is decided of a request.
ghost use Rattle.std.specs.Prelude.{◌≡◌, List, IfOk, IfSome, IsNone, None};
ghost use Rattle.blkseq_table.specs.OfLogs.{identities_of, HasId};
ghost use Rattle.cdb_values.specs.Rows.{apply_all};
ghost use Rattle.page_workspace.specs.Drafts.{meant};
ghost use Rattle.phys_log.specs.declared.entries.Entry.{Entry};
ghost use Rattle.phys_log.specs.Logs.{pages_of};
ghost use Rattle.table_store.specs.Stored.{Stands};
ghost use Rattle.table_edits.specs.Answers.{AreWithin};
ghost use Rattle.log_rows.specs.History.{Ground, rows_over, tables_of};
ghost use Rattle.log_rows.specs.Sources.{source_pages};
ghost use Rattle.block_processor.specs.Able.{IsAble};
ghost use Rattle.block_processor.specs.Asked.{IsAsked};
ghost use Rattle.block_processor.specs.Conflicts.{conflict_of};
ghost use Rattle.block_processor.specs.Decided.{broken_by, Decides, IsNew, IsNextEntry};

use crate::conflicts::first_conflict;
use crate::operations::{are_able, changes_made};
use blkseq_table::BlkSeq;
use log_replay::{LogPages, PagedLog};
use log_rows::{entry_records, next_genid};
use page_workspace::Workspace;
use phys_log::{CommitRequest, Decision, Entry};
use std::alloc::{AllocError, Global};
use table_edits::{OpsFault, change_rows};

/// What is decided of a request over a log, whose identities are known and whose next entry is of a generation: the first of a
/// repeat, a conflict, a duplicate and the next entry that is right. Nothing is changed. This holds over every ground over
/// which the request is what is asked.
///
/// Answers `AllocError` for want of memory, where the next genid or an LSN would not be below 2^62, and where the log has a
/// setup behind the begin position, which no log that is kept has. A repeat and a conflict take no memory. The rows of the
/// request are moved into the entry.
pub fn decide(
    alloc: Global,
    request: CommitRequest,
    log: &PagedLog,
    known: &BlkSeq,
    generation: u64,
) -> Result<Decision, AllocError>
    ghost footing: { Ground }
    requires asked { IsAsked footing request log.now }
    requires known { known.now ≡ identities_of log.now }
    ensures { IfOk result (Decides footing request log.now generation) }
{
    match repeat_of(&request, known) {
        Some(position) => Ok(Decision::Repeat(position)),
        None => decide_new(alloc, request, log, generation),
    }
}

/// The position of the entry that has the identity of a request, in the log whose identities these are.
fn repeat_of(request: &CommitRequest, known: &BlkSeq) -> Option<u64>
    ensures found { IfSome result (λ position. (entries : List Entry) → known.now ≡ identities_of entries → HasId entries position request.now.id) }
    ensures none { IsNone result → (entries : List Entry) → known.now ≡ identities_of entries → IsNew request.now entries }
{
    known.lookup(&request.id)
}

/// What is decided of a request whose identity no entry has.
fn decide_new(
    alloc: Global,
    request: CommitRequest,
    log: &PagedLog,
    generation: u64,
) -> Result<Decision, AllocError>
    ghost footing: { Ground }
    requires asked { IsAsked footing request log.now }
    requires fresh { IsNew request log.now }
    ensures { IfOk result (Decides footing request log.now generation) }
{
    let Some(schema) = log.schema() else {
        unreachable!();
    };
    match first_conflict(schema, log.entries(), &request) {
        Some(found) => Ok(Decision::Conflict {
            position: found.position,
            item: found.item,
        }),
        None => decide_free(alloc, request, log, generation),
    }
}

/// What is decided of a new request that no entry touches.
fn decide_free(
    alloc: Global,
    request: CommitRequest,
    log: &PagedLog,
    generation: u64,
) -> Result<Decision, AllocError>
    ghost footing: { Ground }
    requires asked { IsAsked footing request log.now }
    requires fresh { IsNew request log.now }
    requires free { conflict_of request log.now ≡ None }
    ensures { IfOk result (Decides footing request log.now generation) }
{
    if !are_able(&request, log) {
        return Err(AllocError);
    }
    let Some(schema) = log.schema() else {
        unreachable!();
    };
    let mut space = Workspace::new(alloc, LogPages::new(alloc, log)?);
    match change_rows(alloc, &mut space, schema, request.ops.as_slice()) {
        Ok(()) => Ok(Decision::Commit(next_entry(alloc, request, log, generation, space)?)),
        Err(OpsFault::Duplicate { table, key }) => Ok(Decision::Duplicate {
            position: log.entries().len() as u64,
            table,
            key,
        }),
        Err(OpsFault::NoMemory) => Err(AllocError),
        // a log loses no pages
        Err(OpsFault::Gone) => unreachable!(),
    }
}

/// The next entry of a log, by a workspace over its pages on which the operations of a request were done.
fn next_entry<'a>(
    alloc: Global,
    request: CommitRequest,
    log: &PagedLog,
    generation: u64,
    space: Workspace<LogPages<'a>>,
) -> Result<Entry, AllocError>
    ghost footing: { Ground }
    requires asked { IsAsked footing request log.now }
    requires fresh { IsNew request log.now }
    requires free { conflict_of request log.now ≡ None }
    requires able { IsAble footing request log.now }
    requires kept { broken_by footing request log.now ≡ None }
    requires over { source_pages space.base ≡ pages_of log.now }
    requires done { Stands (meant source_pages space) (tables_of log.now) (apply_all (rows_over footing log.now) request.ops) }
    requires within { AreWithin (pages_of log.now) (meant source_pages space) }
    ensures { IfOk result (IsNextEntry footing request log.now generation) }
{
    let records = entry_records(alloc, log, space)?;
    let changes = changes_made(alloc, request.ops, next_genid(log))?;
    Ok(Entry::Commit {
        generation,
        id: request.id,
        begin: request.begin,
        level: request.level,
        changes,
        records,
    })
}
