//! A log that has begun with a schema, and grows by inserts that are decided to be its next entries.
ghost use Rattle.std.specs.Prelude.{◌≡◌, ◌+◌, ◌∷◌, ◌++◌, [], IfOk, OnOk, length};
ghost use Rattle.blkseq_table.specs.Known.{known_at, AreBelow, IsAbsent};
ghost use Rattle.blkseq_table.specs.OfLogs.{identities_of};
ghost use Rattle.log_tests.specs.Begun.{AsksInserts, GoesOn, IsBegun};

use blkseq_table::BlkSeq;
use block_processor::decide;
use cdb_values::Schema;
use log_replay::PagedLog;
use log_rows::setup_entry;
use phys_log::{CommitId, CommitRequest, Decision, Entry};
use std::alloc::{AllocError, Global};
use test_cases::all_fit;

/// The log that begins with the setup of a schema.
pub fn begun_log(alloc: Global, schema: &Schema) -> Result<PagedLog, AllocError>
    ensures { IfOk result (IsBegun schema.now) }
{
    let mut log = PagedLog::new(alloc);
    let entry = setup_entry(alloc, schema, 1)?;
    match log.append(alloc, entry) {
        Ok(()) => Ok(log),
        Err(_) => Err(AllocError),
    }
}

/// What is decided of a request of inserts. The error is want of memory, also where there is no insert, or one of a row that does
/// not fit.
pub fn decided(
    alloc: Global,
    schema: &Schema,
    log: &PagedLog,
    known: &BlkSeq,
    request: CommitRequest,
) -> Result<Decision, AllocError>
    requires begun { IsBegun schema.now log.now }
    requires known { known.now ≡ identities_of log.now }
    requires asks { AsksInserts log.now request }
    ensures { IfOk result (GoesOn schema.now log.now request.id) }
{
    if request.ops.is_empty() {
        return Err(AllocError);
    }
    if !all_fit(alloc, schema, request.ops.as_slice())? {
        return Err(AllocError);
    }
    decide(alloc, request, log, known, 1)
}

/// Commits a request of inserts: the log goes on with its entry, and the identities with its own. The error is the same, also
/// where it is decided otherwise.
pub fn commit(
    alloc: Global,
    schema: &Schema,
    log: &mut PagedLog,
    known: &mut BlkSeq,
    request: CommitRequest,
) -> Result<(), AllocError>
    requires begun { IsBegun schema.now log.old }
    requires known { known.old ≡ identities_of log.old }
    requires asks { AsksInserts log.old request }
    ensures begun { OnOk result (IsBegun schema.now log.new) }
    ensures known { OnOk result (known.new ≡ identities_of log.new) }
    ensures longer { OnOk result (length log.new ≡ length log.old + 1) }
{
    let id = copy_id(&request.id)?;
    match decided(alloc, schema, log, known, request)? {
        Decision::Commit(entry) => append(alloc, log, known, id, entry),
        _ => Err(AllocError),
    }
}

/// Appends an entry that brings an identity.
fn append(
    alloc: Global,
    log: &mut PagedLog,
    known: &mut BlkSeq,
    id: CommitId,
    entry: Entry,
) -> Result<(), AllocError>
    requires fresh { IsAbsent known.old id }
    requires below { AreBelow known.old (length log.old + 1) }
    ensures log { OnOk result (log.new ≡ log.old ++ entry ∷ []) }
    ensures known { OnOk result (known.new ≡ known.old ++ known_at id (length log.old + 1) ∷ []) }
{
    let position = log.entries().len() as u64 + 1;
    known.insert(id, position)?;
    match log.append(alloc, entry) {
        Ok(()) => Ok(()),
        Err(_) => Err(AllocError),
    }
}

/// An equal identity.
fn copy_id(id: &CommitId) -> Result<CommitId, AllocError>
    ensures { IfOk result (λ i. i ≡ id.now) }
{
    id.clone()
}
