//! What is decided on a transaction at its commit, and how it is told.
ghost use Rattle.std.specs.Prelude.{◌≡◌, length, None, Some, IfOk};
ghost use Rattle.blkseq_table.specs.OfLogs.{identities_of};
ghost use Rattle.osql_session.specs.Requests.{request_of};
ghost use Rattle.script_play.specs.Effects.{IsUnusedIn, IsVerdictOn};
ghost use Rattle.script_play.specs.Ready.{IsAble};
ghost use Rattle.script_play.specs.RunViews.{IsReadyFor};
ghost use Rattle.script_play.specs.Start.{Start};
ghost use Rattle.session_turns.specs.Outcomes.{outcome_told};

use blkseq_table::BlkSeq;
use block_processor::decide;
use cdb_values::limits::POSITION_LIMIT;
use cdb_values::{Reply, Schema};
use log_replay::PagedLog;
use osql_session::OsqlSession;
use phys_log::{CommitRequest, Decision, Entry};
use session_turns::{CommitOutcome, told};
use std::alloc::{AllocError, Global};
use table_edits::the_first_broken_key_has_its_name;

/// The last position that a history may have.
const LAST_POSITION: u64 = POSITION_LIMIT - 1;

/// What is told of a transaction at its commit, and the entry that it appends, if it appends one.
#[derive(Drop)]
pub(crate) struct Verdict {
    pub outcome: Reply,
    pub added: Option<Entry>,
}

/// What is decided on the transaction of a session at its commit; its entry is of a generation.
pub(crate) fn decided(
    alloc: Global,
    schema: &Schema,
    generation: u64,
    log: &PagedLog,
    known: &BlkSeq,
    session: &OsqlSession,
) -> Result<Verdict, AllocError>
    ghost start: { Start }
    requires ready { IsReadyFor start schema.now log.now }
    requires known { known.now ≡ identities_of log.now }
    requires able { IsAble start schema.now (length log.now) log.now session.now.begin session.now.ops }
    requires fresh { IsUnusedIn log.now session.now.id }
    ensures { IfOk result (IsVerdictOn start generation schema.now log.now session.now) }
{
    match session.request(alloc)? {
        None => Ok(Verdict {
            outcome: Reply::Committed(session.begin()),
            added: None,
        }),
        Some(request) => judged(alloc, schema, generation, log, known, session, request),
    }
}

/// What is decided on a request.
fn judged(
    alloc: Global,
    schema: &Schema,
    generation: u64,
    log: &PagedLog,
    known: &BlkSeq,
    session: &OsqlSession,
    request: CommitRequest,
) -> Result<Verdict, AllocError>
    ghost start: { Start }
    requires ready { IsReadyFor start schema.now log.now }
    requires known { known.now ≡ identities_of log.now }
    requires able { IsAble start schema.now (length log.now) log.now session.now.begin session.now.ops }
    requires fresh { IsUnusedIn log.now session.now.id }
    requires asked { request_of session.now ≡ Some request }
    ensures { IfOk result (IsVerdictOn start generation schema.now log.now session.now) }
{
    let now = log.entries().len() as u64;
    if LAST_POSITION <= now {
        return Err(AllocError);
    }
    the_first_broken_key_has_its_name();
    match decide(alloc, request, log, known, generation)? {
        // no entry has its identity
        Decision::Repeat(_) => unreachable!(),
        Decision::Conflict { position, item } => {
            refused(alloc, schema, CommitOutcome::Conflict { position, item })
        }
        Decision::Duplicate {
            position,
            table,
            key,
        } => refused(
            alloc,
            schema,
            CommitOutcome::Duplicate {
                position,
                table,
                key,
            },
        ),
        Decision::Commit(entry) => Ok(Verdict {
            outcome: Reply::Committed(now + 1),
            added: Some(entry),
        }),
    }
}

/// An outcome that appends no entry.
fn refused(alloc: Global, schema: &Schema, outcome: CommitOutcome) -> Result<Verdict, AllocError>
    ensures told { IfOk result (λ v. v.outcome ≡ outcome_told schema.now outcome) }
    ensures added { IfOk result (λ v. v.added ≡ None) }
{
    Ok(Verdict {
        outcome: told(alloc, schema, outcome)?,
        added: None,
    })
}
