//! What a line of a session is to do on a node that is up, with the entry that it appends: nothing is told or kept yet.
ghost use Rattle.std.specs.Prelude.{◌≡◌, ℕ, List, IfOk, OnOk};
ghost use Rattle.blkseq_table.specs.OfLogs.{identities_of};
ghost use Rattle.script_play.specs.Effects.{CanCommit, IsEffect};
ghost use Rattle.script_play.specs.RunViews.{turn_in, world, AreOver, CanGoOn, IsOfText, IsReadyFor};
ghost use Rattle.script_play.specs.Start.{Start};
ghost use Rattle.session_turns.specs.Asked.{settled_by};
ghost use Rattle.session_turns.specs.Views.{coming_in, state_in, IsOwn, IsOwnCommit};
ghost use Rattle.sql_run.specs.Texts.{plan_by};
ghost use Rattle.sql_run.specs.Views.{text_in};
ghost use Rattle.undo_snapshot.specs.Positions.{AreOfLog, Served};

use super::reader::{Footing, LogReader};
use super::verdicts::decided;
use blkseq_table::BlkSeq;
use cdb_values::{Name, Reply, Schema};
use log_replay::PagedLog;
use phys_log::Entry;
use session_turns::{LineEffect, SessionState, Turn, take_turn};
use sql_run::Prepared;
use std::alloc::{AllocError, Global};
use std::mem;
use undo_snapshot::KeptPositions;

/// What a line is to do.
#[derive(Drop)]
pub(crate) struct DecidedEffect {
    /// The number that its replies are told under.
    pub number: u64,
    pub replies: Vec<Reply>,
    /// Where the session is then.
    pub after: SessionState,
    /// The entry of the transaction that it commits, if it commits one with operations.
    pub added: Option<Entry>,
}

/// What a line is to do, by its prepared text. Where memory is wanting the pages that were undone are let go.
#[tactic(auto, using(undo_snapshot::proofs::PositionLemmas::none_of_log))]
pub(crate) fn effect_of<J: Footing>(
    alloc: Global,
    schema: &Schema,
    generation: u64,
    log: &PagedLog,
    known: &BlkSeq,
    name: &Name,
    state: SessionState,
    prepared: &Prepared,
    undone: &mut KeptPositions,
) -> Result<DecidedEffect, AllocError>
    requires ready { IsReadyFor J.start schema.now log.now }
    requires known { known.now ≡ identities_of log.now }
    requires going { CanGoOn J.start schema.now log.now state.doing }
    requires over { AreOver generation name.now state log.now }
    requires own { IsOwn generation name.now state }
    requires plan { (text_in prepared.now).plan ≡ plan_by schema.now (text_in prepared.now).meaning }
    requires of_text { IsOfText schema.now (text_in prepared.now).meaning }
    requires undone { AreOfLog log.now undone.old }
    requires begins { undone.old ≡ J.undone }
    ensures effect { IfOk result (λ p. IsEffect J.start generation schema.now log.now name.now p
        (turn_in J.start schema.now log.now state (text_in prepared.now).meaning (text_in prepared.now).kind)) }
    ensures undone { AreOfLog log.now undone.new }
    ensures served { OnOk result (Served log.now undone.old undone.new) }
{
    let pages = mem::replace(undone, KeptPositions::none());
    let mut reader: LogReader<'_, J> = LogReader::new(schema, log, generation, pages);
    match take_turn(alloc, &mut reader, name, state, prepared)? {
        Turn::Done(asked) => {
            *undone = reader.into_undone();
            with_outcome(alloc, schema, generation, log, known, asked)
        }
        // This node can always tell.
        Turn::Begun(_) => unreachable!(),
        Turn::NotYet(_) => unreachable!(),
    }
}

/// What a line is to do, with the outcome of the transaction that comes to its commit by it, if one does.
fn with_outcome(
    alloc: Global,
    schema: &Schema,
    generation: u64,
    log: &PagedLog,
    known: &BlkSeq,
    asked: LineEffect,
) -> Result<DecidedEffect, AllocError>
    ghost start: { Start }
    requires ready { IsReadyFor start schema.now log.now }
    requires known { known.now ≡ identities_of log.now }
    requires can { CanCommit start schema.now log.now asked.commits }
    ensures { (name : List ℕ) → IsOwn generation name asked.after
        → IsOwnCommit generation name asked.number asked.after.level asked.commits
        → IfOk result (λ p. IsEffect start generation schema.now log.now name p
        (settled_by (world start schema.now log.now) asked.number asked.replies.items (state_in asked.after)
        (coming_in asked.commits))) }
{
    let LineEffect {
        number,
        replies,
        after,
        commits,
    } = asked;
    let Some(session) = commits else {
        return Ok(DecidedEffect {
            number,
            replies,
            after,
            added: None,
        });
    };
    let verdict = decided(alloc, schema, generation, log, known, &session)?;
    let mut replies = replies;
    replies.push(verdict.outcome)?;
    Ok(DecidedEffect {
        number,
        replies,
        after,
        added: verdict.added,
    })
}
