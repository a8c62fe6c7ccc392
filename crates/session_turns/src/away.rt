//! What a line does while the node of its session is down, or while fewer than a majority of the nodes are up: no node is
//! asked.
//!
//! | The session is | `begin` | `commit` | `rollback` | `set transaction ..` | any other line |
//! |---|---|---|---|---|---|
//! | in no transaction | `nomajority U N` | `error state` | `error state` | `level ..` | `nomajority U N` |
//! | in one since before the node went down | `lost N D` | `lost N D` | `lost N D` | `lost N D` | `lost N D` |
//! | behind one that was cut short | is skipped | ends it | ends it | is skipped | is skipped |
ghost use Rattle.std.specs.Prelude.{◌≡◌, ℕ, List, ◌+◌, ◌∷◌, [], IfOk, option_to_list};
ghost use Rattle.cdb_values.specs.declared.items.GenidItem.{GenidItem};
ghost use Rattle.cdb_values.specs.declared.items.Interval.{Interval};
ghost use Rattle.cdb_values.specs.declared.rows.RowOp.{RowOp};
ghost use Rattle.sql_run.specs.Views.{kind_in};
ghost use Rattle.session_turns.specs.Away.{behind_cut, turn_away, IsAwayEffect};
ghost use Rattle.session_turns.specs.Doing as doing;
ghost use Rattle.session_turns.specs.Step.{state, told_turn};
ghost use Rattle.session_turns.specs.Views.{doing_in, state_in};

use super::states::{InTransaction, SessionState};
use cdb_values::{Level, Reply, StatementError};
use sql_run::TextKind;
use std::alloc::AllocError;

/// The nodes as a session finds them whose node is away: the line by which that went down, and how many of the nodes are up.
#[derive(Clone, Copy, Drop)]
pub struct Away {
    pub node: u64,
    /// The number of the line that it went down.
    pub down: u64,
    pub up: u64,
    pub nodes: u64,
}

/// What a line is told there, and where its session is then.
#[derive(Drop)]
pub struct AwayEffect {
    /// The number that its reply is told under.
    pub number: u64,
    pub reply: Option<Reply>,
    pub after: SessionState,
}

/// What a line of that kind is told while the node of its session is away. The error is that its number can't be counted.
pub fn away_effect(
    away: Away,
    state: SessionState,
    kind: TextKind,
) -> Result<AwayEffect, AllocError>
    ensures { IfOk result (λ p. IsAwayEffect p
        (turn_away away state.number state.level (kind_in kind) (doing_in state.doing))) }
{
    let SessionState {
        number,
        level,
        doing,
    } = state;
    match doing {
        InTransaction::No => outside(away, number, level, kind),
        InTransaction::Open(session) => {
            drop(session);
            Ok(lost(away, number, level, kind))
        }
        InTransaction::Aborted => Ok(skipped(number, level, kind)),
    }
}

/// A line outside a transaction.
fn outside(away: Away, number: u64, level: Level, kind: TextKind) -> Result<AwayEffect, AllocError>
    ensures { IfOk result (λ p. IsAwayEffect p (turn_away away number level (kind_in kind) doing.No)) }
{
    match kind {
        TextKind::Begin => no_majority(away, number, level, InTransaction::Aborted),
        TextKind::Other => no_majority(away, number, level, InTransaction::No),
        TextKind::Commit => Ok(misplaced(number, level)),
        TextKind::Rollback => Ok(misplaced(number, level)),
        TextKind::SetLevel(level) => Ok(told(
            0,
            Some(Reply::Level(level)),
            at(number, level, InTransaction::No),
        )),
    }
}

/// A transaction is asked for while no majority is up.
fn no_majority(
    away: Away,
    number: u64,
    level: Level,
    doing: InTransaction,
) -> Result<AwayEffect, AllocError>
    ensures { IfOk result (λ p. IsAwayEffect p
        (told_turn (number + 1) (Reply.NoMajority away.up away.nodes ∷ [])
        (state (number + 1) level (doing_in doing)))) }
{
    let Some(next) = number.checked_add(1) else {
        return Err(AllocError);
    };
    Ok(told(
        next,
        Some(Reply::NoMajority {
            up: away.up,
            nodes: away.nodes,
        }),
        at(next, level, doing),
    ))
}

/// A line that does not fit outside a transaction.
fn misplaced(number: u64, level: Level) -> AwayEffect
    ensures { IsAwayEffect result (told_turn 0 (Reply.Error StatementError.State ∷ []) (state number level doing.No)) }
{
    told(
        0,
        Some(Reply::Error(StatementError::State)),
        at(number, level, InTransaction::No),
    )
}

/// A line of a transaction that is lost: it began before the node went down.
fn lost(away: Away, number: u64, level: Level, kind: TextKind) -> AwayEffect
    ensures { (begin : ℕ) (ops : List RowOp) (uses : List GenidItem) (ranges : List Interval)
        → IsAwayEffect result (turn_away away number level (kind_in kind) (doing.Open begin ops uses ranges)) }
{
    told(
        number,
        Some(Reply::Lost {
            node: away.node,
            down: away.down,
        }),
        at(number, level, behind(kind)),
    )
}

/// A line of a transaction that was cut short.
fn skipped(number: u64, level: Level, kind: TextKind) -> AwayEffect
    ensures { (away : Away) → IsAwayEffect result (turn_away away number level (kind_in kind) doing.Aborted) }
{
    told(number, None, at(number, level, behind(kind)))
}

/// What a session is doing behind a line of a transaction that was cut short: `commit` and `rollback` end it, and up to these
/// lines are skipped.
fn behind(kind: TextKind) -> InTransaction
    ensures { doing_in result ≡ behind_cut (kind_in kind) }
{
    match kind {
        TextKind::Commit => InTransaction::No,
        TextKind::Rollback => InTransaction::No,
        TextKind::Begin => InTransaction::Aborted,
        TextKind::SetLevel(_) => InTransaction::Aborted,
        TextKind::Other => InTransaction::Aborted,
    }
}

/// What is told under a number, where the session is then at `after`.
fn told(number: u64, reply: Option<Reply>, after: SessionState) -> AwayEffect
    ensures { IsAwayEffect result (told_turn number (option_to_list reply) (state_in after)) }
{
    AwayEffect {
        number,
        reply,
        after,
    }
}

/// A session that is there.
fn at(number: u64, level: Level, doing: InTransaction) -> SessionState
    ensures { state_in result ≡ state number level (doing_in doing) }
{
    SessionState {
        number,
        level,
        doing,
    }
}
