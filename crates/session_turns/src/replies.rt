//! Lines for which the node is not asked.
ghost use Rattle.std.specs.Prelude.{◌∷◌, [], ℕ, List, IfOk};
ghost use Rattle.sql_answer.specs.Answers.{Meaning};
ghost use Rattle.sql_run.specs.Views.{kind_in};
ghost use Rattle.session_turns.specs.Answers.{AnswersAnywhere, IsEffect, IsEffectAnywhere};
ghost use Rattle.session_turns.specs.Asked.{asked_of, asks, told};
ghost use Rattle.session_turns.specs.Doing as doing;
ghost use Rattle.session_turns.specs.Step.{World, state};
ghost use Rattle.session_turns.specs.Views.{IsOf, IsOwn, coming_of, doing_of, state_in};

use super::states::{InTransaction, SessionState, aborted, idle};
use super::turns::LineEffect;
use cdb_values::{Level, Reply, StatementError};
use osql_session::OsqlSession;
use sql_run::TextKind;
use std::alloc::{AllocError, Global};

/// The line is skipped: it is told nothing, and the session is then at `after`.
fn quiet(alloc: Global, number: u64, after: SessionState) -> LineEffect
    ensures { (generation : ℕ) (name : List ℕ) → IsOwn generation name after
        → IsEffect generation name result (told number [] (state_in after)) }
{
    LineEffect {
        number,
        replies: Vec::new(alloc),
        after,
        commits: None,
    }
}

/// The line is told one reply.
fn one(
    alloc: Global,
    number: u64,
    reply: Reply,
    after: SessionState,
) -> Result<LineEffect, AllocError>
    ensures { (generation : ℕ) (name : List ℕ) → IsOwn generation name after
        → IfOk result (λ p. IsEffect generation name p (told number (reply ∷ []) (state_in after))) }
{
    let mut replies = Vec::new(alloc);
    replies.push(reply)?;
    Ok(LineEffect {
        number,
        replies,
        after,
        commits: None,
    })
}

/// A line of a transaction that was cut short is skipped.
pub(crate) fn skip(alloc: Global, number: u64, level: Level, kind: TextKind) -> LineEffect
    ensures { (w : World) (last : ℕ) (meaning : Meaning)
        → IsEffectAnywhere result (asked_of w last number level meaning (kind_in kind) doing.Aborted) }
{
    match kind {
        TextKind::Commit => quiet(alloc, number, idle(number, level)),
        TextKind::Rollback => quiet(alloc, number, idle(number, level)),
        TextKind::Begin => quiet(alloc, number, aborted(number, level)),
        TextKind::SetLevel(_) => quiet(alloc, number, aborted(number, level)),
        TextKind::Other => quiet(alloc, number, aborted(number, level)),
    }
}

/// A line that does not fit outside a transaction.
pub(crate) fn refused(alloc: Global, number: u64, level: Level) -> Result<LineEffect, AllocError>
    ensures { AnswersAnywhere result (told 0 (Reply.Error StatementError.State ∷ []) (state number level doing.No)) }
{
    one(
        alloc,
        0,
        Reply::Error(StatementError::State),
        idle(number, level),
    )
}

/// A line that rolls its transaction back.
pub(crate) fn rolled_back(
    alloc: Global,
    number: u64,
    level: Level,
) -> Result<LineEffect, AllocError>
    ensures { AnswersAnywhere result (told number (Reply.RolledBack ∷ []) (state number level doing.No)) }
{
    one(alloc, number, Reply::RolledBack, idle(number, level))
}

/// A line that sets the level of later transactions.
pub(crate) fn set_level(alloc: Global, number: u64, level: Level) -> Result<LineEffect, AllocError>
    ensures { AnswersAnywhere result (told 0 (Reply.Level level ∷ []) (state number level doing.No)) }
{
    one(alloc, 0, Reply::Level(level), idle(number, level))
}

/// A line by which its transaction comes to its commit.
pub(crate) fn commits(alloc: Global, number: u64, level: Level, session: OsqlSession) -> LineEffect
    ensures { (generation : ℕ) (name : List ℕ) → IsOf generation name number level session
        → IsEffect generation name result (asks number level [] (coming_of session)) }
{
    LineEffect {
        number,
        replies: Vec::new(alloc),
        after: idle(number, level),
        commits: Some(session),
    }
}

/// A transaction has begun by a line.
pub(crate) fn opened(
    alloc: Global,
    number: u64,
    level: Level,
    session: OsqlSession,
) -> Result<LineEffect, AllocError>
    ensures { (generation : ℕ) (name : List ℕ) → IsOf generation name number level session
        → IfOk result (λ p. IsEffect generation name p
        (told number (Reply.Begin session.begin ∷ []) (state number level (doing_of session)))) }
{
    let reply = Reply::Begin(session.begin());
    let after = SessionState {
        number,
        level,
        doing: InTransaction::Open(session),
    };
    one(alloc, number, reply, after)
}
