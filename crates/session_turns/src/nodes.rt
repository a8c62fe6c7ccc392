//! What a session asks of its node.

use super::answers::{Begun, CommitOutcome, Told};
use cdb_values::{List, Reply, Schema};
use osql_session::OsqlSession;
use sql_run::Prepared;
use std::alloc::{AllocError, Global};

/// The node of a session up to its commits: where transactions begin, and the rows at their begin positions.
///
/// Each call may answer that it can't tell yet. Then nothing came of it, and the same is asked again later: a node that stands
/// for several begins a transaction only once a majority of them has answered, and reads rows only once they are there. Others
/// may commit in between, so that the history has grown.
pub trait SessionReader {
    ghost use Rattle.std.specs.Prelude.{◌≡◌, ℕ};
    ghost use Rattle.sql_run.specs.Texts.{plan_by};
    ghost use Rattle.sql_run.specs.Views.{text_in};
    ghost use Rattle.session_turns.specs.Answers.{IfTold, IfUntold, IfWaiting, IsTextAnswered};
    ghost use Rattle.session_turns.specs.Step.{World};
    ghost use Rattle.session_turns.specs.Worlds.{Grows};

    /// The tables, the rows at each position, what each entry changed, and the last position, as far as the node has told.
    ghost history: { Self → World };

    /// The generation in which transactions begin.
    ghost generation: { Self → ℕ };

    /// That a transaction can begin.
    ghost ready: { Self → Type 0 };

    /// That the rows at a position can be asked for.
    ghost reads: { Self → ℕ → Type 0 };

    /// What may become of it while nothing of its session is committed.
    ghost rests: { Self → Self → Type 0 };

    /// That it may answer that it can't tell yet.
    ghost waits: { Type 0 };

    /// A transaction begins: at the last position.
    fn begin(&mut self, alloc: Global) -> Result<Told<Begun>, AllocError>
        requires ready { ready self.old }
        ensures last { IfTold result (λ b. b.position ≡ (history self.new).now) }
        ensures generation { IfTold result (λ b. b.generation ≡ generation self.new) }
        ensures readable { IfTold result (λ b. reads self.new b.position) }
        ensures grows { Grows (history self.old) (history self.new) }
        ensures rests { rests self.old self.new }
        ensures waits { IfWaiting result waits };

    /// What a prepared text is answered in a session's transaction, over the rows at its begin position. Where nothing is told
    /// the session is as before.
    fn answer(
        &mut self,
        alloc: Global,
        session: &mut OsqlSession,
        prepared: &Prepared,
    ) -> Result<Told<List<Reply>>, AllocError>
        requires readable { reads self.old session.old.begin }
        requires plan { (text_in prepared.now).plan ≡ plan_by (history self.old).tables (text_in prepared.now).meaning }
        ensures answered { IfTold result (λ lines.
            IsTextAnswered (history self.new) session.old (text_in prepared.now).meaning lines session.new) }
        ensures unchanged { IfUntold result (session.new ≡ session.old) }
        ensures still { reads self.new session.new.begin }
        ensures grows { Grows (history self.old) (history self.new) }
        ensures rests { rests self.old self.new }
        ensures generation { generation self.new ≡ generation self.old }
        ensures waits { IfWaiting result waits };

    /// Nothing of a session is committed where nothing happens.
    ghost rests_still: { (a : Self) → rests a a };

    /// Nothing of a session is committed in two steps in neither of which it is.
    ghost rests_on: { (a b c : Self) → rests a b → rests b c → rests a c };
}

/// The same with its commits. A node that stands for several tells a commit only once it is kept by a majority.
pub trait SessionNode: SessionReader {
    ghost use Rattle.std.specs.Prelude.{◌≡◌};
    ghost use Rattle.osql_session.specs.Sessions.{Session};
    ghost use Rattle.session_turns.specs.Answers.{IfTold, IfUntold, IfWaiting};
    ghost use Rattle.session_turns.specs.Outcomes.{IsRefusal, IsRightFor};
    ghost use Rattle.session_turns.specs.Worlds.{Grows};
    ghost use Rattle.session_turns.specs.declared.answers.CommitOutcome.{CommitOutcome};

    /// That a transaction can come to its commit.
    ghost takes: { Self → Session → Type 0 };

    /// What becomes of it by a commit of a transaction, with that outcome.
    ghost settles: { Self → Session → CommitOutcome → Self → Type 0 };

    /// The tables, which never change.
    fn schema(&self) -> &Schema
        ensures { result.now ≡ (Self.history self.now).tables };

    /// What becomes of a session's transaction at its commit. It is decided over a history that ends between what was known
    /// before and what is known behind; where it is committed with operations, its entry stands behind that. Where nothing is
    /// told, and where it is refused, nothing of it is committed.
    fn commit(
        &mut self,
        alloc: Global,
        session: &OsqlSession,
    ) -> Result<Told<CommitOutcome>, AllocError>
        requires takes { takes self.old session.now }
        ensures right { IfTold result (λ o. IsRightFor (Self.history self.old) (Self.history self.new) session.now o) }
        ensures settled { IfTold result (λ o. settles self.old session.now o self.new) }
        ensures refused { IfTold result (λ o. IsRefusal o → Self.rests self.old self.new) }
        ensures unsettled { IfUntold result (Self.rests self.old self.new) }
        ensures grows { Grows (Self.history self.old) (Self.history self.new) }
        ensures waits { IfWaiting result Self.waits };
}
