//! What a text is answered in a session's transaction, over rows that a node has.
ghost use Rattle.std.specs.Prelude.{◌≡◌, IfOk, OnErr};
ghost use Rattle.plan_run.specs.Sources.{AreRowsExcused};
ghost use Rattle.sql_run.specs.Texts.{plan_by};
ghost use Rattle.sql_run.specs.Views.{text_in};
ghost use Rattle.session_turns.specs.Answers.{IsTextAnswered};
ghost use Rattle.session_turns.specs.Step.{World};

use cdb_values::{List, Reply, Schema};
use osql_session::OsqlSession;
use plan_run::{RowFault, RowSource};
use sql_run::Prepared;
use std::alloc::Global;

/// What a prepared text is answered in a session's transaction, over a source of the rows at its begin position. It is for nodes:
/// this is what they answer over each history that has these rows there. After an error the session is as before.
#[tactic(auto, using(crate::proofs::ReadLemmas::answered_over))]
pub fn answer_over<S: RowSource>(
    alloc: Global,
    schema: &Schema,
    session: &mut OsqlSession,
    prepared: &Prepared,
    source: &mut S,
) -> Result<List<Reply>, RowFault>
    requires schema { S.tables source.old ≡ schema.now }
    requires plan { (text_in prepared.now).plan ≡ plan_by schema.now (text_in prepared.now).meaning }
    ensures answered { (w : World) → w.tables ≡ schema.now → (w.seen.at session.old.begin).tables ≡ S.versions source.old
        → IfOk result (λ lines. IsTextAnswered w session.old (text_in prepared.now).meaning lines session.new) }
    ensures unchanged { OnErr result (session.new ≡ session.old) }
    ensures begin { session.new.begin ≡ session.old.begin }
    ensures excused { AreRowsExcused result (S.losses source.old) (S.losses source.new) }
{
    session.statement(alloc, schema, prepared, source)
}
