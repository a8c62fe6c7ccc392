//! What a line asks, and what it does.
ghost use Rattle.std.specs.Prelude.{◌≡◌, ℕ};
ghost use Rattle.cdb_values.specs.declared.rows.Level.{Level};
ghost use Rattle.session_language.specs.Language.{Kind};
ghost use Rattle.sql_answer.specs.Answers.{Meaning};
ghost use Rattle.session_turns.specs.Asked.{asked_of, settled};
ghost use Rattle.session_turns.specs.Doing.{Doing};
ghost use Rattle.session_turns.specs.Step.{World, turn_of};

/// What a line asks, begun at the last position of a history, and its commit, decided on the same history, are together what it
/// does when nobody comes between.
#[tactic(auto, using(crate::proofs::TurnLemmas::turns_settled))]
pub fn a_line_is_what_it_asks_and_its_commit()
    ensures { (w : World) (number : ℕ) (level : Level) (meant : Meaning) (k : Kind) (what : Doing)
        → settled w (asked_of w w.now number level meant k what) ≡ turn_of w number level meant k what }
{}
