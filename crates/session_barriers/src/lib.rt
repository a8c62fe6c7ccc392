//! A session does its lines of the script one after the other, and waits at each for the barriers before it.
//!
//! ```text
//! the script    ada: begin    ada: select    barrier    bob: select    ada: commit
//! told to ada   begin 2       row, row, done                           committed 3
//!
//! ada is at her select, told a row of it       its lines before are over, and that one is not
//! behind the done                              it is over, and nothing more was told
//! at her commit                                one barrier stands before it: she waits for it, and for no other
//! ```
//!
//! A line of a transaction that was cut short before is over at once.
//!
//! The functions here run nothing: each is a law, and its clauses are what is proved.
#![tactic(auto)]

ghost use Rattle.std.specs.Prelude.{ℕ, ◌≡◌, ◌≤◌, ◌==◌, ◌++◌, ◌∷◌, [], List, true, false};
ghost use Rattle.cdb_values.specs.declared.replies.Reply.{Reply};
ghost use Rattle.cluster_events.specs.Guards.{HasWaited};
ghost use Rattle.cluster_events.specs.Parts.{ActorEvent, barriers_printed, part};
ghost use Rattle.cluster_events.specs.Settings.{Setting};
ghost use Rattle.cluster_reports.specs.Runs.{FollowsScript};
ghost use Rattle.node_reports.specs.Operator.{barrier_lines};
ghost use Rattle.node_reports.specs.Pieces.{is_over};
ghost use Rattle.report_laws.specs.Told.{Numbered};
ghost use Rattle.report_laws.specs.Work.{said_by};
ghost use Rattle.script_form.specs.declared.scripts.Act.TheVariants as act;
ghost use Rattle.script_form.specs.declared.scripts.BodyLine.{BodyLine};
ghost use Rattle.session_barriers.specs.Lines.{AreToldTo, IsAtLine, is_last_behind, number_behind};
ghost use Rattle.session_language.specs.Language.{Language};

/// A session at its line of the script waits for no barrier, where those before that line are printed.
pub fn sessions_wait()
    ensures { (G : Setting) (s : ℕ) (h : List (ℕ × ActorEvent)) (text : List ℕ) (done : List BodyLine) (b : BodyLine) (later : List BodyLine) (mine : List Reply)
        → FollowsScript G → (s == 0) ≡ false → G.script.body ≡ done ++ b ∷ later → b.act ≡ act.Say (G.names s) text
        → IsAtLine G.language (G.names s) done text (part G s h).told mine → barrier_lines done ≤ barriers_printed h → HasWaited G h s }
{}

/// A session whose lines before are over comes to its next line, or is behind it where its transaction was cut short; a reply
/// that is no last one leaves it there, and a last one is its end.
pub fn sessions_are_told_their_lines()
    ensures comes { (language : Language) (name : List ℕ) (done : List BodyLine) (text : List ℕ) (told : List Numbered) → AreToldTo language name done [] told
        → is_over (number_behind language name done text) told ≡ false → IsAtLine language name done text told [] }
    ensures skips { (language : Language) (name : List ℕ) (done : List BodyLine) (text : List ℕ) (told : List Numbered) → AreToldTo language name done [] told
        → is_over (number_behind language name done text) told ≡ true → AreToldTo language name done (text ∷ []) told }
    ensures goes_on { (language : Language) (name : List ℕ) (done : List BodyLine) (text : List ℕ) (told : List Numbered) (mine : List Reply) (r : Reply)
        → IsAtLine language name done text told mine → is_last_behind language name done text r ≡ false
        → IsAtLine language name done text (told ++ (number_behind language name done text, r) ∷ []) (mine ++ r ∷ []) }
    ensures ends { (language : Language) (name : List ℕ) (done : List BodyLine) (text : List ℕ) (told : List Numbered) (mine : List Reply) (r : Reply)
        → IsAtLine language name done text told mine → is_last_behind language name done text r ≡ true
        → AreToldTo language name done (text ∷ []) (told ++ (number_behind language name done text, r) ∷ []) }
{}

/// Its lines are over before the first line of the script, stay so at a line that is not its own, and are so behind one that is
/// where that one is over.
pub fn sessions_come_to_their_lines()
    ensures first { (language : Language) (name : List ℕ) → AreToldTo language name [] [] [] }
    ensures its { (language : Language) (name text : List ℕ) (done : List BodyLine) (b : BodyLine) (told : List Numbered) → b.act ≡ act.Say name text
        → AreToldTo language name done (text ∷ []) told → AreToldTo language name (done ++ b ∷ []) [] told }
    ensures another { (language : Language) (name : List ℕ) (done : List BodyLine) (b : BodyLine) (told : List Numbered) → said_by name b.act [] ≡ []
        → AreToldTo language name done [] told → AreToldTo language name (done ++ b ∷ []) [] told }
{}
