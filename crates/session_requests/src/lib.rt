//! What a session asks at its commit is what it sends.
//!
//! ```text
//! the code of a session      has its operations, the versions that it used besides, the intervals that it read
//! its request                has the versions that it used without repeats
//! what it sends              is by its name in the history: what the transaction is answered, run alone where it began
//! ```
//!
//! The functions here run nothing: each is a law, and its clauses are what is proved.
#![tactic(auto)]

ghost use Rattle.std.specs.Prelude.{ℕ, ◌≡◌, ◌≤◌, ◌∷◌, List, Some, map, take};
ghost use Rattle.actor_trace.specs.History.{IsLegal};
ghost use Rattle.cdb_values.specs.declared.rows.Level.{Level};
ghost use Rattle.cluster_consensus.specs.Facts.{World};
ghost use Rattle.cluster_decisions.specs.Requested.{IsOfSent, stored_entries};
ghost use Rattle.cluster_events.specs.Parts.{Opened, Part};
ghost use Rattle.cluster_events.specs.Settings.{Setting};
ghost use Rattle.cluster_requests.specs.KeptEntries.{KeptEntry, plain, state_of};
ghost use Rattle.cluster_steps.specs.Guards.{MayTakeStep};
ghost use Rattle.cluster_steps.specs.Named.{rows_begun, sent_of, world};
ghost use Rattle.cluster_steps.specs.declared.events.Event.{Event};
ghost use Rattle.log_replay.specs.Answers.{schema_of};
ghost use Rattle.log_rows.specs.History.{tables_of};
ghost use Rattle.osql_session.specs.Requests.{request_of};
ghost use Rattle.osql_session.specs.Sessions.{Session};
ghost use Rattle.phys_log.specs.declared.requests.CommitRequest.{CommitRequest};
ghost use Rattle.report_laws.specs.Work.{Transaction};
ghost use Rattle.session_fronts.specs.Fronts.{IsKnown, front_of};
ghost use Rattle.session_language.specs.Language.{CommitText};
ghost use Rattle.session_requests.specs.Asks.{IsSessionOf};
ghost use Rattle.session_standing.specs.Standing.{IsOpenAt};
ghost use Rattle.session_turns.specs.Views.{IsOf};
ghost use Rattle.session_work.specs.Seats.{answered_at};

/// At its commit a session has what its transaction is answered, and so it has where its texts so far are all that the transaction
/// has. What it asks then says what it sends.
pub fn sessions_ask_what_they_send()
    ensures commits { (G : Setting) (w : World KeptEntry) (p : Part) (i number : ℕ) (level : Level) (texts : List (List ℕ)) (text : List ℕ) (rest : List (List ℕ))
        (s : Session) (at : IsOpenAt G w p number level texts (text ∷ rest) s.begin s.ops s.genids s.ranges)
        → G.language.kind text ≡ CommitText → IsOf at.start.gen (G.names i) number level s → IsSessionOf G w i at.txn at.start s }
    ensures texts { (G : Setting) (w : World KeptEntry) (i : ℕ) (t : Transaction) (o : Opened) (texts : List (List ℕ)) (s : Session)
        → t.texts ≡ texts → IsOf o.gen (G.names i) t.number t.level s → s.begin ≡ o.begin
        → s.ops ≡ (answered_at G w o texts).ops → s.genids ≡ (answered_at G w o texts).uses
        → s.ranges ≡ (answered_at G w o texts).ranges → IsSessionOf G w i t o s }
    ensures says { (G : Setting) (w : World KeptEntry) (i master gen : ℕ) (t : Transaction) (o : Opened) (s : Session) (request : CommitRequest)
        → IsSessionOf G w i t o s → request_of s ≡ Some request → IsOfSent G (sent_of G w i master gen t o) request }
{}

/// A leader that knows a begin as durable has the rows of the begin there; and where what is known has the script's tables, so has
/// its log.
pub fn leaders_have_what_was_begun()
    ensures rows { (G : Setting) (h : List (ℕ × Event)) (i : ℕ) (o : Opened) → IsLegal (λ g i e. MayTakeStep G g i e) h
        → IsKnown G (world G h) o → o.begin ≤ ((world G h).nodes i).durable
        → state_of (take o.begin ((world G h).nodes i).log) ≡ rows_begun G (world G h) o }
    ensures tables { (G : Setting) (h : List (ℕ × Event)) (i : ℕ) (o : Opened) → IsLegal (λ g i e. MayTakeStep G g i e) h
        → IsKnown G (world G h) o → 1 ≤ o.begin → o.begin ≤ ((world G h).nodes i).durable
        → schema_of (map plain (front_of G (world G h) o)) ≡ Some G.tables
        → tables_of (stored_entries ((world G h).nodes i).log) ≡ G.tables }
{}
