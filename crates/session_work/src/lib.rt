//! What is left of a session's work, and what the session may do next, in every history of a run.
//!
//! A session is in no transaction (`Rests`), with what is left of its work; or in one (`Runs`), which began so, of whose texts these
//! are answered, and whose replies are told but for those that are due:
//!
//! | It | May do | Where | And then |
//! |---|---|---|---|
//! | rests, and something is left | `Ask` | | it waits for the answer of that ticket |
//! | rests | `Begun` | the begin is counted | it runs, with no text answered |
//! | runs, a reply is due | `Reply` | | the others are due |
//! | runs, nothing is due | | a text more is answered over the rows at its begin | its replies are due |
//! | runs, all texts are answered, nothing is due | `Send` | it is to be committed, has operations, and was not sent | the same |
//! | the same | `Outcome` | it is committed, refused or rolled back | it rests, with the next item |
//! | rests, the next item is a line alone | `Reply` | its reply is the item's | it rests, with the next item |
//!
//! The functions here run nothing: each is a law, and its clauses are what is proved.
#![tactic(auto)]

ghost use Rattle.std.specs.Prelude.{ℕ, ◌≡◌, ◌≢◌, ◌+◌, ◌++◌, ◌∷◌, [], List, Some, None, length};
ghost use Rattle.actor_trace.specs.History.{IsLegal};
ghost use Rattle.actor_trace.specs.Steps.{Adds};
ghost use Rattle.cdb_values.specs.declared.replies.Reply.{Reply};
ghost use Rattle.cdb_values.specs.declared.replies.Reply.TheVariants as reply;
ghost use Rattle.cdb_values.specs.declared.rows.Level.{Level};
ghost use Rattle.cluster_begins.specs.Begins.{CanBegin};
ghost use Rattle.cluster_consensus.specs.Facts.{World};
ghost use Rattle.cluster_events.specs.Guards.{Commits, MayFinish};
ghost use Rattle.cluster_events.specs.Parts.{ActorEvent, Opened, Part, moves, part};
ghost use Rattle.cluster_events.specs.Settings.{Setting, run_alone};
ghost use Rattle.cluster_requests.specs.KeptEntries.{KeptEntry};
ghost use Rattle.cluster_steps.specs.Guards.{IsExact, MayTakeStep};
ghost use Rattle.cluster_steps.specs.Named.{named, rows_begun, steps, world};
ghost use Rattle.cluster_steps.specs.declared.events.Event.{Event};
ghost use Rattle.cluster_steps.specs.declared.events.Event.TheVariants as event;
ghost use Rattle.report_laws.specs.Told.{IsToCommit};
ghost use Rattle.report_laws.specs.Work.{WorkItem, Transaction, Does, Lone, ByCommit, ByRollback, WithItsLine, transaction};
ghost use Rattle.report_text.specs.declared.reports.Line.{Line};
ghost use Rattle.report_text.specs.declared.reports.Line.TheVariants as line;
ghost use Rattle.session_fronts.specs.Fronts.{IsKnown};
ghost use Rattle.session_language.specs.Answers.{IsPlain};
ghost use Rattle.session_language.specs.Language.{Language, BeginText, CommitText, RollbackText, LevelText, OtherText};
ghost use Rattle.session_work.specs.Seats.{IsSeat, Rests, Runs, answered_at};
ghost use Rattle.session_work.specs.Work.{left_at, place_at};

/// What is left of a session's work where it is in no transaction, by the kind of its next text.
pub fn work_outside_a_transaction()
    ensures begin { (language : Language) (number : ℕ) (level : Level) (text : List ℕ) (texts : List (List ℕ)) → language.kind text ≡ BeginText
        → left_at language (place_at number level None) (text ∷ texts) ≡ left_at language (place_at (number + 1) level (Some [])) texts }
    ensures own { (language : Language) (number : ℕ) (level : Level) (text : List ℕ) (texts : List (List ℕ)) → language.kind text ≡ OtherText
        → left_at language (place_at number level None) (text ∷ texts)
        ≡ Does (transaction (number + 1) (text ∷ []) level WithItsLine) ∷ left_at language (place_at (number + 1) level None) texts }
    ensures level { (language : Language) (number : ℕ) (level later : Level) (text : List ℕ) (texts : List (List ℕ)) → language.kind text ≡ LevelText later
        → left_at language (place_at number level None) (text ∷ texts) ≡ Lone (reply.Level later) ∷ left_at language (place_at number later None) texts }
{}

/// And in one that has these texts.
pub fn work_in_a_transaction()
    ensures text { (language : Language) (number : ℕ) (level : Level) (before : List (List ℕ)) (text : List ℕ) (texts : List (List ℕ)) → language.kind text ≡ OtherText
        → left_at language (place_at number level (Some before)) (text ∷ texts) ≡ left_at language (place_at number level (Some (before ++ text ∷ []))) texts }
    ensures commit { (language : Language) (number : ℕ) (level : Level) (before : List (List ℕ)) (text : List ℕ) (texts : List (List ℕ)) → language.kind text ≡ CommitText
        → left_at language (place_at number level (Some before)) (text ∷ texts)
        ≡ Does (transaction number before level ByCommit) ∷ left_at language (place_at number level None) texts }
    ensures rollback { (language : Language) (number : ℕ) (level : Level) (before : List (List ℕ)) (text : List ℕ) (texts : List (List ℕ)) → language.kind text ≡ RollbackText
        → left_at language (place_at number level (Some before)) (text ∷ texts)
        ≡ Does (transaction number before level ByRollback) ∷ left_at language (place_at number level None) texts }
{}

/// Behind an event of its own a session is one still, and its part is moved by that event.
pub fn sessions_stay_sessions()
    ensures seat { (G : Setting) (s : ℕ) (told : Line) (old new : List (ℕ × Event)) → IsSeat G s old → Adds s (event.Reply told) old new
        → IsLegal (λ g i e. MayTakeStep G g i e) new → IsSeat G s new }
    ensures part { (G : Setting) (s : ℕ) (e : Event) (old new : List (ℕ × Event)) → (e ≡ event.Ask → ⊥) → IsExact G (steps G old) s e → Adds s e old new
        → IsLegal (λ g i e. MayTakeStep G g i e) new → part G s (steps G new) ≡ moves (part G s (steps G old)) (named G (steps G old) s e) }
    ensures asks { (G : Setting) (s ticket : ℕ) (old new : List (ℕ × Event)) → Adds s event.Ask old new → ticket + 1 ≡ length new
        → part G s (steps G new) ≡ record (part G s (steps G old)) { asked = Some ticket } }
{}

/// A session that is in no transaction may ask for a begin, may be told it, and may be told the reply of a line alone.
pub fn sessions_begin()
    ensures ask { (G : Setting) (s : ℕ) (seen : List (ℕ × Event)) → IsSeat G s seen → (part G s (steps G seen)).left ≢ [] → MayTakeStep G seen s event.Ask }
    ensures begun { (G : Setting) (s ask b g : ℕ) (seen : List (ℕ × Event)) (t : Transaction) (others : List WorkItem) → IsSeat G s seen
        → Rests (part G s (steps G seen)) (Does t ∷ others) → (part G s (steps G seen)).asked ≡ Some ask
        → CanBegin G.nodes (world G seen) ask b g → MayTakeStep G seen s (event.Begun b g) }
    ensures runs { (G : Setting) (w : World KeptEntry) (p : Part) (t : Transaction) (others : List WorkItem) (b g : ℕ) → Rests p (Does t ∷ others)
        → IsKnown G w (record { begin = b; gen = g })
        → Runs G w (moves p (ActorEvent.Begun b g)) t others (record { begin = b; gen = g }) [] [] }
    ensures alone { (G : Setting) (s : ℕ) (seen : List (ℕ × Event)) (r : Reply) (others : List WorkItem) → IsSeat G s seen
        → Rests (part G s (steps G seen)) (Lone r ∷ others) → IsPlain r → MayTakeStep G seen s (event.Reply (line.Session (G.names s) 0 r)) }
{}

/// In a transaction it may be told each reply that is due, and where nothing is due its next text is answered.
pub fn transactions_run()
    ensures says { (G : Setting) (s : ℕ) (seen : List (ℕ × Event)) (t : Transaction) (others : List WorkItem) (o : Opened) (texts : List (List ℕ)) (r : Reply) (due : List Reply)
        → IsSeat G s seen → Runs G (world G seen) (part G s (steps G seen)) t others o texts (r ∷ due)
        → MayTakeStep G seen s (event.Reply (line.Session (G.names s) t.number r)) }
    ensures said { (G : Setting) (w : World KeptEntry) (p : Part) (t : Transaction) (others : List WorkItem) (o : Opened) (texts : List (List ℕ)) (r : Reply) (due : List Reply)
        → Runs G w p t others o texts (r ∷ due) → Runs G w (moves p (ActorEvent.Say r)) t others o texts due }
    ensures hears { (G : Setting) (w : World KeptEntry) (p : Part) (t : Transaction) (others : List WorkItem) (o : Opened) (texts : List (List ℕ)) (text : List ℕ) (more : List (List ℕ))
        → t.texts ≡ (texts ++ text ∷ []) ++ more → Runs G w p t others o texts []
        → Runs G w p t others o (texts ++ text ∷ [])
        (G.language.answer G.tables (rows_begun G w o).tables (answered_at G w o texts).ops text).replies }
    ensures stays { (G : Setting) (later h : List (ℕ × Event)) (p : Part) (t : Transaction) (others : List WorkItem) (o : Opened) (texts : List (List ℕ)) (due : List Reply)
        → IsLegal (λ g i e. MayTakeStep G g i e) (later ++ h) → Runs G (world G h) p t others o texts due
        → Runs G (world G (later ++ h)) p t others o texts due }
{}

/// A transaction whose texts are all answered, with nothing due, may come to its commit, or is rolled back; and one that is over
/// leaves its session in none.
pub fn transactions_end()
    ensures commits { (G : Setting) (s : ℕ) (seen : List (ℕ × Event)) (t : Transaction) (others : List WorkItem) (o : Opened)
        → Runs G (world G seen) (part G s (steps G seen)) t others o t.texts [] → IsToCommit t.end → Commits G (steps G seen) s }
    ensures nothing { (G : Setting) (s : ℕ) (seen : List (ℕ × Event)) (t : Transaction) (others : List WorkItem) (o : Opened)
        → Runs G (world G seen) (part G s (steps G seen)) t others o t.texts [] → IsToCommit t.end
        → (run_alone G (rows_begun G (world G seen) o) t).ops ≡ [] → MayFinish G (steps G seen) s (reply.Committed o.begin) }
    ensures rolls_back { (G : Setting) (s : ℕ) (seen : List (ℕ × Event)) (t : Transaction) (others : List WorkItem) (o : Opened)
        → Runs G (world G seen) (part G s (steps G seen)) t others o t.texts [] → t.end ≡ ByRollback → MayFinish G (steps G seen) s reply.RolledBack }
    ensures told { (G : Setting) (s : ℕ) (seen : List (ℕ × Event)) (t : Transaction) (others : List WorkItem) (a : Reply) → IsSeat G s seen
        → (part G s (steps G seen)).left ≡ Does t ∷ others → MayFinish G (steps G seen) s a
        → MayTakeStep G seen s (event.Outcome (line.Session (G.names s) t.number a)) }
    ensures over { (p : Part) (a : Reply) (t : Transaction) (others : List WorkItem) → p.left ≡ Does t ∷ others → Rests (moves p (ActorEvent.Finish a)) others }
{}
