//! A session's state between its lines stands for its part in the history, line by line.
//!
//! | The session is | its next text | it stands then |
//! |---|---|---|
//! | in no transaction | `begin` | in one that is about to begin; behind its `Begun` in it, with no text |
//! | the same | any other that is no `commit`, `rollback` or level | with a transaction of that text alone before it |
//! | in one | no `commit` and no `rollback` | in it, behind that text, once its replies are told |
//! | the same | `commit`, `rollback` | at the end of it: these are all its texts |
//! | behind one that was cut short | no `commit` and no `rollback` | there still |
//! | the same | `commit`, `rollback` | in no transaction |
//! | anywhere | none | with all its work done, but for a transaction that its script leaves open |
//!
//! The functions here run nothing: each is a law, and its clauses are what is proved.
#![tactic(auto)]

ghost use Rattle.std.specs.Prelude.{ℕ, ◌≡◌, ◌+◌, ◌++◌, ◌∷◌, [], List, None};
ghost use Rattle.cdb_values.specs.declared.items.GenidItem.{GenidItem};
ghost use Rattle.cdb_values.specs.declared.items.Interval.{Interval};
ghost use Rattle.cdb_values.specs.declared.replies.Reply.{Reply};
ghost use Rattle.cdb_values.specs.declared.replies.Reply.TheVariants as reply;
ghost use Rattle.cdb_values.specs.declared.rows.Level.{Level};
ghost use Rattle.cdb_values.specs.declared.rows.Level.TheVariants.{Snapshot};
ghost use Rattle.cdb_values.specs.declared.rows.RowOp.{RowOp};
ghost use Rattle.cdb_values.specs.declared.rows.StatementError.TheVariants.{State};
ghost use Rattle.cluster_consensus.specs.Facts.{World};
ghost use Rattle.cluster_events.specs.Guards.{IsDone};
ghost use Rattle.cluster_events.specs.Parts.{ActorEvent, Part, moves, part};
ghost use Rattle.cluster_events.specs.Settings.{Setting};
ghost use Rattle.cluster_requests.specs.KeptEntries.{KeptEntry};
ghost use Rattle.cluster_steps.specs.Named.{rows_begun, steps, world};
ghost use Rattle.cluster_steps.specs.declared.events.Event.{Event};
ghost use Rattle.report_laws.specs.Work.{ByCommit, ByRollback, Does, Lone, WithItsLine, WorkItem, said, transaction};
ghost use Rattle.session_fronts.specs.Fronts.{IsKnown};
ghost use Rattle.session_language.specs.Language.{BeginText, CommitText, LevelText, OtherText, RollbackText};
ghost use Rattle.session_standing.specs.Standing.{GoesOn, IsCutAt, IsOpenAt, IsStanding, IsToBegin};
ghost use Rattle.session_turns.specs.Doing.{SessionAt};
ghost use Rattle.session_turns.specs.Doing as doing;
ghost use Rattle.session_work.specs.Seats.{Rests, Runs, answered_at};
ghost use Rattle.session_work.specs.Work.{left_at, place_at};

/// At first a session stands before all its lines.
pub fn sessions_stand_at_first()
    ensures { (G : Setting) (w : World KeptEntry) (s : ℕ)
        → IsStanding G w (part G s []) (record { number = 0; level = Snapshot; doing = doing.No }) (said (G.names s) G.script.body) }
{}

/// A commit or a rollback outside a transaction, and a line that sets the level, are lines alone, each with its one reply.
pub fn lines_alone()
    ensures commit { (G : Setting) (p : Part) (number : ℕ) (level : Level) (text : List ℕ) (rest : List (List ℕ)) → G.language.kind text ≡ CommitText
        → Rests p (left_at G.language (place_at number level None) (text ∷ rest))
        → Rests p (Lone (reply.Error State) ∷ left_at G.language (place_at number level None) rest) }
    ensures rollback { (G : Setting) (p : Part) (number : ℕ) (level : Level) (text : List ℕ) (rest : List (List ℕ)) → G.language.kind text ≡ RollbackText
        → Rests p (left_at G.language (place_at number level None) (text ∷ rest))
        → Rests p (Lone (reply.Error State) ∷ left_at G.language (place_at number level None) rest) }
    ensures level { (G : Setting) (p : Part) (number : ℕ) (level later : Level) (text : List ℕ) (rest : List (List ℕ)) → G.language.kind text ≡ LevelText later
        → Rests p (left_at G.language (place_at number level None) (text ∷ rest))
        → Rests p (Lone (reply.Level later) ∷ left_at G.language (place_at number later None) rest) }
    ensures told { (p : Part) (r : Reply) (others : List WorkItem) → Rests p (Lone r ∷ others) → Rests (moves p ActorEvent.Note) others }
{}

/// A line outside a transaction that begins none and is no other word is a transaction of its own.
pub fn lines_of_their_own()
    ensures { (G : Setting) (p : Part) (number : ℕ) (level : Level) (text : List ℕ) (rest : List (List ℕ)) → G.language.kind text ≡ OtherText
        → Rests p (left_at G.language (place_at number level None) (text ∷ rest))
        → Rests p (Does (transaction (number + 1) (text ∷ []) level WithItsLine) ∷ left_at G.language (place_at (number + 1) level None) rest) }
{}

/// A `begin` outside a transaction is the head of one that is about to begin, and behind its begin the session is in it, with no text.
pub fn lines_that_begin()
    ensures about { (G : Setting) (p : Part) (number : ℕ) (level : Level) (text : List ℕ) (rest : List (List ℕ)) → G.language.kind text ≡ BeginText
        → Rests p (left_at G.language (place_at number level None) (text ∷ rest)) → IsToBegin G p (number + 1) level rest }
    ensures begun { (G : Setting) (w : World KeptEntry) (p : Part) (number : ℕ) (level : Level) (rest : List (List ℕ)) (b g : ℕ)
        → IsToBegin G p number level rest → IsKnown G w (record { begin = b; gen = g })
        → IsOpenAt G w (moves p (ActorEvent.Begun b g)) number level [] rest b [] [] [] }
{}

/// A transaction goes on with each text but a commit and a rollback: the text's replies are due, and once these are told the session
/// stands behind it. At a commit or a rollback the texts before it are all that the transaction has.
pub fn lines_of_a_transaction()
    ensures on { (G : Setting) (number : ℕ) (level : Level) (texts : List (List ℕ)) (text : List ℕ) (rest : List (List ℕ))
        → (G.language.kind text ≡ CommitText → ⊥) → (G.language.kind text ≡ RollbackText → ⊥) → GoesOn G number level texts text rest }
    ensures due { (G : Setting) (w : World KeptEntry) (p : Part) (number : ℕ) (level : Level) (texts : List (List ℕ)) (text : List ℕ) (rest : List (List ℕ))
        (begin : ℕ) (ops : List RowOp) (uses : List GenidItem) (ranges : List Interval) (at : IsOpenAt G w p number level texts (text ∷ rest) begin ops uses ranges)
        → GoesOn G number level texts text rest
        → Runs G w p at.txn at.others at.start (texts ++ text ∷ [])
        (G.language.answer G.tables (rows_begun G w at.start).tables (answered_at G w at.start texts).ops text).replies }
    ensures stands { (G : Setting) (w : World KeptEntry) (p : Part) (number : ℕ) (level : Level) (texts : List (List ℕ)) (text : List ℕ) (rest : List (List ℕ))
        (begin : ℕ) (ops : List RowOp) (uses : List GenidItem) (ranges : List Interval) (q : Part)
        (at : IsOpenAt G w p number level texts (text ∷ rest) begin ops uses ranges)
        → GoesOn G number level texts text rest → Runs G w q at.txn at.others at.start (texts ++ text ∷ []) []
        → let a = G.language.answer G.tables (rows_begun G w at.start).tables (answered_at G w at.start texts).ops text in
        IsOpenAt G w q number level (texts ++ text ∷ []) rest begin a.ops (uses ++ a.uses) (ranges ++ a.ranges) }
    ensures commit { (G : Setting) (w : World KeptEntry) (p : Part) (number : ℕ) (level : Level) (texts : List (List ℕ)) (text : List ℕ) (rest : List (List ℕ))
        (begin : ℕ) (ops : List RowOp) (uses : List GenidItem) (ranges : List Interval) (at : IsOpenAt G w p number level texts (text ∷ rest) begin ops uses ranges)
        → G.language.kind text ≡ CommitText
        → (at.txn ≡ transaction number texts level ByCommit) × (at.others ≡ left_at G.language (place_at number level None) rest) }
    ensures rollback { (G : Setting) (w : World KeptEntry) (p : Part) (number : ℕ) (level : Level) (texts : List (List ℕ)) (text : List ℕ) (rest : List (List ℕ))
        (begin : ℕ) (ops : List RowOp) (uses : List GenidItem) (ranges : List Interval) (at : IsOpenAt G w p number level texts (text ∷ rest) begin ops uses ranges)
        → G.language.kind text ≡ RollbackText
        → (at.txn ≡ transaction number texts level ByRollback) × (at.others ≡ left_at G.language (place_at number level None) rest) }
{}

/// Where a transaction is cut short in place of its begin, or at a text by which it goes on, the session stands behind it; its other lines are skipped, up to
/// the commit or the rollback, behind which the session is in no transaction.
pub fn lines_behind_a_cut()
    ensures begin { (G : Setting) (p : Part) (number : ℕ) (level : Level) (rest : List (List ℕ)) (q : Part) (to : IsToBegin G p number level rest)
        → Rests q to.others → IsCutAt G q number level [] rest }
    ensures cut { (G : Setting) (w : World KeptEntry) (p : Part) (number : ℕ) (level : Level) (texts : List (List ℕ)) (text : List ℕ) (rest : List (List ℕ))
        (begin : ℕ) (ops : List RowOp) (uses : List GenidItem) (ranges : List Interval) (q : Part)
        (at : IsOpenAt G w p number level texts (text ∷ rest) begin ops uses ranges)
        → GoesOn G number level texts text rest → Rests q at.others → IsCutAt G q number level (texts ++ text ∷ []) rest }
    ensures skipped { (G : Setting) (p : Part) (number : ℕ) (level : Level) (texts : List (List ℕ)) (text : List ℕ) (rest : List (List ℕ))
        → IsCutAt G p number level texts (text ∷ rest) → GoesOn G number level texts text rest → IsCutAt G p number level (texts ++ text ∷ []) rest }
    ensures commit { (G : Setting) (p : Part) (number : ℕ) (level : Level) (texts : List (List ℕ)) (text : List ℕ) (rest : List (List ℕ))
        → IsCutAt G p number level texts (text ∷ rest) → G.language.kind text ≡ CommitText → Rests p (left_at G.language (place_at number level None) rest) }
    ensures rollback { (G : Setting) (p : Part) (number : ℕ) (level : Level) (texts : List (List ℕ)) (text : List ℕ) (rest : List (List ℕ))
        → IsCutAt G p number level texts (text ∷ rest) → G.language.kind text ≡ RollbackText → Rests p (left_at G.language (place_at number level None) rest) }
{}

/// A session that stands behind all its lines has done its work.
pub fn sessions_are_done()
    ensures { (G : Setting) (s : ℕ) (seen : List (ℕ × Event)) (at : SessionAt) → IsStanding G (world G seen) (part G s (steps G seen)) at []
        → IsDone G (steps G seen) s }
{}
