//! Where a session is, which nodes are up at one place of the history, and what it may do then.
//!
//! ```text
//! the place         a history that each node knows, and at whose end each of them is as it is now
//! nodes 1, 3 up     the lines up to there have 1 and 3 up, and 2 down
//! a session at 2    it may move to 3
//! of 5 two are up   a begin, and a commit with operations, may be told that no majority is up
//! ```
//!
//! What may be done there may be done later, while the session does nothing: so says the machine's law.
//!
//! The functions here run nothing: each is a law, and its clauses are what is proved.
#![tactic(auto)]

ghost use Rattle.std.specs.Prelude.{ℕ, ◌≡◌, ◌≢◌, ◌≤◌, Bool, List, [], ◌∷◌, Some, true, false};
ghost use Rattle.actor_trace.specs.History.{entries_of};
ghost use Rattle.actor_trace.specs.Steps.{Adds, Rests as NoSteps};
ghost use Rattle.cdb_values.specs.declared.replies.Reply.TheVariants as reply;
ghost use Rattle.cluster_events.specs.Guards.{Commits, MayFinish};
ghost use Rattle.cluster_events.specs.Parts.{ActorEvent, field, lines, part};
ghost use Rattle.cluster_events.specs.Settings.{Setting};
ghost use Rattle.cluster_events.specs.Sites.{next_up, site};
ghost use Rattle.cluster_steps.specs.Guards.{MayTakeStep};
ghost use Rattle.cluster_steps.specs.Named.{steps};
ghost use Rattle.cluster_steps.specs.declared.events.Event.{Event};
ghost use Rattle.cluster_steps.specs.declared.events.Event.TheVariants as event;
ghost use Rattle.report_laws.specs.Nodes.{are_few, is_up, up_count};
ghost use Rattle.report_laws.specs.Work.{Does, Transaction, WorkItem};
ghost use Rattle.report_text.specs.declared.reports.Line.{Line};
ghost use Rattle.session_fronts.specs.Rounds.{EndsWith};
ghost use Rattle.session_sites.specs.Sites.{AgreeUpTo, IsNoMove, count_by, next_by};
ghost use Rattle.session_work.specs.Seats.{IsSeat, Rests};

/// A node that was up is up by the lines exactly where it is, and one whose last step was a fall is down. So the next node that is
/// up, and how many are, can be asked of the nodes.
pub fn lines_tell_which_are_up()
    ensures up { (G : Setting) (h : List (ℕ × ActorEvent)) (k : ℕ) → ((field h).core.nodes k).was_up ≡ true
        → is_up k (lines G h) ≡ ((field h).core.nodes k).up }
    ensures fallen { (G : Setting) (h : List (ℕ × Event)) (k : ℕ) (fault : Bool) → EndsWith (event.Down fault) (entries_of k h)
        → is_up k (lines G (steps G h)) ≡ false }
    ensures next { (more n : ℕ) (ls : List Line) (up : ℕ → Bool) (k : ℕ) → 1 ≤ n → k ≤ n → AgreeUpTo n (λ j. is_up j ls) up
        → next_up more n ls k ≡ next_by more n up k }
    ensures count { (n m : ℕ) (ls : List Line) (up : ℕ → Bool) → n ≤ m → AgreeUpTo m (λ j. is_up j ls) up → up_count n ls ≡ count_by n up }
{}

/// A session is where it moved last.
pub fn sessions_keep_their_site()
    ensures rests { (G : Setting) (s : ℕ) (old new : List (ℕ × Event)) → NoSteps s old new → site G s (steps G new) ≡ site G s (steps G old) }
    ensures stays { (G : Setting) (s : ℕ) (e : Event) (old new : List (ℕ × Event)) → IsNoMove e → Adds s e old new
        → site G s (steps G new) ≡ site G s (steps G old) }
    ensures moved { (G : Setting) (s node : ℕ) (old new : List (ℕ × Event)) → Adds s (event.Move node) old new
        → (site G s (steps G new)).node ≡ node }
{}

/// A session whose node is down may move to the next one that is up; and where few nodes are up, a begin may be told that, and so
/// may a commit with operations.
pub fn sessions_move()
    ensures move_on { (G : Setting) (s : ℕ) (seen : List (ℕ × Event)) (node : ℕ) → IsSeat G s seen
        → is_up (site G s (steps G seen)).node (lines G (steps G seen)) ≡ false
        → next_up G.nodes G.nodes (lines G (steps G seen)) (site G s (steps G seen)).node ≡ Some node → MayTakeStep G seen s (event.Move node) }
    ensures lacks { (G : Setting) (s : ℕ) (seen : List (ℕ × Event)) (t : Transaction) (others : List WorkItem) (up : ℕ)
        → Rests (part G s (steps G seen)) (Does t ∷ others) → up ≡ up_count G.script.nodes (lines G (steps G seen))
        → are_few G.script.nodes (lines G (steps G seen)) ≡ true
        → MayFinish G (steps G seen) s (reply.NoMajority up G.script.nodes) }
    ensures lacks_there { (G : Setting) (s : ℕ) (seen : List (ℕ × Event)) (up : ℕ) (c : Commits G (steps G seen) s) → c.ran.ops ≢ []
        → up ≡ up_count G.script.nodes (lines G (steps G seen)) → are_few G.script.nodes (lines G (steps G seen)) ≡ true
        → MayFinish G (steps G seen) s (reply.NoMajority up G.script.nodes) }
{}
