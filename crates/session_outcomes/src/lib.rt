//! What a session and its leader need to tell how a commit ended, in every history of a run.
//!
//! ```text
//! a session      begins, is answered, and sends its commit: once, since it sent none since it began
//!                to a leader whose generation is none below that of the begin, where a majority promised nothing above it
//! its leader     settles it: the refusal is told in the generation that it leads
//!                or its entry stands in the leader's log; and what the leader learned since is told durable
//! the session    may be told the refusal, or the position of the entry
//! ```
//!
//! The functions here run nothing: each is a law, and its clauses are what is proved.
#![tactic(auto)]

ghost use Rattle.std.specs.Prelude.{ℕ, ◌≡◌, ◌<◌, ◌≤◌, ◌++◌, List, ◌∷◌, Some, length, true, false};
ghost use Rattle.std.specs.declared.snapshot.Snapshot.{Snapshot};
ghost use Rattle.actor_trace.specs.History.{IsLegal, entries_of};
ghost use Rattle.actor_trace.specs.Steps.{Adds, Rests};
ghost use Rattle.cdb_values.specs.declared.replies.Reply.{Reply};
ghost use Rattle.cluster_events.specs.Guards.{AreNamedApart, IsKept, IsLegalHistory, IsRefused, commit_id_of};
ghost use Rattle.cluster_events.specs.Parts.{ActorEvent, Opened, field, part};
ghost use Rattle.cluster_events.specs.Settings.{Setting};
ghost use Rattle.cluster_requests.specs.Identities.{HasAt};
ghost use Rattle.cluster_requests.specs.Requests.{Field};
ghost use Rattle.cluster_steps.specs.Guards.{MayTakeStep};
ghost use Rattle.cluster_steps.specs.Named.{refusal_line, steps, world};
ghost use Rattle.cluster_steps.specs.declared.events.Event.{Event};
ghost use Rattle.cluster_steps.specs.declared.events.Event.TheVariants as event;
ghost use Rattle.core_lists.specs.Lists.{Has};
ghost use Rattle.core_lists.specs.Majorities.{Majority};
ghost use Rattle.phys_log.specs.declared.entries.CommitId.{CommitId};
ghost use Rattle.phys_log.specs.declared.requests.Decision.{Decision};
ghost use Rattle.report_laws.specs.Work.{Does, Transaction, WorkItem};
ghost use Rattle.session_fronts.specs.Fronts.{IsAnswered};
ghost use Rattle.session_fronts.specs.Rounds.{EndsWith};
ghost use Rattle.session_outcomes.specs.Sends.{AreUnsent, IsNoSend, IsSentAlone, has_sent};

/// Where a session sent no commit since its transaction began, none of that transaction was sent, by anybody. One that it sends
/// then is the only one, and stays that.
pub fn sessions_send_once()
    ensures unsent { (G : Setting) (h : List (ℕ × ActorEvent)) (s : ℕ) (t : Transaction) (o : Opened) (others : List WorkItem) → AreNamedApart G
        → IsLegalHistory G h → has_sent s h ≡ false → (part G s h).left ≡ Does t ∷ others → (part G s h).opened ≡ Some o
        → AreUnsent (commit_id_of G s t o) (field h).sends }
    ensures alone { (G : Setting) (s : ℕ) (old new : List (ℕ × Event)) (t : Transaction) (others : List WorkItem) (o : Opened) (master gen : ℕ)
        → AreNamedApart G → IsLegal (λ g i e. MayTakeStep G g i e) new → Adds s (event.Send master gen) old new
        → (part G s (steps G old)).left ≡ Does t ∷ others → (part G s (steps G old)).opened ≡ Some o
        → AreUnsent (commit_id_of G s t o) (field (steps G old)).sends
        → IsSentAlone (commit_id_of G s t o) master gen (field (steps G new)).sends }
    ensures stays { (G : Setting) (s : ℕ) (old new : List (ℕ × Event)) (t : Transaction) (o : Opened) (master gen : ℕ)
        → AreNamedApart G → IsLegal (λ g i e. MayTakeStep G g i e) new → Rests s old new
        → IsSentAlone (commit_id_of G s t o) master gen (field (steps G old)).sends
        → IsSentAlone (commit_id_of G s t o) master gen (field (steps G new)).sends }
{}

/// A session knows by its own events whether it sent a commit since it began.
pub fn sessions_know_what_they_sent()
    ensures begun { (G : Setting) (s b g : ℕ) (old new : List (ℕ × Event)) → Adds s (event.Begun b g) old new → has_sent s (steps G new) ≡ false }
    ensures more { (G : Setting) (s : ℕ) (e : Event) (old new : List (ℕ × Event)) → IsNoSend e → Adds s e old new
        → has_sent s (steps G new) ≡ has_sent s (steps G old) }
    ensures rests { (G : Setting) (s : ℕ) (old new : List (ℕ × Event)) → Rests s old new → has_sent s (steps G new) ≡ has_sent s (steps G old) }
{}

/// A begin is of no generation above one above which a majority promised nothing.
pub fn begins_are_below()
    ensures { (G : Setting) (h : List (ℕ × Event)) (o : Opened) (g : ℕ) → IsLegal (λ g i e. MayTakeStep G g i e) h → IsAnswered (world G h) o
        → Majority G.nodes (λ k. ((world G h).nodes k).promised ≤ g) → o.gen ≤ g }
{}

/// What a leader learns it tells: where its durable number grew in the generation that it leads, each entry of its log up to there
/// may be told as a commit.
pub fn commits_are_learned()
    ensures { (G : Setting) (k position : ℕ) (id : CommitId) (later old : List (ℕ × Event)) → IsLegal (λ g i e. MayTakeStep G g i e) (later ++ old)
        → ((world G (later ++ old)).nodes k).leading ≡ true
        → ((world G old).nodes k).accepted ≡ ((world G (later ++ old)).nodes k).accepted
        → ((world G old).nodes k).durable < ((world G (later ++ old)).nodes k).durable
        → HasAt id position ((world G (later ++ old)).nodes k).log → position ≤ ((world G (later ++ old)).nodes k).durable
        → IsKept (field (steps G (later ++ old))) id position }
{}

/// Whose last step told a refusal told it in the generation that it accepts; and where the request was sent in that generation
/// alone, its session may be told it, once its position is told durable there.
pub fn refusals_are_told()
    ensures told { (G : Setting) (h : List (ℕ × Event)) (i : ℕ) (id : Snapshot CommitId) (d : Snapshot Decision) (told : Reply)
        → refusal_line G.tables d.value ≡ Some told → EndsWith (event.Settle id d) (entries_of i h)
        → Has (λ x. (x.id ≡ id.value) × (x.why ≡ told) × (x.gen ≡ ((world G h).nodes i).accepted)) (field (steps G h)).settles }
    ensures refused { (f : Field) (id : CommitId) (k : ℕ) (why : Reply) (master gen j : ℕ)
        → Has (λ x. (x.id ≡ id) × (x.why ≡ why) × (x.gen ≡ gen)) f.settles → IsSentAlone id master gen f.sends
        → Has (λ c. (c.gen ≡ gen) × (k ≤ length c.log)) (f.core.nodes j).durables → IsRefused f id k why }
{}
