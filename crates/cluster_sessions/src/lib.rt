//! What a session needs to do its events by their names, in every history of a run.
//!
//! ```text
//! begun at 2, in generation 3      the leader of 3 knew two entries as durable when it answered
//! the history                      a log of generation 3 was shipped that is so long: its first two entries are
//!                                  those of every durable log that is so long
//! sent at the commit               what the transaction does on the rows of these two entries
//! ```
//!
//! The functions here run nothing: each is a law, and its clauses are what is proved.
#![tactic(auto)]

ghost use Rattle.std.specs.Prelude.{ℕ, ◌≡◌, ◌≢◌, ◌≤◌, List, [], Some, length, take, true};
ghost use Rattle.actor_trace.specs.History.{IsLegal};
ghost use Rattle.cluster_consensus.specs.Durable.{DurableIn};
ghost use Rattle.cluster_consensus.specs.Facts.{Claim};
ghost use Rattle.cluster_events.specs.Guards.{Commits, IsKept, Sends};
ghost use Rattle.cluster_events.specs.Parts.{Opened, field, part};
ghost use Rattle.cluster_events.specs.Settings.{Setting};
ghost use Rattle.cluster_requests.specs.Identities.{HasAt};
ghost use Rattle.cluster_requests.specs.KeptEntries.{KeptEntry, state_of};
ghost use Rattle.cluster_steps.specs.Guards.{IsLogFound, IsToSend, MayTakeStep};
ghost use Rattle.cluster_steps.specs.Named.{begin_of, rows_begun, sent_of, steps, current_transaction, world};
ghost use Rattle.cluster_steps.specs.declared.events.Event.{Event};
ghost use Rattle.core_lists.specs.Lists.{Has, In};
ghost use Rattle.phys_log.specs.declared.entries.CommitId.{CommitId};

/// The log that a session's begin names was shipped, and its rows are those at the begin position of every durable log
/// that reaches it.
pub fn begins_are_found()
    ensures named { (G : Setting) (h : List (ℕ × Event)) (s : ℕ) (o : Opened) → IsLegal (λ g i e. MayTakeStep G g i e) h
        → (part G s (steps G h)).opened ≡ Some o → IsLogFound G.nodes (world G h) o.gen o.begin }
    ensures rows { (G : Setting) (h : List (ℕ × Event)) (s g : ℕ) (o : Opened) (d : List KeptEntry) → IsLegal (λ g i e. MayTakeStep G g i e) h
        → (part G s (steps G h)).opened ≡ Some o → DurableIn G.nodes (world G h) g d → o.begin ≤ length d
        → rows_begun G (world G h) o ≡ state_of (take o.begin d) }
{}

/// What a session sends by its name at the commit of a transaction with operations is what the transaction was answered, where
/// the node that it sends to led the generation that it names, no lower than that of its begin.
pub fn commits_are_sent_by_name()
    ensures { (G : Setting) (h : List (ℕ × Event)) (i master gen : ℕ) (c : Commits G (steps G h) i) → IsLegal (λ g i e. MayTakeStep G g i e) h
        → c.ran.ops ≢ [] → c.start.gen ≤ gen → Has (λ l. l.gen ≡ gen) ((world G h).nodes master).leads
        → IsToSend G (world G h) (part G i (steps G h))
        × Sends G (steps G h) i (sent_of G (world G h) i master gen (current_transaction (part G i (steps G h)).left) (begin_of (part G i (steps G h)).opened)) }
{}

/// A session may be told that its transaction is committed at a position where a leader's log has its entry there, once a length
/// that is told durable in the leader's generation reaches it.
pub fn a_leader_tells_what_is_committed()
    ensures { (G : Setting) (h : List (ℕ × Event)) (i j position : ℕ) (id : CommitId) (d : Claim KeptEntry) → IsLegal (λ g k e. MayTakeStep G g k e) h
        → ((world G h).nodes i).leading ≡ true → HasAt id position ((world G h).nodes i).log
        → In d ((world G h).nodes j).durables → d.gen ≡ ((world G h).nodes i).accepted → position ≤ length d.log
        → IsKept (field (steps G h)) id position }
{}
