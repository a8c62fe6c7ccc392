//! A session loses its transaction by a fall: its node, or the one to which its commit was sent, went down since the session is
//! at this transaction.
//!
//! ```text
//! falls             2, 1, 2                      three lines, numbered 1, 2, 3, in that order
//! a session at 2    is at its transaction since the first of them, and was told its begin
//! it is lost by     2 3                          the third fall is one of its node; no loss by 3 was told before
//! ```
//!
//! The functions here run nothing: each is a law, and its clauses are what is proved.
#![tactic(auto)]

ghost use Rattle.std.specs.Prelude.{ℕ, ◌≡◌, ◌+◌, ◌≤◌, ◌++◌, ◌∷◌, [], Bool, List, Some, false, length, slice_get};
ghost use Rattle.actor_trace.specs.History.{IsLegal, entries_of};
ghost use Rattle.cdb_values.specs.declared.replies.Reply.TheVariants as reply;
ghost use Rattle.cluster_events.specs.Guards.{IsOfLoss, MayFinish, commit_id_of};
ghost use Rattle.cluster_events.specs.Parts.{ActorEvent, Opened, lines, part};
ghost use Rattle.cluster_events.specs.Settings.{Setting};
ghost use Rattle.cluster_steps.specs.Guards.{MayTakeStep};
ghost use Rattle.cluster_steps.specs.Named.{steps};
ghost use Rattle.cluster_steps.specs.declared.events.Event.{Event};
ghost use Rattle.report_laws.specs.Nodes.{downs};
ghost use Rattle.report_laws.specs.Places.{survives};
ghost use Rattle.report_laws.specs.Work.{Does, Transaction, WorkItem};
ghost use Rattle.report_text.specs.declared.reports.Line.{Line};
ghost use Rattle.report_text.specs.declared.reports.Line.TheVariants as line;
ghost use Rattle.session_losses.specs.Falls.{falls_of};
ghost use Rattle.session_losses.specs.Seen.{falls_among, falls_done};
ghost use Rattle.session_work.specs.Seats.{IsSeat};
ghost use Rattle.trace_order.specs.Done.{Done};
ghost use Rattle.trace_order.specs.Turns.{IsSoFar};

/// Each fall has its line, and these are numbered in their order.
pub fn falls_are_numbered()
    ensures count { (G : Setting) (h : List (ℕ × ActorEvent)) → downs (lines G h) ≡ length (falls_of h) }
    ensures line { (G : Setting) (h : List (ℕ × ActorEvent)) (i node : ℕ) → slice_get (falls_of h) i ≡ Some node
        → (fault : Bool) × (front : List Line) × (back : List Line) × (lines G h ≡ front ++ line.Down (i + 1) node fault ∷ back) }
{}

/// Where each node did in a history just what a loop had it do so far, the falls there are those of the loop, in its order.
pub fn falls_are_seen()
    ensures { (G : Setting) (h : List (ℕ × Event)) (n size : ℕ) (made : ℕ → List (ℕ × Event)) (done : List (Done Event))
        → IsLegal (λ g i e. MayTakeStep G g i e) h → IsSoFar n size made done
        → ((k : ℕ) → 1 ≤ k → k ≤ G.nodes → entries_of k h ≡ made k)
        → ((k : ℕ) → ((1 ≤ k) × (k ≤ G.nodes) → ⊥) → falls_among k (made k) ≡ [])
        → falls_of (steps G h) ≡ falls_done done }
{}

/// A session without hasql may be told that its transaction is lost by a fall since the session is at it: of the session's node,
/// or of one to which its commit was sent.
pub fn transactions_are_lost()
    ensures { (G : Setting) (s : ℕ) (later old : List (ℕ × Event)) (t : Transaction) (others : List WorkItem) (o : Opened) (node i : ℕ)
        → IsSeat G s (later ++ old) → (part G s (steps G old)).left ≡ Does t ∷ others
        → (part G s (steps G (later ++ old))).left ≡ Does t ∷ others → (part G s (steps G (later ++ old))).opened ≡ Some o
        → length (falls_of (steps G old)) ≤ i → slice_get (falls_of (steps G (later ++ old))) i ≡ Some node
        → survives G.script (G.names s) ≡ false → IsOfLoss G (steps G (later ++ old)) s (commit_id_of G s t o) node
        → MayFinish G (steps G (later ++ old)) s (reply.Lost node (i + 1)) }
{}
