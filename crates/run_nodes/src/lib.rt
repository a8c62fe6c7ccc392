//! What each node of a run did with its store so far, and that this is what the closed history tells.
//!
//! ```text
//! before the run    the store of node 2 stands for promise 3, acceptance 2, [setup, a]; its count of faults is 7
//! Up                it first came up with just that
//! Down by a fault   its count is above 7
//! Up, again         with something that its store held
//! the close         it did nothing else, so its part of the history is its numbers and its log
//! ```
//!
//! Whoever lends the nodes their steps shows of each call that the node did not come up by it, or with what, and that its count of
//! faults rose just where it fell by one.
//!
//! | Notion | Definition |
//! |---|---|
//! | a node with its store, beside what that was before the run | `specs/SoFar.antt` |
//! | a node at the end, and what it gave back | `specs/Close.antt` |
//!
//! The functions here run nothing: each is a law, and its clauses are what is proved.
#![tactic(auto)]

ghost use Rattle.std.specs.Prelude.{ℕ, ◌≡◌, ◌∷◌, List, [], None, false};
ghost use Rattle.actor_trace.specs.Actors.{IsHistory, Knows};
ghost use Rattle.actor_trace.specs.History.{entries_of};
ghost use Rattle.actor_trace.specs.Lists.{In};
ghost use Rattle.actor_trace.specs.Steps.{Rests};
ghost use Rattle.cluster_events.specs.Operator.{duty};
ghost use Rattle.cluster_events.specs.Settings.{Setting, lines_to_do};
ghost use Rattle.cluster_steps.specs.Guards.{MayTakeStep};
ghost use Rattle.cluster_steps.specs.Named.{steps};
ghost use Rattle.cluster_steps.specs.declared.events.Event.{Event};
ghost use Rattle.cluster_steps.specs.declared.events.Woken.{Woken};
ghost use Rattle.history_base.specs.Sizes.{up_lengths};
ghost use Rattle.kept_log.specs.Kept.{Kept, StandForAny};
ghost use Rattle.node_state.specs.Calls.{Did};
ghost use Rattle.node_state.specs.Nodes.{events_of};
ghost use Rattle.node_state.specs.Restarts.{Wakes};
ghost use Rattle.node_state.specs.Stores.{Stored, held_of};
ghost use Rattle.operator_work.specs.Duties.{IsAt};
ghost use Rattle.run_nodes.specs.Close.{IsAtEnd, IsGivenBack};
ghost use Rattle.run_nodes.specs.SoFar.{IsCallOf, IsNodeSoFar, first_by, noted_by};
ghost use Rattle.run_results.specs.Stores.{IsNodeOf};
ghost use Rattle.store_log.specs.Keeps as keeps;

/// A node did with its store what is told of it so far, and a call more: one by which it does not come up; or it comes up, where
/// it is the first time with what its store stood for before the run.
pub fn a_store_so_far()
    ensures call { (cluster : ℕ) (bytes : List ℕ) (faults : ℕ) (es : List Event) (old new : Stored) → IsNodeSoFar cluster bytes faults old
        → Did es (held_of old) (held_of new) → IsCallOf es old new → IsNodeSoFar cluster bytes faults new }
    ensures up { (cluster : ℕ) (bytes : List ℕ) (faults : ℕ) (how : Woken) (k : Kept) (old new : Stored) → IsNodeSoFar cluster bytes faults old
        → Wakes how k (held_of old) (held_of new) → new.over.cluster ≡ old.over.cluster → new.over.faults ≡ old.over.faults
        → (first_by (events_of old.actor.made) ≡ None → ∥ StandForAny old.vote.node cluster bytes (k ∷ []) ∥₁)
        → IsNodeSoFar cluster bytes faults new }
{}

/// At the close each actor did nothing but what it knows. So the operator has no line left, the lengths with which a node came up are
/// those of its own steps, and each store is what the run leaves of it.
pub fn stores_at_the_close()
    ensures rests { (G : Setting) (n : ℕ) (actors : List (Knows Event)) (log : List (ℕ × Event)) (x : Knows Event)
        → IsHistory (λ h i e. MayTakeStep G h i e) n actors log → In x actors → x.made ≡ entries_of x.number x.seen → Rests x.number x.seen log }
    ensures operator { (G : Setting) (n : ℕ) (actors : List (Knows Event)) (log : List (ℕ × Event)) (o : Knows Event)
        → IsHistory (λ h i e. MayTakeStep G h i e) n actors log → In o actors → o.number ≡ 0 → o.made ≡ entries_of o.number o.seen
        → IsAt G o.seen [] false → (duty (lines_to_do G) (steps G log)).left ≡ [] }
    ensures noted { (G : Setting) (n : ℕ) (actors : List (Knows Event)) (log : List (ℕ × Event)) (x : Knows Event)
        → IsHistory (λ h i e. MayTakeStep G h i e) n actors log → In x actors → up_lengths x.number log ≡ noted_by (events_of x.made) }
    ensures node { (G : Setting) (count : ℕ) (actors : List (Knows Event)) (log : List (ℕ × Event))
        → IsHistory (λ h i e. MayTakeStep G h i e) count actors log → (n : Stored) → In n.actor actors → IsAtEnd G n
        → (cluster : ℕ) (old new : keeps.Stored) → IsNodeSoFar cluster old.synced old.faults n
        → IsGivenBack n new.synced new.pending new.faults → IsNodeOf G log n.vote.node cluster old new }
{}
