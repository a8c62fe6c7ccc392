//! What is told is so, what a node holds has a source, and what a run leaves may be opened again.
//!
//! ```text
//! leads     what a leader adopted. It accepted it
//! ships     what a leader sent. It accepted that too, and the last of it is its own log
//! durables  what was told to be durable. It is durable, in the generation that it is told of
//! log       of a node that was up: it accepted it by an event, or came up with it first
//! ```
//!
//! A store has a promised and an accepted generation. `AllFit` says that each accepted one is promised by a
//! majority of the stores: this is asked of the stores that a run opens, and so of those that it leaves.
//!
//! The functions here run nothing: each is a law, and its clauses are what is proved.
#![tactic(auto)]

ghost use Rattle.std.specs.Prelude.{ℕ, ◌≡◌, ◌≤◌, ◌⊎◌, true, List, length};
ghost use Rattle.core_lists.specs.Lists.{In, Has};
ghost use Rattle.cluster_consensus.specs.Facts.{Claim};
ghost use Rattle.cluster_consensus.specs.Events.{NodeEvent};
ghost use Rattle.cluster_consensus.specs.Histories.{Legal, after};
ghost use Rattle.cluster_consensus.specs.Durable.{DurableIn};
ghost use Rattle.cluster_facts.specs.Brought.{IsBrought};
ghost use Rattle.cluster_facts.specs.Stores.{Stored, left_by, AreTaken, AllFit};

/// A node that accepted the generation of a node that leads has no longer log than this leader.
pub fn leaders_have_the_longest_log<E>()
    ensures { (n m k : ℕ) (h : List (ℕ × NodeEvent E)) → Legal n h → ((after h).nodes m).leading ≡ true
        → ((after h).nodes k).accepted ≡ ((after h).nodes m).accepted
        → length ((after h).nodes k).log ≤ length ((after h).nodes m).log }
{}

/// What is told durable is durable, in the generation that it is told of.
pub fn what_is_told_durable_is_durable<E>()
    ensures { (n m : ℕ) (h : List (ℕ × NodeEvent E)) (d : Claim E) → Legal n h → In d ((after h).nodes m).durables
        → DurableIn n (after h) d.gen d.log }
{}

/// A node that leads shipped the log that it has; what is shipped was accepted by its sender, and so was what
/// a leader adopted.
pub fn leaders_ship_what_they_have<E>()
    ensures ships { (n i : ℕ) (h : List (ℕ × NodeEvent E)) → Legal n h → ((after h).nodes i).leading ≡ true
        → Has (λ s. (s.gen ≡ ((after h).nodes i).accepted) × (s.log ≡ ((after h).nodes i).log))
        ((after h).nodes i).ships }
    ensures accepted { (n m : ℕ) (h : List (ℕ × NodeEvent E)) (s : Claim E) → Legal n h → In s ((after h).nodes m).ships
        → In s ((after h).nodes m).accepts }
    ensures adopted { (m : ℕ) (h : List (ℕ × NodeEvent E)) (l : Claim E) → In l ((after h).nodes m).leads
        → In l ((after h).nodes m).accepts }
{}

/// The log of a node that was up is one that it accepted in the run, or the one with which it came up first.
pub fn logs_are_accepted_or_brought<E>()
    ensures { (k : ℕ) (h : List (ℕ × NodeEvent E)) → ((after h).nodes k).was_up ≡ true
        → Has (λ c. (c.gen ≡ ((after h).nodes k).accepted) × (c.log ≡ ((after h).nodes k).log))
        ((after h).nodes k).accepts
        ⊎ IsBrought h k ((after h).nodes k).accepted ((after h).nodes k).log }
{}

/// A node promises no less than its store had promised.
pub fn promises_stay<E>()
    ensures { (n i : ℕ) (h : List (ℕ × NodeEvent E)) → Legal n h
        → ((after h).nodes i).store_promised ≤ ((after h).nodes i).promised }
{}

/// The stores that a run leaves fit where those that it opened did: all of them, those of nodes that were never
/// up among them.
pub fn stores_left_fit_again<E>()
    ensures { (n : ℕ) (h : List (ℕ × NodeEvent E)) (stores : ℕ → Stored) → Legal n h → AreTaken (after h) stores
        → AllFit n stores → AllFit n (λ k. left_by ((after h).nodes k) (stores k)) }
{}
