//! Why a begin is fresh: no position that was answered before a begin was asked for is above the one that
//! it is answered by, whoever had answered it.
//!
//! ```text
//! session            leader of 2                         node 3
//! Asks 5 ----------> Probe 5: it leads, and knows all that it adopted as durable
//!                    Ping { ask 5, generation 2, position 2 } ------> Confirm 5 2: it promised no more than 2
//!        <---------- position 2              <------ Pong { ask 5, generation 2 }
//! ```
//!
//! A begin may be answered by a leader's position once a majority, with that leader, confirmed the very
//! generation of its answer (`CanBegin`). A position counts as answered where somebody told it durable, or
//! answered a begin by it (`IsPositionAnswered`).
//!
//! Who confirms has promised no greater generation, so at the ask no greater one was led: the majority
//! that granted it shares a node with the one that confirms. So all that was answered before the ask was
//! answered in the begin's generation or a lower one. In a lower one it is a front of what the leader
//! adopted, all of which the leader knew as durable; in its own one it was answered by this very leader,
//! whose durable number does not fall while it leads.
//!
//! The functions here run nothing: each is a law, and its clauses are what is proved.
#![tactic(auto)]

ghost use Rattle.std.specs.Prelude.{ℕ, ◌≡◌, ◌≤◌, ◌++◌, ◌∷◌, List, length};
ghost use Rattle.core_lists.specs.Lists.{In, Has};
ghost use Rattle.cluster_consensus.specs.Facts.{Claim, Ping};
ghost use Rattle.cluster_consensus.specs.Events.{NodeEvent};
ghost use Rattle.cluster_consensus.specs.Events.NodeEvent.{Asks};
ghost use Rattle.cluster_consensus.specs.Histories.{Legal, after};
ghost use Rattle.cluster_consensus.specs.Durable.{DurableAt};
ghost use Rattle.cluster_begins.specs.Begins.{CanBegin, IsPositionAnswered};
ghost use Rattle.cluster_consensus.specs.ThreeNodes.{grown_on};
ghost use Rattle.cluster_begins.specs.AfterAFall.{begun};

/// Let a begin be asked for at some place of a history, and be answered by position `b` in generation `g`
/// at a later place. Then `b` is at least every position that had been answered, by whomever, when it was
/// asked for; and `g` is at least every generation that had been led.
pub fn begins_are_fresh<E>()
    ensures fresh { (n s t b g p q : ℕ) (before later : List (ℕ × NodeEvent E))
        → Legal n (later ++ (s, Asks t) ∷ before)
        → CanBegin n (after (later ++ (s, Asks t) ∷ before)) t b g
        → IsPositionAnswered (after before) p q → p ≤ b }
    ensures led { (n s t b g m : ℕ) (before later : List (ℕ × NodeEvent E)) (l : Claim E)
        → Legal n (later ++ (s, Asks t) ∷ before)
        → CanBegin n (after (later ++ (s, Asks t) ∷ before)) t b g
        → In l ((after before).nodes m).leads → l.gen ≤ g }
{}

/// The position of a begin is that of a durable log.
pub fn begin_positions_are_durable<E>()
    ensures { (n t b g : ℕ) (h : List (ℕ × NodeEvent E)) → Legal n h → CanBegin n (after h) t b g
        → (d : List E) × DurableAt n h d × (b ≤ length d) }
{}

/// A leader that answers a begin led in the generation that it names, and knew all that it had adopted
/// there as durable.
pub fn answering_leaders_know_what_they_adopted<E>()
    ensures { (n m : ℕ) (h : List (ℕ × NodeEvent E)) (x : Ping) → Legal n h → In x ((after h).nodes m).pings
        → Has (λ l. (l.gen ≡ x.gen) × (length l.log ≤ x.durable)) ((after h).nodes m).leads }
{}

/// It happens: after position 1 was answered its leader falls, the next one makes position 2 durable, and
/// a begin that is asked for then is answered by 2, by the word of two nodes.
pub fn a_begin_after_a_fall()
    ensures legal { Legal 3 begun }
    ensures before { IsPositionAnswered (after grown_on) 1 1 }
    ensures begin { CanBegin 3 (after begun) 5 2 2 }
{}
