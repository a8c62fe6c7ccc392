//! What nodes hold at the end of a legal history may be opened again.
ghost use Rattle.std.specs.Prelude.{ℕ, ◌≡◌, ◌<◌, ◌≤◌, ◌⊎◌, true, List};
ghost use Rattle.core_lists.specs.Majorities.{Majority};
ghost use Rattle.cluster_consensus.specs.Events.{NodeEvent};
ghost use Rattle.cluster_consensus.specs.Histories.{Legal, after};

/// What a node accepted is promised by a majority, where a node that was never up counts as one that
/// promised: this is what the next history asks of its stores. Said without that count: a majority of
/// nodes that were up promised it, or it is what the node's own store had before.
pub fn stores_fit_again<E>()
    ensures again { (n k : ℕ) (h : List (ℕ × NodeEvent E)) → 0 < n → Legal n h
        → Majority n (λ j. ((after h).nodes j).was_up ≡ true
        → ((after h).nodes k).accepted ≤ ((after h).nodes j).promised) }
    ensures new_or_old { (n k : ℕ) (h : List (ℕ × NodeEvent E)) → Legal n h
        → Majority n (λ j. (((after h).nodes j).was_up ≡ true)
        × (((after h).nodes k).accepted ≤ ((after h).nodes j).promised))
        ⊎ (((after h).nodes k).accepted ≤ ((after h).nodes k).store_accepted) }
{}
