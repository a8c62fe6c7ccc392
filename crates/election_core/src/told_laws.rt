//! What a node counted stays told, and what was shipped in a generation is one log.
ghost use Rattle.std.specs.Prelude.{ℕ, ◌≡◌, ◌<◌, ◌≤◌, List, length};
ghost use Rattle.core_lists.specs.Fronts.{Front};
ghost use Rattle.core_lists.specs.Lists.{In};
ghost use Rattle.cluster_consensus.specs.Events.{NodeEvent};
ghost use Rattle.cluster_consensus.specs.Facts.{Claim, World};
ghost use Rattle.cluster_consensus.specs.Histories.{Legal, after};
ghost use Rattle.election_core.specs.Counted.{acted};
ghost use Rattle.election_core.specs.More.{TellsMore};
ghost use Rattle.election_core.specs.Told.{IsCounted};
ghost use Rattle.election_core.specs.declared.votes.NodeVote.{NodeVote};
ghost use Rattle.election_core.specs.declared.messages.Action.{Action};

/// Each vote and length that is counted stays told: after whatever the node does, and whatever more is told.
pub fn what_is_counted_stays_told<E>()
    ensures acted { (w : World E) (v : NodeVote) (a : Action) → IsCounted w v → IsCounted w (acted v a) }
    ensures others { (w u : World E) (v : NodeVote) → TellsMore w u → IsCounted w v → IsCounted u v }
{}

/// Of what was shipped in one generation, two fronts that are as long are the same, whoever shipped it: so a node that
/// knows the generation and the length of a log that it may take knows the log.
pub fn one_generation_ships_one_log<E>()
    ensures { (n m k : ℕ) (h : List (ℕ × NodeEvent E)) (s c : Claim E) (xs ys : List E) → Legal n h
        → 0 < m → m ≤ n → 0 < k → k ≤ n
        → In s ((after h).nodes m).ships → In c ((after h).nodes k).ships → s.gen ≡ c.gen
        → Front xs s.log → Front ys c.log → length xs ≡ length ys → xs ≡ ys }
{}
