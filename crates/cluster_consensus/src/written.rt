//! The laws speak of something: histories of three nodes, written out in `specs/ThreeNodes.antt`.
ghost use Rattle.std.specs.Prelude.{◌≡◌, true, false, [], ◌∷◌};
ghost use Rattle.cluster_consensus.specs.Histories.{Legal, after};
ghost use Rattle.cluster_consensus.specs.Durable.{DurableIn};
ghost use Rattle.cluster_consensus.specs.ThreeNodes.{one_entry, grown_on, two_leaders, tail_dropped};

/// The entry 7 is durable when its leader falls. Another node is elected, and the log grows on from 7.
pub fn a_leader_falls_and_the_log_grows_on()
    ensures legal { Legal 3 grown_on }
    ensures durable { DurableIn 3 (after one_entry) 1 (7 ∷ []) }
    ensures fallen { ((after grown_on).nodes 1).up ≡ false }
    ensures grown { DurableIn 3 (after grown_on) 2 (7 ∷ 8 ∷ []) }
{}

/// A leader that nobody follows any more appends 9 while a newer one makes 8 durable in its place. It
/// leads on until it hears of the newer generation, and then drops 9.
pub fn a_stale_leader_drops_its_tail()
    ensures legal { Legal 3 tail_dropped }
    ensures stale { (((after two_leaders).nodes 1).leading ≡ true) × (((after two_leaders).nodes 1).log ≡ 7 ∷ 9 ∷ []) }
    ensures newer { (((after two_leaders).nodes 2).leading ≡ true) × (((after two_leaders).nodes 2).log ≡ 7 ∷ 8 ∷ []) }
    ensures durable { DurableIn 3 (after two_leaders) 2 (7 ∷ 8 ∷ []) }
    ensures dropped { (((after tail_dropped).nodes 1).leading ≡ false) × (((after tail_dropped).nodes 1).log ≡ 7 ∷ 8 ∷ []) }
{}
