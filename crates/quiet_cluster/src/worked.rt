//! Three nodes, written out: the premises of the laws are met.
ghost use Rattle.std.specs.Prelude.{◌∷◌, []};
ghost use Rattle.election_core.specs.declared.messages.Message.TheVariants.{Adopt};
ghost use Rattle.quiet_cluster.specs.Deliveries.{Run};
ghost use Rattle.quiet_cluster.specs.Led.{LedAlone};
ghost use Rattle.quiet_cluster.specs.Packets.{packet, appending_packets, standing_packets};
ghost use Rattle.quiet_cluster.specs.Polled.{Best};
ghost use Rattle.quiet_cluster.specs.Quiet.{Quiet};
ghost use Rattle.quiet_cluster.specs.ThreeNodes.{again, alone, chosen, first, joined, leader, longer, standing, voter};

/// An election that node 1 wins, by the votes of nodes 1 and 2, with node 3 down: ten deliveries, and a quiet
/// cluster.
pub fn three_nodes_elect()
    ensures best { Best 3 first 1 5 }
    ensures election { Run standing (standing_packets (voter 1) 5) chosen }
    ensures quiet { Quiet 3 chosen 1 5 2 }
{}

/// From there: an entry more, at which node 2 falls, leaves a leader alone, which is not quiet; node 3 comes up,
/// and the cluster is quiet again.
pub fn three_nodes_go_on()
    ensures append { Run longer (appending_packets (leader 3 2 2 2 0) 1) alone }
    ensures alone { LedAlone 3 alone [] 1 5 3 }
    ensures few { Quiet 3 alone 1 5 3 → ⊥ }
    ensures arrival { Run joined (packet 3 (Adopt 1 5 3) 3 ∷ []) again }
    ensures quiet { Quiet 3 again 1 5 3 }
{}
