//! An election, from its beginning to its end.
ghost use Rattle.std.specs.Prelude.{ℕ, ◌≡◌, ◌⊎◌, ◌++◌, ◌∷◌, [], false, List};
ghost use Rattle.election_core.specs.Counted.{acted};
ghost use Rattle.election_core.specs.declared.messages.Action.TheVariants.{Promise};
ghost use Rattle.election_core.specs.declared.votes.NodeVote.{NodeVote};
ghost use Rattle.quiet_cluster.specs.Deliveries.{Delivered, HaveSame, OnlyAt};
ghost use Rattle.quiet_cluster.specs.Led.{LedAlone};
ghost use Rattle.quiet_cluster.specs.Packets.{Packet, standing_packets};
ghost use Rattle.quiet_cluster.specs.Polled.{Best, IsMajorityUp, Polled};

/// Whoever is the best of those that are up is elected, or goes down, or few are up.
///
/// `begins`: where the best of those that are up stands above all their promises, with nothing under way, each node
/// that is up gave it its vote, or will. `elects`: a delivery keeps that so; or the candidate leads, and nobody
/// that is up promised above it; or the candidate is down. `votes_end`: with nothing under way and a majority up,
/// no candidate is left that does not lead. `reorders`: the order of what is under way does not matter, nor how often
/// a packet is.
pub fn the_best_is_elected()
    ensures begins { (n : ℕ) (at to : ℕ → NodeVote) (c g : ℕ) → Best n at c g → OnlyAt c at to
        → to c ≡ acted (at c) (Promise g c)
        → Polled n to (standing_packets (to c) g) c g (at c).accepted (at c).length }
    ensures elects { (n : ℕ) (at to : ℕ → NodeVote) (p : Packet) (ps s : List Packet) (c g a l : ℕ)
        → Polled n at (p ∷ ps) c g a l → Delivered at to p s
        → Polled n to (ps ++ s) c g a l ⊎ LedAlone n to (ps ++ s) c g l ⊎ ((to c).up ≡ false) }
    ensures votes_end { (n : ℕ) (at : ℕ → NodeVote) (c g a l : ℕ) → Polled n at [] c g a l
        → IsMajorityUp n at → ⊥ }
    ensures reorders { (n : ℕ) (at : ℕ → NodeVote) (q r : List Packet) (c g a l : ℕ) → Polled n at q c g a l
        → HaveSame q r → Polled n at r c g a l }
{}
