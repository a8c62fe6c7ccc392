//! A queue that is run until nothing is under way.
ghost use Rattle.std.specs.Prelude.{ℕ, ◌≡◌, ◌-◌, ◌<◌, ◌≤◌, ◌⊎◌, ◌++◌, ◌∷◌, [], true, false, List, length, slice_set};
ghost use Rattle.core_lists.specs.Majorities.{count};
ghost use Rattle.election_core.specs.declared.votes.NodeVote.{NodeVote};
ghost use Rattle.quiet_cluster.specs.Deliveries.{Delivered, Outcome, Run};
ghost use Rattle.quiet_cluster.specs.Led.{Led, LedAlone};
ghost use Rattle.quiet_cluster.specs.Loads.{load, weight};
ghost use Rattle.quiet_cluster.specs.Packets.{Packet};
ghost use Rattle.quiet_cluster.specs.Places.{at_of, nobody};
ghost use Rattle.quiet_cluster.specs.Polled.{IsMajorityUp, Polled};

/// A loop that delivers packets ends.
///
/// `answers`: what a node of at most seven sends about a packet weighs less than it. `lighter`: so each delivery
/// makes the queue lighter. `fewer`: a round whose candidate went down leaves fewer nodes up. `down`: who is down
/// stays down.
pub fn queues_end()
    ensures answers { (v u : NodeVote) (p : Packet) (s : List Packet) → Outcome v p u s
        → (u.nodes ≤ 7) ⊎ (s ≡ []) → load s < weight p.message }
    ensures lighter { (at to : ℕ → NodeVote) (p : Packet) (ps s : List Packet) → (to p.to).nodes ≤ 7
        → Delivered at to p s → load (ps ++ s) < load (p ∷ ps) }
    ensures fewer { (n c : ℕ) (at to : ℕ → NodeVote) (q : List Packet) → Run at q to → 0 < c → c ≤ n
        → (at c).up ≡ true → (to c).up ≡ false → count n (λ k. (to k).up) < count n (λ k. (at k).up) }
    ensures down { (k : ℕ) (at to : ℕ → NodeVote) (q : List Packet) → Run at q to → (at k).up ≡ false
        → (to k).up ≡ false }
{}

/// What a whole queue leaves, where the candidate, or the leader, is up in the end.
///
/// `elected`: of an election, with a majority up in the end, a leader above whom nobody that is up promised.
/// `stood`: with fewer up, a leader or a candidate. `led`, `alone`: of a cluster that is led, one that is led.
pub fn runs_leave_leaders()
    ensures elected { (n : ℕ) (at to : ℕ → NodeVote) (q : List Packet) (c g a l : ℕ) → Polled n at q c g a l
        → Run at q to → (to c).up ≡ true → IsMajorityUp n to → LedAlone n to [] c g l }
    ensures stood { (n : ℕ) (at to : ℕ → NodeVote) (q : List Packet) (c g a l : ℕ) → Polled n at q c g a l
        → Run at q to → (to c).up ≡ true → Polled n to [] c g a l ⊎ LedAlone n to [] c g l }
    ensures led { (n : ℕ) (at to : ℕ → NodeVote) (q : List Packet) (m g l : ℕ) → Led n at q m g l
        → Run at q to → (to m).up ≡ true → Led n to [] m g l }
    ensures alone { (n : ℕ) (at to : ℕ → NodeVote) (q : List Packet) (m g l : ℕ) → LedAlone n at q m g l
        → Run at q to → (to m).up ≡ true → LedAlone n to [] m g l }
{}

/// Nodes in a list, the first one's number 1.
///
/// `set`: a node is put in its place. `others`: the other nodes stay. `beyond`: who has no place is down.
pub fn nodes_have_places()
    ensures set { (vs : List NodeVote) (i : ℕ) (u : NodeVote) → 0 < i → i ≤ length vs
        → at_of (slice_set vs (i - 1) u) i ≡ u }
    ensures others { (vs : List NodeVote) (i : ℕ) (u : NodeVote) (k : ℕ) → 0 < i → (k ≡ i → ⊥)
        → at_of (slice_set vs (i - 1) u) k ≡ at_of vs k }
    ensures beyond { (vs : List NodeVote) (i : ℕ) → (i ≡ 0) ⊎ (length vs < i) → at_of vs i ≡ nobody }
{}
