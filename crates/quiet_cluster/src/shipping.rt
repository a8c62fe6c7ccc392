//! A leader and its log, until all that are up have it.
ghost use Rattle.std.specs.Prelude.{ℕ, ◌≡◌, ◌+◌, ◌<◌, ◌≤◌, ◌⊎◌, ◌++◌, ◌∷◌, [], true, false, List};
ghost use Rattle.core_lists.specs.Lists.{Each};
ghost use Rattle.election_core.specs.Counted.{acted};
ghost use Rattle.election_core.specs.declared.messages.Action.TheVariants.{Take};
ghost use Rattle.election_core.specs.declared.messages.Message.TheVariants.{Adopt, Ship, Ping, Pong};
ghost use Rattle.election_core.specs.declared.votes.NodeVote.{NodeVote};
ghost use Rattle.quiet_cluster.specs.Deliveries.{Answers, Delivered, HaveSame, OnlyAt};
ghost use Rattle.quiet_cluster.specs.Led.{Fits, Led, LedAlone};
ghost use Rattle.quiet_cluster.specs.Packets.{Packet, packet, appending_packets};
ghost use Rattle.quiet_cluster.specs.Polled.{IsMajorityUp};
ghost use Rattle.quiet_cluster.specs.Quiet.{Quiet};
ghost use Rattle.quiet_cluster.specs.Takes.{TakesAll};

/// What begins a shipping where a node leads, and what a node that goes down changes.
///
/// `appends`: with nothing under way the leader appends an entry and ships it. `ships`: with nothing under way a
/// node comes up, and the leader ships it its whole log; where it accepted the leader's generation, its log is no
/// longer than the leader's. `carries`: more is under way that fits, as pings and pongs. `falls`: another node than
/// the leader goes down, whatever is under way.
pub fn leaders_ship_their_log()
    ensures appends { (n : ℕ) (at to : ℕ → NodeVote) (m g l : ℕ) → Led n at [] m g l → OnlyAt m at to
        → to m ≡ record (at m) { length = l + 1 } → Led n to (appending_packets (to m) 1) m g (l + 1) }
    ensures ships { (n : ℕ) (at to : ℕ → NodeVote) (m g l i : ℕ) → Led n at [] m g l → (i ≡ m → ⊥)
        → OnlyAt i at to → 0 < i → i ≤ n → (to i).node ≡ i → (to i).leading ≡ false
        → (to i).accepted ≤ (to i).promised → ((to i).accepted ≡ g → (to i).length ≤ l)
        → Led n to (packet i (Adopt m g l) l ∷ []) m g l }
    ensures carries { (n : ℕ) (at : ℕ → NodeVote) (q s : List Packet) (m g l : ℕ)
        → Each (λ p. Fits p.message p.to m g l) s → Led n at q m g l → Led n at (q ++ s) m g l }
    ensures falls { (n : ℕ) (at to : ℕ → NodeVote) (q : List Packet) (m g l i : ℕ) → Led n at q m g l
        → (i ≡ m → ⊥) → OnlyAt i at to → (to i).up ≡ false → Led n to q m g l }
{}

/// A leader that stays up is followed by all that are up.
///
/// `delivers`: a delivery keeps a cluster led, or its leader is down. `alone`: the same where nobody that is up
/// promised above the leader. `all_know`: then, with nothing under way and a majority up, the cluster is quiet.
/// `reorders`: the order of what is under way does not matter, nor how often a packet is.
pub fn all_follow_their_leader()
    ensures delivers { (n : ℕ) (at to : ℕ → NodeVote) (p : Packet) (ps s : List Packet) (m g l : ℕ)
        → Led n at (p ∷ ps) m g l → Delivered at to p s → Led n to (ps ++ s) m g l ⊎ ((to m).up ≡ false) }
    ensures alone { (n : ℕ) (at to : ℕ → NodeVote) (p : Packet) (ps s : List Packet) (m g l : ℕ)
        → LedAlone n at (p ∷ ps) m g l → Delivered at to p s → LedAlone n to (ps ++ s) m g l ⊎ ((to m).up ≡ false) }
    ensures all_know { (n : ℕ) (at : ℕ → NodeVote) (m g l : ℕ) → LedAlone n at [] m g l
        → IsMajorityUp n at → Quiet n at m g l }
    ensures reorders { (n : ℕ) (at : ℕ → NodeVote) (q r : List Packet) (m g l : ℕ) → Led n at q m g l
        → HaveSame q r → Led n at r m g l }
{}

/// What a node does about one packet, for who delivers it.
///
/// `advances`: a log that is taken entry by entry, each by a call of `on_message` of its own, leaves the numbers
/// that one take leaves. `confirms`: a node that is up and promised no more answers a ping, and changes nothing.
pub fn nodes_take_logs_whole()
    ensures advances { (f g l : ℕ) (v u : NodeVote) → TakesAll (Adopt f g l) g l v u ⊎ TakesAll (Ship f g l) g l v u
        → u ≡ acted v (Take g l) }
    ensures confirms { (v u : NodeVote) (m g t d e : ℕ) (s : List Packet) → v.up ≡ true → v.promised ≤ g
        → Answers v (Ping m g t d) e u s → (u ≡ v) × (s ≡ packet m (Pong v.node g t) 0 ∷ []) }
{}
