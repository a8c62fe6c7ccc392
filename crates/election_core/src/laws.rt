//! What a node decides over numbers is an event of a legal history.
ghost use Rattle.std.specs.Prelude.{ℕ, ◌≡◌, ◌<◌, ◌≤◌, false, List};
ghost use Rattle.cluster_consensus.specs.Events.{NodeEvent, change};
ghost use Rattle.cluster_consensus.specs.Events.NodeEvent.{Stand};
ghost use Rattle.cluster_consensus.specs.Enabled.{Enabled};
ghost use Rattle.cluster_consensus.specs.Facts.{Own, World};
ghost use Rattle.election_core.specs.Counted.{counted, acted};
ghost use Rattle.election_core.specs.Allowed.{MayStand, Allows, AllowsExactly};
ghost use Rattle.election_core.specs.Senders.{sender_of};
ghost use Rattle.election_core.specs.Told.{IsPart, IsMessageTold, IsCounted, IsEventOf};
ghost use Rattle.election_core.specs.Without.{CountsAll, LacksOnly, comes_up};
ghost use Rattle.election_core.specs.declared.votes.NodeVote.{NodeVote};
ghost use Rattle.election_core.specs.declared.messages.Message.{Message};
ghost use Rattle.election_core.specs.declared.messages.Action.{Action};
ghost use Rattle.election_core.specs.declared.messages.Action.TheVariants.{Nothing, Promise};

/// A node that may stand by its numbers may stand in the history, and its numbers afterwards are those of
/// its part.
pub fn standing_is_enabled<E>()
    ensures enabled { (n : ℕ) (w : World E) (v : NodeVote) (g : ℕ) → IsPart v (w.nodes v.node) → MayStand v g
        → Enabled n w v.node (w.nodes v.node) (Stand g) }
    ensures part { (n : ℕ) (w : World E) (v : NodeVote) (g : ℕ) → IsPart v (w.nodes v.node) → MayStand v g
        → IsPart (acted v (Promise g v.node)) (change v.node (w.nodes v.node) (Stand g)) }
{}

/// Counting a told message leaves the part, and each vote and length that is counted stays told.
pub fn counting_keeps_the_part<E>()
    ensures part { (v : NodeVote) (m : Message) (o : Own E) → IsPart v o → IsPart (counted v m) o }
    ensures counted { (w : World E) (v : NodeVote) (m : Message) → 0 < sender_of m → sender_of m ≤ 7
        → IsCounted w v → IsMessageTold w m → IsCounted w (counted v m) }
{}

/// What a told message allows by the numbers is an event that may happen in the history, and the numbers
/// after the action are those of the part after the event.
pub fn what_a_message_allows_is_enabled<E>()
    ensures { (n : ℕ) (w : World E) (v : NodeVote) (m : Message) (a : Action) → v.nodes ≡ n
        → IsPart v (w.nodes v.node) → IsCounted w v → IsMessageTold w m → 0 < sender_of m → sender_of m ≤ 7
        → Allows v m a
        → (e : NodeEvent E) × IsEventOf (counted v m) a e × Enabled n w v.node (w.nodes v.node) e
        × IsPart (acted (counted v m) a) (change v.node (w.nodes v.node) e) }
{}

/// A message that allows nothing by the numbers enables nothing: each event of the node that may happen in
/// the history may happen as well in one that lacks what the message tells. All votes and lengths that were
/// told to the node are counted, those of this message too. Coming up is left out, since it may bring what
/// was under way when the node went down.
pub fn a_message_that_allows_nothing_enables_nothing<E>()
    ensures { (n : ℕ) (w u : World E) (v : NodeVote) (m : Message) (e : NodeEvent E) → v.nodes ≡ n
        → IsPart v (w.nodes v.node) → CountsAll w (counted v m) → LacksOnly m w u → AllowsExactly v m Nothing
        → comes_up e ≡ false → Enabled n w v.node (w.nodes v.node) e
        → Enabled n u v.node (w.nodes v.node) e }
{}
