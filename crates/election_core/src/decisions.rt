//! What a node does when it stands, and about a message.
ghost use Rattle.std.specs.Prelude.{ℕ, ◌≡◌, ◌+◌, ◌<◌, ◌≤◌, ◌↔◌, ◌⊎◌, IsTrue, IfSome, IfNone, max, true, false};
ghost use Rattle.election_core.specs.Senders.{sender_of};
ghost use Rattle.election_core.specs.Counted.{counted, acted, counts_vote, counts_length};
ghost use Rattle.election_core.specs.Allowed.{MayStand, MayGrant, MayLead, MayTake, MayLearn, MayHear};
ghost use Rattle.election_core.specs.Allowed.{AllowsExactly, IsMost};
ghost use Rattle.election_core.specs.declared.messages.Message.TheVariants.{Vote, Granted, Adopt, Ship, Ack};
ghost use Rattle.election_core.specs.declared.messages.Message.TheVariants.{Durable, Ping};
ghost use Rattle.election_core.specs.declared.messages.Action.TheVariants.{Nothing, Promise, Lead, Take, Know};

use crate::counts::{greatest_acknowledged, is_granted, with_vote};
use crate::messages::{Action, Message};
use crate::votes::NodeVote;

/// The node stands for that generation: `Nothing` exactly where it is down, or the generation is not above
/// its promise.
pub fn stand(vote: &mut NodeVote, generation: u64) -> Action
    ensures event { (result ≡ Promise generation vote.old.node × MayStand vote.old generation)
        ⊎ (result ≡ Nothing × (MayStand vote.old generation → ⊥)) }
    ensures same { (vote.new.node ≡ vote.old.node) × (vote.new.nodes ≡ vote.old.nodes) }
    ensures changes { vote.new ≡ acted vote.old result }
{
    if !vote.up || generation <= vote.promised {
        return Action::Nothing;
    }
    let to = vote.node;
    promise(vote, generation, to)
}

/// What the node does about a message: `Nothing` exactly where the message, with the votes and lengths that
/// are counted, allows nothing. A vote or a length is counted in either case.
pub fn on_message(vote: &mut NodeVote, message: &Message) -> Action
    requires nodes { vote.old.nodes ≤ 7 }
    requires sender { (0 < sender_of message.now) × (sender_of message.now ≤ vote.old.nodes) }
    ensures event { AllowsExactly vote.old message.now result }
    ensures greatest { IsMost vote.old message.now result }
    // who it is, and of how many
    ensures same { (vote.new.node ≡ vote.old.node) × (vote.new.nodes ≡ vote.old.nodes) }
    ensures changes { vote.new ≡ acted (counted vote.old message.now) result }
{
    act_on(vote, message)
}

/// Does what the message allows.
fn act_on(vote: &mut NodeVote, message: &Message) -> Action
    requires nodes { vote.old.nodes ≤ 7 }
    requires sender { (0 < sender_of message.now) × (sender_of message.now ≤ vote.old.nodes) }
    ensures event { AllowsExactly vote.old message.now result }
    ensures greatest { IsMost vote.old message.now result }
    ensures changes { vote.new ≡ acted (counted vote.old message.now) result }
{
    let sender = message.sender();
    match message {
        Message::Vote {
            generation,
            accepted,
            length,
            ..
        } => on_vote(vote, sender, *generation, *accepted, *length),
        Message::Granted { generation, to, .. } => on_granted(vote, sender, *generation, *to),
        Message::Adopt {
            generation,
            length,
            ..
        } => on_log(vote, *generation, *length),
        Message::Ship {
            generation,
            length,
            ..
        } => on_log(vote, *generation, *length),
        Message::Ack {
            generation,
            length,
            ..
        } => on_ack(vote, sender, *generation, *length),
        Message::Durable {
            generation,
            length,
            ..
        } => on_durable(vote, *generation, *length),
        Message::Ping {
            from,
            generation,
            ask,
            ..
        } => on_ping(vote, *from, *generation, *ask),
        Message::Pong { .. } => Action::Nothing,
    }
}

/// Promises that generation, and votes for that node.
fn promise(vote: &mut NodeVote, generation: u64, to: u8) -> Action
    ensures event { result ≡ Promise generation to }
    ensures changes { vote.new ≡ acted vote.old (Promise generation to) }
{
    vote.promised = generation;
    vote.granted = 0;
    vote.leading = false;
    Action::Promise { generation, to }
}

/// Whether a candidate may have its vote.
fn may_grant(vote: &NodeVote, generation: u64, accepted: u64, length: u64) -> bool
    ensures { IsTrue result ↔ MayGrant vote.now generation accepted length }
{
    vote.up
        && vote.promised < generation
        && (vote.accepted < accepted || vote.accepted == accepted && vote.length <= length)
}

/// A candidate stands.
#[tactic(auto, using(crate::proofs::Refusals::no_promise))]
fn on_vote(vote: &mut NodeVote, from: u8, generation: u64, accepted: u64, length: u64) -> Action
    ensures event { AllowsExactly vote.old (Vote from generation accepted length) result }
    ensures greatest { IsMost vote.old (Vote from generation accepted length) result }
    ensures changes { vote.new ≡ acted vote.old result }
{
    if !may_grant(vote, generation, accepted, length) {
        return Action::Nothing;
    }
    promise(vote, generation, from)
}

/// Counts a vote, where it is for this node in the generation that it promised.
fn count_vote(vote: &mut NodeVote, from: u8, generation: u64, to: u8)
    requires { from ≤ 7 }
    ensures { vote.new ≡ counted vote.old (Granted from generation to) }
{
    if to == vote.node && generation == vote.promised {
        vote.granted = with_vote(vote.granted, from);
    }
}

/// Whether the node may lead, with the votes that are counted.
fn may_lead(vote: &NodeVote, generation: u64, to: u8) -> bool
    requires { vote.now.nodes ≤ 7 }
    ensures { IsTrue result ↔ MayLead vote.now generation to }
{
    vote.up
        && to == vote.node
        && generation == vote.promised
        && vote.accepted < vote.promised
        && is_granted(vote.granted, vote.nodes)
}

/// Accepts its own log in that generation, and leads.
fn lead(vote: &mut NodeVote, generation: u64) -> Action
    ensures event { result ≡ Lead generation }
    ensures changes { vote.new ≡ acted vote.old (Lead generation) }
{
    vote.accepted = generation;
    vote.adopted = vote.length;
    vote.acked = [0; 7];
    vote.leading = true;
    Action::Lead { generation }
}

/// A vote is given.
#[tactic(auto, using(crate::proofs::Refusals::no_lead))]
fn on_granted(vote: &mut NodeVote, from: u8, generation: u64, to: u8) -> Action
    requires nodes { vote.old.nodes ≤ 7 }
    requires sender { from ≤ 7 }
    ensures event { AllowsExactly vote.old (Granted from generation to) result }
    ensures greatest { IsMost vote.old (Granted from generation to) result }
    ensures changes { vote.new ≡ acted (counted vote.old (Granted from generation to)) result }
{
    count_vote(vote, from, generation, to);
    if !may_lead(vote, generation, to) {
        return Action::Nothing;
    }
    lead(vote, generation)
}

/// How much of a leader's log of that length the node takes.
fn taken_length(vote: &NodeVote, generation: u64, length: u64) -> Option<u64>
    ensures some { IfSome result (λ m. MayTake vote.now generation length m) }
    ensures none { IfNone result ((m : ℕ) → MayTake vote.now generation length m → ⊥) }
{
    if !vote.up || generation < vote.promised || generation < vote.accepted {
        return None;
    }
    if vote.accepted < generation {
        return Some(length);
    }
    if vote.length < length {
        Some(vote.length + 1)
    } else if vote.length == length {
        Some(length)
    } else {
        None
    }
}

/// Accepts that length in that generation.
fn take(vote: &mut NodeVote, generation: u64, length: u64) -> Action
    ensures event { result ≡ Take generation length }
    ensures changes { vote.new ≡ acted vote.old (Take generation length) }
{
    vote.leading = vote.leading && vote.accepted == generation;
    vote.promised = generation;
    vote.accepted = generation;
    vote.length = length;
    vote.granted = 0;
    Action::Take { generation, length }
}

/// A leader's log is shipped.
#[tactic(auto, using(crate::proofs::Refusals::no_adopt, crate::proofs::Refusals::no_ship))]
fn on_log(vote: &mut NodeVote, generation: u64, length: u64) -> Action
    ensures adopt { (from : ℕ) → AllowsExactly vote.old (Adopt from generation length) result }
    ensures ship { (from : ℕ) → AllowsExactly vote.old (Ship from generation length) result }
    ensures not_known { (d : ℕ) → result ≡ Know d → ⊥ }
    ensures changes { vote.new ≡ acted vote.old result }
{
    match taken_length(vote, generation, length) {
        Some(taken) => take(vote, generation, taken),
        None => Action::Nothing,
    }
}

/// Counts an acknowledged length, where it is of the generation in which this node leads.
fn count_length(vote: &mut NodeVote, from: u8, generation: u64, length: u64)
    requires { (0 < from) × (from ≤ 7) }
    ensures { vote.new ≡ counted vote.old (Ack from generation length) }
{
    if vote.leading && generation == vote.accepted {
        let at = usize::from(from) - 1;
        vote.acked[at] = vote.acked[at].max(length);
    }
}

/// The greatest length that a leader may know as durable.
fn learned_length(vote: &NodeVote, generation: u64) -> Option<u64>
    requires { vote.now.nodes ≤ 7 }
    ensures some { IfSome result (λ d. MayLearn vote.now generation d) }
    ensures greatest { IfSome result (λ d. (e : ℕ) → MayLearn vote.now generation e → e ≤ d) }
    ensures none { IfNone result ((e : ℕ) → MayLearn vote.now generation e → ⊥) }
{
    if !vote.up || !vote.leading || generation != vote.accepted {
        return None;
    }
    let best = greatest_acknowledged(&vote.acked, vote.nodes);
    if best == 0 || best < vote.durable {
        return None;
    }
    Some(best)
}

/// Knows that length as durable.
fn know(vote: &mut NodeVote, durable: u64) -> Action
    ensures event { result ≡ Know durable }
    ensures changes { vote.new ≡ acted vote.old (Know durable) }
{
    vote.durable = durable;
    Action::Know { durable }
}

/// A length is acknowledged.
#[tactic(auto, using(crate::proofs::Refusals::no_learn))]
fn on_ack(vote: &mut NodeVote, from: u8, generation: u64, length: u64) -> Action
    requires nodes { vote.old.nodes ≤ 7 }
    requires sender { (0 < from) × (from ≤ 7) }
    ensures event { AllowsExactly vote.old (Ack from generation length) result }
    ensures greatest { IsMost vote.old (Ack from generation length) result }
    ensures changes { vote.new ≡ acted (counted vote.old (Ack from generation length)) result }
{
    count_length(vote, from, generation, length);
    match learned_length(vote, generation) {
        Some(best) => know(vote, best),
        None => Action::Nothing,
    }
}

/// The greatest length that a follower may know as durable.
fn heard_length(vote: &NodeVote, generation: u64, length: u64) -> Option<u64>
    ensures some { IfSome result (λ d. MayHear vote.now generation length d) }
    ensures greatest { IfSome result (λ d. (e : ℕ) → MayHear vote.now generation length e → e ≤ d) }
    ensures none { IfNone result ((e : ℕ) → MayHear vote.now generation length e → ⊥) }
{
    if !vote.up || vote.leading || vote.accepted < generation {
        return None;
    }
    let best = length.min(vote.length);
    if best <= vote.durable {
        return None;
    }
    Some(best)
}

/// A length is told durable.
#[tactic(auto, using(crate::proofs::Refusals::no_hear))]
fn on_durable(vote: &mut NodeVote, generation: u64, length: u64) -> Action
    ensures event { (from : ℕ) → AllowsExactly vote.old (Durable from generation length) result }
    ensures greatest { (from : ℕ) → IsMost vote.old (Durable from generation length) result }
    ensures changes { vote.new ≡ acted vote.old result }
{
    match heard_length(vote, generation, length) {
        Some(best) => know(vote, best),
        None => Action::Nothing,
    }
}

/// A begin's round: confirms the leader's generation.
#[tactic(auto, using(crate::proofs::Refusals::no_answer))]
fn on_ping(vote: &mut NodeVote, from: u8, generation: u64, ask: u64) -> Action
    ensures event { (durable : ℕ) → AllowsExactly vote.old (Ping from generation ask durable) result }
    ensures not_known { (d : ℕ) → result ≡ Know d → ⊥ }
    ensures changes { vote.new ≡ acted vote.old result }
{
    if !vote.up || generation < vote.promised {
        return Action::Nothing;
    }
    let message = Message::Pong {
        from: vote.node,
        generation,
        ask,
    };
    Action::Answer { message, to: from }
}
