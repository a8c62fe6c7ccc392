//! What a node tells, before it goes out with a note.
ghost use Rattle.std.specs.Prelude.{ℕ, ◌≡◌, ◌≤◌, ◌++◌, ◌∷◌, [], List, length, IfOk};
ghost use Rattle.election_core.specs.declared.messages.Action.TheVariants.{Lead, Know};
ghost use Rattle.node_state.specs.Packets.{appending_packets, packet, others, packets_of, standing_packets, probing_packets};
ghost use Rattle.phys_log.specs.declared.entries.Entry.{Entry};

use election_core::{Action, Message, NodeVote};
use phys_log::{Entry, copy_entry};
use std::alloc::{AllocError, Global};
use std::marker::Model;

/// A message to a node, with the last entries of the log that it tells.
#[derive(Drop)]
pub(crate) struct Draft {
    pub to: u8,
    pub message: Message,
    pub entries: Vec<Entry>,
}

impl Model for Draft {
    ghost use Rattle.node_state.specs.Packets.{SentPacket};

    ghost Value = { SentPacket };

    ghost view = { λ p. record { to = p.to; message = p.message; entries = p.entries.items } };
}

/// Copies of entries.
pub(crate) fn copies(alloc: Global, entries: &[Entry]) -> Result<Vec<Entry>, AllocError>
    ensures { IfOk result (λ v. v.items ≡ entries.now) }
{
    let mut copies = Vec::new(alloc);
    let mut rest = entries;
    'entries: while let Some((entry, behind)) = rest.split_first() {
        copies.push(copy_entry(alloc, entry)?)?;
        rest = behind;
    }
    Ok(copies)
}

/// A draft with copies of these entries.
pub(crate) fn draft_to(
    alloc: Global,
    to: u8,
    message: Message,
    entries: &[Entry],
) -> Result<Draft, AllocError>
    ensures { IfOk result (λ p. p ≡ packet to message entries.now) }
{
    let entries = copies(alloc, entries)?;
    Ok(Draft {
        to,
        message,
        entries,
    })
}

/// A message to all nodes but one.
fn to_others(
    alloc: Global,
    nodes: u8,
    node: u8,
    message: Message,
    entries: &[Entry],
) -> Result<Vec<Draft>, AllocError>
    requires { nodes ≤ 7 }
    ensures { IfOk result (λ ps. ps.items ≡ others nodes node message entries.now) }
{
    let mut out = Vec::new(alloc);
    for k in 0..nodes {
        if k + 1 != node {
            out.push(draft_to(alloc, k + 1, message, entries)?)?;
        }
    }
    Ok(out)
}

/// One draft, without entries.
fn one(alloc: Global, to: u8, message: Message) -> Result<Vec<Draft>, AllocError>
    ensures { IfOk result (λ ps. ps.items ≡ packet to message [] ∷ []) }
{
    let mut out = Vec::new(alloc);
    out.push(draft_to(alloc, to, message, &[])?)?;
    Ok(out)
}

/// What a node with these numbers and this log tells after an action.
pub(crate) fn packets_after(
    alloc: Global,
    vote: &NodeVote,
    action: &Action,
    log: &[Entry],
    sender: u8,
) -> Result<Vec<Draft>, AllocError>
    requires { vote.now.nodes ≤ 7 }
    ensures { IfOk result (λ ps. ps.items ≡ packets_of vote.now action.now log.now sender) }
{
    match action {
        Action::Nothing => Ok(Vec::new(alloc)),
        Action::Answer { message, to } => one(alloc, *to, *message),
        Action::Promise { generation, to } => {
            let message = Message::Granted {
                from: vote.node,
                generation: *generation,
                to: *to,
            };
            one(alloc, *to, message)
        }
        Action::Lead { generation } => after_lead(alloc, vote, *generation, log),
        Action::Take { generation, length } => {
            let message = Message::Ack {
                from: vote.node,
                generation: *generation,
                length: *length,
            };
            one(alloc, sender, message)
        }
        Action::Know { durable } => after_learning(alloc, vote, *durable),
    }
}

/// It leads.
fn after_lead(
    alloc: Global,
    vote: &NodeVote,
    generation: u64,
    log: &[Entry],
) -> Result<Vec<Draft>, AllocError>
    requires { vote.now.nodes ≤ 7 }
    ensures { IfOk result (λ ps. (s : ℕ) → ps.items ≡ packets_of vote.now (Lead generation) log.now s) }
{
    let length = log.len() as u64;
    let adopt = Message::Adopt {
        from: vote.node,
        generation,
        length,
    };
    let ack = Message::Ack {
        from: vote.node,
        generation,
        length,
    };
    let mut out = to_others(alloc, vote.nodes, vote.node, adopt, log)?;
    out.push(draft_to(alloc, vote.node, ack, &[])?)?;
    Ok(out)
}

/// It knows that length as durable.
fn after_learning(alloc: Global, vote: &NodeVote, durable: u64) -> Result<Vec<Draft>, AllocError>
    requires { vote.now.nodes ≤ 7 }
    ensures { IfOk result (λ ps. (log : List Entry) (s : ℕ) → ps.items ≡ packets_of vote.now (Know durable) log s) }
{
    if !vote.leading {
        return Ok(Vec::new(alloc));
    }
    let message = Message::Durable {
        from: vote.node,
        generation: vote.accepted,
        length: durable,
    };
    to_others(alloc, vote.nodes, vote.node, message, &[])
}

/// It stands.
pub(crate) fn packets_standing(
    alloc: Global,
    vote: &NodeVote,
    generation: u64,
) -> Result<Vec<Draft>, AllocError>
    requires { vote.now.nodes ≤ 7 }
    ensures { IfOk result (λ ps. ps.items ≡ standing_packets vote.now generation) }
{
    let ask = Message::Vote {
        from: vote.node,
        generation,
        accepted: vote.accepted,
        length: vote.length,
    };
    let own = Message::Granted {
        from: vote.node,
        generation,
        to: vote.node,
    };
    let mut out = to_others(alloc, vote.nodes, vote.node, ask, &[])?;
    out.push(draft_to(alloc, vote.node, own, &[])?)?;
    Ok(out)
}

/// It asks for its generation to be confirmed.
pub(crate) fn packets_probing(
    alloc: Global,
    vote: &NodeVote,
    ask: u64,
) -> Result<Vec<Draft>, AllocError>
    requires { vote.now.nodes ≤ 7 }
    ensures { IfOk result (λ ps. ps.items ≡ probing_packets vote.now ask) }
{
    let message = Message::Ping {
        from: vote.node,
        generation: vote.accepted,
        ask,
        durable: vote.durable,
    };
    to_others(alloc, vote.nodes, vote.node, message, &[])
}

/// It appended these entries, and ships them.
pub(crate) fn packets_appending(
    alloc: Global,
    vote: &NodeVote,
    entries: &[Entry],
) -> Result<Vec<Draft>, AllocError>
    requires { vote.now.nodes ≤ 7 }
    ensures { IfOk result (λ ps. ps.items ≡ appending_packets vote.now entries.now) }
{
    let ship = Message::Ship {
        from: vote.node,
        generation: vote.accepted,
        length: vote.length,
    };
    let own = Message::Ack {
        from: vote.node,
        generation: vote.accepted,
        length: vote.length,
    };
    let mut out = to_others(alloc, vote.nodes, vote.node, ship, entries)?;
    out.push(draft_to(alloc, vote.node, own, &[])?)?;
    Ok(out)
}
