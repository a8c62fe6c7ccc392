//! Messages by their words, and actions and numbers as text.

use election_core::{Action, Message, NodeVote};
use std::alloc::AllocError;

/// The word of a message's kind, and its generation.
pub(crate) fn kind_of(message: &Message) -> (&'static str, u64) {
    match message {
        Message::Vote { generation, .. } => ("vote", *generation),
        Message::Granted { generation, .. } => ("granted", *generation),
        Message::Adopt { generation, .. } => ("adopt", *generation),
        Message::Ship { generation, .. } => ("ship", *generation),
        Message::Ack { generation, .. } => ("ack", *generation),
        Message::Durable { generation, .. } => ("durable", *generation),
        Message::Ping { generation, .. } => ("ping", *generation),
        Message::Pong { generation, .. } => ("pong", *generation),
    }
}

/// Adds an action.
pub(crate) fn put_action(out: &mut String, action: &Action) -> Result<(), AllocError> {
    match action {
        Action::Nothing => out.push_str("nothing"),
        Action::Promise { generation, to } => write!(out, "promise {generation} to {to}"),
        Action::Lead { generation } => write!(out, "lead {generation}"),
        Action::Take { generation, length } => write!(out, "take {generation} length {length}"),
        Action::Know { durable } => write!(out, "know {durable}"),
        Action::Answer { message, to } => put_answer(out, message, *to),
    }
}

/// Adds an answer to a node.
fn put_answer(out: &mut String, message: &Message, to: u8) -> Result<(), AllocError> {
    match message {
        Message::Pong {
            from,
            generation,
            ask,
        } => write!(out, "pong {generation} ask {ask} from {from} to {to}"),
        _ => out.push_str("another answer"),
    }
}

/// Adds a node's numbers, and ends the line.
pub(crate) fn put_numbers(out: &mut String, vote: &NodeVote) -> Result<(), AllocError> {
    let promised = vote.promised;
    let accepted = vote.accepted;
    let length = vote.length;
    let adopted = vote.adopted;
    let durable = vote.durable;
    let granted = vote.granted;
    write!(
        out,
        "; promised {promised} accepted {accepted} length {length}"
    )?;
    write!(
        out,
        " adopted {adopted} durable {durable} granted {granted} acked"
    )?;
    for length in vote.acked.iter().take(usize::from(vote.nodes)) {
        write!(out, " {length}")?;
    }
    if vote.leading {
        out.push_str(" leads")?;
    }
    if !vote.up {
        out.push_str(" down")?;
    }
    out.push('\n')
}
