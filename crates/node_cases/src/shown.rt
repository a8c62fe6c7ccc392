//! Nodes and packets as text.

use election_core::{Message, NodeVote};
use phys_log::Entry;
use std::alloc::AllocError;

/// Adds a node: its numbers, and the generations of the entries of its log.
pub(crate) fn put_node(
    out: &mut String,
    vote: &NodeVote,
    entries: &[Entry],
) -> Result<(), AllocError> {
    let node = vote.node;
    let promised = vote.promised;
    let accepted = vote.accepted;
    write!(out, "  {node}: promised {promised} accepted {accepted} log")?;
    for entry in entries {
        put_entry(out, entry)?;
    }
    let adopted = vote.adopted;
    let durable = vote.durable;
    write!(out, "; adopted {adopted} durable {durable}")?;
    if vote.leading {
        out.push_str(" leads")?;
    }
    if !vote.up {
        out.push_str(" down")?;
    }
    out.push('\n')
}

/// Adds an entry of a log.
fn put_entry(out: &mut String, entry: &Entry) -> Result<(), AllocError> {
    match entry {
        Entry::Setup { generation, .. } => write!(out, " {generation}"),
        Entry::Commit { generation, .. } => write!(out, " {generation}"),
    }
}

/// Adds a packet to a node.
pub(crate) fn put_packet(out: &mut String, to: u8, message: &Message) -> Result<(), AllocError> {
    write!(out, "    to {to}: ")?;
    put_message(out, message)?;
    out.push('\n')
}

/// Adds what a message says.
fn put_message(out: &mut String, message: &Message) -> Result<(), AllocError> {
    match message {
        Message::Vote {
            generation,
            accepted,
            length,
            ..
        } => write!(out, "vote {generation} accepted {accepted} length {length}"),
        Message::Granted { generation, to, .. } => write!(out, "granted {generation} to {to}"),
        Message::Adopt {
            generation,
            length,
            ..
        } => write!(out, "adopt {generation} length {length}"),
        Message::Ship {
            generation,
            length,
            ..
        } => write!(out, "ship {generation} length {length}"),
        Message::Ack {
            generation,
            length,
            ..
        } => write!(out, "ack {generation} length {length}"),
        Message::Durable {
            generation,
            length,
            ..
        } => write!(out, "durable {generation} length {length}"),
        Message::Ping {
            generation,
            durable,
            ..
        } => write!(out, "ping {generation} durable {durable}"),
        Message::Pong { generation, .. } => write!(out, "pong {generation}"),
    }
}
