//! What a step came to, and its answer.

use kept_log::OpenFault;
use node_reading::WhyUnread;
use std::alloc::AllocError;

/// What a step of a log came to.
#[derive(Drop)]
pub(crate) enum Told {
    /// It could not be done.
    Nothing,
    /// What the log has: its generations, and how many entries.
    Seen {
        promised: u64,
        accepted: u64,
        length: usize,
    },
    /// What the store holds: its generations, and the next genid of its rows.
    Read {
        promised: u64,
        accepted: u64,
        next: u64,
    },
    /// The store does not hold what a node may come up with.
    Unread(WhyUnread),
    /// The log was not opened.
    Unopened(OpenFault),
    /// A call of the store failed.
    Fault,
    /// Want of memory.
    NoMemory,
}

/// Adds the answer of a step behind those of the steps before it; none where the step could not be done.
pub(crate) fn put_told(out: &mut String, told: Told) -> Result<(), AllocError> {
    if let Told::Nothing = told {
        return Ok(());
    }
    if !out.is_empty() {
        out.push_str(", ")?;
    }
    put_answer(out, told)
}

/// Adds the answer of a step.
fn put_answer(out: &mut String, told: Told) -> Result<(), AllocError> {
    match told {
        Told::Nothing => Ok(()),
        Told::Seen {
            promised,
            accepted,
            length,
        } => write!(out, "{promised} {accepted} {length}"),
        Told::Read {
            promised,
            accepted,
            next,
        } => write!(out, "read {promised} {accepted} {next}"),
        Told::Unread(why) => put_unread(out, why),
        Told::Unopened(why) => put_unopened(out, why),
        Told::Fault => out.push_str("fault"),
        Told::NoMemory => Err(AllocError),
    }
}

/// Adds why a store was not read.
fn put_unread(out: &mut String, why: WhyUnread) -> Result<(), AllocError> {
    match why {
        WhyUnread::StoreFault => out.push_str("fault"),
        WhyUnread::Corrupt { at } => write!(out, "bad {at}"),
        WhyUnread::Unsound => out.push_str("unsound"),
        WhyUnread::NoMemory => Err(AllocError),
    }
}

/// Adds why a log was not opened.
fn put_unopened(out: &mut String, why: OpenFault) -> Result<(), AllocError> {
    match why {
        OpenFault::StoreFault { .. } => out.push_str("fault"),
        OpenFault::Foreign => out.push_str("foreign"),
        OpenFault::Corrupt { at } => write!(out, "bad {at}"),
        OpenFault::NoMemory => Err(AllocError),
    }
}
