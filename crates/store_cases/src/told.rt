//! What a step came to, and its answer.

use crate::opened::fault_told;
use node_opening::WhyNotUp;
use std::alloc::{AllocError, Global};
use store_log::OpenFault;

/// What a step of a node came to.
#[derive(Drop)]
pub(crate) enum Told {
    /// It could not be done.
    Nothing,
    /// A log was opened: its generations, and how many entries it has.
    Opened {
        promised: u64,
        accepted: u64,
        length: usize,
    },
    /// A log was not opened.
    NotOpened(OpenFault),
    /// The node is up, in a generation, over a log that had so many entries.
    Up {
        base: u64,
        generation: u64,
    },
    /// The node is not up.
    Down(WhyNotUp),
    /// The node stands in a generation.
    Stood(u64),
    /// An entry was appended, and the log has so many.
    Appended(usize),
    /// The store has so many bytes.
    Size(usize),
    /// A call of the store failed.
    Fault,
    /// There is no generation more.
    NoGeneration,
    /// The entry may not be appended.
    Unfit,
    /// There is no entry with that number.
    NoEntry,
    /// Want of memory.
    NoMemory,
}

/// Adds the answer of a step behind those of the steps before it; none where the step could not be done.
pub(crate) fn put_step(alloc: Global, out: &mut String, told: Told) -> Result<(), AllocError> {
    if let Told::Nothing = told {
        return Ok(());
    }
    if !out.is_empty() {
        out.push_str(", ")?;
    }
    put_told(alloc, out, told)
}

/// Adds the answer of a step.
fn put_told(alloc: Global, out: &mut String, told: Told) -> Result<(), AllocError> {
    match told {
        Told::Nothing => Ok(()),
        Told::Opened {
            promised,
            accepted,
            length,
        } => write!(out, "open {promised} {accepted} {length}"),
        Told::NotOpened(why) => put_fault(alloc, out, why),
        Told::Up { base, generation } => write!(out, "node {base} {generation}"),
        Told::Down(why) => put_why(out, why),
        Told::Stood(generation) => write!(out, "stand {generation}"),
        Told::Appended(length) => write!(out, "entry {length}"),
        Told::Size(size) => write!(out, "size {size}"),
        Told::Fault => out.push_str("fault"),
        Told::NoGeneration => out.push_str("none"),
        Told::Unfit => out.push_str("unfit"),
        Told::NoEntry => out.push_str("no entry"),
        Told::NoMemory => Err(AllocError),
    }
}

/// Adds why a log was not opened.
fn put_fault(alloc: Global, out: &mut String, why: OpenFault) -> Result<(), AllocError> {
    let told = fault_told(alloc, why)?;
    out.push_str(told.as_str())
}

/// Adds why a node is not up.
fn put_why(out: &mut String, why: WhyNotUp) -> Result<(), AllocError> {
    match why {
        WhyNotUp::StoreFault { length } => write!(out, "fault {length}"),
        WhyNotUp::Refused { at } => write!(out, "refused {at}"),
        WhyNotUp::Unsound => out.push_str("unsound"),
        WhyNotUp::Differs { table } => write!(out, "differs {table}"),
        WhyNotUp::NoMemory => out.push_str("none"),
    }
}
