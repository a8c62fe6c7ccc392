//! The store of a node that stopped: it holds one of the logs that a stop may leave of it.
//!
//! A node's log is in its store before the node does anything by it. So where the store fails, nobody heard of what was under
//! way, and the store may hold the log as it was, or as it was to be. Which one it is is told when it is opened again. Of node 2
//! with a setup, which promised and accepted generation 1:
//!
//! ```text
//! what it did                        what its store may hold, as promise, acceptance and log
//! it stopped                         1 1 setup
//! its store failed at a promise of 3 1 1 setup, or 3 1 setup
//! at an append of a commit           1 1 setup, or 1 1 setup and commit
//! at a log that it took over in 3    1 1 setup, or 3 1 setup, or 3 3 and that log
//! ```
//!
//! A store that fails while it is opened holds what it held.
#![tactic(auto)]

mod stopped;

pub use stopped::{StillStopped, StoppedLog};
