//! All nodes start: the first steps of a run, over stores that were read and may be played over.
//!
//! Each node has its turn, in order of their numbers. Where its store failed while it was read, it goes down by that fault; else the
//! operator admits what its store promised and accepted, and it comes up with what that holds. Where the store fails there, the node
//! goes down, too. Of three nodes, where the store of the second failed:
//!
//! ```text
//! actor      event
//! operator   admits node 1: promised 3, accepted 2
//! node 1     up for the first time, with 3, 2 and its log
//! node 2     down by a fault
//! operator   admits node 3: promised 3, accepted 0
//! node 3     up for the first time, with 3, 0 and an empty log
//! ```
//!
//! Before a node does its event it knows all that was done before, and the operator knows of it behind it. So each event has a ticket
//! above those before it, and behind the last one the operator knows all of them. Who leads is not chosen here.
//!
//! | Notion | Code | Definition |
//! |---|---|---|
//! | nodes that did nothing yet, over stores that were read | | `AreNew` of `specs/News.antt` |
//! | what becomes of each | `start_all` | `StartsAs`, `AreStarted` of `specs/Starts.antt` |
//! | what the stores hold then | | `KeepsStore` |
#![tactic(auto)]

mod admits;
mod makes;
mod nodes;
mod starts;

pub use admits::admit;
pub use makes::{Unmade, new_nodes, nodes_over_read_stores_are_new};
pub use starts::start_all;
