//! Whose log a run reports, and behind which base, from its history.
//!
//! No event has a log at run time, but each tells how long the node's log is behind it: a log that is taken is named
//! by its length, an entry makes it longer by one. Only with how long a log a node comes up no event tells, so that
//! is noted beside the history:
//!
//! ```text
//! history, node 1            log    accepted            led with
//!
//! Up, noted 2                2
//! Stand 5                    2
//! Lead 5                     2      5: 2                5: 2
//! Append                     3      5: 2, 3             5: 2
//! Take 6 4                   4      5: 2, 3  6: 4       5: 2
//! ```
//!
//! The reported node is the one with the greatest pair of accepted generation and length. The first master is the
//! leader of the least generation in which a majority accepted anything, since whatever is accepted in a generation
//! begins with what its leader adopted. The base is the length of that.
//!
//! The laws say of the history of a run: the numbers are those of its nodes, and so are reported node and first master.
#![tactic(auto)]

mod laws;
mod sizes;
mod tails;

pub use laws::{the_first_master_is_told, the_reported_node_is_told};
pub use tails::{Tail, tail_of};
