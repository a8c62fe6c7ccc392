//! The operator's steps in one loop: it orders a stop or a start, sees it obeyed, and tells barriers.
//!
//! Whoever has a turn in the loop meets a note of the last step first, and leaves one behind its own:
//!
//! ```text
//! last    a note of all that was done so far
//!   |     the operator meets it, does its event, and makes a note of all that was done then
//!   v
//! last    node 2 meets that, and knows that its stop is ordered
//! ```
//!
//! What it has to know before its step it knows before its turn: that an order was heeded, and that all sessions did
//! their lines before a barrier. Of what others do in between nothing is asked: what it may do stays so.
//!
//! | Notion | Definition |
//! |---|---|
//! | what it knows before a step | `specs/Due.antt` |
//! | its turn | `specs/Turns.antt` |
#![tactic(auto)]

mod laws;
mod steps;

pub use laws::nodes_hear_of_orders;
pub use steps::{obeyed, order, tell_barrier};
