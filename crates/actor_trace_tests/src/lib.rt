//! Worked machines for `actor_trace`, and tests of traces with them.
//!
//! `Ledger` is a counter with a ledger of who may add next. Who has the turn adds one and names the next one; anybody may read
//! what the counter came to:
//!
//! ```text
//! ticket    0                 1                 2          3
//!        0: Add 0, next 2  2: Add 1, next 1  0: Read 1  1: Add 2, next 0        0 has the turn at first, and at the end
//! ```
//!
//! A `Turn` carries a note in which the turn is given. An actor that gets one may add, however old the note is, unless its own
//! steps show that it used the turn: `add` looks there. `each_adds_in_turn` is the machine's law over all legal histories.
//!
//! `Counters` is a machine whose actors each count by themselves; `each_counts` is its law.
#![tactic(auto)]

mod counters;
mod entries;
mod ledger;
#[cfg(test)]
mod tests;
mod turns;

pub use counters::{Counters, count, each_counts};
pub use entries::Entry;
pub use ledger::{Ledger, each_adds_in_turn};
pub use turns::{Turn, add, first, give, read};
