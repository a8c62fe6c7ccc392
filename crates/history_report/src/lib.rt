//! The report of a run, from its history: a fold, which looks at no node.
//!
//! A closed trace is a list of events with their actors. Each event that tells something has what its line needs, but
//! for two things that were told before: how many lines told that a node went down, and which of its transactions a
//! session begins. Both are counted on the way:
//!
//! ```text
//! history                      lines                      told so far
//!
//! 4: Begun 1                   a 1 begin 1                downs 0, a ended 0
//! 4: Reply a 1 changed 1       a 1 changed 1
//! 2: Down by a stop            down 1 2 stop              downs 1
//! 4: Outcome a 1 committed 2   a 1 committed 2            a ended 1
//! 2: Up as it was left         up 2
//! 4: Begun 2                   a 2 begin 2
//! ```
//!
//! Actor 0 is the operator, the nodes come behind it, and behind them the sessions in the order of the script. Of the
//! first time that a node comes up nothing is told, unless its store failed at the opening, so that a line told that
//! it is down.
//!
//! The tail is that of one node's log: its entries behind the base, each with its position, and its length.
//!
//! The law says of the history of a run that these are the lines that it printed.
#![tactic(auto)]

mod folds;
mod laws;
mod looks;
mod tails;

pub use folds::lines_told;
pub use laws::told_lines_are_those_of_the_history;
pub use tails::report_of;
