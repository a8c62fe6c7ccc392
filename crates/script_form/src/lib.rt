//! What a script says, as data: its head, and the lines to be run.
#![tactic(auto)]

mod scripts;

pub use scripts::{Act, BodyLine, Moment, Script, SessionLine, TableLine};
