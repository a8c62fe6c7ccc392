//! Laws of reports of one to seven nodes that hold of any script.
//!
//! | Notion | Definition |
//! |---|---|
//! | a report in which nothing fails, a script without arms | `specs/Unhurt.antt` |
//! | tables that a feed may tell | `specs/Watched.antt` |
#![tactic(auto)]

mod facts;

pub use facts::{reports_of_nodes_are_of_the_grammar, reports_of_nodes_are_one};
