//! Stories of several nodes: scripts with their reports, each in the order of play, and reports that are wrong in one line, each
//! refused. The checker computes them, over the language of the statements that run in `report_worked`. Nothing stands on this
//! crate.
//!
//! | Notion | Definition |
//! |---|---|
//! | stories and their reports, as data | `specs/Stories.antt` |
//! | reports that are wrong in one line | `specs/StoriesWrong.antt` |
#![tactic(auto)]

mod facts;

pub use facts::{
    bases_are_in_order, changed_stories_are_refused, nothing_is_told_again, one_node_examples_stay,
    only_the_one_report_stands, openings_are_in_order, stories_are_in_order, stories_are_lawful,
    unlawful_stories_are_refused, what_no_report_tells, wrong_stories_are_refused,
};
