//! Reports as `play` writes them over the stores of one to seven nodes, computed: rows that were worked by hand, and stories of
//! openings, elections and faults; and what is told at the opening in place of a report. Nothing stands on this crate.
//!
//! | Notion | Definition |
//! |---|---|
//! | scripts and their reports, as data | `specs/Plays.antt`, and `node_stories` |
//! | what stores were found to be | `specs/Stores.antt` |
#![tactic(auto)]

mod facts;

pub use facts::{
    corners_are_played, one_answer_comes_at_an_opening, rows_are_played, stores_are_refused,
    wrong_plays_are_refused,
};
