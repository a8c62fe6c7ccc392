//! The rows that the entries of a log make, and a log whose pages stand for its rows.
//!
//! An entry says twice what it does: by its changes, which are rows with their genids, and by its records, which are edits
//! of pages. A log of three entries over the table `t`, whose rows have their tree on page 1:
//!
//! ```text
//! position  entry                                   rows of t          page 1
//! 1         setup   t                               none               a leaf
//! 2         commit  insert 1: (1, 10)               1: (1, 10)         1 -> (1, 10)
//! 3         commit  update 1: (1, 10) to 2: (1, 11) 2: (1, 11)         2 -> (1, 11)
//! ```
//!
//! The rows are folded from the changes alone, and the pages from the records alone. That the pages stand for the rows at
//! each position is what a log is to keep: `setup_entry` gives the first entry of such a log, and `entries_stand` says
//! what each further entry has to do. The version 1 is there at position 2, and the third entry takes it away; a version
//! that no later entry takes away is there at the end (`untaken_stays`).
//!
//! | Notion | Code | Definition |
//! |---|---|---|
//! | what changes make of the rows | | `apply_changes` of `specs/Applied.antt` |
//! | the rows of a log, and those at a position | | `rows_of`, `rows_at` of `specs/History.antt` |
//! | where a run begins in a log, and the rows there | | `Ground` of `specs/History.antt` |
//! | the rows over a ground, and those at a position | | `rows_over`, `rows_over_at` of `specs/History.antt` |
//! | the versions that each entry takes away | | `takes_in` of `specs/History.antt` |
//! | pages that stand for the rows at each position | | `StandsThroughout`, and over a ground `StandsOver`, of `specs/History.antt` |
//! | the first entry of a log | `setup_entry` | `IsSetup` of `specs/Setups.antt` |
//! | edits over the pages of a log, as the records of its next entry | `entry_records` | `records_behind` of `edit_records` |
//! | the next genid | `next_genid` | `next_genid` of `page_workspace` |
#![tactic(auto)]

mod laws;
mod meta;
mod records;
mod setups;

pub use laws::{
    changes_make_the_rows, entries_stand, logs_keep_their_schema, rows_grow, untaken_stays,
};
pub use meta::next_genid;
pub use records::entry_records;
pub use setups::setup_entry;
