//! The serial law for SQL: a history whose serializable transactions were verified is the history of these
//! transactions run one after the other. The crate holds definitions and laws, and no code that runs.
//!
//! | Notion | Definition |
//! |---|---|
//! | the history, the rows at its positions, and what it is for it to be serial | `specs/Histories.antt` |
//! | intervals that changes touch, sound rows, and what an entry is to be by the changes before it | `specs/Changed.antt` |
//! | write skew, and a schema in the middle | `specs/Worked.antt` |
//!
//! A worked example. At position 2 the rows are 1|10 and 2|20. Two transactions begin there: each reads all
//! rows from id 1 on, and each changes one of them. The first is entry 3. Its change touches the interval that
//! the second read, so the second is no right entry 4: run alone at 3 it would be told another row.
#![tactic(auto)]

mod facts;
mod laws;

pub use facts::{the_schema_has_to_be_first, write_skew_is_seen};
pub use laws::{
    fair_histories_are_serial, rows_stay_sound, sql_is_by_reads, sql_names_old_rows_rightly,
};
