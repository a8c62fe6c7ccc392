//! The language that sessions speak, as the laws of reports see it: what each text is to transactions, and how it is
//! answered on tables, versions and the transaction's operations so far. The crate holds definitions and laws, and no code
//! that runs. It knows no statement, no script and no report but its reply lines.
//!
//! | Notion | Definition |
//! |---|---|
//! | a language, a transaction run alone | `specs/Language.antt` |
//! | the replies to one line: they go up to the first last one | `specs/Replies.antt` |
//! | what is asked of a language where two reports are compared | `specs/Answers.antt` |
//! | what is asked of it so that a report is of the grammar | `specs/Spelled.antt` |
//! | which rows lie in an interval, and what changes touch it | `specs/Intervals.antt` |
//! | what a transaction uses at its level, and the first of it that changes touch | `specs/Touched.antt` |
//! | what is asked of a language so that level serializable is serial | `specs/Serial.antt` |
//! | each member of a list and what stands before it | `specs/Each.antt` |
//!
//! A worked example. A language answers each text by `changed 1`, and adds one insert to the operations. Two texts run
//! alone are then told `changed 1` twice, and leave two inserts.
#![tactic(auto)]

mod laws;

pub use laws::{
    operations_stay_without_failures, replies_end_at_one_place, rows_stay_sound,
    snapshots_use_versions_alone, texts_are_answered_in_order, untouched_intervals_stay,
};
