//! What a text of SQL means: how it reads, what it is evaluated on, and how it is answered. The crate holds
//! definitions and laws, and no code that runs. Nothing here knows a plan, a tree or a page.
//!
//! A text is read as one statement or refused at one offset (`Reading`), and bound in the schema
//! (`sql_bind`). What it is answered is made in one way for all statements:
//!
//! ```text
//! answer tables versions ops statement = finish tables statement ops (found versions ops statement)
//!
//! found   the combinations of the rows that the transaction sees for which WHERE is true
//! finish  what the statement makes of them: groups, order, LIMIT, writes, errors; it sees no rows but these
//! ```
//!
//! So whatever finds the same combinations answers alike, and the laws on plans, on what a transaction reads
//! and on serial histories never look into `finish`.
//!
//! | Notion | Definition |
//! |---|---|
//! | the reading of a text, and what it is to transactions | `specs/Reading.antt` |
//! | the three truth values, and comparisons | `specs/Truth.antt` |
//! | the truth of a condition on a combination | `specs/Conditions.antt` |
//! | the rows that a transaction sees, and their combinations | `specs/Combinations.antt` |
//! | COUNT, SUM, MIN and MAX | `specs/Aggregates.antt` |
//! | groups, order and LIMIT: the rows that a query gives | `specs/Shapes.antt` |
//! | SET, and the errors of a row that is written | `specs/Writes.antt` |
//! | the answer of a statement | `specs/Answers.antt` |
//! | the language of SQL, for the laws of reports | `specs/Language.antt` |
//! | three tables with rows, and statements on them | `specs/Worked.antt` |
//!
//! A worked example. Over t(id, v) with the rows 1|10 and 2|null, after `insert into t values (3, 5)`, the
//! statement `select sum(v), count(*) from t where id > 1` finds two combinations, 2|null and 3|5, and is
//! answered `row 5|2` and `done 1`.
#![tactic(auto)]

mod facts;
mod laws;

pub use facts::{
    groups_and_orders, joins_are_grouped_and_ordered, null_is_unknown, own_rows_are_seen,
    selectv_uses_what_it_finds, sums_skip_null, writes_fail_by_their_first_error,
};
pub use laws::{
    orders_are_stable, sql_is_a_language, the_reading_is_the_readers, what_is_seen_is_the_view,
};
