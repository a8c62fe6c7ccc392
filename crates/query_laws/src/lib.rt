//! Queries that read by intervals of keys: what they find, what they read, and what later changes can
//! disturb. The crate holds definitions and laws, and no code that runs.
//!
//! A query finds what a filter of all combinations leaves (`sql_answer`). This crate says how it is found
//! without looking at all rows: place by place of FROM, for each combination so far whose conjuncts are true
//! as far as they can be told, the interval of the key that serves best. The intervals that are read are what
//! a transaction at level serializable depends on.
//!
//! | Notion | Definition |
//! |---|---|
//! | the conjuncts of a WHERE | `specs/Conjuncts.antt` |
//! | intervals, and the rows that lie in them | `specs/Intervals.antt` |
//! | the key that serves, and its interval | `specs/Plans.antt` |
//! | the walk, and the intervals that it reads | `specs/Walks.antt` |
//! | a transaction's statements one after the other | `specs/Runs.antt` |
//! | a run as the laws of reports see it | `specs/Alone.antt` |
//! | intervals that hold the same; intervals that are touched | `specs/Stable.antt`, `specs/Touched.antt` |
//!
//! A worked example, over t(id, v) with the keys pk(id) and by_v(v): `where v = 3 and id > 5` has one equality
//! for by_v, and for pk none but a bound, so the interval of by_v where v equals 3 is read; its rows are then
//! filtered by `id > 5`.
#![tactic(auto)]

mod facts;
mod laws;

pub use facts::{
    a_join_reads_for_each_outer_row, a_key_is_chosen, changes_touch_intervals,
    rows_lie_in_intervals,
};
pub use laws::{
    a_transaction_alone_is_a_run, a_walk_depends_on_what_it_reads, a_walk_finds_what_is_met,
    a_walk_reads_for_outer_combinations, answers_depend_on_what_is_read,
    sql_is_answered_by_what_it_reads, untouched_intervals_stay,
};
