//! The plan of a statement: by which key each table of its FROM is read, and the interval that is read of it.
//!
//! A conjunct of the WHERE is usable for a table where it compares a column of that table with a value, or with a column
//! of an earlier table. A key serves by equalities of its first columns, without a gap, and by bounds of the next one.
//!
//! | Notion | Code | Definition, in `query_laws` |
//! |---|---|---|
//! | usable conjuncts, in the order of the text | `uses` | `Plans`: `uses_at` |
//! | what a key gives, and the chosen one | `fits` | `Plans`: `fit`, `chosen` |
//! | the plan, and the interval at a place | `Plan` | `specs/Planned`; `Plans`: `interval_by` |
//!
//! For example, over t(id, v) with the keys pk(id) and by_v(v):
//!
//! ```text
//! where v = 3 and id > 5              by_v, v = 3          one equality before a bound alone
//! where id > 5 and 9 > id             pk, 5 < id < 9
//! where v = null                      by_v, empty
//! where not id = 1                    the whole table
//! from t a, t b where b.id = a.v      a: the whole table; b: pk, id = the v of a
//! ```
//!
//! That a walk by these intervals finds each row, and no other, is the law `a_walk_finds_what_is_met` of `query_laws`.
#![tactic(auto)]

mod fits;
mod laws;
mod plans;
mod uses;

pub use laws::plans_give_the_intervals;
pub use plans::Plan;
