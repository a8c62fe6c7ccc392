//! Statements answered by their plans: each table is read by the interval that the plan gives, and not whole.
//!
//! A `RowSource` means the versions of each table, and gives all of a table or those of an interval. Over it a walk goes
//! place by place of FROM:
//!
//! ```text
//! outer combination  -- its interval, in the plan -->  versions, without those that own operations took away,
//!                                                      and then own rows of the interval
//! each with one of these rows, as it is found  -- conjuncts that name no later table; at the end the WHERE -->
//!                                                      the next outer combinations; at the end those that are found
//! ```
//!
//! | Step | Code | Definition |
//! |---|---|---|
//! | what a source means | `sources` | `specs/Sources` |
//! | how far a conjunct reaches, and the outer combinations | `reaches`, `outers` | `query_laws`, `Conjuncts` and `Walks` |
//! | whether a row lies in an interval | `lying` | `query_laws`, `Intervals` |
//! | the walk by a plan | `walks` | `specs/PlanWalks` |
//! | the last place of a query's walk | `folds` | `sql_eval`, `Shaped` |
//! | its rows, kept while the interval is the same | `keeping`, `sameness` | `specs/Keeping` |
//! | the answer | `executes` | `sql_answer`, `Answers` |
//!
//! For example, over t(id, v) with the keys pk(id) and by_v(v), `where v = 3 and id > 5` asks the source for the versions
//! whose v is 3, and filters them by `id > 5`. In `from t a, t b where b.id = a.v and a.id < 9` the rows of `a` come from
//! pk below 9, and for each of them that of `b` from pk where id is the v of `a`.
//!
//! That nothing is lost or added by this is a law of `query_laws`; here it gives that the answer is the one over all
//! combinations.
#![tactic(auto)]

mod executes;
mod folds;
mod keeping;
mod lying;
mod outers;
mod reaches;
mod sameness;
mod sources;
mod walks;

pub use executes::{Executed, execute};
pub use lying::lies;
pub use sources::{MemRows, RowFault, RowSource};
