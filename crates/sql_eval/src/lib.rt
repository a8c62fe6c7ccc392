//! Evaluation of bound statements: the truth of a condition on a combination of rows, and the rows that a query gives
//! of the combinations that it finds.
//!
//! A combination has one version for each table of FROM, in their order. What a condition or an item names and what is
//! not there is NULL, so that no function asks anything of the query or of the rows.
//!
//! | Notion | Code | Definition, in `sql_answer` |
//! |---|---|---|
//! | the three truth values, and comparisons | `not3`, `and3`, `or3`, `compare` | `Truth` |
//! | the truth of a condition on a combination | `test` | `Conditions` |
//! | COUNT, SUM, MIN and MAX; integers of 64 bits | `tallies`, `sums`, `extremes`; `int_value` | `Aggregates` |
//! | groups, order and LIMIT | `Shaping`, `shape` | `Shapes` |
//!
//! A query goes through three steps, of which the first is taken for each combination as it comes:
//!
//! ```text
//! a combination  -- groups, items -->  what is kept of each group  -- values -->  rows with keys  -- sort, LIMIT -->  rows
//! ```
//!
//! For example, over the combinations 1|10, 2|null and 3|10 of t(id, v) the query
//! `select v, count(*), sum(id) from t group by v order by v` has the groups 10 (of 1 and 3) and null (of 2), in this
//! order. Their rows are 10|2|4 and null|1|2, and ORDER BY puts NULL first: the answer is null|1|2, then 10|2|4.
//!
//! - Groups come in the order of their first combinations. Rows that ORDER BY does not tell apart keep this order.
//! - A SUM is told as `Overflow` exactly where its total leaves 64 bits. Partial sums may leave them.
#![tactic(auto)]

mod conditions;
mod extremes;
mod faults;
mod groups;
mod keys;
mod operands;
mod orders;
mod shapes;
mod sums;
mod tallies;
mod truths;

pub use conditions::test;
pub use faults::EvalFault;
pub use shapes::{Shaping, shape};
pub use sums::int_value;
pub use truths::{Truth, and3, compare, not3, or3};
