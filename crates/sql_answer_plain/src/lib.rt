//! The answer of a statement, computed plainly: all combinations of the rows of its tables, those of them for which
//! WHERE is true, and what the statement makes of these. Its contract is the definition itself, `answer` of
//! `sql_answer`.
//!
//! Nothing is looked up by a key, and rows are copied freely until the combinations stand. So it is slow, and short enough
//! to be read beside the definition; what answers faster is measured by it. What is made of combinations moves their rows.
//!
//! | Step | Code | Definition, in `sql_answer` |
//! |---|---|---|
//! | the rows of a table that the transaction sees | `seen` | `Combinations` |
//! | the combinations for which WHERE is true | `combinations` | `Combinations` |
//! | the rows that INSERT and UPDATE write, and their errors | `writes` | `Writes` |
//! | the outcome | `answers` | `Answers` |
//! | the answer behind the operations so far | `laying` | `Language` |
#![tactic(auto)]

mod answers;
mod combinations;
mod copies;
mod laying;
mod outcomes;
mod queries;
mod seen;
mod sizes;
mod steps;
mod writes;

pub use answers::{answer, finish};
pub use combinations::{copied_combination, versions_of};
pub use laying::{Answer, answered_by, refused};
pub use outcomes::Outcome;
pub use queries::rows_told;
pub use seen::Seen;
