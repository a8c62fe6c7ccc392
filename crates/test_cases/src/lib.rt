//! What programs of cases and of measures share: numbers that are drawn, sample entries and records of a log, whether
//! operations write rows that fit, and the state at the end of a log.
//!
//! ```text
//! next_number   x -> x * 6364136223846793005 + 1442695040888963407, of 64 bits
//! record_over   a page without cells, LSN 7         put 00 00 00 00 00 00 00 07 at 0
//!               a page whose first cell is c        swap c for 00 00 00 00 00 00 00 07 at 0
//! commit_entry  a commit of session a that begins at 1 and changes no row, with these records
//! ```
#![tactic(auto)]

mod fits;
mod heads;
mod logs;
mod numbers;

pub use fits::all_fit;
pub use heads::state_at_end;
pub use logs::{commit_entry, record_over};
pub use numbers::next_number;
