//! Whether a row lies in an interval of its table, and whether a change touches one.
//!
//! An interval is the rows of a table whose first columns of a key equal given values, and whose next column of the key is
//! within two bounds; or all rows of the table. NULL in a column that is compared lies in no interval, whichever side the
//! bound is on. A change touches an interval where a row that it takes away or adds lies in it.
//!
//! Over the table `t(id, v)` with a primary key on `id`, and the interval of the rows whose id is above 5:
//!
//! ```text
//! insert (3, 30)                 touches nothing
//! insert (7, 70)                 touches it
//! update (9, 10) to (1, 10)      touches it by the old row
//! ```
//!
//! What a row and an interval are stands in `cdb_values`, and the definitions in `specs/Intervals` of `session_language`. So both
//! legs ask the same: a plan which rows it reads, and a commit which entries touch what was read. No memory is taken.
#![tactic(auto)]

mod lying;
mod touching;

pub use lying::lies;
pub use touching::touches;
