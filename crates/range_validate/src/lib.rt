//! Which entry of a log touches what a transaction used: the versions that it took away or selected for it, and the intervals
//! that it read.
//!
//! A transaction began at a position, and other ones committed since. It may commit where none of these entries touches an
//! item that it used; otherwise the first one that does is its conflict. An entry touches a version that it takes away, and
//! an interval in which a row lies that it takes away or adds. So a row that would newly meet a condition, a phantom, is a
//! touch, and a row just outside the interval is none.
//!
//! Over the table `t(id, v)` with a primary key on `id`; a transaction used the version 1, and read the rows whose id is
//! above 5:
//!
//! ```text
//! place  entry                                        first item that it touches
//! 0      commit   insert 2: (3, 30)                   none
//! 1      commit   insert 3: (7, 70)                   the interval: a range of the first key of t
//! 2      commit   update 1: (1, 10) to 4: (9, 10)     the version 1, which comes before the interval
//! ```
//!
//! The first touch is that of place 1. The entries are looked at once each, and no memory is taken.
//!
//! | Notion | Code | Definition |
//! |---|---|---|
//! | a version is taken away | `versions` | `first_touched` of `session_language`, over `genids_taken` |
//! | a row that goes or comes lies in an interval | `intervals` | `changes_touch` of `session_language` |
//! | the first entry that touches an item | `touches` | `first_touch_of` of `specs/Touches.antt` |
#![tactic(auto)]

mod intervals;
mod laws;
mod touches;
mod versions;

pub use laws::{items_are_of_what_is_used, touches_are_first};
pub use touches::{Touch, first_touch};
