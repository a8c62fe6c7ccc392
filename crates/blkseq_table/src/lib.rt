//! Which entry of a log has which identity: the transaction of a session that asks again is found where it was committed.
//!
//! An identity is a generation, a session and a number there; two are the same only where all three are. A table has the
//! identities of a log's entries with their positions. Of this log, whose transactions are named as
//! (generation, session, number), it has two:
//!
//! ```text
//! position  entry                  the table
//! 1         setup                  nothing
//! 2         commit  (1, a, 1)      (1, a, 1) at 2
//! 3         commit  (1, b, 1)      (1, a, 1) at 2    (1, b, 1) at 3
//!
//! lookup (1, b, 1)                 3
//! lookup (2, b, 1)                 nowhere: another generation
//! insert (1, a, 2) at 4            (1, a, 1) at 2    (1, b, 1) at 3    (1, a, 2) at 4
//! drop_above 2                     (1, a, 1) at 2
//! ```
//!
//! A table's identities are apart, and their positions rise. So it is a hash map that keeps the order of insertion: a
//! lookup goes over no entries, and what stands above a position is the map's end. An identity is looked up as it is lent,
//! without a copy: a set of the sessions tells the number of one, and the map's keys have this number in its place.
//!
//! | Notion | Code | Definition |
//! |---|---|---|
//! | identities with their positions; where one stands | `BlkSeq` | `specs/Known.antt` |
//! | those of a log | `of_entries` | `identities_of` of `specs/OfLogs.antt` |
//! | an identity as the key of a map | `keys` | `id_by` of `specs/Kept.antt` |
//! | the map | `table` | `specs/Kept.antt` |
#![tactic(auto)]

mod keys;
mod laws;
mod table;

pub use laws::identities_follow_the_log;
pub use table::BlkSeq;
