//! What is decided of a request to commit, over a log whose pages stand for its rows.
//!
//! `decide` tries, in this order: whether an entry has the request's identity, a repeat; whether an entry after its begin
//! position touches an item that it used, a conflict; whether its operations break a key at the end of the log, a duplicate;
//! else it gives the log's next entry. It changes nothing: the entry is appended by whoever keeps the log.
//!
//! A request used versions, and read intervals. At level serializable both count, the versions first; at level snapshot the
//! versions alone do.
//!
//! A log of three entries over the table `t` with a unique key `pk` over its first column, and requests of new transactions
//! that began at position 2:
//!
//! ```text
//! 1   setup    t
//! 2   commit   insert 1: (1, 10), insert 2: (2, 20)
//! 3   commit   update 1: (1, 10) to 3: (1, 11)
//!
//! update 1 to (1, 12)                     conflict at position 3, the version 1 of t
//! update 2 to (2, 21), having used 1      conflict at position 3, the version 1 of t
//! update 2 to (2, 21), having read the rows whose first column is at most 1
//!     at level serializable               conflict at position 3, a range of pk of t
//!     at level snapshot                   the entry 4: update 2: (2, 20) to 4: (2, 21)
//! insert (2, 30)                          duplicate at position 3, the first key of t
//! update 2 to (3, 20)                     the entry 4: update 2: (2, 20) to 4: (3, 20), with the records of its pages
//! the transaction of the entry 3 again    repeat of position 3
//! ```
//!
//! | Notion | Code | Definition |
//! |---|---|---|
//! | what a request has to be | | `IsAsked` of `specs/Asked.antt` |
//! | the first entry that touches what was used | `conflicts` | `conflict_of` of `specs/Conflicts.antt` |
//! | an entry with the request's identity | `BlkSeq::lookup` of `blkseq_table` | `HasId` there |
//! | operations that can be done at the end of the log | `operations` | `IsAble` of `specs/Able.antt` |
//! | the decision | `decide` | `Decides` of `specs/Decided.antt` |
#![tactic(auto)]

mod conflicts;
mod decisions;
mod laws;
mod operations;

pub use decisions::decide;
pub use laws::{changes_tell_conflicts, conflicts_are_first, snapshots_use_versions};
