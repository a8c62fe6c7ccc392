//! The own writes of a transaction, which are found by what they write and by what they take away.
//!
//! What a statement asks of the writes before it is of few of them: which took a version away that it read, and which
//! wrote rows that lie in an interval that it reads. So each write has marks, and these are kept in order:
//!
//! ```text
//! writes           stamp   marks (table, column, value)         (table, genid)
//! insert (7, 70)   0       t.0 = 7, t.1 = 70
//! update 12        1       t.0 = 8, t.1 = 70                     t: 12
//! delete 13        2                                             t: 13
//! ```
//!
//! The interval of the rows whose column 0 is 8 has own rows only among the writes with the mark `t.0 = 8`, which is
//! the one of stamp 1. A mark is a number that equal values share, and others may share it too: it says which writes
//! may be passed over, and never that one is meant. Stamps rise and stay, while a write that is taken out moves those
//! behind it down.
//!
//! An interval without a value that its rows have in a column, as one that has bounds alone, passes over no write.
//!
//! Marks cost more than looking at a few writes, and are of no use where nothing is read. So writes are added without
//! marks, and `mark` makes those that are wanting, once there are more than a few. What has no marks is looked at.
//!
//! Contracts see the list of the writes. What marks are stands in `specs/Marks`, and what is kept of them in
//! `specs/Kept`.
#![tactic(auto)]

mod keeping;
mod marks;
mod places;
mod writes;

pub use writes::OwnWrites;
