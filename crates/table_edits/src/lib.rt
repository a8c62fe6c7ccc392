//! The operations of a transaction become edits of pages: the pages that stand for a state of a schema then stand for the
//! state after the operations.
//!
//! The trees of the schema are changed one after the other, in the order of the plan: of a table first the tree of its
//! rows, and then the tree of each key. In each tree all that goes is taken out before anything is put in, so only the
//! state after the last operation is judged, and two updates may exchange the values of a unique key. Trees of tables that
//! no operation names are passed over. At last the meta page is told the next genid.
//!
//! | Step | Code | Definition |
//! |---|---|---|
//! | trees that are done, and trees that are left | `trees` | `IsHalfway` |
//! | one tree | `change_tree` of `table_changes` | `gone`, `born` of `table_store` |
//! | the first key that is broken | `trees` | `broken_place` |
//! | the next genid | `genids` | `next_after`, `SetsGenid` |
//!
//! For example: the tables `t` with the unique keys `k` and `m`, and `u` without a key; the next genid is 4. One insert into
//! `t` changes three trees and the meta page, and leaves the tree of `u`:
//!
//! ```text
//! page 0   meta            next genid 4 becomes 5
//! page 1   the rows of t   4 -> its row comes
//! page 2   the key k of t  its value -> 4 comes, or there is a duplicate: { table: 0, key: 0 }
//! page 3   the key m of t  its value -> 4 comes, or there is a duplicate: { table: 0, key: 1 }
//! page 4   the rows of u   as it was
//! ```
#![tactic(auto)]

mod edits;
mod faults;
mod genids;
mod laws;
mod trees;

pub use edits::{change_rows, ops_to_edits};
pub use faults::OpsFault;
pub use laws::the_first_broken_key_has_its_name;
