//! What the operations of a transaction do to one tree of a table: the pairs of all versions that go are taken out first,
//! and then the pairs of all those that come are put in, in order. So no state between two operations is looked at, and two
//! updates may exchange the values of a unique key.
//!
//! | Step | Code | Definition |
//! |---|---|---|
//! | what a tree has of a version | `pair_for`, `key_for` of `table_store` | `pair_of_version` there |
//! | all that goes is taken out | `takes` | `gone`, `removed` of `table_store` |
//! | all that comes is put in | `puts` | `born`, `put_all` of `table_store` |
//! | both | `changes` | `IsPut` |
//!
//! For example: a unique key has the value 1 of the version 3 and the value 2 of the version 5, and two updates exchange
//! them, from the next genid 6 on. First `1 -> 3` and `2 -> 5` go, and then `2 -> 6` and `1 -> 7` come.
#![tactic(auto)]

mod changes;
mod puts;
mod takes;

pub use changes::change_tree;
