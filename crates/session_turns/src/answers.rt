//! What a node answers its session.

use cdb_values::Item;

/// What a call of a node tells.
#[derive(Drop)]
pub enum Told<T> {
    /// It is told now.
    Now(T),
    /// It can't be told yet: the same is to be asked again later.
    NotYet,
}

/// That a transaction began.
#[derive(Clone, Copy, Drop)]
pub struct Begun {
    /// The position that it began at.
    pub position: u64,
    /// The generation in which it began.
    pub generation: u64,
}

/// What became of a commit.
#[derive(Clone, Copy, Drop)]
pub enum CommitOutcome {
    /// It is committed at this position, or where it began if it has no operations.
    Committed(u64),
    /// The entry at this position is the first that touches what it used, and this is the first that it touches.
    Conflict { position: u64, item: Item },
    /// The rows at this position with its operations break this key.
    Duplicate { position: u64, table: u16, key: u8 },
    /// The node that it was asked of went down, by the down line of that number.
    Lost { node: u64, down: u64 },
    /// So many of the nodes are up, fewer than a majority.
    NoMajority { up: u64, nodes: u64 },
}
