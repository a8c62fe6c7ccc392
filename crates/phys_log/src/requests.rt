use crate::entries::{CommitId, Entry};
use cdb_values::{GenidItem, Interval, Item, Level, List, RowOp};

/// What a transaction asks at its commit.
#[derive(Clone, Drop)]
pub struct CommitRequest {
    pub id: CommitId,
    /// The position that it began at.
    pub begin: u64,
    pub level: Level,
    /// Its net operations.
    pub ops: List<RowOp>,
    /// The versions that it used, in order and without repeats.
    pub genids: List<GenidItem>,
    /// The ranges that it read, in order.
    pub ranges: List<Interval>,
}

/// What is decided of a request. The first variant that is right is the decision.
#[derive(Clone, Drop)]
pub enum Decision {
    /// The entry at this position has the request's identity.
    Repeat(u64),
    /// The entry at this position is the first after the begin position that touches a used item, and this is the
    /// first item that it touches.
    Conflict { position: u64, item: Item },
    /// The rows at this position with the operations applied break this key.
    Duplicate { position: u64, table: u16, key: u8 },
    /// The entry that is to be appended.
    Commit(Entry),
}
