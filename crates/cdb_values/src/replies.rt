use super::rows::{Level, Row, StatementError};
use byte_lists::Name;

/// What a session was answered.
#[derive(Clone, Drop)]
pub enum Reply {
    /// The begin position of the transaction.
    Begin(u64),
    Row(Row),
    /// How many rows the select gave.
    Done(u64),
    /// How many rows the write changed.
    Changed(u64),
    Error(StatementError),
    Level(Level),
    RolledBack,
    /// The position of the transaction in the history; its begin position if it changed nothing.
    Committed(u64),
    /// A later commit took a version away that this transaction used.
    ConflictGenid {
        position: u64,
        table: Name,
        genid: u64,
    },
    /// A later commit changed what this transaction read.
    ConflictRange {
        position: u64,
        table: Name,
        key: Name,
    },
    /// At a position of the history the operations break a key.
    Duplicate {
        position: u64,
        table: Name,
        key: Name,
    },
    /// The node went down, by the down line of that number.
    Lost {
        node: u64,
        down: u64,
    },
    /// Fewer than a majority of the nodes were up.
    NoMajority {
        up: u64,
        nodes: u64,
    },
    /// Want of memory.
    NoMemory,
}
