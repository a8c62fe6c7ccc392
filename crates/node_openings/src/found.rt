//! What stores were found to be, and why a script is not played over them.
use cdb_values::Schema;
use std::snapshot::Snapshot;
use table_state::State;

/// What was read of a store whose log is sound.
#[derive(Drop)]
pub struct ReadLog {
    /// The promised generation.
    pub promised: u64,
    /// The accepted generation.
    pub accepted: u64,
    /// How many entries the log has.
    pub length: u64,
    /// Its tables, where it has entries.
    pub tables: Option<Schema>,
    /// The rows for which its pages stand.
    pub rows: Snapshot<State>,
}

/// What a store was found to be.
#[derive(Drop)]
pub enum StoreFound {
    /// A call of it failed while it was read: its count of faults rose.
    Failed,
    /// A frame is bad, or the header is another's.
    Bad {
        /// The offset of the bad frame, 0 for the header.
        at: u64,
    },
    /// Its log is not sound.
    NotSound,
    /// Its log is sound.
    Whole(ReadLog),
}

/// Why a script is not played over its stores, in the order in which the causes are looked for.
#[derive(Clone, Copy, Debug)]
pub enum WhyNotOpened {
    /// A store is bad: the lowest one that is.
    StoreRefused {
        node: u8,
        /// The offset of the bad frame, 0 for the header.
        at: u64,
    },
    /// The log of a store is not sound, the lowest one that is not; or where all are, the lowest node whose store accepted what no
    /// majority promised.
    Unsound {
        node: u8,
    },
    /// The given tables are not those of the best log.
    Differs {
        /// The place of the first given table that differs.
        table: u64,
    },
    /// Want of memory.
    NoMemory,
}

/// A log among others: its node, its accepted generation, and how long it is.
#[derive(Clone, Copy)]
pub(crate) struct RankedLog {
    pub node: u8,
    pub accepted: u64,
    pub length: u64,
}
