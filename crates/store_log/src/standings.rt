use log_replay::PagedLog;

/// What the bytes of a store stand for.
#[derive(Drop)]
pub enum Standing {
    /// A log, and what its node promised and accepted.
    Log {
        /// The promised generation.
        promised: u64,
        /// The accepted generation.
        accepted: u64,
        /// The log: its entries, with the pages that they make.
        entries: PagedLog,
    },
    /// A frame is bad.
    Bad {
        /// The offset of its first byte.
        at: u64,
    },
    /// The header is whole and names another version, node or cluster.
    Foreign,
}
