use cdb_values::{Level, List, Name, Reply};

/// What a run tells: the lines of its sessions and nodes in the order in which they came about,
/// the committed history after the base, and what each feed place took.
#[derive(Clone, Drop)]
pub struct Report {
    pub lines: List<Line>,
    /// The position up to which the history stood before the run; none for 0.
    pub base: Option<u64>,
    /// One entry for each position after the base, in order.
    pub entries: List<EntryLine>,
    pub feeds: List<FeedLine>,
    /// The length of the history.
    pub end: u64,
}

/// A line of a report.
#[derive(Clone, Drop)]
pub enum Line {
    /// A session was answered. `txn` is the number of its transaction, or 0 outside one.
    Session { name: Name, txn: u64, reply: Reply },
    /// A node went down: by the operator or an armed stop, or by a fault of its store.
    Down { count: u64, node: u64, fault: bool },
    /// A node came up after the opening.
    Up { node: u64 },
    /// All earlier lines of the script were done.
    Barrier,
    /// The feeds were offered the changes up to a position.
    Fed { position: u64 },
}

/// A position of the history.
#[derive(Clone, Drop)]
pub enum EntryLine {
    /// The schema.
    Setup {
        position: u64,
    },
    /// A committed transaction, its begin position and level.
    Commit {
        position: u64,
        session: Name,
        txn: u64,
        begin: u64,
        level: Level,
    },
}

/// What a feed place took, and how many consumers it lost.
#[derive(Clone, Drop)]
pub struct FeedLine {
    pub place: u64,
    pub table: Name,
    pub taken: u64,
    pub dropped: u64,
}
