//! What comes of a request to commit.
use phys_log::Decision;

/// What comes of a request: what was decided of it, now or before, with what the node sends; or why nothing was.
#[derive(Drop)]
pub enum CommitStep<T> {
    Decided { decision: Decision, packets: T },
    /// It does not lead in that generation, and promised this one.
    NotMaster { generation: u64 },
    /// It is down.
    Down,
    /// Its store failed at the entry that was decided: it is down now, and no log of the history has the entry yet.
    Fault,
}
