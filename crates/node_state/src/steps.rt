//! What comes of the calls of a node.

/// What comes of a call: what the node sends; or it is down, and did nothing; or its store failed, and it is down now.
#[derive(Drop)]
pub enum Step<T> {
    Sent(T),
    Down,
    Fault,
}

/// What comes of a begin's question.
#[derive(Drop)]
pub enum BeginStep<T> {
    /// The node asks the others to confirm its generation.
    Sent(T),
    /// It does not lead, and promised this generation.
    NotMaster { generation: u64 },
    /// It leads, and does not know all that it adopted as durable.
    NotYet { durable: u64, adopted: u64 },
    /// It is down.
    Down,
}

/// What comes of a start: the node is up; or its store failed there, and it is down still.
#[derive(Clone, Copy, Drop)]
pub enum Started {
    Up,
    Fault,
}
