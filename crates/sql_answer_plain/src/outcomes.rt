use cdb_values::{GenidItem, List, Reply, RowOp, StatementError};

/// What a statement comes to, whatever the operations before it: what is to be made of these is said, and not done.
#[derive(Drop)]
pub enum Outcome {
    /// It fails by the rows that it met, and leaves the operations as they were.
    Fails(StatementError),
    /// It leaves the operations as they were: what the session is told, and the versions that are used besides those
    /// that operations take away.
    Tells {
        replies: List<Reply>,
        uses: List<GenidItem>,
    },
    /// Its writes, one a row, which are to be laid over the operations.
    Writes(List<RowOp>),
}
