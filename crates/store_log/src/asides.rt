use cdb_values::List;
use phys_log::Entry;

/// What an open adoption leaves out of the log.
#[derive(Drop)]
pub(crate) struct Aside {
    /// How many entries of the log the adoption began with.
    pub(crate) kept: u64,
    /// The entries of the log behind them.
    pub(crate) tail: List<Entry>,
}
