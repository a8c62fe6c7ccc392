use phys_log::Entry;

/// The version of the frames that are written.
pub const VERSION: u8 = 1;

/// One frame of a store.
#[derive(Clone, Drop)]
pub enum Frame {
    /// The first frame of a store, and no other: whose it is.
    Header {
        /// The version of the frames behind it.
        version: u8,
        /// The number of the node whose store it is.
        node: u8,
        /// The id of the node's cluster.
        cluster: u128,
    },
    /// The node promised this generation.
    Promise(u64),
    /// The node accepted its log, or the log that was adopted, in this generation.
    Accept(u64),
    /// An entry behind those before it.
    Entry(Entry),
    /// An adoption begins, with that many entries of the log.
    Cut(u64),
}
