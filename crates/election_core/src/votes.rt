//! What a node remembers to decide with.

/// A node's numbers: lengths stand for logs.
#[derive(Clone, Copy, Debug)]
pub struct NodeVote {
    /// Its number, from 1.
    pub node: u8,
    /// How many nodes there are, at most 7.
    pub nodes: u8,
    /// The greatest generation that it promised.
    pub promised: u64,
    /// The generation in which it last accepted its log.
    pub accepted: u64,
    /// The length of its log.
    pub length: u64,
    /// The length that it adopted when it last began to lead.
    pub adopted: u64,
    /// How much of its log it knows as durable.
    pub durable: u64,
    /// Bit `k` says that node `k` granted it the generation that it promised.
    pub granted: u8,
    /// The greatest length that each node acknowledged in its generation, that of node 1 first.
    pub acked: [u64; 7],
    /// Whether it leads.
    pub leading: bool,
    /// Whether it is up.
    pub up: bool,
}
