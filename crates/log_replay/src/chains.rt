/// One record in the chain of its page: the position of its entry, and its LSN.
#[derive(Clone, Copy, Debug, PartialEq, Eq)]
pub struct ChainLink {
    pub position: u64,
    pub lsn: u64,
}
