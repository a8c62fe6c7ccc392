/// How a run ended.
#[derive(Clone, Copy, Debug, PartialEq, Eq)]
pub enum Status {
    /// The report was written.
    Done,
    /// The words are no command; the usage line was written.
    Usage,
    /// The script was refused at a line, from 1, for a reason; both were written.
    Refused { line: u64, why: u8 },
    /// A read of the source failed; nothing was written.
    ReadFault,
    /// A write to the sink failed; a front of the text was written.
    WriteFault,
    /// The store of a node has a bad frame at an offset.
    StoreRefused { node: u8, at: u64 },
    /// The store of a node is no state of a run.
    Unsound { node: u8 },
    /// Want of memory; nothing was written.
    NoMemory,
}
