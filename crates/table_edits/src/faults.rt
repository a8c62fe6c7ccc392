//! Why operations are not done.
use thiserror::Error;

/// Why operations became no edits.
#[derive(Debug, Drop, Error)]
pub enum OpsFault {
    /// After the last operation this key is broken, and none before it: the place of its table in the schema, and its
    /// own among the keys of the table.
    #[error("a key is there twice")]
    Duplicate { table: u16, key: u8 },
    /// The one who gives the pages is gone; the source's count of losses rose.
    #[error("the pages are gone")]
    Gone,
    /// Want of memory.
    #[error("out of memory")]
    NoMemory,
}
