//! The limits of the database, each number once.

/// The most tables of a schema.
pub const MOST_TABLES: usize = 64;
/// The most columns of a table.
pub const MOST_COLUMNS: usize = 64;
/// The most keys of a table.
pub const MOST_KEYS: usize = 8;
/// The most columns of a key.
pub const MOST_KEY_COLUMNS: usize = 8;
/// The most bytes of a name.
pub const MOST_NAME_BYTES: usize = 32;
/// The most bytes of a row's code.
pub const MOST_ROW_BYTES: u64 = 1600;
/// The most bytes of a key's code.
pub const MOST_KEY_BYTES: u64 = 512;
/// The most net operations of a transaction.
pub const MOST_NET_OPERATIONS: usize = 16_384;
/// Every number that a log spells in eight bytes is below this one, 2^62.
pub const NUMBER_LIMIT: u64 = 0x4000_0000_0000_0000;
/// Every genid is below this number, and so is the next one.
pub const GENID_LIMIT: u64 = NUMBER_LIMIT;
/// Every position of the history is below this number.
pub const POSITION_LIMIT: u64 = NUMBER_LIMIT;
/// Every LSN is below this number: a record with one at or above it is answered by want of memory.
pub const LSN_LIMIT: u64 = NUMBER_LIMIT;
/// Every generation is below this number.
pub const GENERATION_LIMIT: u64 = NUMBER_LIMIT;
