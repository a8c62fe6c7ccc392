//! The reasons against a line, by their numbers.

/// The line is not UTF-8.
pub const NOT_TEXT: u8 = 1;
/// The line is longer than 65,535 bytes.
pub const LONG_LINE: u8 = 2;
/// The line is no line of the grammar, or stands in the wrong part.
pub const NO_LINE: u8 = 3;
/// The number of nodes is not one of 1 to 7, or there is no line at all.
pub const NO_NODES: u8 = 4;
/// The name of the session is malformed, declared twice or not declared.
pub const WRONG_SESSION: u8 = 5;
/// The number is no node's.
pub const WRONG_NODE: u8 = 6;
/// The table or the watch is wrong.
pub const WRONG_TABLE: u8 = 7;
/// A limit is passed, or there are too few stores or consumers.
pub const LIMIT: u8 = 8;
/// The line does not run today.
pub const NOT_BUILT: u8 = 10;
