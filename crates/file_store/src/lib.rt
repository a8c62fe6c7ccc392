//! A store of a node's log in a file.
//!
//! `FileStore` is a `LogStore` of `cdb_outside` over a file of std. It reads the file when it is made, keeps its bytes in
//! memory, and writes what is appended at each sync.
//!
//! | Call | In memory | The file |
//! |---|---|---|
//! | `append` | pending bytes more | as before |
//! | `sync` | the pending bytes are synced | the pending bytes are written behind, and synced |
//! | `cut` | a front of the synced bytes | what is cut off is set aside; then the file is cut to that length, and synced |
//! | `halt` | no pending byte | as before |
//!
//! Where a call failed that was to change the file, the file may be behind the synced bytes; the next call first makes it
//! equal. A file that could not be read fails each call.
//!
//! Nothing that the file had is gone. What is to be cut off is first added to the end of the file beside it, `node1.log.cut`
//! beside `node1.log`, and synced; so is what the file has besides the synced bytes, before it is made equal. Where that
//! fails the call fails, and the file is as before. The file beside is a list of pieces, each an offset (8 bytes, big-endian),
//! a length (8 bytes) and that many bytes, which stood in the file from the offset on:
//!
//! ```text
//! 00 00 00 00 00 00 00 dd  00 00 00 00 00 00 00 03  04 00 00      the three bytes from 221 on
//! ```
#![tactic(auto)]

mod files;

pub use files::{CutOff, FileState, FileStore};
