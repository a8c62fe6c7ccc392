//! The frames of a store, written and read.
//!
//! `frame_code` says which bytes stand for a frame. Here a frame is written as exactly these bytes, and read from the
//! front of any bytes. What stands there is one of three things, and each is told exactly:
//!
//! | Reading | What stands at the front |
//! |---|---|
//! | `Whole` | a frame, and how many bytes are its spelling |
//! | `Short` | less than an envelope: no byte, or a kind with fewer bytes than a length takes, or than it says |
//! | `Bad` | neither |
//!
//! The first two frames of the store of node 2 in cluster 7 are
//!
//! ```text
//! 01  00 00 00 00 00 00 00 12  01  02  00 00 00 00 00 00 00 00 00 00 00 00 00 00 00 07
//! 02  00 00 00 00 00 00 00 08  00 00 00 00 00 00 00 01
//! ```
//!
//! The first 26 bytes of these, or fewer, are `Short`. Where the 0 behind the first `01` is a 1, they are `Short` too,
//! since that length goes past the end; and where the `12` is an `11`, they are `Bad`, since a header has 18 bytes.
//!
//! A reader takes memory for what it read, and never for what a length says alone.
#![tactic(auto)]

mod changes;
mod entries;
mod entry_frames;
mod frames;
mod laws;
mod names;
mod numbers;
mod parts;
mod records;
mod tables;

pub use entry_frames::write_entry;
pub use frame_code::{Frame, VERSION};
pub use frames::{Reading, read_frame, write_frame};
pub use laws::readings_are_apart;
