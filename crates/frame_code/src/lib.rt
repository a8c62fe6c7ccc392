//! The frames of a store: what they are, the bytes that stand for each, and the laws of these bytes.
//!
//! A store is a list of frames, one behind the other. A frame is an envelope: its kind, the length of its payload in 8
//! bytes, and the payload. Numbers are big-endian; a number of 8 bytes in a payload is below 2^62.
//!
//! | Kind | Frame | Payload |
//! |---|---|---|
//! | `01` | header | version, node, cluster id in 16 bytes |
//! | `02` | promise | generation in 8 bytes |
//! | `03` | accept | generation in 8 bytes |
//! | `04` | entry | generation in 8 bytes, then a setup or a commit |
//! | `05` | cut | length in 8 bytes |
//!
//! | In an entry | Bytes |
//! |---|---|
//! | setup | `00`, schema, records |
//! | commit | `01` snapshot or `02` serializable, began 8, session's name, transaction 8, begin 8, changes, records |
//! | schema | number of tables 2, tables |
//! | table | name, number of columns 1, columns, number of keys 1, keys |
//! | column | name, `01` integer, `02` text or `03` blob, `01` where it may hold NULL or `00` |
//! | key | name, `01` where it is unique or `00`, number of columns 1, a place of 1 each |
//! | changes, records | number 8, then each of them |
//! | insert | `01`, table 2, genid 8, row |
//! | update | `02`, table 2, old genid 8, old row, genid 8, row |
//! | delete | `03`, table 2, old genid 8, old row |
//! | record | LSN 8, LSN before 8, page 8, edit |
//! | edit: put, take | `01` or `02`, place 2, cell |
//! | edit: swap | `03`, place 2, cell before, cell after |
//! | edit: head | `04`, head before, head after |
//! | head | kind, level, right link 8 |
//! | name, cell, row | length in 1, 2 or 4 bytes, then its bytes; those of a row are its code |
//!
//! The promise of generation 1 is
//!
//! ```text
//! 02  00 00 00 00 00 00 00 08  00 00 00 00 00 00 00 01
//! ```
//!
//! A header takes 27 bytes.
//!
//! Three things hold of all frames, whatever reads or writes them, and are laws over the definitions alone:
//!
//! - A frame's bytes tell the frame and what stands behind it (`frames_tell`): no frame's bytes begin another's, and a
//!   frame has one spelling.
//! - Bytes that are less than an envelope begin with no frame (`fronts_are_no_frames`), and each proper front of an
//!   envelope is such bytes (`envelopes_have_fronts`).
//! - What goes over its field has no spelling, and neither has a schema that `Schema::add` would not let grow to it.
#![tactic(auto)]

mod facts;
mod frames;
mod laws;

pub use facts::frames_by_hand;
pub use frames::{Frame, VERSION};
pub use laws::{envelopes_have_fronts, frames_tell, fronts_are_no_frames};
