//! What a store stands for: a fold over its frames.
//!
//! A store is a list of frames, one behind the other. Its first frame is the header, and no other is. The others are
//! folded in order, and each has a rule:
//!
//! | Frame | May stand there | What it does |
//! |---|---|---|
//! | promise | above the promised generation | is the promised one; an open adoption is dropped |
//! | cut | at most the log's length | opens an adoption with that many entries of the log; an open one is dropped |
//! | entry | where its records fit; in the log, of the accepted generation | is added to the open adoption or the log |
//! | accept | the promised generation, above the accepted one | is the accepted one; an open adoption is the log |
//!
//! What is left behind the last whole frame is less than an envelope, and stands for nothing; and so does an adoption
//! that is still open at the end. A frame that has no spelling or breaks its rule is bad, and is told by the offset of
//! its first byte. A store whose header names another version, node or cluster is foreign.
//!
//! No byte, and fewer bytes than a header that are a front of one, stand for an empty log.
//!
//! Where an append was cut off, the store stands for what is held after some of its frames (`cut_frames_stand`).
//! Where an adoption is open at the end, the frames before it hold the same log (`open_adoptions_can_go`).
#![tactic(auto)]

mod asides;
mod facts;
mod finds;
mod held_logs;
mod laws;
mod mends;
mod opens;
mod readings;
mod standings;
mod steps;
mod stores;
mod walks;
mod windows;

pub use facts::stores_by_hand;
pub use held_logs::{HeldLog, TakeFault};
pub use laws::{
    cut_frames_stand, held_bytes_stand, kept_frames_stand, left_frames_stand,
    open_adoptions_can_go, standings_are_apart,
};
pub use opens::{OpenFault, OpenedLog, Unopened, open_log};
pub use readings::standing_of;
pub use standings::Standing;
pub use stores::{Held, KeepFault};
