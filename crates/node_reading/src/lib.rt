//! The first reading of a node's store: what it holds, or why a node may not come up with it.
//!
//! A store that is read for the first time has bytes that anybody may have written. It is refused for the first of these
//! causes:
//!
//! ```text
//! 1  a call of the store failed              StoreFault
//! 2  a frame is bad, a header another's      Corrupt     at the frame's first byte, at 0 for the header
//! 3  the log is not sound                    Unsound
//! ```
//!
//! Else it is told which generations it promised and accepted, and which rows its pages stand for. Of node 2 in cluster 7:
//!
//! ```text
//! what the store stands for                 answer
//! no byte                                   found 0 0, length 0, no tables
//! promise 3, accept 2, setup of t and u     found 3 2, length 1, the tables t and u without rows
//! the same bytes, but for the last one      found 3 2, length 0, no tables
//! a header of node 1                        Corrupt 0
//! a commit alone                            Unsound
//! ```
//!
//! The log of the node is stopped still, and without an entry: what was read is not its own before it came up with it. It then
//! is opened as any other log, and has what was read.
//!
//! | Notion | Code | Definition |
//! |---|---|---|
//! | what was read | `Found` | `WasRead`, `WasFound` of `specs/Reading.antt` |
//! | what a node may come up with | | `MayBegin` |
//! | why it may not | `WhyUnread` | `IsWhyUnread` |
#![tactic(auto)]

mod readings;

pub use readings::{Found, WhyUnread, read_store};
