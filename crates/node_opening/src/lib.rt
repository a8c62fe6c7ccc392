//! The opening of a node over its store: its log is read and judged, and the node stands and begins.
//!
//! A store that is opened has bytes that anybody may have written, and is refused for the first of these causes:
//!
//! ```text
//! 1  a call of the store failed           StoreFault    the node is down
//! 2  a frame is bad, a header another's   Refused       at the frame's first byte, at 0 for the header
//! 3  the log is not sound                 Unsound
//! 4  its tables are not the given ones    Differs       at the first given table that differs
//! ```
//!
//! Else the node stands in the generation above the one that it promised, and a log without entries begins with the setup
//! of the given tables. Of node 2 in cluster 7, where the tables t and u are given:
//!
//! ```text
//! what the store stands for                 answer          what the store has more
//! no byte                                   up, base 0      header, promise 1, accept 1, setup of t and u
//! the same bytes, but for the last one      up, base 0      promise 2, accept 2, setup of t and u
//! promise 3, accept 2, setup of t and u     up, base 1      promise 4, accept 4
//! the setup of t and v                      Differs 1       nothing
//! the setup of t, u and v                   Differs 1       nothing
//! a commit alone                            Unsound         nothing
//! ```
//!
//! Where the store fails once its log was read, the node is down, and the store stands for the log that it had, for the
//! same with the promise, for both with the acceptance, or for these with the setup.
//!
//! | Notion | Code | Definition |
//! |---|---|---|
//! | where given tables differ from those of a log | `tables` | `IsDifference`, `AreMatched` of `specs/Tables.antt` |
//! | a log that may be taken up | `judges` | `IsGood` of `specs/Goods.antt` |
//! | a node that is up | `UpNode` | `IsTakenUp` of `specs/Up.antt` |
//! | why a node is not up | `WhyNotUp` | `IsWhy` of `specs/Why.antt` |
//! | what is left of its store | `NotUp` | `IsLeft` of `specs/Left.antt` |
#![tactic(auto)]

mod judges;
mod stands;
mod tables;
mod up;

pub use tables::difference;
pub use up::{NotUp, UpNode, WhyNotUp, open_node};
