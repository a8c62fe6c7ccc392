//! A node's log over its store, open or stopped: what a node does with it before each of its events, and at a stop.
//!
//! An open log keeps what it is told in its store before it answers. Where the store fails, it stops itself: it is as it was
//! before that call, and the store holds this or what was under way. It may be opened again, and has then what the store
//! holds. Of node 2 with a setup, which promised and accepted generation 1:
//!
//! ```text
//! call                          promised, accepted, log    open    the store holds one of
//!                               1 1 setup                  yes     1 1 setup
//! promise of 3; the store fails 1 1 setup                  no      1 1 setup, 3 1 setup
//! open                          3 1 setup                  yes     3 1 setup
//! stop                          3 1 setup                  no      3 1 setup
//! ```
//!
//! A log over a store that was not read yet is stopped too, and has no entry. What its store holds may be read (`read`) before
//! the log is opened.
//!
//! | Notion | Code | Definition |
//! |---|---|---|
//! | a log over its store | `KeptLog` | `OverStore` of `specs/Kept.antt` |
//! | what a store may hold | `Reading` | `Kept`, `HoldsAny` |
#![tactic(auto)]

mod logs;
mod places;
mod readings;

pub use logs::KeptLog;
pub use node_log::{KeepFault, OpenFault};
pub use readings::Reading;
