//! The opening of all stores: they are read in the order of their nodes, and it is told what a script is played over, or why it is
//! not played over them.
//!
//! Stores have bytes that anybody may have written. A script is not played over them for the first of these causes:
//!
//! ```text
//! 1  a frame is bad, a header another's                StoreRefused  of the lowest such store
//! 2  a log is not sound                                Unsound       of the lowest such store
//! 3  a generation was accepted, and no majority        Unsound       of the lowest such store
//!    promised it, as far as the stores were read
//! 4  the best log has other tables than the given      Differs       at the first given table that differs
//! ```
//!
//! A store that fails while it is read is compared with nothing: its node is down. Of three stores, where the tables t and u are given:
//!
//! ```text
//! store 1                  store 2                   store 3                  answer
//! no byte                  no byte                   no byte                  found: three logs without entries
//! promise 5, accept 5      no byte                   no byte                  Unsound 1: two nodes did not promise 5
//! promise 5, accept 5      no byte                   fails                    found: the third may have promised 5, too
//! a commit alone           a bad frame at 27         no byte                  StoreRefused 2, 27
//! setup of t, accept 1     setup of t, u, accept 2   promise 2                found: the best log has the given tables
//! setup of t, u, accept 1  setup of t, accept 2      promise 2                Differs 1
//! ```
//!
//! No node is needed for that: a script without tables takes those of the best log, and only then is it known what nodes are of. The
//! logs are stopped still, and without an entry, and each store stands for what it stood for.
//!
//! | Notion | Code | Definition |
//! |---|---|---|
//! | what a store was found to be | `StoreFound`, `ReadLog` | `IsFoundAs` of `specs/Found.antt` |
//! | the same as reports know it | | `Finding` of `play_order`, `IsSeenAs` and `IsFinding` of `specs/Findings.antt` |
//! | why a script is not played | `WhyNotOpened` | `IsToldOver` of `specs/Told.antt` |
//! | what it is played over | | `MayPlayOver` |
#![tactic(auto)]

mod facts;
mod found;
mod judges;
mod laws;
mod opens;
mod readings;
mod tables;

pub use facts::stores_are_told_so;
pub use found::{ReadLog, StoreFound, WhyNotOpened};
pub use laws::{
    one_store_is_opened_so, the_best_log_has_these_tables,
    what_is_told_is_told_in_place_of_a_report,
};
pub use opens::open_logs;
pub use readings::unread_logs;
pub use tables::best_tables;
