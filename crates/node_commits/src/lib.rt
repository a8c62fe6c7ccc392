//! A node answers requests to commit. It decides each over its log, appends an entry or tells what it decided, and
//! keeps what it told in a ledger, so that a request that comes again gets its answer again.
//!
//! Node 1 leads in generation 3, with a setup and the entry of (3, a, 1):
//!
//! ```text
//! request                               answer                              event     ledger
//! (3, b, 1), used what entry 2 wrote    a conflict at 2                     Settle    (3, b, 1) a conflict at 2
//! (3, b, 1) again                       a conflict at 2                     none      the same
//! (3, a, 1) again                       a repeat of 2                       Settle    .., (3, a, 1) a repeat of 2
//! (3, c, 1)                             its entry, at 3, shipped            Append    the same
//! any, of generation 4                  it does not lead, and promised 3    none      the same
//! ```
#![tactic(auto)]

mod commits;
mod copies;
mod indexes;
mod ledgers;
mod steps;

pub use ledgers::Ledger;
pub use steps::CommitStep;
