//! Tests of a log and what stands on it: what is decided of transactions, sound logs, entries that have a spelling,
//! identities, trees that are walked, undone pages, ids of clusters. The log that grows by inserts serves measures too.
#![tactic(auto)]

mod begun;

pub use begun::{begun_log, commit, decided};

#[cfg(test)]
mod clusters;
#[cfg(test)]
mod decisions;
#[cfg(test)]
mod identities;
#[cfg(test)]
mod sound;
#[cfg(test)]
mod spellings;
#[cfg(test)]
mod walks;
