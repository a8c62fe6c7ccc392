//! What holds of the entries of every log: a rule that each entry keeps where it is appended is kept by each
//! entry of each log.
//!
//! ```text
//! EachEntry P l    P holds of each entry of l, over the entries before it
//! Enters P o e     P holds of what this event adds: an appended entry over the log that it enters,
//!                  each entry of a store of an earlier run
//! ```
//!
//! The functions here run nothing: each is a law, and its clauses are what is proved.
#![tactic(auto)]

ghost use Rattle.std.specs.Prelude.{ℕ, List};
ghost use Rattle.core_lists.specs.Lists.{In};
ghost use Rattle.cluster_consensus.specs.Facts.{Claim};
ghost use Rattle.cluster_consensus.specs.Events.{NodeEvent};
ghost use Rattle.cluster_consensus.specs.Histories.{Legal, after};
ghost use Rattle.cluster_entries.specs.Rules.{EachEntry, AllEnter};

/// A rule on entries.
pub trait Rule<E> {
    /// It holds of an entry, over the entries before it.
    ghost holds: { List E → E → Type 0 };
}

/// A rule that each appended entry keeps over the log that it enters, and each entry of the stores of an
/// earlier run, is kept by each entry of each log that a node has or had accepted.
pub fn entries_keep_their_rule<E, R: Rule<E>>()
    ensures held { (n k : ℕ) (h : List (ℕ × NodeEvent E)) → Legal n h → AllEnter R.holds h
        → EachEntry R.holds ((after h).nodes k).log }
    ensures accepted { (n k : ℕ) (h : List (ℕ × NodeEvent E)) (c : Claim E) → Legal n h → AllEnter R.holds h
        → In c ((after h).nodes k).accepts → EachEntry R.holds c.log }
{}
