//! The first master of a run, the log that is reported, and what stands behind the base.
//!
//! ```text
//! base      the length of what the first master adopted. Behind it stands what the run appended
//!
//!           adopted by the first master        appended in the run
//!           [ setup, a, b ]                    [ c, d, e ]
//!                         ^ base               ^ each of them by the rule that every append keeps
//! ```
//!
//! The first master is the leader of the least generation in which its own adopted log became durable. It need not
//! be the first leader, nor the first whose log is durable: `two_masters_stand` has a history in which the adopted
//! log of the first leader is durable only as a front of what a later leader made durable.
//!
//! The log that is reported is that of a node whose pair of accepted generation and length is greatest. It begins
//! with every durable log.
//!
//! The functions here run nothing: each is a law, and its clauses are what is proved.
#![tactic(auto)]

ghost use Rattle.std.specs.Prelude.{ℕ, ◌≡◌, ◌≤◌, ◌∷◌, [], List, length};
ghost use Rattle.core_lists.specs.Fronts.{Front};
ghost use Rattle.core_lists.specs.Lists.{In, Has};
ghost use Rattle.cluster_consensus.specs.Facts.{Claim, Ping};
ghost use Rattle.cluster_consensus.specs.Events.{NodeEvent};
ghost use Rattle.cluster_consensus.specs.Histories.{Legal, after};
ghost use Rattle.cluster_consensus.specs.Durable.{DurableIn, DurableAt};
ghost use Rattle.cluster_masters.specs.Appended.{AllAppend, EachBehind};
ghost use Rattle.cluster_masters.specs.FirstMaster.{IsFirstMaster};
ghost use Rattle.cluster_masters.specs.Reported.{IsReported};
ghost use Rattle.cluster_masters.specs.TwoMasters.{two_masters};
ghost use Rattle.cluster_masters.specs.WholeLogs.{AllLeave};

/// The log of a node whose pair of accepted generation and length is greatest begins with each durable log.
pub fn the_reported_log_has_every_durable_log<E>()
    ensures { (n r : ℕ) (h : List (ℕ × NodeEvent E)) (d : List E) → Legal n h → IsReported n (after h) r
        → DurableAt n h d → Front d ((after h).nodes r).log }
{}

/// A legal history in which a log that the first leader adopted is durable, and only as a front of what a later
/// leader adopted: the first leader is no master.
pub fn two_masters_stand()
    ensures legal { Legal 3 two_masters }
    ensures led { In (record { gen = 6; log = 7 ∷ [] }) ((after two_masters).nodes 1).leads }
    ensures durable { DurableIn 3 (after two_masters) 7 (7 ∷ []) }
{}

/// Every begin's position is at least 1, and at least the base; and where a begin was answered some leader's
/// adopted log is durable in its own generation.
pub fn begins_reach_the_base<E>()
    ensures one { (n m : ℕ) (h : List (ℕ × NodeEvent E)) (x : Ping) → Legal n h → In x ((after h).nodes m).pings
        → 1 ≤ x.durable }
    ensures founded { (n m : ℕ) (h : List (ℕ × NodeEvent E)) (x : Ping) → Legal n h → In x ((after h).nodes m).pings
        → (k : ℕ) × Has (λ l. (l.gen ≤ x.gen) × DurableIn n (after h) l.gen l.log) ((after h).nodes k).leads }
    ensures base { (n m k : ℕ) (h : List (ℕ × NodeEvent E)) (x : Ping) (l : Claim E) → Legal n h
        → In x ((after h).nodes m).pings → IsFirstMaster n (after h) k l → length l.log ≤ x.durable }
{}

/// A rule on entries that are appended.
pub trait AppendRule<E> {
    /// It holds of an entry: in the generation that appends it, over the entries before it.
    ghost holds: { ℕ → List E → E → Type 0 };
}

/// Let a leader's adopted log be durable in its generation. Each log that is accepted from then on begins with it,
/// and each entry behind it was appended in the run, by the rule that every append keeps. Nothing is asked of the
/// entries of stores.
pub fn entries_behind_the_base_keep_their_rule<E, R: AppendRule<E>>()
    ensures begins { (n k m : ℕ) (h : List (ℕ × NodeEvent E)) (l c : Claim E) → Legal n h → AllAppend R.holds h
        → In l ((after h).nodes m).leads → DurableIn n (after h) l.gen l.log
        → In c ((after h).nodes k).accepts → l.gen ≤ c.gen → Front l.log c.log }
    ensures rule { (n k m : ℕ) (h : List (ℕ × NodeEvent E)) (l c : Claim E) → Legal n h → AllAppend R.holds h
        → In l ((after h).nodes m).leads → DurableIn n (after h) l.gen l.log
        → In c ((after h).nodes k).accepts → l.gen ≤ c.gen → EachBehind R.holds l.gen c.gen l.log c.log }
{}

/// A property of whole logs.
pub trait Property<E> {
    /// It holds of a log.
    ghost holds: { List E → Type 0 };
}

/// A property that the empty log has, each log behind an append, and each log of a store, is had by each log that a
/// node has or had accepted; and by each front of a log that is accepted from a generation on in which the leader's
/// adopted log is durable, from that log on.
pub fn logs_keep_their_property<E, R: Property<E>>()
    ensures held { (n k : ℕ) (h : List (ℕ × NodeEvent E)) → R.holds [] → Legal n h → AllLeave R.holds h
        → R.holds ((after h).nodes k).log }
    ensures accepted { (n k : ℕ) (h : List (ℕ × NodeEvent E)) (c : Claim E) → R.holds [] → Legal n h
        → AllLeave R.holds h
        → In c ((after h).nodes k).accepts → R.holds c.log }
    ensures fronts { (n m k : ℕ) (h : List (ℕ × NodeEvent E)) (a c : Claim E) (xs : List E) → R.holds [] → Legal n h
        → AllLeave R.holds h → In a ((after h).nodes m).leads → DurableIn n (after h) a.gen a.log
        → In c ((after h).nodes k).accepts → a.gen ≤ c.gen
        → Front xs c.log → length a.log ≤ length xs → R.holds xs }
{}
