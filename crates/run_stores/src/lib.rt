//! What the log that a run goes on with has to do with the stores that it was given.
//!
//! ```text
//! stores before the run   1: accepted 4, [setup, a]    2: accepted 4, [setup]    3: empty
//! in the run              node 1 stands, node 3 votes for it, and both accept [setup, a]: node 1 is the first master
//!
//! a majority of the stores, those of 1 and 3, have no greater pair than (4, 2): the store of node 1 is a best one
//! ```
//!
//! So nothing that a majority of the stores had is lost, and nothing is made up: the base of the report is the log of a
//! best store, or the setup alone where such a store was empty.
//!
//! At the end the store of the reported node has the log of the report, where the node is up; where it is down, maybe one
//! entry more, which was under way when its store failed. The pages of that log stand, at each position from the base on.
//!
//! The functions here run nothing: each is a law, and its clauses are what is proved.
#![tactic(auto)]

ghost use Rattle.std.specs.Prelude.{ℕ, ◌≡◌, ◌≤◌, ◌⊎◌, ◌+◌, List, Some, map, slice_get, true};
ghost use Rattle.cdb_outside.specs.Faults.{last_count};
ghost use Rattle.cluster_consensus.specs.Facts.{Claim};
ghost use Rattle.cluster_core.specs.Kept.{ground_of};
ghost use Rattle.cluster_events.specs.Settings.{Setting};
ghost use Rattle.cluster_masters.specs.FirstMaster.{HasNoMaster, IsFirstMaster};
ghost use Rattle.cluster_masters.specs.Reported.{IsReported};
ghost use Rattle.cluster_requests.specs.KeptEntries.{KeptEntry, plain};
ghost use Rattle.cluster_steps.specs.Guards.{AreLegalSteps};
ghost use Rattle.cluster_steps.specs.Named.{world};
ghost use Rattle.cluster_steps.specs.declared.events.Event.{Event};
ghost use Rattle.history_report.specs.Told.{told_by};
ghost use Rattle.log_rows.specs.History.{StandsOver, tables_of};
ghost use Rattle.run_results.specs.Stores.{AreStoresOf};
ghost use Rattle.run_stores.specs.Best.{IsOfBestStore, IsOfStore};
ghost use Rattle.run_stores.specs.Falls.{falls_told};
ghost use Rattle.run_stores.specs.Reported.{StandForLog};
ghost use Rattle.script_form.specs.declared.scripts.SessionLine.{SessionLine};
ghost use Rattle.store_log.specs.Keeps.{Stored};

/// The log that the first master adopted is that of a best store before the run, or the setup alone where such a store
/// was empty. Without a first master each node that came up has such a log, of some store.
pub fn the_first_master_adopts_the_log_of_a_best_store()
    ensures adopted { (G : Setting) (h : List (ℕ × Event)) (cluster : ℕ) (old new : List Stored) (m : ℕ)
        (a : Claim KeptEntry) → AreStoresOf G h cluster old new → IsFirstMaster G.nodes (world G h) m a
        → IsOfBestStore G.nodes cluster old (map plain a.log) }
    ensures unmastered { (G : Setting) (h : List (ℕ × Event)) (cluster : ℕ) (old new : List Stored) (k : ℕ)
        → AreStoresOf G h cluster old new → HasNoMaster G.nodes (world G h) → ((world G h).nodes k).was_up ≡ true
        → IsOfStore cluster old (map plain ((world G h).nodes k).log) }
{}

/// The store of the reported node has its log, or where that is down maybe one entry more. With a first master the pages
/// of this log stand, from the base on, for the rows that its entries make over those at the base.
pub fn the_reported_store_has_the_log()
    ensures store { (G : Setting) (h : List (ℕ × Event)) (cluster : ℕ) (old new : List Stored) (place : ℕ)
        (o s : Stored) → AreStoresOf G h cluster old new → IsReported G.nodes (world G h) (place + 1)
        → ((world G h).nodes (place + 1)).was_up ≡ true → slice_get old place ≡ Some o → slice_get new place ≡ Some s
        → StandForLog (place + 1) cluster s.synced ((world G h).nodes (place + 1)) }
    ensures pages { (G : Setting) (h : List (ℕ × Event)) (m r : ℕ) (a : Claim KeptEntry) → AreLegalSteps G h
        → IsFirstMaster G.nodes (world G h) m a → IsReported G.nodes (world G h) r
        → StandsOver (ground_of a.log) (tables_of (map plain ((world G h).nodes r).log))
        (map plain ((world G h).nodes r).log) }
{}

/// The count of faults of a node's store rose at least as often as the lines tell that the node went down by one; a count
/// that stands at its last value is excepted.
pub fn falls_by_faults_are_counted()
    ensures { (G : Setting) (sessions : List SessionLine) (h : List (ℕ × Event)) (cluster : ℕ)
        (old new : List Stored) (place : ℕ) (o s : Stored) → AreStoresOf G h cluster old new → slice_get old place ≡ Some o
        → slice_get new place ≡ Some s → (o.faults + falls_told (place + 1) (told_by G.nodes sessions h).lines ≤ s.faults)
        ⊎ (last_count ≤ s.faults) }
{}
