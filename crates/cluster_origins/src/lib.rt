//! The log that the first master adopts is one that a best store had.
//!
//! Before a first master nothing is committed, so leaders append only the setup, and that only to an empty log:
//!
//! ```text
//! stores at the entry    1: accepted 4, [setup, a]    2: accepted 4, [setup]    3: empty
//! generation 5           node 2 stands, node 3 votes for it: it adopts [setup], and falls before anybody takes it
//! generation 6           node 1 stands, node 3 votes for it: it adopts [setup, a], a majority takes it: the first master
//!
//! the stores of 1 and 3 have no greater pair than (4, 2): the store of node 1 is a best one
//! ```
//!
//! A leader has what its store had, or what it took of an earlier leader, which is of the same kind. Who voted for it
//! had no greater pair; and whoever accepted in the run has a greater generation than any store had.
//!
//! The function here runs nothing: its clauses are what is proved.
#![tactic(auto)]

ghost use Rattle.std.specs.Prelude.{ℕ, ◌≡◌, List, true};
ghost use Rattle.cluster_consensus.specs.Facts.{Claim};
ghost use Rattle.cluster_events.specs.Guards.{IsLegalHistory};
ghost use Rattle.cluster_events.specs.Parts.{ActorEvent, field};
ghost use Rattle.cluster_events.specs.Settings.{Setting};
ghost use Rattle.cluster_masters.specs.FirstMaster.{HasNoMaster, IsFirstMaster};
ghost use Rattle.cluster_origins.specs.Origins.{IsFrom, IsFromBest};
ghost use Rattle.cluster_requests.specs.KeptEntries.{KeptEntry};

/// The log that the first master adopted is that of a best store at the entry, or it is the setup alone where a best
/// store was empty. Without a first master each node that came up has such a log, of some store.
pub fn the_first_master_adopts_a_best_log()
    ensures adopted { (G : Setting) (h : List (ℕ × ActorEvent)) (m : ℕ) (a : Claim KeptEntry) → IsLegalHistory G h
        → IsFirstMaster G.nodes (field h).core m a → IsFromBest G.nodes h a.log }
    ensures unmastered { (G : Setting) (h : List (ℕ × ActorEvent)) (k : ℕ) → IsLegalHistory G h
        → HasNoMaster G.nodes (field h).core → ((field h).core.nodes k).was_up ≡ true
        → IsFrom h ((field h).core.nodes k).log }
{}
