//! Finished runs of a cluster that are written out, with their reports.
//!
//! Each premise of the laws of `cluster_reports` is met by a whole history here, and the law gives its report, line by
//! line. Three nodes over empty stores, two sessions, and a table that is watched.
//!
//! ```text
//! script        report, where node 1 leads       where nodes 1 and 2 are stopped first
//!
//! a: w          a 1 begin 1                      stop 1        down 1 1
//! barrier       a 1 changed 1                    stop 2        down 2 2
//! stop 3        a 1 committed 2                  a: w          a 1 nomajority 1 3
//! start 3       barrier                          (the feed)    fed 0
//! on b row 1    down 1 3
//! b: r          b 1 begin 2
//! start 2       up 3
//! b: r          b 1 row ..
//! (the feed)    down 2 2
//!               b 1 lost 2 2
//!               up 2
//!               b 2 begin 2, row .., done 1
//!               b 2 committed 2
//!               fed 2
//! ```
//!
//! The functions here run nothing: their clauses are what is proved.
#![tactic(auto)]

ghost use Rattle.std.specs.Prelude.{ℕ, ◌≡◌, List, [], true, false};
ghost use Rattle.std.specs.declared.snapshot.Snapshot.{Snapshot};
ghost use Rattle.actor_trace.specs.History.{IsLegal};
ghost use Rattle.cdb_values.specs.Rows.{Rows, no_rows};
ghost use Rattle.cluster_events.specs.Guards.{IsLegalHistory};
ghost use Rattle.cluster_events.specs.Parts.{lines, field};
ghost use Rattle.cluster_events.specs.Settings.{basis_from};
ghost use Rattle.cluster_masters.specs.FirstMaster.{IsFirstMaster, HasNoMaster};
ghost use Rattle.cluster_masters.specs.Reported.{IsReported};
ghost use Rattle.cluster_reports.specs.Runs.{FitsScript, FollowsScript, IsFinished};
ghost use Rattle.cluster_steps.specs.Guards.{MayTakeStep};
ghost use Rattle.cluster_steps.specs.Named.{steps};
ghost use Rattle.cluster_worked.specs.Duplicate as duplicate;
ghost use Rattle.cluster_worked.specs.Named.{run};
ghost use Rattle.cluster_worked.specs.SetUp.{adopted};
ghost use Rattle.cluster_worked.specs.Short as short;
ghost use Rattle.cluster_worked.specs.Whole as whole;
ghost use Rattle.node_reports.specs.Lawful.{LawfulOfNodes};
ghost use Rattle.phys_log.specs.declared.entries.Entry.{Entry};

/// A run of two sessions with a barrier, nodes that are stopped and started, an arm that fires, a loss and a feed meets
/// all that the law of finished runs asks, and its report is the one that is written out.
pub fn a_whole_run_is_lawful()
    ensures fits { FitsScript whole.setting }
    ensures follows { FollowsScript whole.setting }
    ensures legal { IsLegalHistory whole.setting whole.finished }
    ensures done { IsFinished whole.setting whole.finished }
    ensures reported { IsReported 3 (field whole.finished).core 1 }
    ensures master { IsFirstMaster 3 (field whole.finished).core 1 adopted }
    ensures lines { lines whole.setting whole.finished ≡ whole.its_lines }
    ensures lawful { LawfulOfNodes (basis_from whole.setting 0 (no_rows [])) whole.its_report }
{}

/// So does one in which two sessions insert the same row: both begin before either is committed, and the leader refuses
/// the second one by the unique key.
pub fn a_run_with_a_refusal_is_lawful()
    ensures fits { FitsScript duplicate.setting }
    ensures follows { FollowsScript duplicate.setting }
    ensures legal { IsLegalHistory duplicate.setting duplicate.finished }
    ensures done { IsFinished duplicate.setting duplicate.finished }
    ensures reported { IsReported 3 (field duplicate.finished).core 1 }
    ensures master { IsFirstMaster 3 (field duplicate.finished).core 1 adopted }
    ensures lines { lines duplicate.setting duplicate.finished ≡ duplicate.its_lines }
    ensures lawful { LawfulOfNodes (basis_from duplicate.setting 0 (no_rows [])) duplicate.its_report }
{}

/// So does one in which two of three nodes are stopped before a session begins: it has no master, its session is told
/// so, and the feed repeats.
pub fn a_run_without_a_master_is_lawful()
    ensures fits { FitsScript short.setting }
    ensures follows { FollowsScript short.setting }
    ensures legal { IsLegalHistory short.setting short.without_master }
    ensures done { IsFinished short.setting short.without_master }
    ensures reported { IsReported 3 (field short.without_master).core 1 }
    ensures none { HasNoMaster 3 (field short.without_master).core }
    ensures lines { lines short.setting short.without_master ≡ (short.report_by false).lines }
    ensures lawful { LawfulOfNodes (basis_from short.setting 0 (no_rows [])) (short.report_by false) }
{}

/// And one in which no node comes up: the stores of two are refused.
pub fn a_run_without_nodes_is_lawful()
    ensures legal { IsLegalHistory short.setting short.without_nodes }
    ensures done { IsFinished short.setting short.without_nodes }
    ensures never_up { (k : ℕ) → ((field short.without_nodes).core.nodes k).was_up ≡ false }
    ensures lines { lines short.setting short.without_nodes ≡ (short.report_by true).lines }
    ensures lawful { LawfulOfNodes (basis_from short.setting 0 (no_rows [])) (short.report_by true) }
{}

/// The run without a master is one of the machine, whose events name what they take.
pub fn the_machine_may_run_it()
    ensures may { (rows : Snapshot Rows) (log : Snapshot (List Entry))
        → IsLegal (λ g i e. MayTakeStep short.setting g i e) (run rows log) }
    ensures its_history { (rows : Snapshot Rows) (log : Snapshot (List Entry))
        → steps short.setting (run rows log) ≡ short.without_master }
{}
