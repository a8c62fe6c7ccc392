//! The report of a finished history is lawful.
//!
//! ```text
//! history    all sessions did all their lines
//! lines      those that the events printed, in their order
//! base       the length of what the first master adopted
//! entries    of the reported node's log, behind the base
//! end        the length of that log
//! ```
//!
//! The reported node is one whose pair of accepted generation and length is greatest: its log begins with every durable
//! log, and behind the base each of its entries was appended in the run. So what sessions were told over durable logs is
//! told over the reported one, and each entry of the report is the setup's, or a transaction's that was told so.
//!
//! Where there is no first master nothing was begun, and the report has no entries.
//!
//! The operator's lines have their places in the lines of the history. An order brings about one line at most, of its own
//! node, and none behind the place at which it is obeyed: there the node is down, or up, or fell, and before it can be stopped or
//! come up by that order again it must have come up, or gone down. At a barrier each session has done its lines before
//! it, and was told none behind it, since it waits for the barrier. A session that let an arm fire waits until the node is down, so
//! that line stands among those of its next line.
//!
//! The functions here run nothing: each is a law, and its clauses are what is proved.
#![tactic(auto)]

ghost use Rattle.std.specs.Prelude.{ℕ, ◌≡◌, ◌<◌, List, [], length, false};
ghost use Rattle.std.specs.List.{AllByRecursion};
ghost use Rattle.cluster_consensus.specs.Facts.{Claim};
ghost use Rattle.cluster_events.specs.Guards.{IsLegalHistory};
ghost use Rattle.cluster_events.specs.Parts.{ActorEvent, lines, field};
ghost use Rattle.cluster_events.specs.Premises.{Steady};
ghost use Rattle.cluster_events.specs.Settings.{Setting, basis_from, kept_rows_at};
ghost use Rattle.cluster_masters.specs.FirstMaster.{IsFirstMaster, HasNoMaster};
ghost use Rattle.cluster_masters.specs.Reported.{IsReported};
ghost use Rattle.cluster_reports.specs.Runs.{AreEntriesBehind, FitsScript, FollowsScript, IsFinished, IsLawfulWithFeeds};
ghost use Rattle.cluster_requests.specs.KeptEntries.{KeptEntry};
ghost use Rattle.node_reports.specs.Fed.{AreFeeds};
ghost use Rattle.report_laws.specs.History.{Basis};
ghost use Rattle.report_laws.specs.View.{View};
ghost use Rattle.report_text.specs.declared.reports.FeedLine.{FeedLine};
ghost use Rattle.report_text.specs.declared.reports.Report.{Report};

/// The report of a finished history with a first master is lawful: its lines are those of the history, its entries those
/// of the reported node's log behind what the first master adopted; and its feeds may have any numbers that fit.
pub fn finished_runs_are_lawful()
    ensures { (G : Setting) (h : List (ℕ × ActorEvent)) (r m : ℕ) (a : Claim KeptEntry) → FitsScript G → FollowsScript G
        → IsLegalHistory G h → IsFinished G h → IsReported G.nodes (field h).core r
        → IsFirstMaster G.nodes (field h).core m a
        → (report : Report) × (report.lines ≡ lines G h)
        × AreEntriesBehind a.log ((field h).core.nodes r).log report.entries
        × (report.end ≡ length ((field h).core.nodes r).log)
        × IsLawfulWithFeeds
        (basis_from G (length a.log) (kept_rows_at G ((field h).core.nodes r).log (length a.log))) report }
{}

/// And so is that of one without a first master, which has no entries.
pub fn runs_without_a_master_are_lawful()
    ensures { (G : Setting) (h : List (ℕ × ActorEvent)) (r : ℕ) → FitsScript G → FollowsScript G → IsLegalHistory G h
        → IsFinished G h → IsReported G.nodes (field h).core r → HasNoMaster G.nodes (field h).core
        → (report : Report) × (report.lines ≡ lines G h) × (report.entries ≡ [])
        × (report.end ≡ length ((field h).core.nodes r).log)
        × IsLawfulWithFeeds
        (basis_from G (length ((field h).core.nodes r).log)
        (kept_rows_at G ((field h).core.nodes r).log (length ((field h).core.nodes r).log))) report }
{}

/// And so is that of one in which no node came up: its history is empty.
pub fn runs_without_nodes_are_lawful()
    ensures { (G : Setting) (h : List (ℕ × ActorEvent)) → FitsScript G → FollowsScript G → IsLegalHistory G h
        → IsFinished G h
        → ((k : ℕ) → ((field h).core.nodes k).was_up ≡ false) → (report : Report) × (report.lines ≡ lines G h)
        × (report.entries ≡ []) × (report.end ≡ 0)
        × IsLawfulWithFeeds (basis_from G 0 (kept_rows_at G [] 0)) report }
{}

/// A setting that follows its script is steady, as the laws of what stays enabled ask: how far a session is in the
/// barriers never falls.
pub fn sessions_pass_barriers_steadily()
    ensures { (G : Setting) → FitsScript G → FollowsScript G → Steady G }
{}

/// Where a script watches tables of its own there are feeds that fit: of each table all its changes, and none dropped.
pub fn watched_tables_have_feeds()
    ensures { (basis : Basis) (view : View) (position : ℕ)
        → AllByRecursion (λ w. w < length basis.script.tables) basis.script.watches
        → (feeds : List FeedLine) × AreFeeds basis view position 1 basis.script.watches feeds }
{}
