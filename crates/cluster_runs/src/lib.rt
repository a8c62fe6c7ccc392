//! The report of every finished run of the machine is lawful.
//!
//! A run's history is a whole history (`cluster_core`), so what is proved of these is proved of it: where the operator
//! and all sessions did their lines there is a report of its lines that is lawful, whatever the order in which its
//! actors came.
//!
//! The functions here run nothing: each is a law, and its clauses are what is proved.
#![tactic(auto)]

ghost use Rattle.std.specs.Prelude.{ℕ, ◌≡◌, List, [], length};
ghost use Rattle.actor_trace.specs.History.{IsLegal};
ghost use Rattle.cluster_consensus.specs.Facts.{Claim};
ghost use Rattle.cluster_events.specs.Guards.{IsDone};
ghost use Rattle.cluster_events.specs.Operator.{duty};
ghost use Rattle.cluster_events.specs.Parts.{lines};
ghost use Rattle.cluster_events.specs.Settings.{Setting, basis_from, lines_to_do, kept_rows_at};
ghost use Rattle.cluster_masters.specs.FirstMaster.{IsFirstMaster, HasNoMaster};
ghost use Rattle.cluster_masters.specs.Reported.{IsReported};
ghost use Rattle.cluster_reports.specs.Runs.{AreEntriesBehind, FitsScript, FollowsScript, IsLawfulWithFeeds};
ghost use Rattle.cluster_requests.specs.KeptEntries.{KeptEntry};
ghost use Rattle.cluster_runs.specs.Written.{as_scripted};
ghost use Rattle.cluster_steps.specs.Guards.{IsPlan, MayTakeStep};
ghost use Rattle.cluster_steps.specs.Named.{steps, world};
ghost use Rattle.cluster_steps.specs.declared.events.Event.{Event};
ghost use Rattle.report_laws.specs.Work.{said};
ghost use Rattle.report_text.specs.declared.reports.Report.{Report};
ghost use Rattle.session_language.specs.Answers.{Answers};

/// The report of a finished run is lawful. With a first master its entries are those of the reported node's log behind
/// what the first master adopted; without one it has none.
pub fn runs_are_lawful()
    ensures with_master { (G : Setting) (h : List (ℕ × Event)) (r m : ℕ) (a : Claim KeptEntry) → FitsScript G
        → FollowsScript G → IsLegal (λ g i e. MayTakeStep G g i e) h
        → (duty (lines_to_do G) (steps G h)).left ≡ [] → ((s : ℕ) → IsDone G (steps G h) s)
        → IsReported G.nodes (world G h) r → IsFirstMaster G.nodes (world G h) m a
        → (report : Report) × (report.lines ≡ lines G (steps G h))
        × AreEntriesBehind a.log ((world G h).nodes r).log report.entries
        × (report.end ≡ length ((world G h).nodes r).log)
        × IsLawfulWithFeeds
        (basis_from G (length a.log) (kept_rows_at G ((world G h).nodes r).log (length a.log))) report }
    ensures without_master { (G : Setting) (h : List (ℕ × Event)) (r : ℕ) → FitsScript G → FollowsScript G
        → IsLegal (λ g i e. MayTakeStep G g i e) h
        → (duty (lines_to_do G) (steps G h)).left ≡ [] → ((s : ℕ) → IsDone G (steps G h) s)
        → IsReported G.nodes (world G h) r → HasNoMaster G.nodes (world G h)
        → (report : Report) × (report.lines ≡ lines G (steps G h)) × (report.entries ≡ [])
        × (report.end ≡ length ((world G h).nodes r).log)
        × IsLawfulWithFeeds
        (basis_from G (length ((world G h).nodes r).log)
        (kept_rows_at G ((world G h).nodes r).log (length ((world G h).nodes r).log))) report }
{}

/// A setting that is of its script, and follows it, is one that a run may have: how far a session is in the barriers
/// never falls.
pub fn scripts_are_plans()
    ensures { (G : Setting) → FitsScript G → FollowsScript G → IsPlan G }
{}

/// Each script has a setting that follows it, whatever its actors are called: what that says of barriers and arms is read
/// off the script.
pub fn scripts_have_settings()
    ensures { (G : Setting) → Answers G.language → said (G.names 0) G.script.body ≡ [] → FollowsScript (as_scripted G) }
{}
