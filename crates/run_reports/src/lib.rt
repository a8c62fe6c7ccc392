//! The report that a run's history tells is lawful; and the setting of a script, by which a run is judged.
//!
//! Who runs a script picks a setting before the first event, and every law of whole runs asks that it is of the
//! script and follows it. This one is read off the script:
//!
//! ```text
//! nodes 3, session a, session b      actors   0 the operator   1 2 3 the nodes   4 a   5 b
//!                                    called   []               0, 00, 000        a     b
//! ```
//!
//! The functions here run nothing: each is a law, and its clauses are what is proved.
#![tactic(auto)]

ghost use Rattle.std.specs.Prelude.{◌≡◌, ℕ, List, [], length, map};
ghost use Rattle.actor_trace.specs.History.{IsLegal};
ghost use Rattle.cdb_values.specs.declared.tables.TableDef.{TableDef};
ghost use Rattle.cluster_consensus.specs.Facts.{Claim};
ghost use Rattle.cluster_events.specs.Guards.{IsDone};
ghost use Rattle.cluster_events.specs.Operator.{duty};
ghost use Rattle.cluster_events.specs.Settings.{Setting, basis_from, kept_rows_at, lines_to_do};
ghost use Rattle.cluster_masters.specs.FirstMaster.{HasNoMaster, IsFirstMaster};
ghost use Rattle.cluster_masters.specs.Reported.{IsReported};
ghost use Rattle.cluster_reports.specs.Runs.{FitsScript, FollowsScript};
ghost use Rattle.cluster_requests.specs.KeptEntries.{KeptEntry, plain};
ghost use Rattle.cluster_steps.specs.Guards.{IsPlan, MayTakeStep};
ghost use Rattle.cluster_steps.specs.Named.{steps, world};
ghost use Rattle.cluster_steps.specs.declared.events.Event.{Event};
ghost use Rattle.history_report.specs.Tail.{report_with};
ghost use Rattle.history_report.specs.Told.{told_by, CallsSessions};
ghost use Rattle.node_reports.specs.Lawful.{LawfulOfNodes};
ghost use Rattle.run_reports.specs.Written.{HasSessions, setting_of};
ghost use Rattle.script_form.specs.declared.scripts.Script.{Script};
ghost use Rattle.script_form.specs.declared.scripts.SessionLine.{SessionLine};
ghost use Rattle.session_language.specs.Answers.{Answers};
ghost use Rattle.session_language.specs.Language.{Language};

/// Where the operator and all sessions did their lines, and nothing is watched, these lines, with the reported node's
/// log behind what the first master adopted, are a lawful report; without a first master the base is all of that log.
pub fn told_reports_are_lawful()
    ensures with_master { (G : Setting) (sessions : List SessionLine) (h : List (ℕ × Event)) (r m : ℕ) (a : Claim KeptEntry)
        → FitsScript G → FollowsScript G → CallsSessions G sessions → G.script.watches ≡ []
        → IsLegal (λ g i e. MayTakeStep G g i e) h
        → (duty (lines_to_do G) (steps G h)).left ≡ [] → ((s : ℕ) → IsDone G (steps G h) s)
        → IsReported G.nodes (world G h) r → IsFirstMaster G.nodes (world G h) m a
        → LawfulOfNodes (basis_from G (length a.log) (kept_rows_at G ((world G h).nodes r).log (length a.log)))
        (report_with (told_by G.nodes sessions h).lines (length a.log) (map plain ((world G h).nodes r).log)) }
    ensures without_master { (G : Setting) (sessions : List SessionLine) (h : List (ℕ × Event)) (r : ℕ)
        → FitsScript G → FollowsScript G → CallsSessions G sessions → G.script.watches ≡ []
        → IsLegal (λ g i e. MayTakeStep G g i e) h
        → (duty (lines_to_do G) (steps G h)).left ≡ [] → ((s : ℕ) → IsDone G (steps G h) s)
        → IsReported G.nodes (world G h) r → HasNoMaster G.nodes (world G h)
        → LawfulOfNodes (basis_from G (length ((world G h).nodes r).log)
        (kept_rows_at G ((world G h).nodes r).log (length ((world G h).nodes r).log)))
        (report_with (told_by G.nodes sessions h).lines (length ((world G h).nodes r).log) (map plain ((world G h).nodes r).log)) }
{}

/// The setting of a script whose sessions have names of their own is of it, and follows it; it is one that a run may
/// have, and calls the sessions as the script does.
pub fn a_scripts_setting_is_of_it()
    ensures fits { (language : Language) (script : Script) (tables : List TableDef) → HasSessions script
        → FitsScript (setting_of language script tables) }
    ensures follows { (language : Language) (script : Script) (tables : List TableDef) → Answers language → HasSessions script
        → FollowsScript (setting_of language script tables) }
    ensures plan { (language : Language) (script : Script) (tables : List TableDef) → Answers language → HasSessions script
        → IsPlan (setting_of language script tables) }
    ensures calls { (language : Language) (script : Script) (tables : List TableDef) → HasSessions script
        → CallsSessions (setting_of language script tables) script.sessions }
{}
