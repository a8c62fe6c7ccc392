//! What comes of a run of several nodes: its report, and what it leaves in the stores of its nodes.
//!
//! This is what whoever plays a script shows of it, at its end: a legal history, in which each node first came up
//! with what its store held, and at whose end the stores hold what the nodes' parts have, or something with which a
//! node that is down may come up; and, where all lines were done, the report that this history tells. The law says
//! that such a report is lawful.
//!
//! | Notion | Definition |
//! |---|---|
//! | a run that is done, and its report | `specs/Finished.antt` |
//! | the stores of a run, before and after it | `specs/Stores.antt` |
//!
//! The functions here run nothing: each is a law, and its clauses are what is proved.
#![tactic(auto)]

ghost use Rattle.std.specs.Prelude.{◌≡◌, ◌<◌, ℕ, List, []};
ghost use Rattle.actor_trace.specs.History.{entries_of};
ghost use Rattle.cdb_values.specs.declared.tables.TableDef.{TableDef};
ghost use Rattle.cluster_steps.specs.declared.events.Event.{Event};
ghost use Rattle.history_base.specs.Sizes.{up_lengths};
ghost use Rattle.history_base.specs.Tail.{tail};
ghost use Rattle.node_reports.specs.Lawful.{LawfulOfNodes};
ghost use Rattle.report_text.specs.declared.reports.Report.{Report};
ghost use Rattle.run_reports.specs.Written.{HasSessions, setting_of};
ghost use Rattle.run_results.specs.Finished.{basis_of, IsPlayedToEnd};
ghost use Rattle.run_results.specs.Stores.{faults_in, faults_of, first_in, first_up, noted_in};
ghost use Rattle.script_form.specs.declared.scripts.Script.{Script};
ghost use Rattle.session_language.specs.Answers.{Answers};
ghost use Rattle.session_language.specs.Language.{Language};

/// The report of a script that was played to its end, of which nothing is watched, is lawful.
pub fn reports_of_played_scripts_are_lawful()
    ensures { (language : Language) (script : Script) (tables : List TableDef) (h : List (ℕ × Event)) (report : Report)
        → Answers language → HasSessions script → script.watches ≡ [] → 0 < script.nodes
        → (is : IsPlayedToEnd language script tables h report)
        → LawfulOfNodes (basis_of (setting_of language script tables) h (tail script.nodes is.lengths h)) report }
{}

/// With what a node first came up, how often its store failed, and with how long a log it came up each time, its own steps tell.
pub fn own_steps_tell_it()
    ensures first { (k : ℕ) (h : List (ℕ × Event)) → first_up k h ≡ first_in (entries_of k h) }
    ensures faults { (k : ℕ) (h : List (ℕ × Event)) → faults_of k h ≡ faults_in (entries_of k h) }
    ensures lengths { (k : ℕ) (h : List (ℕ × Event)) → up_lengths k h ≡ noted_in (entries_of k h) }
{}
