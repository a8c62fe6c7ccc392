//! Laws of reports of several nodes, each a clause of a function that does nothing.

ghost use Rattle.std.specs.Prelude.{◌≡◌};
ghost use Rattle.report_laws.specs.History.{Basis};
ghost use Rattle.report_laws.specs.Spelled.{IsSpelled};
ghost use Rattle.report_text.specs.Grammar.{IsReport};
ghost use Rattle.report_text.specs.Types.{FitsTypes};
ghost use Rattle.report_text.specs.declared.reports.Report.{Report};
ghost use Rattle.session_language.specs.Answers.{Answers};
ghost use Rattle.node_reports.specs.Lawful.{LawfulOfNodes};
ghost use Rattle.node_reports.specs.Order.{InNodesOrder};
ghost use Rattle.node_laws.specs.Unhurt.{HasNoCommitArms, IsUnhurt};
ghost use Rattle.node_laws.specs.Watched.{AreTablesNamed};

/// A script whose arms are all of rows has one report in which nothing fails: two reports of it over the same language and the
/// same history before it, both lawful, in the order of play, without a line of a fault or of want of memory and with no consumer
/// dropped, are the same, however its nodes are stopped and started, its sessions move and the arms of its rows fire.
#[tactic(auto, using(crate::proofs::OneReport::one_report))]
pub fn reports_of_nodes_are_one()
    ensures one { (basis : Basis) (report other : Report) → Answers basis.language → HasNoCommitArms basis.script → LawfulOfNodes basis report → InNodesOrder basis report → IsUnhurt report → LawfulOfNodes basis other → InNodesOrder basis other → IsUnhurt other → report ≡ other }
{}

/// A lawful report of several nodes, of any schedule, whose numbers fit their types, is of the grammar: what is printed of it is read
/// again. What it is asked of: the language answers by rows of the grammar, the rows before the run are such, and sessions, tables and
/// keys are called by names, the tables of the script by none that ends a transaction.
#[tactic(auto, using(crate::proofs::Grammar::of_the_grammar))]
pub fn reports_of_nodes_are_of_the_grammar()
    ensures grammar { (basis : Basis) (report : Report) → IsSpelled basis → AreTablesNamed basis.script → LawfulOfNodes basis report → FitsTypes report → IsReport report }
{}
