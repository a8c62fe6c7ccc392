//! Laws of reports of several nodes, each a clause of a function that does nothing.

ghost use Rattle.std.specs.Prelude.{◌≡◌, ◌++◌, ◌∷◌, ℕ, List, Bool};
ghost use Rattle.cdb_values.specs.declared.replies.Reply.{Reply};
ghost use Rattle.cdb_values.specs.declared.replies.Reply.TheVariants as reply;
ghost use Rattle.cdb_values.specs.declared.rows.Level.TheVariants.{Serializable};
ghost use Rattle.report_laws.specs.History.{Basis};
ghost use Rattle.report_laws.specs.Lawful.{Lawful, NameUpTo};
ghost use Rattle.report_laws.specs.Play.{InPlayOrder};
ghost use Rattle.report_laws.specs.Serial.{IsSerialAt};
ghost use Rattle.report_text.specs.declared.reports.EntryLine.TheVariants as entries;
ghost use Rattle.report_text.specs.declared.reports.Line.{Line};
ghost use Rattle.report_text.specs.declared.reports.Line.TheVariants as line;
ghost use Rattle.report_text.specs.declared.reports.Report.{Report};
ghost use Rattle.session_language.specs.Answers.{Answers};
ghost use Rattle.session_language.specs.Each.{StandsIn};
ghost use Rattle.session_language.specs.Serial.{IsByReads, IsSound};
ghost use Rattle.node_reports.specs.Lawful.{LawfulOfNodes};
ghost use Rattle.node_reports.specs.OneNode.{IsOfOneNode};
ghost use Rattle.node_reports.specs.Order.{InNodesOrder};

/// Of a script of one node, with lines of sessions alone, the laws of several nodes say what those of one node say. A report in
/// the order of play of several nodes is in that of one, and a lawful one is lawful as one of several nodes. Over a language that
/// answers each text as it should, both say the same both ways.
pub fn one_node_reports_are_so()
    ensures order { (basis : Basis) (report : Report) → IsOfOneNode basis.script → InNodesOrder basis report → InPlayOrder basis report }
    ensures lawful { (basis : Basis) (report : Report) → IsOfOneNode basis.script → Lawful basis report → LawfulOfNodes basis report }
    ensures so { (basis : Basis) (report : Report) → IsOfOneNode basis.script → Answers basis.language → LawfulOfNodes basis report → InNodesOrder basis report → Lawful basis report × InPlayOrder basis report }
    ensures back { (basis : Basis) (report : Report) → IsOfOneNode basis.script → Answers basis.language → Lawful basis report → InPlayOrder basis report → LawfulOfNodes basis report × InNodesOrder basis report }
{}

/// Of such a script no report in the order of play tells twice that a node went down.
pub fn one_node_goes_down_once()
    ensures once { (basis : Basis) (report : Report) (first second third : List Line) (count other node again : ℕ) (fault repeated : Bool) → IsOfOneNode basis.script → InNodesOrder basis report → report.lines ≡ first ++ line.Down count node fault ∷ (second ++ line.Down other again repeated ∷ third) → ⊥ }
{}

/// Of any number of nodes, a lawful report's entries at level serializable are serial, over a language that is answered by what it
/// reads and rows whose genids were given, each to one row. A begin is at least every position that was named before an earlier line
/// of its session, or before a barrier. A session is told once of a loss by one down line.
#[tactic(auto, using(crate::proofs::NodesLaws::entries_serial, crate::proofs::NodesLaws::begins_reach, crate::proofs::NodesLaws::begins_reach_barriers, crate::proofs::NodesLaws::lost_once))]
pub fn reports_of_nodes_keep_the_laws()
    ensures serial { (basis : Basis) (report : Report) (position : ℕ) (session : List ℕ) (txn begin : ℕ) → IsByReads basis.language basis.origin.tables → IsSound basis.origin.rows → LawfulOfNodes basis report → StandsIn report.entries (entries.Commit position session txn begin Serializable) → IsSerialAt basis report.entries position session txn begin }
    ensures reach { (basis : Basis) (report : Report) (name : List ℕ) (first second third : List Line) (earlier later : ℕ) (answer : Reply) (begin : ℕ) → LawfulOfNodes basis report → report.lines ≡ first ++ line.Session name earlier answer ∷ (second ++ line.Session name later (reply.Begin begin) ∷ third) → NameUpTo begin first }
    ensures barriers { (basis : Basis) (report : Report) (name : List ℕ) (first second third : List Line) (later begin : ℕ) → LawfulOfNodes basis report → report.lines ≡ first ++ line.Barrier ∷ (second ++ line.Session name later (reply.Begin begin) ∷ third) → NameUpTo begin first }
    ensures lost_once { (basis : Basis) (report : Report) (name : List ℕ) (first second third : List Line) (txn node other again down : ℕ) → LawfulOfNodes basis report → report.lines ≡ first ++ line.Session name txn (reply.Lost node down) ∷ (second ++ line.Session name other (reply.Lost again down) ∷ third) → ⊥ }
{}
