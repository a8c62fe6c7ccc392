//! Laws of reports, each a clause of a function that does nothing.

ghost use Rattle.std.specs.List.{AllByRecursion};
ghost use Rattle.std.specs.Prelude.{◌≡◌, ◌++◌, ◌∷◌, ◌⊎◌, [], ℕ, List, Bool, true, false, Some};
ghost use Rattle.cdb_values.specs.declared.rows.Level.{Level};
ghost use Rattle.session_language.specs.Answers.{Answers};
ghost use Rattle.session_language.specs.Each.{StandsIn};
ghost use Rattle.report_laws.specs.History.{Basis, alone_on, rows_at};
ghost use Rattle.report_laws.specs.Lawful.{Lawful, NameUpTo};
ghost use Rattle.report_laws.specs.Nodes.{are_few, downs};
ghost use Rattle.report_laws.specs.One.{IsUncut};
ghost use Rattle.report_laws.specs.Places.{GoesDown, IsLost, IsShort, survives};
ghost use Rattle.report_laws.specs.Play.{InPlayOrder, IsDownLine};
ghost use Rattle.report_laws.specs.Serial.{IsSerialAt};
ghost use Rattle.report_laws.specs.Spelled.{IsSpelled};
ghost use Rattle.session_language.specs.Serial.{IsByReads, IsSound};
ghost use Rattle.cdb_values.specs.declared.rows.Level.TheVariants.{Serializable};
ghost use Rattle.report_laws.specs.Told.{told, numbered, Numbered};
ghost use Rattle.report_laws.specs.Work.{Transaction, transaction_of};
ghost use Rattle.report_text.specs.Grammar.{IsReport};
ghost use Rattle.report_text.specs.Types.{FitsTypes};
ghost use Rattle.report_text.specs.declared.reports.EntryLine.{EntryLine};
ghost use Rattle.report_text.specs.declared.reports.EntryLine.TheVariants as entries;
ghost use Rattle.report_text.specs.declared.reports.Line.{Line};
ghost use Rattle.report_text.specs.declared.reports.Line.TheVariants as line;
ghost use Rattle.cdb_values.specs.declared.replies.Reply.{Reply};
ghost use Rattle.cdb_values.specs.declared.replies.Reply.TheVariants as reply;
ghost use Rattle.report_text.specs.declared.reports.Report.{Report};

/// A script has one report: two reports of it over the same language and the same history before it, both
/// lawful, in the order of play, without a transaction that is cut short and without a node that goes down, are the same.
#[tactic(auto, using(crate::proofs::OneLaws::one_report))]
pub fn reports_are_one()
    ensures one { (basis : Basis) (report other : Report) → Answers basis.language → Lawful basis report → InPlayOrder basis report → IsUncut report → Lawful basis other → InPlayOrder basis other → IsUncut other → report ≡ other }
{}

/// A begin of a lawful report is at least every position that was named before an earlier line of its session.
#[tactic(auto, using(crate::proofs::LawLemmas::begins_reach))]
pub fn begins_reach_what_was_told()
    ensures reach { (basis : Basis) (report : Report) (name : List ℕ) (first second third : List Line) (earlier later : ℕ) (answer : Reply) (begin : ℕ) → Lawful basis report → report.lines ≡ first ++ line.Session name earlier answer ∷ (second ++ line.Session name later (reply.Begin begin) ∷ third) → NameUpTo begin first }
{}

/// The transaction of each entry of a lawful report was told that it begins where the entry says, and that it
/// is committed at the entry; and this in one segment of its session's lines, with its replies on the rows at
/// its begin between.
pub fn entries_are_told()
    ensures told { (basis : Basis) (report : Report) (position : ℕ) (session : List ℕ) (txn begin : ℕ) (level : Level) → Lawful basis report → StandsIn report.entries (entries.Commit position session txn begin level) → StandsIn report.lines (line.Session session txn (reply.Begin begin)) × StandsIn report.lines (line.Session session txn (reply.Committed position)) }
    ensures together { (basis : Basis) (report : Report) (position : ℕ) (session : List ℕ) (txn begin : ℕ) (level : Level) → Lawful basis report → StandsIn report.entries (entries.Commit position session txn begin level) → (transaction : Transaction) × (before : List Numbered) × (after : List Numbered) × (transaction_of basis.language session txn basis.script.body ≡ Some transaction) × (told session report.lines ≡ before ++ (numbered txn (reply.Begin begin ∷ ((alone_on basis (rows_at basis report.entries begin) transaction.texts).replies ++ reply.Committed position ∷ [])) ++ after)) }
{}

/// Each line of a lawful report has its place behind the lines before it. A line that a node went down has the next number
/// of these lines, and is of a node of the script that was up, by a fault. A session is told of a loss where it does not go
/// on at another node, its transaction began, and the node's line stands before, behind which it was told of no other
/// transaction and of no loss by that line. A session is told that no majority is up where at a place since its line before
/// so many nodes were up, and these were few. No node comes up, there is no barrier and no feed.
pub fn lines_have_their_places()
    ensures down { (basis : Basis) (report : Report) (front back : List Line) (count node : ℕ) (fault : Bool) → Lawful basis report → report.lines ≡ front ++ line.Down count node fault ∷ back → GoesDown basis.script front count node fault }
    ensures lost { (basis : Basis) (report : Report) (front back : List Line) (name : List ℕ) (txn node down : ℕ) → Lawful basis report → report.lines ≡ front ++ line.Session name txn (reply.Lost node down) ∷ back → (survives basis.script name ≡ false) × IsLost front name txn node down }
    ensures majority { (basis : Basis) (report : Report) (front back : List Line) (name : List ℕ) (txn up nodes : ℕ) → Lawful basis report → report.lines ≡ front ++ line.Session name txn (reply.NoMajority up nodes) ∷ back → IsShort basis.script front name up nodes }
    ensures up { (basis : Basis) (report : Report) (node : ℕ) → Lawful basis report → StandsIn report.lines (line.Up node) → ⊥ }
    ensures barrier { (basis : Basis) (report : Report) → Lawful basis report → StandsIn report.lines line.Barrier → ⊥ }
    ensures fed { (basis : Basis) (report : Report) (position : ℕ) → Lawful basis report → StandsIn report.lines (line.Fed position) → ⊥ }
{}

/// Where no node goes down, no session is told of a loss or of a missing majority in a lawful report.
pub fn nothing_is_lost_without_a_fault()
    ensures lost { (basis : Basis) (report : Report) (name : List ℕ) (txn node down : ℕ) → Lawful basis report → downs report.lines ≡ 0 → StandsIn report.lines (line.Session name txn (reply.Lost node down)) → ⊥ }
    ensures majority { (basis : Basis) (report : Report) (name : List ℕ) (txn up nodes : ℕ) → Lawful basis report → downs report.lines ≡ 0 → StandsIn report.lines (line.Session name txn (reply.NoMajority up nodes)) → ⊥ }
{}

/// In a lawful report a session is told once of a loss by one down line, whatever its transaction.
#[tactic(auto, using(crate::proofs::LawLemmas::lost_once))]
pub fn losses_are_told_once()
    ensures once { (basis : Basis) (report : Report) (name : List ℕ) (first second third : List Line) (txn node other again down : ℕ) → Lawful basis report → report.lines ≡ first ++ line.Session name txn (reply.Lost node down) ∷ (second ++ line.Session name other (reply.Lost again down) ∷ third) → ⊥ }
{}

/// Where a begin is told, in a lawful report in the order of play, a majority of the nodes is up behind the lines before it,
/// over a language that answers each text as it should (`Answers`).
#[tactic(auto, using(crate::proofs::BeginLaws::begin_has_majority))]
pub fn begins_find_a_majority()
    ensures majority { (basis : Basis) (report : Report) (front back : List Line) (name : List ℕ) (txn begin : ℕ) → Answers basis.language → Lawful basis report → InPlayOrder basis report → report.lines ≡ front ++ line.Session name txn (reply.Begin begin) ∷ back → are_few basis.script.nodes front ≡ false }
{}

/// Each entry of a lawful report at level serializable is serial: its transaction, run alone on the rows right before
/// the entry and without the texts that failed, is answered as the other texts were, and has the same operations. What it
/// is asked of: the language answers by what it reads, and the genids of the rows before the run were given, each to one row.
#[tactic(auto, using(crate::proofs::SerialLaws::entries_serial))]
pub fn serializable_entries_are_serial()
    ensures serial { (basis : Basis) (report : Report) (position : ℕ) (session : List ℕ) (txn begin : ℕ) → IsByReads basis.language basis.origin.tables → IsSound basis.origin.rows → Lawful basis report → StandsIn report.entries (entries.Commit position session txn begin Serializable) → IsSerialAt basis report.entries position session txn begin }
{}

/// So no transaction begins behind a line that the one node of a script went down.
pub fn none_begins_behind_a_fault()
    ensures none { (basis : Basis) (report : Report) (front back : List Line) (count node : ℕ) (fault : Bool) (name : List ℕ) (txn begin : ℕ) → basis.script.nodes ≡ 1 → Answers basis.language → Lawful basis report → InPlayOrder basis report → report.lines ≡ front ++ line.Down count node fault ∷ back → StandsIn back (line.Session name txn (reply.Begin begin)) → ⊥ }
{}

/// No node goes down twice in a lawful report: none comes up between.
#[tactic(auto, using(crate::proofs::BeginLaws::down_once))]
pub fn nodes_go_down_once()
    ensures once { (basis : Basis) (report : Report) (first second third : List Line) (count other node : ℕ) (fault again : Bool) → Lawful basis report → report.lines ≡ first ++ line.Down count node fault ∷ (second ++ line.Down other node again ∷ third) → ⊥ }
{}

/// No transaction has two entries in a lawful report.
#[tactic(auto, using(crate::proofs::LawLemmas::stand_once))]
pub fn transactions_stand_once()
    ensures once { (basis : Basis) (report : Report) (session : List ℕ) (txn : ℕ) (first second third : List EntryLine) (p q begin again : ℕ) (level other : Level) → Lawful basis report → report.entries ≡ first ++ entries.Commit p session txn begin level ∷ (second ++ entries.Commit q session txn again other ∷ third) → ⊥ }
{}

/// A history that begins with the run and is lawful is empty or has the schema's entry at its front. In the order of play the
/// entry stands there where no node goes down, and where a majority of the nodes is up before the first line of the script.
pub fn the_schema_stands_first()
    ensures first { (basis : Basis) (report : Report) → basis.origin.position ≡ 0 → downs report.lines ≡ 0 → InPlayOrder basis report → (later : List EntryLine) × (report.entries ≡ entries.Setup 1 ∷ later) }
    ensures behind { (basis : Basis) (report : Report) → basis.origin.position ≡ 0 → InPlayOrder basis report → ((later : List EntryLine) × (report.entries ≡ entries.Setup 1 ∷ later)) ⊎ ((first : List Line) × (rest : List Line) × (report.lines ≡ first ++ rest) × AllByRecursion IsDownLine first × (are_few basis.script.nodes first ≡ true)) }
    ensures none { (basis : Basis) (report : Report) → basis.origin.position ≡ 0 → Lawful basis report → (report.entries ≡ []) ⊎ ((later : List EntryLine) × (report.entries ≡ entries.Setup 1 ∷ later)) }
{}

/// A lawful report in the order of play, whose numbers fit their types, is of the grammar: what is printed of it
/// is read again. What it is asked of: the language answers by rows of the grammar, the rows before the run are
/// such, and sessions, tables and keys are called by names.
#[tactic(auto, using(crate::proofs::SpelledLaws::of_the_grammar))]
pub fn reports_are_of_the_grammar()
    ensures grammar { (basis : Basis) (report : Report) → IsSpelled basis → Lawful basis report → InPlayOrder basis report → FitsTypes report → IsReport report }
{}
