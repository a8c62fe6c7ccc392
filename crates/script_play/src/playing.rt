//! The lines of a script, done one after the other on one node.
ghost use Rattle.std.specs.Prelude.{◌≡◌, ℕ, ◌<◌, ◌≤◌, ◌++◌, ◌∷◌, [], List, Some, false, true, length, map};
ghost use Rattle.std.specs.Prelude.{OnOk, OnErr, IfOk, IfErr, MatchResult};
ghost use Rattle.blkseq_table.specs.OfLogs.{identities_of};
ghost use Rattle.cdb_values.specs.Rows.{Rows};
ghost use Rattle.log_replay.specs.Answers.{schema_of};
ghost use Rattle.log_rows.specs.History.{rows_over_at, IsFrom, StandsOver};
ghost use Rattle.log_rows.specs.Sizes.{IsSmall};
ghost use Rattle.node_log.specs.Logged.{Leaves};
ghost use Rattle.node_reports.specs.Lawful.{LawfulOfNodes};
ghost use Rattle.node_reports.specs.Order.{InNodesOrder};
ghost use Rattle.report_laws.specs.History.{rows_at, changes_at};
ghost use Rattle.report_laws.specs.Lawful.{Lawful, base_line};
ghost use Rattle.report_laws.specs.Nodes.{downs, BeginsDown};
ghost use Rattle.report_laws.specs.Play.{InPlayOrder};
ghost use Rattle.script_form.specs.CanRun.{CanRun, script_tables};
ghost use Rattle.script_form.specs.declared.scripts.BodyLine.{BodyLine};
ghost use Rattle.script_play.specs.Basis.{from_base, from_start};
ghost use Rattle.script_play.specs.Down.{history_of, owner_of, with_entries, IsCaused};
ghost use Rattle.script_play.specs.EntryLines.{AreTold};
ghost use Rattle.script_play.specs.Played.{changed_at, downs_by, IsFurther, IsGivenUp, IsPlayed};
ghost use Rattle.script_play.specs.Ready.{AreEarlier, CanBegin};
ghost use Rattle.script_play.specs.RunViews.{run_in, IsBeforeLine, IsOpenedBehind, IsSameHistory};
ghost use Rattle.session_turns.specs.Views.{state_in};
ghost use Rattle.script_play.specs.Serial.{AreSerial};
ghost use Rattle.script_play.specs.SoFarDown.{IsBeforeDown};
ghost use Rattle.session_turns.specs.declared.states.SessionState.{SessionState};
ghost use Rattle.script_play.specs.SoFar.{at_start, report_of, session_at};
ghost use Rattle.script_play.specs.Start.{Start, ground_of};
ghost use Rattle.std.specs.Str.{bytes_eq};

use super::downs::run_down;
use super::indexed::IndexedLog;
use super::lines::{read_text, run_session_line};
use super::run::{RunSoFar, add_down, add_line};
use blkseq_table::BlkSeq;
use cdb_outside::LogStore;
use cdb_values::{Level, List, Name, Schema, TableDef};
use node_log::NodeLog;
use report_text::{EntryLine, Line, Report};
use script_form::{Act, BodyLine, Script, SessionLine, TableLine};
use session_turns::{InTransaction, SessionState};
use std::alloc::{AllocError, Global};

/// A script that was played.
#[derive(Drop)]
pub struct Played<D: LogStore> {
    /// The report of the run.
    pub report: Report,
    /// The log of the node, over its store. Where the store failed, the node is down, and the log has one entry more than
    /// the history.
    pub log: NodeLog<D>,
}

/// Plays a script that can run on a node that is up, whose log had that many entries when it was opened: the script's lines
/// are done one after the other, in the generation in which the node stands.
///
/// The run begins behind the log that was opened, at the rows for which its pages stand. A log without entries has got the
/// setup of the script's tables since. Any other log begins with that setup, and goes on with transactions, each once, that
/// began in generations before the one in which the node stands; what its entries say that they change is not looked at.
///
/// The report is lawful and in the order of play, over the history from there, in the words for one node and in those for
/// several. Each of its entries at level serializable is
/// serial: its transaction, run alone on the rows right before it and without the texts that failed, has the same operations,
/// and the replies that the other texts had. The node may go down in it, once, where its store fails: then it stays down. The
/// log's entries are those before the run and exactly those of the history, each with the session, number, begin and level that
/// are printed, of the node's generation, in which their transactions began; and one more, which no one was told of, where the
/// node went down: that of the transaction that was lost by it, at the begin that it was told, with which the history would be
/// lawful too. Each entry of the history changes what it does there, and from the last position of the opened log on the
/// pages of the log stand for the rows of the history; the next genid and the number of pages stay below 2^62. As long
/// as the node is up its store stands for the log; else what a stop leaves of it stands for the log of the history, or
/// for one entry more.
///
/// The error is want of memory, with the log: it has the entries before the run and such as tell its history, which is lawful,
/// and is held as the log of a run that is done.
pub fn play<D: LogStore + Drop>(
    alloc: Global,
    script: &Script,
    log: NodeLog<D>,
    base: u64,
) -> Result<Played<D>, NodeLog<D>>
    ghost start: { Start }
    requires can_run { CanRun script.now }
    requires running { log.failed ≡ false }
    requires place { base ≡ length start.before }
    requires opened { IsOpenedBehind (script_tables script.now) log.accepted start.before log.entries }
    requires earlier { AreEarlier log.accepted start.before }
    requires behind { CanBegin (script_tables script.now) start.before start.rows }
    ensures lawful { IfOk result (λ p. Lawful (from_start script.now start) p.report) }
    ensures in_order { IfOk result (λ p. InPlayOrder (from_start script.now start) p.report) }
    ensures lawful_of_nodes { IfOk result (λ p. LawfulOfNodes (from_start script.now start) p.report) }
    ensures in_nodes_order { IfOk result (λ p. InNodesOrder (from_start script.now start) p.report) }
    ensures serial { IfOk result (λ p. AreSerial (from_start script.now start) p.report.entries) }
    ensures entries { IfOk result (λ p. AreTold start.before log.accepted p.report.entries (history_of p.log)) }
    ensures schema { IfOk result (λ p. schema_of (history_of p.log) ≡ Some (script_tables script.now)) }
    ensures changed { IfOk result (λ p. (k : ℕ) → base < k → k ≤ length (history_of p.log)
        → changed_at (history_of p.log) k ≡ changes_at (from_start script.now start) p.report.entries k) }
    ensures rows { IfOk result (λ p. (k : ℕ) → IsFrom base k → k ≤ length (history_of p.log)
        → rows_over_at (ground_of start) (history_of p.log) k
        ≡ rows_at (from_start script.now start) p.report.entries k) }
    ensures stands { IfOk result (λ p. StandsOver (ground_of start) (script_tables script.now) (history_of p.log)) }
    ensures small { IfOk result (λ p. IsSmall (history_of p.log)) }
    ensures faults { IfOk result (λ p. downs p.report.lines ≡ downs_by p.log.failed) }
    ensures cause { IfOk result (λ p. IsCaused p.log.failed log.store.faults p.log.store.faults) }
    ensures made { IfOk result (λ p. p.log.failed ≡ false → p.log.accepted ≡ log.accepted) }
    ensures kept { IfOk result (λ p. p.log.failed ≡ true
        → Leaves p.log.store (with_entries p.log (history_of p.log) ∷ p.log ∷ [])) }
    ensures further { IfOk result (λ p. p.log.failed ≡ true
        → IsFurther script.now start log.accepted p.report p.log.entries) }
    ensures given_up { IfErr result (λ l. IsGivenUp script.now start log l) }
    ensures owner { MatchResult result (λ p. owner_of p.log ≡ owner_of log) (λ l. owner_of l ≡ owner_of log) }
{
    play_behind(alloc, script, log, base)
}

/// The same, in one clause for each answer.
fn play_behind<D: LogStore + Drop>(
    alloc: Global,
    script: &Script,
    log: NodeLog<D>,
    base: u64,
) -> Result<Played<D>, NodeLog<D>>
    ghost start: { Start }
    requires can_run { CanRun script.now }
    requires running { log.failed ≡ false }
    requires place { base ≡ length start.before }
    requires opened { IsOpenedBehind (script_tables script.now) log.accepted start.before log.entries }
    requires earlier { AreEarlier log.accepted start.before }
    requires behind { CanBegin (script_tables script.now) start.before start.rows }
    ensures played { IfOk result (λ p. IsPlayed script.now start log p.report p.log) }
    ensures given_up { IfErr result (λ l. IsGivenUp script.now start log l) }
    ensures owner { MatchResult result (λ p. owner_of p.log ≡ owner_of log) (λ l. owner_of l ≡ owner_of log) }
{
    let Ok(known) = BlkSeq::of_entries(alloc, log.log().entries()) else {
        return Err(log);
    };
    let mut so_far = opened(alloc, log, known);
    match play_on(alloc, script, base, &mut so_far) {
        Ok(()) => Ok(reported(alloc, base, so_far)),
        Err(_) => Err(let_run_go(so_far)),
    }
}

/// The log of a run that is given up.
fn let_run_go<D: LogStore + Drop>(run: RunSoFar<D>) -> NodeLog<D>
    ensures { result ≡ run.log }
{
    let RunSoFar { log, .. } = run;
    log.into_log()
}

/// Does the lines of a script in a run at its opening.
fn play_on<D: LogStore>(
    alloc: Global,
    script: &Script,
    base: u64,
    run: &mut RunSoFar<D>,
) -> Result<(), AllocError>
    ghost start: { Start }
    requires can_run { CanRun script.now }
    requires running { run.old.log.failed ≡ false }
    requires place { base ≡ length start.before }
    requires opened { IsOpenedBehind (script_tables script.now) run.old.log.accepted start.before run.old.log.entries }
    requires earlier { AreEarlier run.old.log.accepted start.before }
    requires behind { CanBegin (script_tables script.now) start.before start.rows }
    requires lines { run.old.lines.items ≡ [] }
    requires entries { run.old.entries.items ≡ [] }
    ensures done { OnOk result ((states : List SessionState)
        × IsBeforeLine script.now start run.old.log.accepted run.old.log.store.faults [] (run_in run.new) states) }
    ensures given_up { OnErr result (IsGivenUp script.now start run.old.log run.new.log) }
    ensures owner { owner_of run.new.log ≡ owner_of run.old.log }
{
    let schema = script_schema(alloc, script.tables.as_slice())?;
    let generation = run.log.accepted();
    open_history(base, &mut run.entries)?;
    let mut states = starts(alloc, script.sessions.as_slice())?;
    let mut rest = script.body.as_slice();
    'lines: while let Some((line, after)) = rest.split_first() {
        run_line(alloc, script, &schema, generation, line, &mut states, run)?;
        rest = after;
    }
    Ok(())
}

/// Opens a history: where it begins with the run, the setup of the tables stands in it.
fn open_history(base: u64, entries: &mut Vec<EntryLine>) -> Result<(), AllocError>
    requires none { entries.old.items ≡ [] }
    ensures first { OnOk result (base ≡ 0 → entries.new.items ≡ EntryLine.Setup 1 ∷ []) }
    ensures later { OnOk result (1 ≤ base → entries.new.items ≡ []) }
{
    if base == 0 {
        return add_line(entries, EntryLine::Setup { position: 1 });
    }
    Ok(())
}

/// The run at its opening, behind a log, whose identities are known.
fn opened<D: LogStore>(alloc: Global, log: NodeLog<D>, known: BlkSeq) -> RunSoFar<D>
    requires { known ≡ identities_of log.entries }
    ensures lines { result.lines.items ≡ [] }
    ensures entries { result.entries.items ≡ [] }
    ensures log { result.log ≡ log }
{
    RunSoFar {
        lines: Vec::new(alloc),
        entries: Vec::new(alloc),
        log: IndexedLog::over(log, known),
    }
}

/// The tables of a script, in order.
pub fn script_schema(alloc: Global, tables: &[TableLine]) -> Result<Schema, AllocError>
    ensures { IfOk result (λ schema. schema ≡ map (λ t. t.table) tables.now) }
{
    let mut schema = Schema::new(alloc);
    let mut rest = tables;
    'tables: while let Some((line, after)) = rest.split_first() {
        add_copy(&mut schema, &line.table)?;
        rest = after;
    }
    Ok(schema)
}

/// Adds a copy of a table. A script that is read has lawful tables, so that memory is all that can be
/// wanting here.
fn add_copy(schema: &mut Schema, table: &TableDef) -> Result<(), AllocError>
    ensures { OnOk result (schema.new ≡ schema.old ++ table.now ∷ []) }
{
    match schema.add(table.clone()?) {
        Ok(()) => Ok(()),
        Err(_) => Err(AllocError),
    }
}

/// The sessions at the opening: none has done anything.
fn starts(alloc: Global, sessions: &[SessionLine]) -> Result<List<SessionState>, AllocError>
    ensures { IfOk result (λ states. map state_in states ≡ map (λ _. at_start) sessions.now) }
{
    let mut states: List<SessionState> = List::new(alloc);
    let mut rest = sessions;
    'sessions: while let Some((_session, after)) = rest.split_first() {
        states.push(at_rest())?;
        rest = after;
    }
    Ok(states)
}

/// A session that has done nothing.
fn at_rest() -> SessionState
    ensures { state_in result ≡ at_start }
{
    SessionState {
        number: 0,
        level: Level::Snapshot,
        doing: InTransaction::No,
    }
}

/// Does a line of the script.
fn run_line<D: LogStore>(
    alloc: Global,
    script: &Script,
    schema: &Schema,
    generation: u64,
    line: &BodyLine,
    states: &mut List<SessionState>,
    run: &mut RunSoFar<D>,
) -> Result<(), AllocError>
    ghost start: { Start }
    requires tables { schema.now ≡ script_tables script.now }
    requires before { (left : List BodyLine) × (had : ℕ)
        × IsBeforeLine script.now start generation had (line.now ∷ left) (run_in run.old) states.old }
    ensures done { OnOk result ((left : List BodyLine) (had : ℕ)
        → IsBeforeLine script.now start generation had (line.now ∷ left) (run_in run.old) states.old
        → IsBeforeLine script.now start generation had left (run_in run.new) states.new) }
    ensures same { OnErr result (IsSameHistory (run_in run.old) (run_in run.new)) }
    ensures owner { owner_of run.new.log ≡ owner_of run.old.log }
{
    let Act::Say { session, text } = &line.act else {
        return Ok(());
    };
    let Some(at) = find_session(script.sessions.as_slice(), session) else {
        return Ok(());
    };
    let state = states.replace_at(at, at_rest());
    let after = run_session_line(
        alloc,
        schema,
        generation,
        session,
        state,
        text.as_bytes(),
        run,
    )?;
    let _at_rest = states.replace_at(at, after);
    Ok(())
}

/// The place of the session with that name.
fn find_session(sessions: &[SessionLine], name: &Name) -> Option<usize>
    ensures { result ≡ session_at name.now sessions.now }
{
    let mut at = 0usize;
    let mut rest = sessions;
    'sessions: while let Some((session, after)) = rest.split_first() {
        if is_same(&session.name, name) {
            return Some(at);
        }
        at += 1;
        rest = after;
    }
    None
}

/// Whether two names are the same.
fn is_same(a: &Name, b: &Name) -> bool
    ensures { result ≡ bytes_eq a.now b.now }
{
    a.as_bytes() == b.as_bytes()
}

/// What a run behind a base leaves: its report up to the last position of the history, and the log.
fn reported<D: LogStore>(alloc: Global, base: u64, run: RunSoFar<D>) -> Played<D>
    requires some { run.log.failed ≡ true → 1 ≤ length run.log.entries }
    ensures report { result.report ≡ report_of base (length (history_of run.log)) run.lines.items run.entries.items }
    ensures log { result.log ≡ run.log }
{
    let end = last_told(&run.log);
    let RunSoFar {
        lines,
        entries,
        log,
    } = run;
    let report = report_with(alloc, base, lines, entries, end);
    Played {
        report,
        log: log.into_log(),
    }
}

/// The last position of the history of a log: where the store failed, the log has one entry more.
#[tactic(auto, using(crate::proofs::PlayLaws::told_up, crate::proofs::PlayLaws::told_down))]
fn last_told<D: LogStore>(log: &IndexedLog<D>) -> u64
    requires some { log.now.failed ≡ true → 1 ≤ length log.now.entries }
    ensures { result ≡ length (history_of log.now) }
{
    let count = log.log().entries().len() as u64;
    if log.has_failed() { count - 1 } else { count }
}

/// The report of lines and of a history behind a base, up to its last position.
fn report_with(
    alloc: Global,
    base: u64,
    lines: Vec<Line>,
    entries: Vec<EntryLine>,
    end: u64,
) -> Report
    ensures { result ≡ report_of base end lines.items entries.items }
{
    Report {
        lines: List::from_vec(lines),
        base: base_told(base),
        entries: List::from_vec(entries),
        feeds: List::new(alloc),
        end,
    }
}

/// The base as a report tells it: none where the history begins with the run.
fn base_told(base: u64) -> Option<u64>
    ensures { result ≡ base_line base }
{
    if base == 0 { None } else { Some(base) }
}

/// Plays a script on a node that is down from the opening on: its store failed before it was up, once a log of that length
/// was read, or none.
///
/// The report begins with the line that the node went down. Each line that begins a transaction is told that no majority is
/// up, and the history has no entry behind that log, whatever its rows are. The error is want of memory.
pub fn play_down(alloc: Global, script: &Script, base: u64) -> Result<Report, AllocError>
    requires can_run { CanRun script.now }
    ensures lawful { IfOk result (λ r. (rows : Rows) → Lawful (from_base script.now base rows) r) }
    ensures in_order { IfOk result (λ r. (rows : Rows) → InPlayOrder (from_base script.now base rows) r) }
    ensures lawful_of_nodes { IfOk result (λ r. (rows : Rows) → LawfulOfNodes (from_base script.now base rows) r) }
    ensures in_nodes_order { IfOk result (λ r. (rows : Rows) → InNodesOrder (from_base script.now base rows) r) }
    ensures first { IfOk result (λ r. BeginsDown r.lines) }
    ensures down { IfOk result (λ r. downs r.lines ≡ 1) }
    ensures none { IfOk result (λ r. r.entries ≡ []) }
{
    let schema = script_schema(alloc, script.tables.as_slice())?;
    let mut lines = Vec::new(alloc);
    add_down(&mut lines)?;
    let mut states = starts(alloc, script.sessions.as_slice())?;
    let mut rest = script.body.as_slice();
    'lines: while let Some((line, after)) = rest.split_first() {
        run_line_down(alloc, script, &schema, line, &mut states, &mut lines)?;
        rest = after;
    }
    Ok(report_with(alloc, base, lines, Vec::new(alloc), base))
}

/// Does a line of the script on a node that is down.
fn run_line_down(
    alloc: Global,
    script: &Script,
    schema: &Schema,
    line: &BodyLine,
    states: &mut List<SessionState>,
    lines: &mut Vec<Line>,
) -> Result<(), AllocError>
    requires tables { schema.now ≡ script_tables script.now }
    requires before { (left : List BodyLine)
        × IsBeforeDown script.now (line.now ∷ left) lines.old.items (map state_in states.old) }
    ensures { OnOk result ((left : List BodyLine)
        → IsBeforeDown script.now (line.now ∷ left) lines.old.items (map state_in states.old)
        → IsBeforeDown script.now left lines.new.items (map state_in states.new)) }
{
    let Act::Say { session, text } = &line.act else {
        return Ok(());
    };
    let Some(at) = find_session(script.sessions.as_slice(), session) else {
        return Ok(());
    };
    let prepared = read_text(alloc, schema, text.as_bytes())?;
    let kind = prepared.kind();
    drop(prepared);
    let state = states.replace_at(at, at_rest());
    let after = run_down(session, state, kind, lines)?;
    let _at_rest = states.replace_at(at, after);
    Ok(())
}
