//! A script is played over the store of its node.
ghost use Rattle.std.specs.Prelude.{◌≡◌, ◌≢◌, ◌++◌, ◌∷◌, [], map, IfOk, OnOk, IsErr};
ghost use Rattle.cdb_values.specs.Rows.{Rows};
ghost use Rattle.log_rows.specs.History.{tables_of};
ghost use Rattle.script_form.specs.CanRun.{script_tables, CanRun};
ghost use Rattle.script_form.specs.Named.{IsNamed};
ghost use Rattle.script_form.specs.declared.scripts.Script.{Script};
ghost use Rattle.script_play.specs.Start.{Start};
ghost use Rattle.store_log.specs.Keeps.{Stored};
ghost use Rattle.script_main.specs.Run.{IsTextOver};
ghost use Rattle.script_main.specs.Runs.{IsCutOff, IsDownText};
ghost use Rattle.script_main.specs.Steps.{log_before, IsBegunAt, IsLeftBehind, IsLeftFrom, IsLeftOf, IsNotUpText, IsOpened};
ghost use Rattle.script_main.specs.Steps.{IsPlaceIn, IsPlayedText, IsReportText, IsRunText};
ghost use Rattle.script_main.specs.Stores.{kept_by, start_at, unsaid, HasId};

use super::answers::{Answer, differs, reported, store_refused, unsound};
use super::begun::Begun;
use cdb_outside::{LogStore, Status};
use cdb_values::{List, TableDef};
use cluster_id::cluster_id;
use log_replay::PagedLog;
use node_log::NodeLog;
use node_opening::{UpNode, WhyNotUp, open_node};
use script_form::{Script, TableLine};
use script_play::{Played, play, play_down, script_schema};
use std::alloc::{AllocError, Global};
use table_store::{pages_stand_for_one_state, pages_that_stand_keep_their_keys};

/// The number of the one node.
const NODE: u8 = 1;

/// What a script over a store is answered, and the store behind it.
#[derive(Drop)]
pub(crate) struct Ended<D: LogStore> {
    pub store: D,
    pub answer: Result<Answer, AllocError>,
}

/// The answer to a script over the store of its node.
pub(crate) fn play_over<D: LogStore + Drop>(alloc: Global, script: &Script, store: D) -> Ended<D>
    requires runs { CanRun script.now }
    requires names { IsNamed script.now }
    requires settled { D.pending store ≡ [] }
    ensures text { IfOk result.answer (λ a. IsTextOver script.now (kept_by D.synced D.pending D.faults D.writes store)
        (kept_by D.synced D.pending D.faults D.writes result.store) a.status a.text) }
    ensures id { IfOk result.answer (λ _. HasId script.now) }
    ensures left { IsCutOff script.now (kept_by D.synced D.pending D.faults D.writes store)
        (kept_by D.synced D.pending D.faults D.writes result.store) }
    ensures settled { D.pending result.store ≡ [] }
{
    let Ok(schema) = script_schema(alloc, script.tables.as_slice()) else {
        return no_memory(store);
    };
    let Ok(cluster) = cluster_id(alloc, &script.cluster, script.nodes) else {
        return no_memory(store);
    };
    pages_that_stand_keep_their_keys();
    match open_node(alloc, store, NODE, cluster, &schema) {
        Ok(up) => play_up(alloc, script, up),
        Err(down) => Ended {
            answer: not_up(alloc, script, down.why),
            store: down.store,
        },
    }
}

/// Want of memory, with the store as it is.
fn no_memory<D: LogStore>(store: D) -> Ended<D>
    ensures answer { IsErr result.answer }
    ensures store { result.store ≡ store }
{
    Ended {
        store,
        answer: Err(AllocError),
    }
}

/// The answer to a script whose node is not up.
fn not_up(alloc: Global, script: &Script, why: WhyNotUp) -> Result<Answer, AllocError>
    requires runs { CanRun script.now }
    requires names { IsNamed script.now }
    requires place { IsPlaceIn why (script_tables script.now) }
    ensures { IfOk result (λ a. IsNotUpText script.now why a.status a.text) }
{
    match why {
        WhyNotUp::StoreFault { length } => down(alloc, script, length),
        WhyNotUp::Refused { at } => store_refused(alloc, NODE, at),
        WhyNotUp::Unsound => unsound(alloc, NODE),
        WhyNotUp::Differs { table } => differs(alloc, script.tables.as_slice(), table),
        WhyNotUp::NoMemory => Err(AllocError),
    }
}

/// The answer to a script whose node is down from the opening on, once a log of that size was read, or none: the report of
/// a run behind that log.
fn down(alloc: Global, script: &Script, size: u64) -> Result<Answer, AllocError>
    requires runs { CanRun script.now }
    requires names { IsNamed script.now }
    ensures { IfOk result (λ a. (a.status ≡ Status.Done) × IsDownText script.now size a.text) }
{
    let report = play_down(alloc, script, size)?;
    reported(alloc, &report)
}

/// The answer to a script whose node is up. A script without tables has those of the log.
fn play_up<D: LogStore + Drop>(alloc: Global, script: &Script, up: UpNode<D>) -> Ended<D>
    requires runs { CanRun script.now }
    requires names { IsNamed script.now }
    requires opened { (old : Stored) × IsOpened script.now old up.base up.log }
    ensures text { IfOk result.answer (λ a. (old : Stored) → IsOpened script.now old up.base up.log
        → IsRunText script.now old (kept_by D.synced D.pending D.faults D.writes result.store) a.status a.text) }
    ensures left { IsLeftBehind script.now (log_before up.base up.log) up.log
        (kept_by D.synced D.pending D.faults D.writes result.store) }
    ensures settled { D.pending result.store ≡ [] }
{
    pages_that_stand_keep_their_keys();
    let begun = begin(up);
    if begun.base == 0 || !script.tables.as_slice().is_empty() {
        play_begun(alloc, script, begun)
    } else {
        play_logged(alloc, script, begun)
    }
}

/// The log of a node that is up, which stands for some rows.
fn begin<D: LogStore>(up: UpNode<D>) -> Begun<D>
    requires opened { (script : Script) × (old : Stored) × IsOpened script old up.base up.log }
    ensures base { result.base ≡ up.base }
    ensures log { result.log ≡ up.log }
{
    pages_stand_for_one_state();
    Begun {
        base: up.base,
        log: up.log,
    }
}

/// The answer to a script without tables behind a log that has entries: it has the tables of that log.
fn play_logged<D: LogStore + Drop>(alloc: Global, script: &Script, begun: Begun<D>) -> Ended<D>
    requires runs { CanRun script.now }
    requires names { IsNamed script.now }
    requires opened { (old : Stored) × IsOpened script.now old begun.base begun.log }
    requires some { begun.base ≢ 0 }
    requires none { script.now.tables ≡ [] }
    ensures text { IfOk result.answer (λ a. (old : Stored) → IsOpened script.now old begun.base begun.log
        → IsRunText script.now old (kept_by D.synced D.pending D.faults D.writes result.store) a.status a.text) }
    ensures left { IsLeftBehind script.now (log_before begun.base begun.log) begun.log
        (kept_by D.synced D.pending D.faults D.writes result.store) }
    ensures settled { D.pending result.store ≡ [] }
{
    pages_that_stand_keep_their_keys();
    match with_tables(alloc, script, begun.log.log()) {
        Ok(whole) => {
            let ended = play_begun(alloc, &whole, begun);
            drop(whole);
            ended
        }
        Err(_) => no_memory(begun.log.give_back()),
    }
}

/// A script with the tables of a log.
fn with_tables(alloc: Global, script: &Script, log: &PagedLog) -> Result<Script, AllocError>
    ensures { IfOk result (λ whole. whole ≡ record script.now { tables = map unsaid (tables_of log.now) }) }
{
    let tables = logged_lines(alloc, log)?;
    let mut whole = copied(script)?;
    whole.tables = tables;
    Ok(whole)
}

/// A copy of a script.
fn copied(script: &Script) -> Result<Script, AllocError>
    ensures { IfOk result (λ copy. copy ≡ script.now) }
{
    script.clone()
}

/// The tables of a log, as lines that stand in no script.
fn logged_lines(alloc: Global, log: &PagedLog) -> Result<List<TableLine>, AllocError>
    ensures { IfOk result (λ lines. lines ≡ map unsaid (tables_of log.now)) }
{
    match log.schema() {
        Some(schema) => lines_of(alloc, schema.tables()),
        None => Ok(List::new(alloc)),
    }
}

/// Lines of these tables, that stand in no script.
fn lines_of(alloc: Global, tables: &[TableDef]) -> Result<List<TableLine>, AllocError>
    ensures { IfOk result (λ lines. lines ≡ map unsaid tables.now) }
{
    let mut lines = List::new(alloc);
    let mut rest = tables;
    'tables: while let Some((table, after)) = rest.split_first() {
        add_unsaid(&mut lines, table)?;
        rest = after;
    }
    Ok(lines)
}

/// Adds a line of a table, that stands in no script.
fn add_unsaid(lines: &mut List<TableLine>, table: &TableDef) -> Result<(), AllocError>
    ensures { OnOk result (lines.new ≡ lines.old ++ unsaid table.now ∷ []) }
{
    lines.push(TableLine {
        line: 0,
        table: table.clone()?,
    })
}

/// The answer to a script whose tables are those of the log that was opened.
fn play_begun<D: LogStore + Drop>(alloc: Global, script: &Script, begun: Begun<D>) -> Ended<D>
    requires runs { CanRun script.now }
    requires begun { (rows : Rows)
        × IsBegunAt script.now begun.base (log_before begun.base begun.log) begun.log rows }
    ensures text { IfOk result.answer (λ a. (rows : Rows)
        → IsBegunAt script.now begun.base (log_before begun.base begun.log) begun.log rows
        → IsPlayedText script.now (start_at (log_before begun.base begun.log) rows) begun.log
        (kept_by D.synced D.pending D.faults D.writes result.store) a.status a.text) }
    ensures left { IsLeftFrom script.now (log_before begun.base begun.log) begun.log
        (kept_by D.synced D.pending D.faults D.writes result.store) }
    ensures settled { D.pending result.store ≡ [] }
{
    pages_stand_for_one_state();
    play_from(alloc, script, begun)
}

/// The same, where it is known at which rows the run begins.
fn play_from<D: LogStore + Drop>(alloc: Global, script: &Script, begun: Begun<D>) -> Ended<D>
    ghost start: { Start }
    requires runs { CanRun script.now }
    requires before { start.before ≡ log_before begun.base begun.log }
    requires begun { IsBegunAt script.now begun.base (log_before begun.base begun.log) begun.log start.rows }
    ensures text { IfOk result.answer (λ a. IsPlayedText script.now start begun.log
        (kept_by D.synced D.pending D.faults D.writes result.store) a.status a.text) }
    ensures left { IsLeftFrom script.now start.before begun.log
        (kept_by D.synced D.pending D.faults D.writes result.store) }
    ensures settled { D.pending result.store ≡ [] }
{
    let Begun { log, base } = begun;
    match play(alloc, script, log, base) {
        Ok(played) => told(alloc, played),
        Err(log) => no_memory(log.give_back()),
    }
}

/// The answer to a script that was played.
fn told<D: LogStore + Drop>(alloc: Global, played: Played<D>) -> Ended<D>
    ensures text { IfOk result.answer (λ a. IsReportText played.report a.status a.text) }
    ensures left { IsLeftOf played.log (kept_by D.synced D.pending D.faults D.writes result.store) }
    ensures settled { D.pending result.store ≡ [] }
{
    let Played { report, log } = played;
    let answer = reported(alloc, &report);
    drop(report);
    Ended {
        store: log.give_back(),
        answer,
    }
}
