//! The run so far, and how what a line is to do is told and kept.
ghost use Rattle.std.specs.Prelude.{◌≡◌, ◌≤◌, ◌+◌, ◌++◌, ◌∷◌, [], List, length, false, OnOk, OnErr, IfOk, IfSome, ◌⊎◌};
ghost use Rattle.log_rows.specs.History.{IsCommit};
ghost use Rattle.phys_log.specs.Logs.{Fits};
ghost use Rattle.report_laws.specs.Told.{lines_of};
ghost use Rattle.report_text.specs.declared.reports.Line.{Line};
ghost use Rattle.script_play.specs.Down.{down_line, owner_of, IsAppendedSo, IsAddedToHistory, IsFallenAt, IsKeptSo};
ghost use Rattle.script_play.specs.Down.{TellsOutcome};
ghost use Rattle.script_play.specs.Effects.{Grown, IsFreshIn};
ghost use Rattle.script_play.specs.EntryLines.{line_of as line_of_entry};
ghost use Rattle.script_play.specs.RunViews.{run_in, IsSameHistory};
ghost use Rattle.store_log.specs.Held.{generation_of};

use super::effects::DecidedEffect;
use super::holding::beside;
use super::indexed::IndexedLog;
use cdb_outside::LogStore;
use cdb_values::{Name, Reply};
use entry_spelling::has_spelling;
use node_log::KeepFault;
use phys_log::Entry;
use report_text::{EntryLine, Line};
use session_turns::SessionState;
use std::alloc::{AllocError, Global};

/// The run so far: the lines and the history of its report, and the log of the node, whose pages have the rows at each
/// position from where the run began. Where the store failed the node is down, and the log has one entry more than the
/// history. Clauses speak of it by `run_in`.
#[derive(Drop)]
pub(crate) struct RunSoFar<D: LogStore> {
    pub lines: Vec<Line>,
    pub entries: Vec<EntryLine>,
    pub log: IndexedLog<D>,
}

/// What came of an append.
pub(crate) enum Appended {
    /// The entry is kept in the store.
    Kept,
    /// The store failed: the node is down.
    Down,
}

/// Adds a line of a session.
pub(crate) fn add_reply(
    lines: &mut Vec<Line>,
    name: &Name,
    number: u64,
    reply: Reply,
) -> Result<(), AllocError>
    ensures ok { OnOk result (lines.new.items ≡ lines.old.items ++ lines_of name.now number (reply ∷ [])) }
    ensures err { OnErr result (lines.new.items ≡ lines.old.items) }
{
    let name = name.clone()?;
    lines.push(Line::Session {
        name,
        txn: number,
        reply,
    })?;
    Ok(())
}

/// Adds these lines of a session.
#[tactic(auto, using(crate::proofs::CourseLemmas::grown_more, crate::proofs::CourseLemmas::grown_none, crate::proofs::CourseLemmas::grown_same))]
fn add_replies(
    lines: &mut Vec<Line>,
    name: &Name,
    number: u64,
    replies: Vec<Reply>,
) -> Result<(), AllocError>
    ensures ok { OnOk result (lines.new.items ≡ lines.old.items ++ lines_of name.now number replies.items) }
    ensures err { OnErr result (Grown lines.old.items lines.new.items) }
{
    'replies: for reply in replies {
        add_reply(lines, name, number, reply)?;
    }
    Ok(())
}

/// Tells and keeps what a line is to do. Where the store fails at its entry, the node goes down, and the transaction is lost
/// by the line in place of its outcome. After an error only lines were added.
pub(crate) fn apply_effect<D: LogStore>(
    alloc: Global,
    name: &Name,
    effect: DecidedEffect,
    run: &mut RunSoFar<D>,
) -> Result<SessionState, AllocError>
    requires running { run.old.log.failed ≡ false }
    requires fits { IfSome effect.added (Fits run.old.log.entries) }
    requires fresh { IfSome effect.added (IsFreshIn run.old.log.entries) }
    requires commit { IfSome effect.added IsCommit }
    requires made { IfSome effect.added (λ e. generation_of e ≡ run.old.log.accepted) }
    requires told { TellsOutcome effect.replies.items effect.added }
    ensures state { IfOk result (λ after. after ≡ effect.after) }
    ensures done { OnOk result (IsKeptSo name.now effect.number effect.replies.items effect.added
        (run_in run.old) (run_in run.new)) }
    ensures err_lines { OnErr result (Grown run.old.lines.items run.new.lines.items) }
    ensures err_same { OnErr result (IsSameHistory (run_in run.old) (run_in run.new)) }
    ensures owner { owner_of run.new.log ≡ owner_of run.old.log }
{
    let DecidedEffect {
        number,
        replies,
        after,
        added,
    } = effect;
    add_replies(&mut run.lines, name, number, replies)?;
    match added {
        None => Ok(after),
        Some(entry) => {
            append_committed(alloc, name, number, entry, run)?;
            Ok(after)
        }
    }
}

/// Appends the entry of a transaction whose outcome is the last line, that it is committed. Where the store fails, the node
/// goes down, and that line becomes those that it went down and that the transaction is lost. The lines for both are made
/// before the store is called, so that no memory is wanted then. After an error only lines were added.
fn append_committed<D: LogStore>(
    alloc: Global,
    name: &Name,
    number: u64,
    entry: Entry,
    run: &mut RunSoFar<D>,
) -> Result<(), AllocError>
    requires running { run.old.log.failed ≡ false }
    requires fits { Fits run.old.log.entries entry }
    requires fresh { IsFreshIn run.old.log.entries entry }
    requires commit { IsCommit entry }
    requires made { generation_of entry ≡ run.old.log.accepted }
    requires told { (front : List Line) × (outcome : Line) × (run.old.lines.items ≡ front ++ outcome ∷ []) }
    ensures done { OnOk result (IsAppendedSo name.now number entry (run_in run.old) (run_in run.new)) }
    ensures err_lines { OnErr result (Grown run.old.lines.items run.new.lines.items) }
    ensures err_same { OnErr result (IsSameHistory (run_in run.old) (run_in run.new)) }
    ensures owner { owner_of run.new.log ≡ owner_of run.old.log }
{
    let had = run.lines.len();
    let told = add_fall(&mut run.lines, name, number);
    let (entry, ()) = beside(entry, told)?;
    match append_entry(alloc, entry, run)? {
        Appended::Kept => {
            run.lines.truncate(had);
            Ok(())
        }
        Appended::Down => {
            put_down(&mut run.lines);
            Ok(())
        }
    }
}

/// Puts the last line, that the node went down, in the place of the outcome of the transaction that is lost.
fn put_down(lines: &mut Vec<Line>)
    requires { 3 ≤ length lines.old.items }
    ensures { (front : List Line) (outcome lost down : Line) → lines.old.items ≡ front ++ outcome ∷ lost ∷ down ∷ []
        → lines.new.items ≡ front ++ down ∷ lost ∷ [] }
{
    let place = lines.len() - 3;
    drop(lines.swap_remove(place));
}

/// Adds the lines that a transaction is lost, and that the node went down, in this order.
fn add_fall(lines: &mut Vec<Line>, name: &Name, number: u64) -> Result<(), AllocError>
    ensures ok { OnOk result (lines.new.items ≡
        lines.old.items ++ (lines_of name.now number (Reply.Lost 1 1 ∷ []) ++ down_line ∷ [])) }
    ensures err { OnErr result (Grown lines.old.items lines.new.items) }
{
    add_reply(lines, name, number, Reply::Lost { node: 1, down: 1 })?;
    add_down(lines)
}

/// Adds the line that the node went down by a fault of its store.
pub(crate) fn add_down(lines: &mut Vec<Line>) -> Result<(), AllocError>
    ensures ok { OnOk result (lines.new.items ≡ lines.old.items ++ down_line ∷ []) }
    ensures err { OnErr result (lines.new.items ≡ lines.old.items) }
{
    lines.push(Line::Down {
        count: 1,
        node: 1,
        fault: true,
    })?;
    Ok(())
}

/// Appends an entry to the log, and its line to the history. Where the store fails the history is as it was. An entry that
/// has no spelling is one that memory is wanting for. After an error nothing is changed.
fn append_entry<D: LogStore>(
    alloc: Global,
    entry: Entry,
    run: &mut RunSoFar<D>,
) -> Result<Appended, AllocError>
    requires running { run.old.log.failed ≡ false }
    requires fits { Fits run.old.log.entries entry }
    requires fresh { IsFreshIn run.old.log.entries entry }
    requires commit { IsCommit entry }
    requires made { generation_of entry ≡ run.old.log.accepted }
    ensures kept { IfOk result (λ a. a ≡ Appended.Kept → IsAddedToHistory entry (run_in run.old) (run_in run.new)) }
    ensures fallen { IfOk result (λ a. a ≡ Appended.Down → IsFallenAt entry (run_in run.old) (run_in run.new)) }
    ensures lines { run.new.lines.items ≡ run.old.lines.items }
    ensures err_same { OnErr result (IsSameHistory (run_in run.old) (run_in run.new)) }
    ensures owner { owner_of run.new.log ≡ owner_of run.old.log }
{
    let position = run.log.log().entries().len() as u64 + 1;
    let line = line_of(position, &entry);
    let (entry, line) = beside(entry, line)?;
    let (entry, ()) = beside(entry, add_line(&mut run.entries, line))?;
    if !has_spelling(&entry) {
        drop(run.entries.pop());
        return Err(AllocError);
    }
    match run.log.append(alloc, entry) {
        Ok(()) => Ok(Appended::Kept),
        Err(KeepFault::StoreFault) => {
            drop(run.entries.pop());
            Ok(Appended::Down)
        }
        Err(KeepFault::NoMemory) => {
            drop(run.entries.pop());
            Err(AllocError)
        }
    }
}

/// Adds a line of the history.
pub(crate) fn add_line(entries: &mut Vec<EntryLine>, line: EntryLine) -> Result<(), AllocError>
    ensures ok { OnOk result (entries.new.items ≡ entries.old.items ++ line ∷ []) }
    ensures err { OnErr result (entries.new.items ≡ entries.old.items) }
{
    entries.push(line)?;
    Ok(())
}

/// The line of the history of an entry at a position.
pub(crate) fn line_of(position: u64, entry: &Entry) -> Result<EntryLine, AllocError>
    ensures { IfOk result (λ line. line ≡ line_of_entry position entry.now) }
{
    match entry {
        Entry::Setup { .. } => Ok(EntryLine::Setup { position }),
        Entry::Commit {
            id,
            begin,
            level,
            ..
        } => Ok(EntryLine::Commit {
            position,
            session: id.session.clone()?,
            txn: id.txn,
            begin: *begin,
            level: *level,
        }),
    }
}
