//! One line of a session, told and kept, or cut short by want of memory.
ghost use Rattle.std.specs.Prelude.{◌≡◌, ◌++◌, ◌∷◌, [], List, Some, length, false, true, OnOk, OnErr, IfOk};
ghost use Rattle.std.specs.Str.{is_utf8};
ghost use Rattle.report_laws.specs.Told.{lines_of};
ghost use Rattle.report_text.specs.declared.reports.Line.{Line};
ghost use Rattle.sql_answer.specs.Language.{meaning, sql_binder};
ghost use Rattle.sql_answer.specs.Reading.{kind_of_text};
ghost use Rattle.sql_run.specs.Texts.{plan_by};
ghost use Rattle.sql_run.specs.Views.{text_in};
ghost use Rattle.script_play.specs.RunViews.{run_in, turn_in, AreOver, CanGoOn};
ghost use Rattle.script_play.specs.RunViews.{IsDoneFrom, IsOfText, IsReadyFor};
ghost use Rattle.session_turns.specs.Views.{IsOwn};
ghost use Rattle.script_play.specs.RunViews.{IsSameHistory, IsTakenFrom};
ghost use Rattle.script_play.specs.Down.{history_of, owner_of, IsHeldBy};
ghost use Rattle.script_play.specs.Effects.{Grown, IsEffect};
ghost use Rattle.script_play.specs.Start.{Start};

use super::downs::run_down;
use super::effects::{DecidedEffect, effect_of};
use super::holding::beside;
use super::indexed::IndexedLog;
use super::run::{RunSoFar, add_reply, apply_effect};
use cdb_outside::LogStore;
use cdb_values::{Name, Reply, Schema};
use session_turns::{SessionState, cut_state};
use sql_run::{Prepared, prepare};
use std::alloc::{AllocError, Global};
use std::marker::Brand;

/// More bytes than any line has.
const TEXT_LIMIT: usize = 1 << 32;

/// Does a line of a session, and gives where the session is then. Where want of memory ends its
/// transaction, only that is told. The error comes where that can't be told either, where a line
/// outside a transaction can't be answered, or where the text can't be read; only lines were added then.
pub(crate) fn run_session_line<D: LogStore>(
    alloc: Global,
    schema: &Schema,
    generation: u64,
    name: &Name,
    state: SessionState,
    text: &[u8],
    run: &mut RunSoFar<D>,
) -> Result<SessionState, AllocError>
    ghost start: { Start }
    requires ready { IsReadyFor start schema.now (history_of run.old.log) }
    requires going { CanGoOn start schema.now (history_of run.old.log) state.doing }
    requires over { AreOver generation name.now state (history_of run.old.log) }
    requires own { IsOwn generation name.now state }
    requires held { IsHeldBy run.old.log.failed generation run.old.log }
    ensures taken { IfOk result (λ after. IsTakenFrom start generation schema.now name.now state text.now after
        (run_in run.old) (run_in run.new)) }
    ensures err_same { OnErr result (IsSameHistory (run_in run.old) (run_in run.new)) }
    ensures owner { owner_of run.new.log ≡ owner_of run.old.log }
{
    let (state, prepared) = beside(state, read_text(alloc, schema, text))?;
    let kind = prepared.kind();
    if run.log.has_failed() {
        drop(prepared);
        return run_down(name, state, kind, &mut run.lines);
    }
    let cut = cut_state(&state, kind);
    let had = run.lines.len();
    let done = run_whole(alloc, schema, generation, name, state, &prepared, run);
    drop(prepared);
    match done {
        Ok(after) => {
            drop(cut);
            Ok(after)
        }
        Err(_) => cut_short(name, had, cut, run),
    }
}

/// A text read and bound. Texts of a script that is read are UTF-8 and far shorter than the limit, so that memory
/// is all that can be wanting here.
#[tactic(auto, using(crate::proofs::TextLemmas::is_text))]
pub(crate) fn read_text(alloc: Global, schema: &Schema, text: &[u8]) -> Result<Prepared, AllocError>
    ensures kind { IfOk result (λ p. (text_in p).kind ≡ kind_of_text text.now) }
    ensures meaning { IfOk result (λ p. (text_in p).meaning ≡ meaning sql_binder schema.now text.now) }
    ensures plan { IfOk result (λ p. (text_in p).plan ≡ plan_by schema.now (text_in p).meaning) }
    ensures utf8 { OnOk result (is_utf8 text.now ≡ true) }
{
    if TEXT_LIMIT <= text.len() {
        return Err(AllocError);
    }
    match std::str::from_utf8(text) {
        Ok(_) => prepare(alloc, schema, text),
        Err(_) => Err(AllocError),
    }
}

/// Does a line whole, on a node that is up. After an error only lines were added.
fn run_whole<D: LogStore>(
    alloc: Global,
    schema: &Schema,
    generation: u64,
    name: &Name,
    state: SessionState,
    prepared: &Prepared,
    run: &mut RunSoFar<D>,
) -> Result<SessionState, AllocError>
    ghost start: { Start }
    requires running { run.old.log.failed ≡ false }
    requires made { run.old.log.accepted ≡ generation }
    requires ready { IsReadyFor start schema.now run.old.log.entries }
    requires going { CanGoOn start schema.now run.old.log.entries state.doing }
    requires over { AreOver generation name.now state run.old.log.entries }
    requires own { IsOwn generation name.now state }
    requires plan { (text_in prepared.now).plan ≡ plan_by schema.now (text_in prepared.now).meaning }
    requires of_text { IsOfText schema.now (text_in prepared.now).meaning }
    ensures ok { IfOk result (λ after. IsDoneFrom start generation schema.now name.now
        (turn_in start schema.now run.old.log.entries state (text_in prepared.now).meaning (text_in prepared.now).kind) after
        (run_in run.old) (run_in run.new)) }
    ensures err_lines { OnErr result (Grown run.old.lines.items run.new.lines.items) }
    ensures err_same { OnErr result (IsSameHistory (run_in run.old) (run_in run.new)) }
    ensures owner { owner_of run.new.log ≡ owner_of run.old.log }
{
    let effect = planned(
        alloc,
        schema,
        generation,
        name,
        state,
        prepared,
        &mut run.log,
    )?;
    apply_effect(alloc, name, effect, run)
}

/// What a line is to do on a node that is up. The pages that were undone for it stay with the log.
fn planned<D: LogStore>(
    alloc: Global,
    schema: &Schema,
    generation: u64,
    name: &Name,
    state: SessionState,
    prepared: &Prepared,
    log: &mut IndexedLog<D>,
) -> Result<DecidedEffect, AllocError>
    ghost start: { Start }
    requires running { log.old.failed ≡ false }
    requires ready { IsReadyFor start schema.now log.old.entries }
    requires going { CanGoOn start schema.now log.old.entries state.doing }
    requires over { AreOver generation name.now state log.old.entries }
    requires own { IsOwn generation name.now state }
    requires plan { (text_in prepared.now).plan ≡ plan_by schema.now (text_in prepared.now).meaning }
    requires of_text { IsOfText schema.now (text_in prepared.now).meaning }
    ensures effect { IfOk result (λ p. IsEffect start generation schema.now log.old.entries name.now p
        (turn_in start schema.now log.old.entries state (text_in prepared.now).meaning (text_in prepared.now).kind)) }
    ensures same { log.new ≡ log.old }
{
    let mut undone = log.take_undone();
    let effect = effect_of::<Brand>(
        alloc,
        schema,
        generation,
        log.log(),
        log.known(),
        name,
        state,
        prepared,
        &mut undone,
    );
    log.put_undone(undone);
    effect
}

/// Tells that want of memory cut a line short, in place of the lines that were added since.
fn cut_short<D: LogStore>(
    name: &Name,
    had: usize,
    cut: Option<SessionState>,
    run: &mut RunSoFar<D>,
) -> Result<SessionState, AllocError>
    ensures state { IfOk result (λ after. cut ≡ Some after) }
    ensures lines { IfOk result (λ after. (kept : List Line) → length kept ≡ had → Grown kept run.old.lines.items
        → run.new.lines.items ≡ kept ++ lines_of name.now after.number (Reply.NoMemory ∷ [])) }
    ensures same { IsSameHistory (run_in run.old) (run_in run.new) }
{
    run.lines.truncate(had);
    let Some(after) = cut else {
        return Err(AllocError);
    };
    add_reply(&mut run.lines, name, after.number, Reply::NoMemory)?;
    Ok(after)
}
