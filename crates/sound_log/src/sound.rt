//! Whether a log is sound, and its state.
ghost use Rattle.std.specs.Prelude.{◌≡◌, IfOk, IfSome, is_some, true};
ghost use Rattle.std.specs.Bool.{Decides};
ghost use Rattle.std.specs.List.{list_all};
ghost use Rattle.cdb_values.specs.Rows.{Rows};
ghost use Rattle.phys_log.specs.Logs.{pages_of};
ghost use Rattle.table_state.specs.States.{HasState};
ghost use Rattle.sound_log.specs.Begun.{is_begun_by as is_begun_by_of};
ghost use Rattle.sound_log.specs.Bytes.{AreOfBytes, StandForBytes};
ghost use Rattle.sound_log.specs.Sound.{IsSound, IsStateOf};

use crate::bytes::tell_bytes;
use crate::identities::are_apart;
use cdb_values::{List, Schema};
use log_replay::{LogPages, PagedLog};
use phys_log::Entry;
use std::alloc::{AllocError, Global};
use table_state::{State, state_of};
use table_store::pages_stand_for_one_state;

/// The state of a log that is sound, where this generation is the accepted one; none where it is not. A log without entries has
/// a state without tables. The rows of a sound log are of bytes. `Err` is want of memory.
pub fn sound_state(
    alloc: Global,
    accepted: u64,
    log: &PagedLog,
) -> Result<Option<State>, AllocError>
    ensures sound { IfOk result (λ found. Decides (is_some found) (IsSound accepted log.now)) }
    ensures state { IfOk result (λ found. IfSome found (IsStateOf log.now)) }
    ensures bytes { IfOk result (λ found. is_some found ≡ true → AreOfBytes log.now) }
{
    let Some((_, others)) = log.entries().split_first() else {
        return Ok(Some(no_state(alloc)));
    };
    let Some(schema) = log.schema() else {
        return Ok(None);
    };
    if !are_begun_by(accepted, others) {
        return Ok(None);
    }
    let apart = are_apart(alloc, others)?;
    if !apart {
        return Ok(None);
    }
    state_on(alloc, log, schema)
}

/// A state without tables. Takes no memory.
fn no_state(alloc: Global) -> State {
    State {
        tables: List::new(alloc),
        next: 1,
    }
}

/// Whether these entries are those of transactions that began in a generation, or before it.
fn are_begun_by(accepted: u64, entries: &[Entry]) -> bool
    ensures { result ≡ list_all (is_begun_by_of accepted) entries.now }
{
    entries.iter().all(|entry| is_begun_by(accepted, entry))
}

/// Whether an entry is that of a transaction that began in a generation, or before it.
fn is_begun_by(accepted: u64, entry: &Entry) -> bool
    ensures { result ≡ is_begun_by_of accepted entry.now }
{
    match entry {
        Entry::Setup { .. } => false,
        Entry::Commit { id, .. } => id.began <= accepted,
    }
}

/// The good state of a schema for which the pages of a log stand, where there is one with a next genid and a number of pages
/// below 2^62; its rows are of bytes then. `Err` is want of memory: the pages of a log are never lost.
fn state_on(alloc: Global, log: &PagedLog, schema: &Schema) -> Result<Option<State>, AllocError>
    ensures state { IfOk result (λ found. Decides (is_some found)
        ((rows : Rows) × HasState (pages_of log.now) schema.now rows)) }
    ensures found { IfOk result (λ found. IfSome found (HasState (pages_of log.now) schema.now)) }
    ensures bytes { IfOk result (λ found. is_some found ≡ true → StandForBytes (pages_of log.now) schema.now) }
{
    // This law runs nothing. By it the rows that are found are all for which the pages stand.
    pages_stand_for_one_state();
    let edited = log.edited(alloc)?;
    let mut pages = LogPages::new(alloc, log)?;
    match state_of(alloc, &mut pages, schema, edited.as_slice()) {
        Ok(Some(state)) => {
            tell_bytes(state.tables.as_slice());
            Ok(Some(state))
        }
        Ok(None) => Ok(None),
        Err(_) => Err(AllocError),
    }
}
