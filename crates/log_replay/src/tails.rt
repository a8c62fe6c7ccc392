//! The entries behind a place are taken back, and others put in their place.
ghost use Rattle.std.specs.Prelude.{ℕ, ◌≡◌, ◌+◌, ◌≤◌, ◌++◌, ◌∷◌, [], OnOk, OnErr, IfOk, List, None, length, take};
ghost use Rattle.page_store.specs.Image.{HasRoom};
ghost use Rattle.phys_log.specs.declared.entries.Entry.{Entry as OneEntry};
ghost use Rattle.phys_log.specs.Logs.{AreNext, IsLog, last_lsn_of, records_of, replayed};
ghost use Rattle.log_replay.specs.Chains.{links_on};
ghost use Rattle.log_replay.specs.Exchanges.{HasLinkRoom};
ghost use Rattle.log_replay.specs.Kept.{page_in, chain_in, room_in, AreMade, IsKept, Roomier, TellsWhether};

use crate::kept::{KeptPages, redo_at};
use crate::undoes::undo_entries;
use crate::writes::write_all;
use cdb_values::limits::LSN_LIMIT;
use page_store::ApplyFault;
use phys_log::{Entry, LogRecord, last_lsn};
use std::alloc::Global;

/// Makes the edits of records again that were taken back, in order, and adds them to their chains, which have room for
/// them. Takes no memory.
fn redo_each(pages: &mut KeptPages, records: &[LogRecord], position: u64)
    requires next { AreMade (page_in pages.old) records.now }
    requires room { (n : ℕ) →
        length (chain_in pages.old n ++ links_on n position records.now) ≤ room_in pages.old n }
    ensures made { (n : ℕ) → page_in pages.new n ≡ replayed (page_in pages.old) records.now n }
    ensures linked { (n : ℕ) → chain_in pages.new n
        ≡ chain_in pages.old n ++ links_on n position records.now }
    ensures roomy { Roomier pages.old pages.new }
{
    let mut rest = records;
    'again: while let Some((entry, behind)) = rest.split_first() {
        redo_at(pages, entry, position);
        rest = behind;
    }
}

/// Puts the entries behind the first ones, so many, back on pages that have the first ones alone, and room in their
/// chains for all. Takes no memory.
pub(crate) fn put_back(pages: &mut KeptPages, entries: &[Entry], kept: u64)
    requires logged { ∥ IsLog entries.now ∥₁ }
    requires within { kept ≤ length entries.now }
    requires first { IsKept (take kept entries.now) pages.old None }
    requires room { HasLinkRoom entries.now pages.old }
    ensures { IsKept entries.now pages.new None }
{
    for i in kept as usize..entries.len() {
        redo_each(pages, entries[i].records(), i as u64 + 1);
    }
}

/// Writes the entry at a position behind those of a log, whose last LSN this is, and answers the last LSN with it.
fn write_entry(
    alloc: Global,
    pages: &mut KeptPages,
    entry: &Entry,
    position: u64,
    last: u64,
) -> Result<u64, ApplyFault>
    requires { (n : ℕ) → HasRoom (page_in pages.old n).cells }
    ensures kept { IfOk result (λ next. (log : List OneEntry) → IsKept log pages.old None
        → last ≡ last_lsn_of log → position ≡ length log + 1
        → IsKept (log ++ entry.now ∷ []) pages.new None × (next ≡ last_lsn_of (log ++ entry.now ∷ []))) }
    ensures same { OnErr result ((log : List OneEntry) → IsKept log pages.old None
        → IsKept log pages.new None) }
    ensures fits { TellsWhether result (AreNext (page_in pages.old) (last + 1) (records_of entry.now)) }
    ensures roomy { Roomier pages.old pages.new }
{
    if last >= LSN_LIMIT {
        return Err(ApplyFault::NoMemory);
    }
    let records = entry.records();
    match write_all(alloc, pages, records, position, last + 1) {
        Ok(()) => Ok(last + records.len() as u64),
        Err(fault) => Err(fault),
    }
}

/// Writes entries behind those of a log, in order. After an error those that were written are taken back.
fn write_behind(
    alloc: Global,
    pages: &mut KeptPages,
    front: &[Entry],
    entries: &[Entry],
) -> Result<(), ApplyFault>
    requires { IsKept front.now pages.old None }
    ensures made { OnOk result (IsKept (front.now ++ entries.now) pages.new None) }
    ensures same { OnErr result (IsKept front.now pages.new None) }
    ensures fits { TellsWhether result (∥ IsLog (front.now ++ entries.now) ∥₁) }
    ensures roomy { Roomier pages.old pages.new }
{
    let mut last = last_lsn(front);
    for i in 0..entries.len() {
        let position = front.len() as u64 + i as u64 + 1;
        match write_entry(alloc, pages, &entries[i], position, last) {
            Ok(next) => last = next,
            Err(fault) => {
                undo_entries(pages, &entries[..i]);
                return Err(fault);
            }
        }
    }
    Ok(())
}

/// Takes the entries of a log behind the first ones, so many, back, and writes others behind these. After an error the
/// pages are those of the log again: to put its entries back takes no memory, since their chains have kept their room.
pub(crate) fn rewrite(
    alloc: Global,
    pages: &mut KeptPages,
    log: &[Entry],
    kept: u64,
    entries: &[Entry],
) -> Result<(), ApplyFault>
    requires within { kept ≤ length log.now }
    requires kept { IsKept log.now pages.old None }
    ensures made { OnOk result (IsKept (take kept log.now ++ entries.now) pages.new None) }
    ensures same { OnErr result (IsKept log.now pages.new None) }
    ensures fits { TellsWhether result (∥ IsLog (take kept log.now ++ entries.now) ∥₁) }
    ensures room { OnOk result (HasLinkRoom log.now pages.new) }
{
    let (front, tail) = log.split_at(kept as usize);
    undo_entries(pages, tail);
    match write_behind(alloc, pages, front, entries) {
        Ok(()) => Ok(()),
        Err(fault) => {
            put_back(pages, log, kept);
            Err(fault)
        }
    }
}
