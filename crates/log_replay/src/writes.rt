ghost use Rattle.std.specs.Prelude.{ℕ, ◌≡◌, ◌+◌, ◌++◌, ◌∷◌, [], ◌<◌, ◌≤◌, ◌^◌, OnOk, OnErr, length};
ghost use Rattle.page_store.specs.Image.{HasRoom};
ghost use Rattle.phys_log.specs.Logs.{IsNext, AreNext, after_record, replayed};
ghost use Rattle.log_replay.specs.Chains.{links_on};
ghost use Rattle.log_replay.specs.Kept.{page_in, chain_in, link_of, put_at, Roomier, TellsWhether};

use crate::kept::{KeptPages, hold, lsn_of, write_at};
use crate::undoes::undo_each;
use cdb_values::limits::LSN_LIMIT;
use page_store::ApplyFault;
use phys_log::LogRecord;
use std::alloc::Global;

/// Makes a record's edit where it is the next one, with this LSN.
#[tactic(auto, using(crate::proofs::KeptLemmas::roomy_on))]
fn write_next(
    alloc: Global,
    pages: &mut KeptPages,
    entry: &LogRecord,
    position: u64,
    lsn: u64,
) -> Result<(), ApplyFault>
    ensures made { OnOk result ((n : ℕ) → page_in pages.new n ≡ after_record (page_in pages.old) entry.now n) }
    ensures linked { OnOk result ((n : ℕ) → chain_in pages.new n
        ≡ put_at (chain_in pages.old) entry.now.page
        (chain_in pages.old entry.now.page ++ link_of position entry.now ∷ []) n) }
    ensures next { TellsWhether result (IsNext (page_in pages.old) lsn entry.now) }
    ensures low { OnOk result (lsn < 2 ^ 62) }
    ensures same_pages { OnErr result ((n : ℕ) → page_in pages.new n ≡ page_in pages.old n) }
    ensures same_chains { OnErr result ((n : ℕ) → chain_in pages.new n ≡ chain_in pages.old n) }
    ensures roomy { Roomier pages.old pages.new }
{
    if lsn >= LSN_LIMIT {
        return Err(ApplyFault::NoMemory);
    }
    if entry.lsn != lsn || entry.prev != lsn_of(pages, entry.page) {
        return Err(ApplyFault::Unfit);
    }
    match hold(alloc, pages, entry.page) {
        Ok(()) => write_at(pages, entry, position),
        Err(_) => Err(ApplyFault::NoMemory),
    }
}

/// Makes the edits of the records of the entry at a position, in order, from this LSN on, each on the kept page itself.
/// After an error those that were made are taken back.
pub(crate) fn write_all(
    alloc: Global,
    pages: &mut KeptPages,
    records: &[LogRecord],
    position: u64,
    from: u64,
) -> Result<(), ApplyFault>
    requires numbered { 0 < from }
    requires room { (n : ℕ) → HasRoom (page_in pages.old n).cells }
    ensures made { OnOk result ((n : ℕ) → page_in pages.new n ≡ replayed (page_in pages.old) records.now n) }
    ensures linked { OnOk result ((n : ℕ) → chain_in pages.new n
        ≡ chain_in pages.old n ++ links_on n position records.now) }
    ensures next { TellsWhether result (AreNext (page_in pages.old) from records.now) }
    ensures same_pages { OnErr result ((n : ℕ) → page_in pages.new n ≡ page_in pages.old n) }
    ensures same_chains { OnErr result ((n : ℕ) → chain_in pages.new n ≡ chain_in pages.old n) }
    ensures low { OnOk result (from ≤ 2 ^ 62 → from + length records.now ≤ 2 ^ 62) }
    ensures roomy { Roomier pages.old pages.new }
{
    let mut lsn = from;
    for i in 0..records.len() {
        let entry = &records[i];
        match write_next(alloc, pages, entry, position, lsn) {
            Ok(()) => {}
            Err(fault) => {
                undo_each(pages, &records[..i]);
                return Err(fault);
            }
        }
        lsn += 1;
    }
    Ok(())
}
