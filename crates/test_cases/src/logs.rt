ghost use Rattle.std.specs.Prelude.{◌≡◌, IfOk, slice_get};
ghost use Rattle.std.specs.Option.{option_copied};
ghost use Rattle.test_cases.specs.Samples.{sample_entry, sample_edit, sample_record};

use cdb_values::{Level, List, Name};
use page_store::{Cell, Edit, Page};
use phys_log::{CommitId, Entry, LogRecord};
use std::alloc::{AllocError, Global};

/// A commit of session `a` with a number, that begins at 1 and changes no row, with these records. The error is want of
/// memory.
pub fn commit_entry(alloc: Global, txn: u64, records: List<LogRecord>) -> Result<Entry, AllocError>
    ensures { IfOk result (λ e. e ≡ sample_entry txn records) }
{
    let session = Name::copied(alloc, b"a")?;
    Ok(Entry::Commit {
        generation: 1,
        id: CommitId {
            began: 1,
            session,
            txn,
        },
        begin: 1,
        level: Level::Snapshot,
        changes: List::new(alloc),
        records,
    })
}

/// The record with an LSN that puts that LSN, big-endian, as a first cell of a page without cells, or in place of the
/// first cell. No page is handed in where none is kept. The error is want of memory.
#[tactic(auto, unfolding(crate::specs::Samples::sample_record))]
pub fn record_over(
    alloc: Global,
    kept: Option<&Page>,
    page: u64,
    lsn: u64,
) -> Result<LogRecord, AllocError>
    ensures { IfOk result (λ r. r ≡ sample_record (option_copied kept.entry) page lsn) }
{
    let cell = Cell::from_slice(alloc, &lsn.to_be_bytes())?;
    match kept {
        None => Ok(LogRecord {
            lsn,
            prev: 0,
            page,
            edit: Edit::PutCell { at: 0, cell },
        }),
        Some(kept) => Ok(LogRecord {
            lsn,
            prev: kept.lsn(),
            page,
            edit: edit_over(alloc, kept, cell)?,
        }),
    }
}

/// Puts a cell as the first of a page without cells, or in place of the first.
#[tactic(auto, unfolding(crate::specs::Samples::sample_edit))]
fn edit_over(alloc: Global, kept: &Page, after: Cell) -> Result<Edit, AllocError>
    ensures { IfOk result (λ e. e ≡ sample_edit (slice_get kept.now.cells 0) after) }
{
    match kept.cell(0) {
        None => Ok(Edit::PutCell { at: 0, cell: after }),
        Some(cell) => Ok(Edit::SwapCell {
            at: 0,
            before: Cell::from_slice(alloc, cell)?,
            after,
        }),
    }
}
