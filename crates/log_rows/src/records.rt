//! Edits over the pages of a log become the records of its next entry.
ghost use Rattle.std.specs.Prelude as std;
ghost use Rattle.std.specs.Prelude.{◌≡◌, ◌+◌, IfOk, true};
ghost use Rattle.page_workspace.specs.Drafts.{meant, edited_by, AreFit};
ghost use Rattle.page_workspace.specs.Spare.{count_of};
ghost use Rattle.phys_log.specs.Logs.{pages_of, replayed, last_lsn_of, AreNext};
ghost use Rattle.cdb_values.specs.Rows.{Rows};
ghost use Rattle.cdb_values.specs.declared.tables.TableDef.{TableDef};
ghost use Rattle.table_store.specs.Stored.{Stands};
ghost use Rattle.edit_records.specs.Alike.{AreAlike};
ghost use Rattle.edit_records.specs.Numbered.{records_behind, are_below};
ghost use Rattle.log_rows.specs.Sources.{source_pages, IsWant};

use crate::meta::page_count;
use cdb_values::List;
use edit_records::{are_within, records_of};
use log_replay::{LogPages, PagedLog};
use page_store::{Edit, PageFault};
use page_workspace::Workspace;
use phys_log::{LogRecord, last_lsn};
use std::alloc::{AllocError, Global};

/// The edits of a workspace over the pages of a log, as the records of the log's next entry: they are next on its pages,
/// and leave the pages of the workspace, with other LSNs, which stand for the same rows.
///
/// Answers `AllocError` for want of memory, where an LSN would not be below 2^62, and where an edit is one of a page past
/// the end.
#[tactic(auto, using(crate::proofs::RecordLemmas::want_alone))]
pub fn entry_records<'a>(
    alloc: Global,
    log: &PagedLog,
    space: Workspace<LogPages<'a>>,
) -> Result<List<LogRecord>, AllocError>
    requires over { source_pages space.base ≡ pages_of log.now }
    ensures made { IfOk result (λ records. records ≡ records_behind (pages_of log.now) (last_lsn_of log.now) space.entry.edits) }
    ensures next { IfOk result (AreNext (pages_of log.now) (last_lsn_of log.now + 1)) }
    ensures stands { (tables : std.List TableDef) (rows : Rows) → Stands (meant source_pages space.entry) tables rows →
        IfOk result (λ records. Stands (replayed (pages_of log.now) records) tables rows) }
    ensures alike { IfOk result (λ records. AreAlike (meant source_pages space.entry) (replayed (pages_of log.now) records)) }
{
    let mut space = space;
    let count = match page_count(&mut space) {
        Ok(count) => count,
        Err(fault) => return Err(want(fault)),
    };
    let edits = space.finish();
    if !are_within(&edits, count) {
        return Err(AllocError);
    }
    number(alloc, log, edits)
}

/// The edits as the records behind the last LSN of a log.
#[tactic(auto, using(crate::proofs::RecordLemmas::want_alone))]
fn number(
    alloc: Global,
    log: &PagedLog,
    edits: Vec<(u64, Edit)>,
) -> Result<List<LogRecord>, AllocError>
    ensures made { IfOk result (λ records. records ≡ records_behind (pages_of log.now) (last_lsn_of log.now) edits.items) }
    ensures next { AreFit edits.items (pages_of log.now) → IfOk result (AreNext (pages_of log.now) (last_lsn_of log.now + 1)) }
    ensures stands { (tables : std.List TableDef) (rows : Rows) → Stands (edited_by edits.items (pages_of log.now)) tables rows →
        are_below (count_of (edited_by edits.items (pages_of log.now))) edits.items ≡ true →
        IfOk result (λ records. Stands (replayed (pages_of log.now) records) tables rows) }
    ensures alike { IfOk result (λ records. AreAlike (edited_by edits.items (pages_of log.now)) (replayed (pages_of log.now) records)) }
{
    let mut pages = LogPages::new(alloc, log)?;
    match records_of(alloc, &mut pages, last_lsn(log.entries()), edits) {
        Ok(records) => Ok(records),
        Err(fault) => Err(want(fault)),
    }
}

/// The fault of a source that loses no pages, which is want of memory.
fn want(fault: PageFault) -> AllocError
    requires { IsWant fault }
{
    match fault {
        PageFault::NoMemory => AllocError,
        PageFault::Gone => unreachable!(),
    }
}
