//! The first entry of a log.
ghost use Rattle.std.specs.Prelude.{◌≡◌, ◌+◌, ◌<◌, ◌^◌, ◌++◌, ◌∷◌, [], IfOk, OnOk};
ghost use Rattle.page_workspace.specs.Drafts.{meant, edited, AreFit};
ghost use Rattle.page_workspace.specs.Spare.{count_of};
ghost use Rattle.page_store.specs.Edits.{IsFit};
ghost use Rattle.phys_log.specs.Logs.{pages_of, blank_pages, replayed, AreNext, Fits};
ghost use Rattle.cdb_values.specs.Rows.{no_rows};
ghost use Rattle.table_store.specs.Stored.{Stands};
ghost use Rattle.log_rows.specs.Setups.{IsSetup};
ghost use Rattle.log_rows.specs.Sizes.{IsSmall};
ghost use Rattle.log_rows.specs.Sources.{source_pages};

use crate::records::entry_records;
use cdb_values::{List, Schema};
use log_replay::{LogPages, PagedLog};
use page_store::Edit;
use page_workspace::{EditFault, Workspace};
use phys_log::{Entry, LogRecord};
use std::alloc::{AllocError, Global};
use std::collections::VecDeque;
use table_store::create_edits;

/// The first entry of a log, which sets up a schema in a generation: its records make pages that stand for the schema's
/// tables without rows, and there are fewer than 2^62 of them.
///
/// Answers `AllocError` for want of memory, and where the schema has 2^62 trees or more.
pub fn setup_entry(alloc: Global, schema: &Schema, generation: u64) -> Result<Entry, AllocError>
    ensures made { IfOk result (IsSetup generation schema.now) }
    ensures fits { IfOk result (Fits []) }
    ensures stands { IfOk result (λ entry. Stands (pages_of (entry ∷ [])) schema.now (no_rows schema.now)) }
    ensures small { IfOk result (λ entry. IsSmall (entry ∷ [])) }
{
    let records = setup_records(alloc, schema)?;
    Ok(Entry::Setup {
        generation,
        schema: copy_schema(schema)?,
        records,
    })
}

/// An equal schema.
fn copy_schema(schema: &Schema) -> Result<Schema, AllocError>
    ensures { IfOk result (λ copy. copy ≡ schema.now) }
{
    schema.clone()
}

/// The records that make of pages that were never written those of a schema's tables without rows.
fn setup_records(alloc: Global, schema: &Schema) -> Result<List<LogRecord>, AllocError>
    ensures next { IfOk result (AreNext blank_pages 1) }
    ensures stands { IfOk result (λ records. Stands (replayed blank_pages records) schema.now (no_rows schema.now)) }
    ensures few { IfOk result (λ records. count_of (replayed blank_pages records) < 2 ^ 62) }
{
    let log = PagedLog::new(alloc);
    let mut space = Workspace::new(alloc, LogPages::new(alloc, &log)?);
    make_all(&mut space, create_edits(alloc, schema)?)?;
    entry_records(alloc, &log, space)
}

/// Makes edits in order on a workspace over the pages of a log.
fn make_all<'a>(
    space: &mut Workspace<LogPages<'a>>,
    edits: Vec<(u64, Edit)>,
) -> Result<(), AllocError>
    requires fit { AreFit edits.items (meant source_pages space.old) }
    ensures made { OnOk result (space.new.edits ≡ space.old.edits ++ edits.items) }
    ensures base { source_pages space.new.base ≡ source_pages space.old.base }
{
    let mut left = VecDeque::from(edits);
    'making: while let Some((page, edit)) = left.pop_front() {
        make_one(space, page, edit)?;
    }
    Ok(())
}

/// Makes an edit on a workspace over the pages of a log.
fn make_one<'a>(
    space: &mut Workspace<LogPages<'a>>,
    page: u64,
    edit: Edit,
) -> Result<(), AllocError>
    requires fit { IsFit (meant source_pages space.old page) edit }
    ensures made { OnOk result (space.new.edits ≡ space.old.edits ++ (page, edit) ∷ []) }
    ensures pages { OnOk result (meant source_pages space.new ≡ edited (meant source_pages space.old) page edit) }
    ensures base { source_pages space.new.base ≡ source_pages space.old.base }
{
    match space.edit(page, edit) {
        Ok(()) => Ok(()),
        Err(EditFault::NoMemory) => Err(AllocError),
        Err(EditFault::Unfit) | Err(EditFault::Gone) => unreachable!(),
    }
}
