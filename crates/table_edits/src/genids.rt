//! The next genid: read from the meta page, raised by operations, and written to the meta page.
ghost use Rattle.std.specs.Prelude.{ℕ, ◌≡◌, ◌+◌, ◌<◌, ◌^◌, IfOk, IfSome, IsSome, OnOk, length};
ghost use Rattle.page_store.specs.Sources.{IsExcused};
ghost use Rattle.page_workspace.specs.Drafts.{meant, IsEditExcused};
ghost use Rattle.page_workspace.specs.Spare.{next_genid};
ghost use Rattle.table_changes.specs.Changed.{next_of, next_by};
ghost use Rattle.table_edits.specs.Genids.{next_after, SetsGenid};

use cdb_values::limits::GENID_LIMIT;
use cdb_values::{RowOp, RowRef};
use page_store::{PageFault, PageSource};
use page_workspace::{EditFault, Meta, Workspace};
use std::alloc::Global;

/// The next genid, as the meta page tells it. Where page 0 is no meta page the answer may be want of memory.
pub(crate) fn read_next<P: PageSource>(space: &mut Workspace<P>) -> Result<u64, PageFault>
    ensures next { IfOk result (λ next. next ≡ next_genid (meant P.pages space.old)) }
    ensures pages { meant P.pages space.new ≡ meant P.pages space.old }
    ensures base { P.pages space.new.base ≡ P.pages space.old.base }
    ensures excused { IsExcused result (P.losses space.old.base) (P.losses space.new.base) }
{
    match space.meta() {
        Ok(meta) => Ok(meta.next),
        Err(EditFault::Gone) => Err(PageFault::Gone),
        Err(EditFault::NoMemory | EditFault::Unfit) => Err(PageFault::NoMemory),
    }
}

/// The next genid behind operations, where it is one, and there is room for as many genids as operations.
pub(crate) fn next_behind(next: u64, ops: &[RowOp]) -> Option<u64>
    ensures last { IfSome result (λ last. last ≡ next_after next ops.now) }
    ensures below { IfSome result (λ last. last < 2 ^ 62) }
    ensures few { IsSome result → next + length ops.now < 2 ^ 64 }
{
    if next >= GENID_LIMIT || ops.len() as u64 >= GENID_LIMIT {
        return None;
    }
    let mut last = next;
    let mut rest = ops;
    'ops: while let Some((op, others)) = rest.split_first() {
        last = raised(last, op);
        rest = others;
    }
    if last < GENID_LIMIT { Some(last) } else { None }
}

/// The next genid behind one operation.
fn raised(next: u64, op: &RowOp) -> u64
    requires { next + 1 < 2 ^ 64 }
    ensures { result ≡ next_of next op.now }
{
    match op {
        RowOp::Insert { .. } => next + 1,
        RowOp::Update { target, .. } => raised_by(next, target),
        RowOp::Delete { .. } => next,
    }
}

/// The next genid behind an update of a target.
fn raised_by(next: u64, target: &RowRef) -> u64
    requires { next + 1 < 2 ^ 64 }
    ensures { result ≡ next_by next target.now }
{
    match target {
        RowRef::Base(_) => next + 1,
        RowRef::Own(_) => next,
    }
}

/// Tells the meta page the next genid. Where page 0 is no meta page the answer is want of memory.
pub(crate) fn set_genid<P: PageSource>(
    alloc: Global,
    space: &mut Workspace<P>,
    genid: u64,
) -> Result<(), PageFault>
    ensures set { OnOk result (SetsGenid (meant P.pages space.old) (meant P.pages space.new) genid) }
    ensures base { P.pages space.new.base ≡ P.pages space.old.base }
    ensures excused { IsExcused result (P.losses space.old.base) (P.losses space.new.base) }
{
    match swap_genid(alloc, space, genid) {
        Ok(()) => Ok(()),
        Err(EditFault::Gone) => Err(PageFault::Gone),
        Err(EditFault::NoMemory) => Err(PageFault::NoMemory),
        // an edit does not fit only where page 0 is no meta page; nothing is promised there
        Err(EditFault::Unfit) => Err(PageFault::NoMemory),
    }
}

/// The same, with the faults of an edit.
fn swap_genid<P: PageSource>(
    alloc: Global,
    space: &mut Workspace<P>,
    genid: u64,
) -> Result<(), EditFault>
    ensures set { OnOk result (SetsGenid (meant P.pages space.old) (meant P.pages space.new) genid) }
    ensures base { P.pages space.new.base ≡ P.pages space.old.base }
    ensures excused { IsEditExcused result (P.losses space.old.base) (P.losses space.new.base) }
{
    let meta = space.meta()?;
    let told = Meta {
        next: genid,
        ..meta
    };
    space.set_meta(alloc, told)
}
