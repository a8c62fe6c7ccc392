//! Operations become edits.
ghost use Rattle.std.specs.Prelude.{◌≡◌, IfOk, OnOk, None};
ghost use Rattle.std.specs.List.{AllByRecursion};
ghost use Rattle.page_workspace.specs.Drafts.{meant, edited_by, AreFit};
ghost use Rattle.page_workspace.specs.Spare.{next_genid};
ghost use Rattle.cdb_values.specs.Rows.{Rows, apply_all};
ghost use Rattle.table_store.specs.Stored.{Stands};
ghost use Rattle.table_edits.specs.Answers.{Tells, TellsBroken, AreOpsExcused, AreWithin};
ghost use Rattle.table_edits.specs.Broken.{broken_place};
ghost use Rattle.table_edits.specs.Fits.{WritesFitting, AreAllDoable};
ghost use Rattle.table_edits.specs.Freed.{FreesLeaves};
ghost use Rattle.table_edits.specs.Genids.{SetsGenid};
ghost use Rattle.table_edits.specs.Kept.{Leaves};

use crate::faults::OpsFault;
use crate::genids::{next_behind, read_next, set_genid};
use crate::trees::change_tables;
use cdb_values::{RowOp, Schema};
use page_store::{Edit, PageFault, PageSource};
use page_workspace::Workspace;
use std::alloc::Global;

/// The edits, each with the number of its page, that the operations of a transaction come to over pages that stand for a
/// state of a schema: made in order, they leave pages that stand for the state after the operations. The new rows have
/// codes of at most 1,600 bytes, and of at most 512 bytes at each key of their table.
///
/// `Duplicate` comes exactly where the state after the last operation breaks a key, and tells the first such key in the
/// order of the tables and then of their keys. `Gone` comes only where the source lost its pages; `NoMemory` is want of
/// memory, and comes where the next genid would not be below 2^62, too. Over pages that stand for no state, and for
/// operations that cannot be done there, nothing but the fit of the edits is promised.
pub fn ops_to_edits<P: PageSource + Drop>(
    alloc: Global,
    pages: P,
    schema: &Schema,
    ops: &[RowOp],
) -> Result<Vec<(u64, Edit)>, OpsFault>
    requires fit { AllByRecursion (WritesFitting schema.now) ops.now }
    ensures fit { IfOk result (λ edits. AreFit edits.items (P.pages pages)) }
    ensures stands { (rows : Rows) → Stands (P.pages pages) schema.now rows → AreAllDoable rows ops.now →
        IfOk result (λ edits. Stands (edited_by edits.items (P.pages pages)) schema.now (apply_all rows ops.now)) }
    ensures duplicate { (rows : Rows) → Stands (P.pages pages) schema.now rows → AreAllDoable rows ops.now →
        TellsBroken result (broken_place (apply_all rows ops.now) 0 schema.now) }
    ensures within { (rows : Rows) → Stands (P.pages pages) schema.now rows → AreAllDoable rows ops.now →
        IfOk result (λ edits. AreWithin (P.pages pages) (edited_by edits.items (P.pages pages))) }
    ensures kept { (rows : Rows) → (stands : Stands (P.pages pages) schema.now rows) → AreAllDoable rows ops.now →
        IfOk result (λ edits. Leaves (P.pages pages) (edited_by edits.items (P.pages pages))
        schema.now rows ops.now stands) }
    ensures freed { (rows : Rows) → Stands (P.pages pages) schema.now rows → AreAllDoable rows ops.now →
        IfOk result (λ edits. FreesLeaves (P.pages pages) (edited_by edits.items (P.pages pages)) schema.now ops.now) }
    ensures excused { (later : P) × (P.pages later ≡ P.pages pages) × AreOpsExcused result (P.losses pages) (P.losses later) }
{
    let mut space = Workspace::new(alloc, pages);
    match change_rows(alloc, &mut space, schema, ops) {
        Ok(()) => Ok(space.finish()),
        Err(fault) => Err(fault),
    }
}

/// Does the operations of a transaction on the pages of a workspace, as `ops_to_edits` does; here the source stays with the
/// caller. After a fault the workspace may only be dropped.
pub fn change_rows<P: PageSource>(
    alloc: Global,
    space: &mut Workspace<P>,
    schema: &Schema,
    ops: &[RowOp],
) -> Result<(), OpsFault>
    requires fit { AllByRecursion (WritesFitting schema.now) ops.now }
    ensures stands { (rows : Rows) → Stands (meant P.pages space.old) schema.now rows → AreAllDoable rows ops.now →
        OnOk result (Stands (meant P.pages space.new) schema.now (apply_all rows ops.now)) }
    ensures duplicate { (rows : Rows) → Stands (meant P.pages space.old) schema.now rows → AreAllDoable rows ops.now →
        TellsBroken result (broken_place (apply_all rows ops.now) 0 schema.now) }
    ensures within { (rows : Rows) → Stands (meant P.pages space.old) schema.now rows → AreAllDoable rows ops.now →
        OnOk result (AreWithin (meant P.pages space.old) (meant P.pages space.new)) }
    ensures kept { (rows : Rows) → (stands : Stands (meant P.pages space.old) schema.now rows) →
        AreAllDoable rows ops.now →
        OnOk result (Leaves (meant P.pages space.old) (meant P.pages space.new) schema.now rows ops.now stands) }
    ensures freed { (rows : Rows) → Stands (meant P.pages space.old) schema.now rows → AreAllDoable rows ops.now →
        OnOk result (FreesLeaves (meant P.pages space.old) (meant P.pages space.new) schema.now ops.now) }
    ensures base { P.pages space.new.base ≡ P.pages space.old.base }
    ensures excused { AreOpsExcused result (P.losses space.old.base) (P.losses space.new.base) }
{
    match read_next(space) {
        Ok(next) => change_from(alloc, space, schema, next, ops),
        Err(PageFault::Gone) => Err(OpsFault::Gone),
        Err(PageFault::NoMemory) => Err(OpsFault::NoMemory),
    }
}

/// The same, from the next genid that the meta page tells.
fn change_from<P: PageSource>(
    alloc: Global,
    space: &mut Workspace<P>,
    schema: &Schema,
    next: u64,
    ops: &[RowOp],
) -> Result<(), OpsFault>
    requires fit { AllByRecursion (WritesFitting schema.now) ops.now }
    requires next { next ≡ next_genid (meant P.pages space.old) }
    ensures done { (rows : Rows) → (stands : Stands (meant P.pages space.old) schema.now rows) →
        AreAllDoable rows ops.now →
        Tells result (λ _. Leaves (meant P.pages space.old) (meant P.pages space.new) schema.now rows ops.now stands
        × FreesLeaves (meant P.pages space.old) (meant P.pages space.new) schema.now ops.now)
        (broken_place (apply_all rows ops.now) 0 schema.now) }
    ensures base { P.pages space.new.base ≡ P.pages space.old.base }
    ensures excused { AreOpsExcused result (P.losses space.old.base) (P.losses space.new.base) }
{
    let Some(last) = next_behind(next, ops) else {
        return Err(OpsFault::NoMemory);
    };
    match change_tables(alloc, space, schema, next, ops) {
        Ok(()) => tell_genid(alloc, space, last),
        Err(fault) => Err(fault),
    }
}

/// Tells the meta page the next genid.
fn tell_genid<P: PageSource>(
    alloc: Global,
    space: &mut Workspace<P>,
    genid: u64,
) -> Result<(), OpsFault>
    ensures set { Tells result (λ _. SetsGenid (meant P.pages space.old) (meant P.pages space.new) genid) None }
    ensures base { P.pages space.new.base ≡ P.pages space.old.base }
    ensures excused { AreOpsExcused result (P.losses space.old.base) (P.losses space.new.base) }
{
    match set_genid(alloc, space, genid) {
        Ok(()) => Ok(()),
        Err(PageFault::Gone) => Err(OpsFault::Gone),
        Err(PageFault::NoMemory) => Err(OpsFault::NoMemory),
    }
}
