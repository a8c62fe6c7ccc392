//! Operations are done on one tree.
ghost use Rattle.std.specs.Prelude.{ℕ, ◌≡◌, ◌+◌, ◌<◌, ◌^◌, List as Many, OnOk, length};
ghost use Rattle.std.specs.List.{AllByRecursion};
ghost use Rattle.std.specs.Option.{option_copied};
ghost use Rattle.page_workspace.specs.Drafts.{meant};
ghost use Rattle.btree_index.specs.Changes.{TreeStands, IsExcusedInsert};
ghost use Rattle.btree_index.specs.Filled.{KeepsFilled};
ghost use Rattle.table_store.specs.Forests.{Pair};
ghost use Rattle.table_store.specs.Operations.{born, gone, put_all as put_all_of, removed};
ghost use Rattle.table_changes.specs.Changed.{IsPut, IsPuttable};
ghost use Rattle.table_changes.specs.Freed.{TakesThenPuts};

use crate::puts::put_all;
use crate::takes::take_all;
use btree_index::InsertFault;
use cdb_values::{KeyDef, RowOp};
use page_store::{PageFault, PageSource};
use page_workspace::Workspace;
use std::alloc::Global;

/// Does the operations of a transaction on one tree of a table: that of a key, or that of the rows where no key is given.
///
/// `root` is the tree's root, `table` the table's place in the schema, and `next` the next genid before the operations,
/// which count on from there whatever tables they write to.
///
/// A leaf that becomes empty by what goes is freed, unless it is the root. So no leaf but the root is empty afterwards that
/// was not empty before.
///
/// `Duplicate` comes exactly where a pair that comes finds its key there, when all that goes is out. `Gone` comes only
/// where the source lost its pages; `NoMemory` is want of memory. After a fault the workspace may only be dropped.
pub fn change_tree<P: PageSource>(
    alloc: Global,
    space: &mut Workspace<P>,
    root: u64,
    key: Option<&KeyDef>,
    table: u16,
    next: u64,
    ops: &[RowOp],
) -> Result<(), InsertFault>
    requires few { next + length ops.now < 2 ^ 64 }
    requires fit { AllByRecursion (IsPuttable (option_copied key)) (born table next ops.now) }
    ensures changed { (own free : Many ℕ) (list : Many Pair) → TreeStands (meant P.pages space.old) root own free list →
        IsPut (meant P.pages space.old) (meant P.pages space.new) root own free
        (put_all_of (option_copied key.entry) (born table next ops.now) (removed (option_copied key.entry) (gone table ops.now) list)) result }
    ensures freed { OnOk result (TakesThenPuts (meant P.pages space.old) (meant P.pages space.new) root
        (option_copied key.entry) (gone table ops.now) (born table next ops.now)) }
    ensures filled { (own free : Many ℕ) (list : Many Pair) → TreeStands (meant P.pages space.old) root own free list →
        OnOk result (KeepsFilled (meant P.pages space.old) (meant P.pages space.new) root) }
    ensures base { P.pages space.new.base ≡ P.pages space.old.base }
    ensures excused { IsExcusedInsert result (P.losses space.old.base) (P.losses space.new.base) }
{
    match take_all(alloc, space, root, key, table, ops) {
        Ok(()) => put_all(alloc, space, root, key, table, next, ops),
        Err(PageFault::Gone) => Err(InsertFault::Gone),
        Err(PageFault::NoMemory) => Err(InsertFault::NoMemory),
    }
}
