//! All that goes is taken out of a tree.
ghost use Rattle.std.specs.Prelude.{ℕ, ◌≡◌, ◌∷◌, [], List as Many, OnOk, length};
ghost use Rattle.std.specs.Option.{option_copied};
ghost use Rattle.page_store.specs.Sources.{IsExcused};
ghost use Rattle.page_workspace.specs.Drafts.{meant};
ghost use Rattle.btree_index.specs.Changes.{TreeStands, Becomes};
ghost use Rattle.btree_index.specs.Filled.{KeepsFilled};
ghost use Rattle.cdb_values.specs.Rows.{version};
ghost use Rattle.table_store.specs.Forests.{Pair};
ghost use Rattle.table_store.specs.Operations.{gone, removed};
ghost use Rattle.table_changes.specs.Changed.{born_if, gone_by};
ghost use Rattle.table_changes.specs.Freed.{TakesPairs};

use btree_index::remove_and_free;
use cdb_values::{KeyDef, Row, RowOp, RowRef};
use page_store::{PageFault, PageSource};
use page_workspace::Workspace;
use std::alloc::Global;
use table_store::key_for;

/// Takes what a tree has of all versions that operations take from its table out of it.
pub(crate) fn take_all<P: PageSource>(
    alloc: Global,
    space: &mut Workspace<P>,
    root: u64,
    key: Option<&KeyDef>,
    table: u16,
    ops: &[RowOp],
) -> Result<(), PageFault>
    ensures taken { (own free : Many ℕ) (list : Many Pair) → TreeStands (meant P.pages space.old) root own free list →
        OnOk result (Becomes (meant P.pages space.old) (meant P.pages space.new) root own free
        (removed (option_copied key.entry) (gone table ops.now) list)) }
    ensures freed { OnOk result (TakesPairs (meant P.pages space.old) (meant P.pages space.new) root
        (option_copied key.entry) (gone table ops.now)) }
    ensures filled { (own free : Many ℕ) (list : Many Pair) → TreeStands (meant P.pages space.old) root own free list →
        OnOk result (KeepsFilled (meant P.pages space.old) (meant P.pages space.new) root) }
    ensures base { P.pages space.new.base ≡ P.pages space.old.base }
    ensures excused { IsExcused result (P.losses space.old.base) (P.losses space.new.base) }
{
    let mut rest = ops;
    'ops: while let Some((op, others)) = rest.split_first() {
        take_one(alloc, space, root, key, table, op)?;
        rest = others;
    }
    Ok(())
}

/// Takes what a tree has of the version that an operation takes away, if it takes one from its table.
#[tactic(auto, using(crate::proofs::ChangedLemmas::gone_update, crate::proofs::ChangedLemmas::gone_delete))]
fn take_one<P: PageSource>(
    alloc: Global,
    space: &mut Workspace<P>,
    root: u64,
    key: Option<&KeyDef>,
    table: u16,
    op: &RowOp,
) -> Result<(), PageFault>
    ensures taken { (own free : Many ℕ) (list : Many Pair) → TreeStands (meant P.pages space.old) root own free list →
        OnOk result (Becomes (meant P.pages space.old) (meant P.pages space.new) root own free
        (removed (option_copied key.entry) (gone table (op.now ∷ [])) list)) }
    ensures freed { OnOk result (TakesPairs (meant P.pages space.old) (meant P.pages space.new) root
        (option_copied key.entry) (gone table (op.now ∷ []))) }
    ensures filled { (own free : Many ℕ) (list : Many Pair) → TreeStands (meant P.pages space.old) root own free list →
        OnOk result (KeepsFilled (meant P.pages space.old) (meant P.pages space.new) root) }
    ensures base { P.pages space.new.base ≡ P.pages space.old.base }
    ensures excused { IsExcused result (P.losses space.old.base) (P.losses space.new.base) }
{
    match op {
        RowOp::Insert { .. } => Ok(()),
        RowOp::Update {
            table: place,
            target,
            old,
            ..
        } => take_old(alloc, space, root, key, *place == table, target, old),
        RowOp::Delete {
            table: place,
            target,
            old,
        } => take_old(alloc, space, root, key, *place == table, target, old),
    }
}

/// Takes what a tree has of the version of a target, where this is of its table.
fn take_old<P: PageSource>(
    alloc: Global,
    space: &mut Workspace<P>,
    root: u64,
    key: Option<&KeyDef>,
    is_here: bool,
    target: &RowRef,
    old: &Row,
) -> Result<(), PageFault>
    ensures taken { (own free : Many ℕ) (list : Many Pair) → TreeStands (meant P.pages space.old) root own free list →
        OnOk result (Becomes (meant P.pages space.old) (meant P.pages space.new) root own free
        (removed (option_copied key.entry) (gone_by is_here target.now old.now) list)) }
    ensures freed { OnOk result (TakesPairs (meant P.pages space.old) (meant P.pages space.new) root
        (option_copied key.entry) (gone_by is_here target.now old.now)) }
    ensures filled { (own free : Many ℕ) (list : Many Pair) → TreeStands (meant P.pages space.old) root own free list →
        OnOk result (KeepsFilled (meant P.pages space.old) (meant P.pages space.new) root) }
    ensures base { P.pages space.new.base ≡ P.pages space.old.base }
    ensures excused { IsExcused result (P.losses space.old.base) (P.losses space.new.base) }
{
    match target {
        RowRef::Base(genid) => take_here(alloc, space, root, key, is_here, *genid, old),
        RowRef::Own(_) => Ok(()),
    }
}

/// Takes what a tree has of a version, where this is of its table.
fn take_here<P: PageSource>(
    alloc: Global,
    space: &mut Workspace<P>,
    root: u64,
    key: Option<&KeyDef>,
    is_here: bool,
    genid: u64,
    row: &Row,
) -> Result<(), PageFault>
    ensures taken { (own free : Many ℕ) (list : Many Pair) → TreeStands (meant P.pages space.old) root own free list →
        OnOk result (Becomes (meant P.pages space.old) (meant P.pages space.new) root own free
        (removed (option_copied key.entry) (born_if is_here genid row.now) list)) }
    ensures freed { OnOk result (TakesPairs (meant P.pages space.old) (meant P.pages space.new) root
        (option_copied key.entry) (born_if is_here genid row.now)) }
    ensures filled { (own free : Many ℕ) (list : Many Pair) → TreeStands (meant P.pages space.old) root own free list →
        OnOk result (KeepsFilled (meant P.pages space.old) (meant P.pages space.new) root) }
    ensures base { P.pages space.new.base ≡ P.pages space.old.base }
    ensures excused { IsExcused result (P.losses space.old.base) (P.losses space.new.base) }
{
    if is_here {
        take_version(alloc, space, root, key, genid, row)
    } else {
        Ok(())
    }
}

/// Takes what a tree has of a version.
fn take_version<P: PageSource>(
    alloc: Global,
    space: &mut Workspace<P>,
    root: u64,
    key: Option<&KeyDef>,
    genid: u64,
    row: &Row,
) -> Result<(), PageFault>
    ensures taken { (own free : Many ℕ) (list : Many Pair) → TreeStands (meant P.pages space.old) root own free list →
        OnOk result (Becomes (meant P.pages space.old) (meant P.pages space.new) root own free
        (removed (option_copied key.entry) (version genid row.now ∷ []) list)) }
    ensures freed { OnOk result (TakesPairs (meant P.pages space.old) (meant P.pages space.new) root
        (option_copied key.entry) (version genid row.now ∷ [])) }
    ensures filled { (own free : Many ℕ) (list : Many Pair) → TreeStands (meant P.pages space.old) root own free list →
        OnOk result (KeepsFilled (meant P.pages space.old) (meant P.pages space.new) root) }
    ensures base { P.pages space.new.base ≡ P.pages space.old.base }
    ensures excused { IsExcused result (P.losses space.old.base) (P.losses space.new.base) }
{
    let key = key_for(alloc, key, genid, row).map_err(|_| PageFault::NoMemory)?;
    let _was = remove_and_free(alloc, space, root, key.as_bytes())?;
    Ok(())
}
