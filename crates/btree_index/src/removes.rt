ghost use Rattle.std.specs.Prelude.{ℕ, ◌≡◌, false, true, List, IfOk, None, OnErr, OnOk, is_some};
ghost use Rattle.page_store.specs.Sources.{IsExcused};
ghost use Rattle.page_workspace.specs.Drafts.{meant, IsEditExcused, IsNotUnfit};
ghost use Rattle.btree_index.specs.Keys.{Key};
ghost use Rattle.btree_index.specs.Pairs.{value_at, without_key};
ghost use Rattle.btree_index.specs.Trees.{TreeList};
ghost use Rattle.btree_index.specs.Changes.{TreeStands, Becomes};
ghost use Rattle.btree_index.specs.Filled.{KeepsFilled};
ghost use Rattle.btree_index.specs.Prunes.{FreesEmptied, IsTaken};

use crate::frees::free_empty_leaf;
use crate::paths::{key_place, way_for};
use page_store::{Cell, Edit, PageFault, PageSource};
use page_workspace::{EditFault, Workspace};
use std::alloc::Global;

/// Takes the pair of a key out of the tree below a root, and tells whether it was there. A leaf that becomes empty
/// stays. `Gone` comes only where the source lost its pages; the other error is want of memory, where a tree stands at
/// the root. After an error, and where the key was not there, the workspace's edits are as before.
pub fn remove<P: PageSource>(
    alloc: Global,
    space: &mut Workspace<P>,
    root: u64,
    key: &[u8],
) -> Result<bool, PageFault>
    ensures removed { (own free : List ℕ) (list : List (Key × List ℕ)) → TreeStands (meant P.pages space.old) root own free list →
        IfOk result (λ was. (was ≡ is_some (value_at key.now list))
        × Becomes (meant P.pages space.old) (meant P.pages space.new) root own free (without_key key.now list)) }
    ensures absent { IfOk result (λ was. was ≡ false → space.new.edits ≡ space.old.edits) }
    ensures unchanged { OnErr result (space.new.edits ≡ space.old.edits) }
    ensures base { P.pages space.new.base ≡ P.pages space.old.base }
    ensures excused { IsExcused result (P.losses space.old.base) (P.losses space.new.base) }
{
    match take_key(alloc, space, root, key) {
        Ok(taken) => Ok(taken.is_some()),
        Err(EditFault::Gone) => Err(PageFault::Gone),
        // an edit does not fit only where the pages hold no tree; then nothing is promised
        Err(EditFault::NoMemory | EditFault::Unfit) => Err(PageFault::NoMemory),
    }
}

/// The same, and where the leaf that had the key becomes empty and is no root, it is freed, together with the pages above
/// it that have no other child. `Gone` comes only where the source lost its pages; the other error is want of memory, where
/// a tree stands at the root. After an error the workspace may only be dropped.
pub fn remove_and_free<P: PageSource>(
    alloc: Global,
    space: &mut Workspace<P>,
    root: u64,
    key: &[u8],
) -> Result<bool, PageFault>
    ensures removed { (own free : List ℕ) (list : List (Key × List ℕ)) → TreeStands (meant P.pages space.old) root own free list →
        IfOk result (λ was. (was ≡ is_some (value_at key.now list))
        × Becomes (meant P.pages space.old) (meant P.pages space.new) root own free (without_key key.now list)) }
    ensures gone { (own free : List ℕ) (list : List (Key × List ℕ)) → TreeStands (meant P.pages space.old) root own free list →
        IfOk result (λ was. was ≡ true → FreesEmptied (meant P.pages space.old) (meant P.pages space.new) root key.now) }
    ensures filled { (own free : List ℕ) (list : List (Key × List ℕ)) → TreeStands (meant P.pages space.old) root own free list →
        OnOk result (KeepsFilled (meant P.pages space.old) (meant P.pages space.new) root) }
    ensures absent { IfOk result (λ was. was ≡ false → space.new.edits ≡ space.old.edits) }
    ensures base { P.pages space.new.base ≡ P.pages space.old.base }
    ensures excused { IsExcused result (P.losses space.old.base) (P.losses space.new.base) }
{
    match take_and_free(alloc, space, root, key) {
        Ok(was) => Ok(was),
        Err(EditFault::Gone) => Err(PageFault::Gone),
        // an edit does not fit only where the pages hold no tree; then nothing is promised
        Err(EditFault::NoMemory | EditFault::Unfit) => Err(PageFault::NoMemory),
    }
}

/// The same, with the faults of an edit. `Unfit` comes only where the pages hold no tree.
fn take_and_free<P: PageSource>(
    alloc: Global,
    space: &mut Workspace<P>,
    root: u64,
    key: &[u8],
) -> Result<bool, EditFault>
    ensures removed { (own free : List ℕ) (list : List (Key × List ℕ)) → TreeStands (meant P.pages space.old) root own free list →
        IfOk result (λ was. (was ≡ is_some (value_at key.now list))
        × Becomes (meant P.pages space.old) (meant P.pages space.new) root own free (without_key key.now list)) }
    ensures gone { (own free : List ℕ) (list : List (Key × List ℕ)) → TreeStands (meant P.pages space.old) root own free list →
        IfOk result (λ was. was ≡ true → FreesEmptied (meant P.pages space.old) (meant P.pages space.new) root key.now) }
    ensures filled { (own free : List ℕ) (list : List (Key × List ℕ)) → TreeStands (meant P.pages space.old) root own free list →
        OnOk result (KeepsFilled (meant P.pages space.old) (meant P.pages space.new) root) }
    ensures absent { IfOk result (λ was. was ≡ false → space.new.edits ≡ space.old.edits) }
    ensures fit { (own free : List ℕ) (list : List (Key × List ℕ)) →
        TreeStands (meant P.pages space.old) root own free list → IsNotUnfit result }
    ensures base { P.pages space.new.base ≡ P.pages space.old.base }
    ensures excused { IsEditExcused result (P.losses space.old.base) (P.losses space.new.base) }
{
    let taken = take_key(alloc, space, root, key)?;
    let Some(count) = taken else {
        return Ok(false);
    };
    if count != 1 {
        return Ok(true);
    }
    free_empty_leaf(alloc, space, root, key)?;
    Ok(true)
}

/// Takes the pair of a key out of its leaf, and tells how many cells that had; `None` where the key was not there.
/// `Unfit` comes only where the pages hold no tree.
fn take_key<P: PageSource>(
    alloc: Global,
    space: &mut Workspace<P>,
    root: u64,
    key: &[u8],
) -> Result<Option<u16>, EditFault>
    ensures removed { (own free : List ℕ) (list : List (Key × List ℕ)) → TreeStands (meant P.pages space.old) root own free list →
        IfOk result (λ taken. (is_some taken ≡ is_some (value_at key.now list))
        × Becomes (meant P.pages space.old) (meant P.pages space.new) root own free (without_key key.now list)) }
    ensures fit { (list : List (Key × List ℕ)) → TreeList (meant P.pages space.old) root list → IsNotUnfit result }
    ensures taken { IfOk result (IsTaken (meant P.pages space.old) (meant P.pages space.new) root key.now) }
    ensures absent { IfOk result (λ taken. taken ≡ None → space.new.edits ≡ space.old.edits) }
    ensures unchanged { OnErr result (space.new.edits ≡ space.old.edits) }
    ensures base { P.pages space.new.base ≡ P.pages space.old.base }
    ensures excused { IsEditExcused result (P.losses space.old.base) (P.losses space.new.base) }
{
    let way = way_for(space, root, key)?;
    let page = space.page();
    let count = page.count();
    // the cells that are left fit, since all of them do
    let _space = page.space();
    let Some(at) = key_place(page, key) else {
        return Ok(None);
    };
    let Some(found) = page.cell(at) else {
        return Err(EditFault::Unfit);
    };
    let cell = Cell::from_slice(alloc, found).map_err(|_| EditFault::NoMemory)?;
    space.edit(way.leaf, Edit::TakeCell { at, cell })?;
    Ok(Some(count))
}
