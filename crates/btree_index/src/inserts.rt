ghost use Rattle.std.specs.Prelude.{ℕ, ◌≡◌, ◌↔◌, ◌+◌, ◌≤◌, false, true, List, None, IfOk, IsErrOf, IsTrue, OnOk, length};
ghost use Rattle.page_workspace.specs.Drafts.{meant, IsEditExcused, IsNotUnfit};
ghost use Rattle.std.specs.List.{insert};
ghost use Rattle.page_store.specs.Image.{HasRoom, room, taken};
ghost use Rattle.btree_index.specs.Keys.{Key};
ghost use Rattle.btree_index.specs.Cells.{leaf_cell};
ghost use Rattle.btree_index.specs.Steps.{Alters};
ghost use Rattle.btree_index.specs.Pairs.{place_in, value_at, with_pair};
ghost use Rattle.btree_index.specs.Filled.{IsEmptyLeaf, KeepsFilled};
ghost use Rattle.btree_index.specs.Fits.{IsFullUnder};
ghost use Rattle.btree_index.specs.Trees.{Ascends, TreeList};
ghost use Rattle.btree_index.specs.Changes.{TreeStands, Becomes, LeadsOver, IsHeld, IsInserted, IsPlace, IsPutAbsent, IsWay, IsPassed, IsExcusedInsert};

use crate::cells::make_leaf_cell;
use crate::paths::{Way, key_place, way_for};
use crate::places::count_before;
use crate::splits::{crown, split_below};
use crate::steps::alter;
use page_store::{Edit, Page, PageSource};
use page_workspace::{EditFault, Workspace};
use std::alloc::Global;
use thiserror::Error;

/// Why a pair was not put into a tree.
#[derive(Debug, Drop, Error)]
pub enum InsertFault {
    /// The key is there.
    #[error("the key is there")]
    Duplicate,
    /// The one who gives the pages is gone; the source's count of losses rose.
    #[error("the pages are gone")]
    Gone,
    /// Want of memory.
    #[error("out of memory")]
    NoMemory,
}

/// What one pass of an insert came to.
#[derive(Clone, Copy)]
pub(crate) enum Pass {
    /// The pair was put.
    Done,
    /// A page was halved, or the root raised, so that there is more room.
    Again,
}

/// The bytes that the cell of a pair takes beside the key and the value: its slot, and the length of the key.
const PAIR_SIZE: usize = 6;

/// Puts a pair into the tree below a root. `Duplicate` comes exactly where the key is there, and leaves the workspace's
/// edits as before; over pages where no tree stands it comes only where the way from the root to the key ends at a leaf
/// that has it. `Gone` comes only where the source lost its pages; the other error is want of memory, where a tree
/// stands at the root. After `Gone` or want of memory the workspace may only be dropped.
pub fn insert<P: PageSource>(
    alloc: Global,
    space: &mut Workspace<P>,
    root: u64,
    key: &[u8],
    value: &[u8],
) -> Result<(), InsertFault>
    requires key { length key.now ≤ 1630 }
    requires cell { 2 + length key.now + length value.now ≤ 1640 }
    ensures inserted { (own free : List ℕ) (list : List (Key × List ℕ)) → TreeStands (meant P.pages space.old) root own free list →
        IsInserted (meant P.pages space.old) (meant P.pages space.new) root own free key.now value.now list result }
    ensures filled { (own free : List ℕ) (list : List (Key × List ℕ)) → TreeStands (meant P.pages space.old) root own free list →
        OnOk result (KeepsFilled (meant P.pages space.old) (meant P.pages space.new) root) }
    ensures duplicate { IsErrOf result InsertFault.Duplicate → space.new.edits ≡ space.old.edits }
    ensures held { IsErrOf result InsertFault.Duplicate → IsHeld (meant P.pages space.old) root key.now }
    ensures base { P.pages space.new.base ≡ P.pages space.old.base }
    ensures excused { IsExcusedInsert result (P.losses space.old.base) (P.losses space.new.base) }
{
    match put_absent(alloc, space, root, key, value) {
        Ok(put) => {
            if put {
                Ok(())
            } else {
                Err(InsertFault::Duplicate)
            }
        }
        Err(EditFault::Gone) => Err(InsertFault::Gone),
        Err(EditFault::NoMemory) => Err(InsertFault::NoMemory),
        // an edit does not fit only where the pages hold no tree; nothing is promised there
        Err(EditFault::Unfit) => Err(InsertFault::NoMemory),
    }
}

/// Puts a pair where its key is not there, and tells whether it did, with the faults of an edit. `Unfit` comes only
/// where the pages hold no tree.
fn put_absent<P: PageSource>(
    alloc: Global,
    space: &mut Workspace<P>,
    root: u64,
    key: &[u8],
    value: &[u8],
) -> Result<bool, EditFault>
    requires key { length key.now ≤ 1630 }
    requires cell { 2 + length key.now + length value.now ≤ 1640 }
    ensures put { (own free : List ℕ) (list : List (Key × List ℕ)) →
        TreeStands (meant P.pages space.old) root own free list →
        IfOk result (IsPutAbsent (meant P.pages space.old) (meant P.pages space.new) root own free
        key.now value.now list) }
    ensures filled { (own free : List ℕ) (list : List (Key × List ℕ)) → TreeStands (meant P.pages space.old) root own free list →
        OnOk result (KeepsFilled (meant P.pages space.old) (meant P.pages space.new) root) }
    ensures fit { (own free : List ℕ) (list : List (Key × List ℕ)) →
        TreeStands (meant P.pages space.old) root own free list → IsNotUnfit result }
    ensures there { IfOk result (λ put. put ≡ false → space.new.edits ≡ space.old.edits) }
    ensures held { IfOk result (λ put. put ≡ false → IsHeld (meant P.pages space.old) root key.now) }
    ensures base { P.pages space.new.base ≡ P.pages space.old.base }
    ensures excused { IsEditExcused result (P.losses space.old.base) (P.losses space.new.base) }
{
    let found = way_of_absent(space, root, key)?;
    let Some(way) = found else {
        // no room was made for it
        return Ok(false);
    };
    put_behind(alloc, space, root, way, key, value)?;
    Ok(true)
}

/// The way to the leaf where a key that is not there has its place; `None` where the key is in the tree below the root.
/// `Unfit` comes only where the pages hold no tree.
fn way_of_absent<P: PageSource>(
    space: &mut Workspace<P>,
    root: u64,
    key: &[u8],
) -> Result<Option<Way>, EditFault>
    ensures there { (own free : List ℕ) (list : List (Key × List ℕ)) → TreeStands (meant P.pages space.old) root own free list →
        IfOk result (IsPlace (meant P.pages space.old) root key.now list) }
    ensures held { IfOk result (λ way. way ≡ None → IsHeld (meant P.pages space.old) root key.now) }
    ensures fit { (list : List (Key × List ℕ)) → TreeList (meant P.pages space.old) root list → IsNotUnfit result }
    ensures edits { space.new.edits ≡ space.old.edits }
    ensures pages { meant P.pages space.new ≡ meant P.pages space.old }
    ensures base { P.pages space.new.base ≡ P.pages space.old.base }
    ensures excused { IsEditExcused result (P.losses space.old.base) (P.losses space.new.base) }
{
    let way = way_for(space, root, key)?;
    match key_place(space.page(), key) {
        Some(_) => Ok(None),
        None => Ok(Some(way)),
    }
}

/// Puts a pair whose key is not there behind the way that was found to its leaf; where that has no room, pass after pass.
/// `Unfit` comes only where the pages hold no tree.
fn put_behind<P: PageSource>(
    alloc: Global,
    space: &mut Workspace<P>,
    root: u64,
    way: Way,
    key: &[u8],
    value: &[u8],
) -> Result<(), EditFault>
    requires key { length key.now ≤ 1630 }
    requires cell { 2 + length key.now + length value.now ≤ 1640 }
    ensures put { (own free : List ℕ) (list : List (Key × List ℕ)) → TreeStands (meant P.pages space.old) root own free list →
        value_at key.now list ≡ None → IsWay (meant P.pages space.old) root key.now way →
        OnOk result (Becomes (meant P.pages space.old) (meant P.pages space.new) root own free (with_pair key.now value.now list)) }
    ensures filled { (own free : List ℕ) (list : List (Key × List ℕ)) → TreeStands (meant P.pages space.old) root own free list →
        value_at key.now list ≡ None → IsWay (meant P.pages space.old) root key.now way →
        OnOk result (KeepsFilled (meant P.pages space.old) (meant P.pages space.new) root) }
    ensures fit { (own free : List ℕ) (list : List (Key × List ℕ)) →
        TreeStands (meant P.pages space.old) root own free list → value_at key.now list ≡ None → IsNotUnfit result }
    ensures base { P.pages space.new.base ≡ P.pages space.old.base }
    ensures excused { IsEditExcused result (P.losses space.old.base) (P.losses space.new.base) }
{
    space.load_to_edit(way.leaf)?;
    if has_room(space.page(), key, value) {
        return put_pair(alloc, space, way.leaf, key, value);
    }
    put_new(alloc, space, root, key, value)
}

/// Puts a pair whose key is not there, in as many passes as it needs. `Unfit` comes only where the pages hold no tree.
fn put_new<P: PageSource>(
    alloc: Global,
    space: &mut Workspace<P>,
    root: u64,
    key: &[u8],
    value: &[u8],
) -> Result<(), EditFault>
    requires key { length key.now ≤ 1630 }
    requires cell { 2 + length key.now + length value.now ≤ 1640 }
    ensures put { (own free : List ℕ) (list : List (Key × List ℕ)) → TreeStands (meant P.pages space.old) root own free list →
        value_at key.now list ≡ None →
        OnOk result (Becomes (meant P.pages space.old) (meant P.pages space.new) root own free (with_pair key.now value.now list)) }
    ensures filled { (own free : List ℕ) (list : List (Key × List ℕ)) → TreeStands (meant P.pages space.old) root own free list →
        value_at key.now list ≡ None → OnOk result (KeepsFilled (meant P.pages space.old) (meant P.pages space.new) root) }
    ensures fit { (own free : List ℕ) (list : List (Key × List ℕ)) →
        TreeStands (meant P.pages space.old) root own free list → value_at key.now list ≡ None → IsNotUnfit result }
    ensures base { P.pages space.new.base ≡ P.pages space.old.base }
    ensures excused { IsEditExcused result (P.losses space.old.base) (P.losses space.new.base) }
{
    'passes: for _ in 0..u64::MAX {
        let came_to = pass_once(alloc, space, root, key, value)?;
        match came_to {
            Pass::Done => return Ok(()),
            Pass::Again => {}
        }
    }
    // no tree needs so many passes
    Err(EditFault::NoMemory)
}

/// Goes down to the leaf of a key that is not there once, and puts the pair there or makes room on the way. `Unfit`
/// comes only where the pages hold no tree.
fn pass_once<P: PageSource>(
    alloc: Global,
    space: &mut Workspace<P>,
    root: u64,
    key: &[u8],
    value: &[u8],
) -> Result<Pass, EditFault>
    requires key { length key.now ≤ 1630 }
    requires cell { 2 + length key.now + length value.now ≤ 1640 }
    ensures passed { (own free : List ℕ) (list : List (Key × List ℕ)) → TreeStands (meant P.pages space.old) root own free list →
        value_at key.now list ≡ None → IfOk result (IsPassed (meant P.pages space.old) (meant P.pages space.new) root own free key.now value.now list) }
    ensures filled { (own free : List ℕ) (list : List (Key × List ℕ)) → TreeStands (meant P.pages space.old) root own free list →
        OnOk result (KeepsFilled (meant P.pages space.old) (meant P.pages space.new) root) }
    ensures fit { (own free : List ℕ) (list : List (Key × List ℕ)) →
        TreeStands (meant P.pages space.old) root own free list → IsNotUnfit result }
    ensures base { P.pages space.new.base ≡ P.pages space.old.base }
    ensures excused { IsEditExcused result (P.losses space.old.base) (P.losses space.new.base) }
{
    let way = way_for(space, root, key)?;
    if has_room(space.page(), key, value) {
        put_pair(alloc, space, way.leaf, key, value)?;
        return Ok(Pass::Done);
    }
    make_room(alloc, space, root, way.roomy, key)?;
    Ok(Pass::Again)
}

/// Whether the cell of a pair fits a leaf.
fn has_room(page: &Page, key: &[u8], value: &[u8]) -> bool
    ensures { IsTrue result ↔ (taken page.now.cells + (6 + length key.now + length value.now) ≤ room) }
{
    let size = PAIR_SIZE
        .saturating_add(key.len())
        .saturating_add(value.len());
    size <= page.space() as usize
}

/// Puts the cell of a pair into a leaf, in its place.
fn put_pair<P: PageSource>(
    alloc: Global,
    space: &mut Workspace<P>,
    leaf: u64,
    key: &[u8],
    value: &[u8],
) -> Result<(), EditFault>
    requires { length key.now ≤ 1630 }
    ensures put { Ascends (meant P.pages space.old leaf).cells →
        OnOk result (Alters (meant P.pages space.old) (meant P.pages space.new) leaf (meant P.pages space.old leaf).head
        (insert (meant P.pages space.old leaf).cells (place_in key.now (meant P.pages space.old leaf).cells) (leaf_cell key.now value.now))) }
    ensures room { OnOk result (HasRoom (meant P.pages space.new leaf).cells) }
    ensures fit { taken (meant P.pages space.old leaf).cells + (6 + length key.now + length value.now) ≤ room →
        IsNotUnfit result }
    ensures base { P.pages space.new.base ≡ P.pages space.old.base }
    ensures excused { IsEditExcused result (P.losses space.old.base) (P.losses space.new.base) }
{
    space.load_to_edit(leaf)?;
    let at = count_before(space.page(), key);
    let cell = make_leaf_cell(alloc, key, value).map_err(|_| EditFault::NoMemory)?;
    alter(space, leaf, Edit::PutCell { at, cell })?;
    Ok(())
}

/// Halves a page below one that has room for a separator, or raises the root where there is none.
fn make_room<P: PageSource>(
    alloc: Global,
    space: &mut Workspace<P>,
    root: u64,
    roomy: Option<u64>,
    key: &[u8],
) -> Result<(), EditFault>
    ensures room { LeadsOver (meant P.pages space.old) root key.now roomy → (own free : List ℕ) (list : List (Key × List ℕ)) →
        TreeStands (meant P.pages space.old) root own free list →
        OnOk result (Becomes (meant P.pages space.old) (meant P.pages space.new) root own free list) }
    ensures filled { (own free : List ℕ) (list : List (Key × List ℕ)) → TreeStands (meant P.pages space.old) root own free list →
        (IsEmptyLeaf (meant P.pages space.old root) → ⊥) →
        OnOk result (KeepsFilled (meant P.pages space.old) (meant P.pages space.new) root) }
    ensures fit { LeadsOver (meant P.pages space.old) root key.now roomy →
        IsFullUnder (meant P.pages space.old) key.now roomy → (own free : List ℕ) (list : List (Key × List ℕ)) →
        TreeStands (meant P.pages space.old) root own free list → IsNotUnfit result }
    ensures base { P.pages space.new.base ≡ P.pages space.old.base }
    ensures excused { IsEditExcused result (P.losses space.old.base) (P.losses space.new.base) }
{
    match roomy {
        Some(parent) => split_below(alloc, space, parent, key),
        None => crown(alloc, space, root),
    }
}
