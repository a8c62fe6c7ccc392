//! Empty leaves are taken out of their tree and freed.
//!
//! With the leaf goes each page above it that has no other child. The last page on the way that has one loses a cell,
//! and its next cell gets the empty key where that was the first; the leaf before gets the right link of the empty one.
//! Where no page on the way has another child, the root becomes an empty leaf.
ghost use Rattle.std.specs.Prelude.{ℕ, ◌≡◌, ◌≤◌, ◌∷◌, [], List, OnOk, Some};
ghost use Rattle.page_store.specs.Image.{Image};
ghost use Rattle.page_workspace.specs.Drafts.{meant, IsEditExcused, IsNotUnfit};
ghost use Rattle.page_workspace.specs.Spare.{count_of};
ghost use Rattle.btree_index.specs.Keys.{Key};
ghost use Rattle.btree_index.specs.Cells.{IsInnerCell};
ghost use Rattle.btree_index.specs.Changes.{Becomes, TreeStands};
ghost use Rattle.btree_index.specs.Filled.{KeepsFilled};
ghost use Rattle.btree_index.specs.Fits.{CanLose};
ghost use Rattle.btree_index.specs.Prunes.{lone_pages, AreStray, CanFree, CanUnlink, DropsChild, Empties, FreesAll, FreesEmpty, IsLone, lone_leaf, LosesLeaf, Rekeys, SetsRight, Unlinks};

use crate::cells::{child_in, make_inner_cell};
use crate::prunes::{Fork, Found, look_below, only_child};
use crate::steps::{alter, copied, take_at};
use page_store::{Edit, Head, PageKind, PageSource};
use page_workspace::{EditFault, Workspace};
use std::alloc::Global;

/// Frees the leaf on the way to a key, where it has no cells and is no root, together with the pages above it that have
/// no other child. The list stays. `Unfit` comes only where the pages hold no tree, `Gone` only where the source lost its
/// pages. After an error the workspace may only be dropped.
pub(crate) fn free_empty_leaf<P: PageSource>(
    alloc: Global,
    space: &mut Workspace<P>,
    root: u64,
    key: &[u8],
) -> Result<(), EditFault>
    ensures freed { (own free : List ℕ) (list : List (Key × List ℕ)) → TreeStands (meant P.pages space.old) root own free list →
        OnOk result (Becomes (meant P.pages space.old) (meant P.pages space.new) root own free list) }
    ensures gone { (own free : List ℕ) (list : List (Key × List ℕ)) → TreeStands (meant P.pages space.old) root own free list →
        OnOk result (FreesEmpty (meant P.pages space.old) (meant P.pages space.new) root key.now) }
    ensures filled { (own free : List ℕ) (list : List (Key × List ℕ)) → TreeStands (meant P.pages space.old) root own free list →
        OnOk result (KeepsFilled (meant P.pages space.old) (meant P.pages space.new) root) }
    ensures fit { (own free : List ℕ) (list : List (Key × List ℕ)) →
        TreeStands (meant P.pages space.old) root own free list → IsNotUnfit result }
    ensures base { P.pages space.new.base ≡ P.pages space.old.base }
    ensures excused { IsEditExcused result (P.losses space.old.base) (P.losses space.new.base) }
{
    // no tree has more levels than there are pages
    let meta = space.meta()?;
    let found = look_below(space, root, None, key, meta.count)?;
    match found {
        Found::Full => Ok(()),
        Found::Lone(_) => flatten(alloc, space, root, meta.count),
        Found::Forked(fork) => cut(alloc, space, fork, meta.count),
    }
}

/// Takes the pages below a child out of the tree, and frees them, so many at most.
fn cut<P: PageSource>(
    alloc: Global,
    space: &mut Workspace<P>,
    fork: Fork,
    turns: u64,
) -> Result<(), EditFault>
    ensures cut { OnOk result ((mid : ℕ → Image) × Unlinks (meant P.pages space.old) mid fork
        × ((height root : ℕ) (own free : List ℕ) (list : List (Key × List ℕ)) → TreeStands mid root own free list → IsLone mid height fork.child →
        AreStray mid own free (lone_pages mid height fork.child) →
        FreesAll mid (meant P.pages space.new) root own free list (lone_pages mid height fork.child))) }
    ensures fit { CanUnlink (meant P.pages space.old) fork →
        ((mid : ℕ → Image) → Unlinks (meant P.pages space.old) mid fork → CanFree mid fork.child turns) → IsNotUnfit result }
    ensures base { P.pages space.new.base ≡ P.pages space.old.base }
    ensures excused { IsEditExcused result (P.losses space.old.base) (P.losses space.new.base) }
{
    unlink(alloc, space, fork)?;
    free_from(alloc, space, fork.child, turns)
}

/// Makes a root an empty leaf, and frees the pages below it, so many at most; a root that is a leaf stays.
fn flatten<P: PageSource>(
    alloc: Global,
    space: &mut Workspace<P>,
    root: u64,
    turns: u64,
) -> Result<(), EditFault>
    ensures flattened { (own free : List ℕ) (list : List (Key × List ℕ)) (stands : TreeStands (meant P.pages space.old) root own free list) →
        IsLone (meant P.pages space.old) stands.height root →
        OnOk result (LosesLeaf (meant P.pages space.old) (meant P.pages space.new) root own free list (lone_leaf (meant P.pages space.old) stands.height root)) }
    ensures fit { (own free : List ℕ) (list : List (Key × List ℕ)) (stands : TreeStands (meant P.pages space.old) root own free list) →
        IsLone (meant P.pages space.old) stands.height root → count_of (meant P.pages space.old) ≤ turns → IsNotUnfit result }
    ensures base { P.pages space.new.base ≡ P.pages space.old.base }
    ensures excused { IsEditExcused result (P.losses space.old.base) (P.losses space.new.base) }
{
    space.load_to_edit(root)?;
    let only = only_child(space.page())?;
    match only {
        None => Ok(()),
        Some(child) => {
            empty_root(alloc, space, root)?;
            free_from(alloc, space, child, turns)
        }
    }
}

/// Takes the one cell of a root away, and makes it a leaf.
fn empty_root<P: PageSource>(
    alloc: Global,
    space: &mut Workspace<P>,
    root: u64,
) -> Result<(), EditFault>
    ensures emptied { OnOk result (Empties (meant P.pages space.old) (meant P.pages space.new) root) }
    ensures fit { (cell : List ℕ) → (meant P.pages space.old root).cells ≡ cell ∷ [] → IsNotUnfit result }
    ensures base { P.pages space.new.base ≡ P.pages space.old.base }
    ensures excused { IsEditExcused result (P.losses space.old.base) (P.losses space.new.base) }
{
    take_at(alloc, space, root, 0)?;
    space.load_to_edit(root)?;
    let before = space.page().head();
    let after = Head {
        kind: PageKind::Leaf,
        level: 0,
        right: 0,
    };
    alter(space, root, Edit::SetHead { before, after })
}

/// Frees a page, the one child of it, and so on down to the leaf, so many at most; the leaf first.
fn free_from<P: PageSource>(
    alloc: Global,
    space: &mut Workspace<P>,
    id: u64,
    turns: u64,
) -> Result<(), EditFault>
    ensures freed { (height root : ℕ) (own free : List ℕ) (list : List (Key × List ℕ)) → TreeStands (meant P.pages space.old) root own free list →
        IsLone (meant P.pages space.old) height id → AreStray (meant P.pages space.old) own free (lone_pages (meant P.pages space.old) height id) →
        OnOk result (FreesAll (meant P.pages space.old) (meant P.pages space.new) root own free list
        (lone_pages (meant P.pages space.old) height id)) }
    ensures fit { CanFree (meant P.pages space.old) id turns → IsNotUnfit result }
    ensures base { P.pages space.new.base ≡ P.pages space.old.base }
    ensures excused { IsEditExcused result (P.losses space.old.base) (P.losses space.new.base) }
{
    if turns == 0 {
        return Err(EditFault::Unfit);
    }
    space.load_to_edit(id)?;
    let only = only_child(space.page())?;
    match only {
        None => space.free_page(alloc, id),
        Some(child) => {
            take_at(alloc, space, id, 0)?;
            free_from(alloc, space, child, turns - 1)?;
            space.free_page(alloc, id)
        }
    }
}

/// Takes a child from its page, and links the leaf before the one below it past that.
fn unlink<P: PageSource>(
    alloc: Global,
    space: &mut Workspace<P>,
    fork: Fork,
) -> Result<(), EditFault>
    ensures unlinked { OnOk result (Unlinks (meant P.pages space.old) (meant P.pages space.new) fork) }
    ensures fit { CanUnlink (meant P.pages space.old) fork → IsNotUnfit result }
    ensures base { P.pages space.new.base ≡ P.pages space.old.base }
    ensures excused { IsEditExcused result (P.losses space.old.base) (P.losses space.new.base) }
{
    drop_child(alloc, space, fork.page, fork.at)?;
    relink(space, fork.page, fork.left, fork.right)?;
    space.load_to_edit(fork.page)?;
    // what is left of the cells fits, since it stands on a page
    let _space = space.page().space();
    Ok(())
}

/// Takes a child from its page; where it was the first, the next one gets the empty key.
fn drop_child<P: PageSource>(
    alloc: Global,
    space: &mut Workspace<P>,
    id: u64,
    at: u16,
) -> Result<(), EditFault>
    ensures dropped { OnOk result (DropsChild (meant P.pages space.old) (meant P.pages space.new) id at) }
    ensures fit { CanLose (meant P.pages space.old id) at → IsNotUnfit result }
    ensures base { P.pages space.new.base ≡ P.pages space.old.base }
    ensures excused { IsEditExcused result (P.losses space.old.base) (P.losses space.new.base) }
{
    take_at(alloc, space, id, at)?;
    if at > 0 {
        return Ok(());
    }
    rekey_first(alloc, space, id)
}

/// Gives the first cell of a page above the leaves the empty key.
fn rekey_first<P: PageSource>(
    alloc: Global,
    space: &mut Workspace<P>,
    id: u64,
) -> Result<(), EditFault>
    ensures rekeyed { OnOk result (Rekeys (meant P.pages space.old) (meant P.pages space.new) id) }
    ensures fit { (cell : List ℕ) (others : List (List ℕ)) → (meant P.pages space.old id).cells ≡ cell ∷ others →
        IsInnerCell cell → IsNotUnfit result }
    ensures base { P.pages space.new.base ≡ P.pages space.old.base }
    ensures excused { IsEditExcused result (P.losses space.old.base) (P.losses space.new.base) }
{
    space.load_to_edit(id)?;
    let page = space.page();
    // a cell with the empty key takes no more room
    let _space = page.space();
    let before = copied(alloc, page, 0)?;
    let Some(child) = child_in(before.as_slice()) else {
        return Err(EditFault::Unfit);
    };
    let after = make_inner_cell(alloc, &[], child).map_err(|_| EditFault::NoMemory)?;
    alter(
        space,
        id,
        Edit::SwapCell {
            at: 0,
            before,
            after,
        },
    )
}

/// Gives a leaf another right link, where one is told. `Unfit` comes where it is this page.
fn relink<P: PageSource>(
    space: &mut Workspace<P>,
    page: u64,
    left: Option<u64>,
    right: u64,
) -> Result<(), EditFault>
    ensures relinked { OnOk result (SetsRight (meant P.pages space.old) (meant P.pages space.new) page left right) }
    ensures fit { (left ≡ Some page → ⊥) → IsNotUnfit result }
    ensures base { P.pages space.new.base ≡ P.pages space.old.base }
    ensures excused { IsEditExcused result (P.losses space.old.base) (P.losses space.new.base) }
{
    match left {
        None => Ok(()),
        Some(leaf) => set_right(space, page, leaf, right),
    }
}

/// Gives a leaf another right link.
fn set_right<P: PageSource>(
    space: &mut Workspace<P>,
    page: u64,
    leaf: u64,
    right: u64,
) -> Result<(), EditFault>
    ensures relinked { OnOk result (SetsRight (meant P.pages space.old) (meant P.pages space.new) page (Some leaf) right) }
    ensures fit { (leaf ≡ page → ⊥) → IsNotUnfit result }
    ensures base { P.pages space.new.base ≡ P.pages space.old.base }
    ensures excused { IsEditExcused result (P.losses space.old.base) (P.losses space.new.base) }
{
    if leaf == page {
        return Err(EditFault::Unfit);
    }
    space.load_to_edit(leaf)?;
    let page = space.page();
    // the cells fit, since they stand on a page
    let _space = page.space();
    let before = page.head();
    let after = Head { right, ..before };
    alter(space, leaf, Edit::SetHead { before, after })
}
