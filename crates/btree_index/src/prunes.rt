//! Empty leaves on the way to a key: what is found there.
ghost use Rattle.std.specs.Prelude.{ℕ, ◌≡◌, ◌<◌, ◌++◌, ◌∷◌, [], List, None, Some, IfOk, IfSome, IsSome, length};
ghost use Rattle.page_workspace.specs.Drafts.{meant, IsEditExcused, IsNotUnfit};
ghost use Rattle.std.specs.List.{slice_get};
ghost use Rattle.btree_index.specs.Cells.{IsInnerCell};
ghost use Rattle.btree_index.specs.Fits.{HasOneChild};
ghost use Rattle.btree_index.specs.Keys.{Key};
ghost use Rattle.btree_index.specs.Prunes.{hung_found, last_page, IsBeside, IsChildAt, IsChildIn, IsFound, IsLastChild, IsOnly, LeadsTo};
ghost use Rattle.btree_index.specs.declared.prunes.Found.TheVariants.{Full, Lone};
ghost use Rattle.btree_index.specs.Trees.{Entry, Holds, IsInnerPage};

use crate::cells::child_in;
use crate::finds::{Below, child_below};
use page_store::{Page, PageKind, PageSource};
use page_workspace::{EditFault, Workspace};

/// A page that has another child than the one below which there is an empty leaf and nothing else: the place of that
/// child, the leaf before the empty one, and the right link that this had.
#[derive(Clone, Copy)]
pub(crate) struct Fork {
    pub(crate) page: u64,
    pub(crate) at: u16,
    pub(crate) child: u64,
    pub(crate) left: Option<u64>,
    pub(crate) right: u64,
}

/// An empty leaf: the leaf before it, and its right link.
#[derive(Clone, Copy)]
pub(crate) struct LoneLeaf {
    pub(crate) left: Option<u64>,
    pub(crate) right: u64,
}

/// What the way to a leaf came to.
#[derive(Clone, Copy)]
pub(crate) enum Found {
    /// The leaf has cells.
    Full,
    /// It has none, and no page on the way has another child.
    Lone(LoneLeaf),
    /// It has none, and this is the last page on the way that has another child.
    Forked(Fork),
}

/// What the way to a key comes to from a page on, which stands behind `left` on its level. `Unfit` comes only where the
/// pages hold no tree of so few levels.
pub(crate) fn look_below<P: PageSource>(
    space: &mut Workspace<P>,
    id: u64,
    left: Option<u64>,
    key: &[u8],
    turns: u64,
) -> Result<Found, EditFault>
    ensures found { (height : ℕ) (front others : List Entry) (low : Key) (cells : List (List ℕ)) →
        Holds (meant P.pages space.old) height (front ++ (record { low = low; page = id } ∷ others)) cells → last_page front ≡ left →
        IfOk result (IsFound (meant P.pages space.old) height front low id others cells) }
    ensures way { IfOk result (LeadsTo (meant P.pages space.old) key.now id) }
    ensures fit { (height : ℕ) (front others : List Entry) (low : Key) (cells : List (List ℕ)) →
        Holds (meant P.pages space.old) height (front ++ (record { low = low; page = id } ∷ others)) cells → last_page front ≡ left →
        height < turns → IsNotUnfit result }
    ensures edits { space.new.edits ≡ space.old.edits }
    ensures pages { meant P.pages space.new ≡ meant P.pages space.old }
    ensures base { P.pages space.new.base ≡ P.pages space.old.base }
    ensures excused { IsEditExcused result (P.losses space.old.base) (P.losses space.new.base) }
{
    if turns == 0 {
        // no tree is higher than its root says
        return Err(EditFault::Unfit);
    }
    space.load_to_edit(id)?;
    let page = space.page();
    let several = page.count() > 1;
    match page.head().kind {
        PageKind::Leaf => Ok(leaf_found(page, left)),
        PageKind::Inner => {
            let Some(below) = child_below(page, key) else {
                return Err(EditFault::Unfit);
            };
            let next = beside(space, id, below.at, left)?;
            let found = look_below(space, below.child, next, key, turns - 1)?;
            Ok(hung(found, id, below, several))
        }
        _ => Err(EditFault::Unfit),
    }
}

/// What is found at a leaf.
fn leaf_found(page: &Page, left: Option<u64>) -> Found
    ensures { (page.now.cells ≡ [] → result ≡ Lone (record { left = left; right = page.now.head.right }))
        × ((page.now.cells ≡ [] → ⊥) → result ≡ Full) }
{
    if page.count() != 0 {
        return Found::Full;
    }
    Found::Lone(LoneLeaf {
        left,
        right: page.head().right,
    })
}

/// What was found below a child, seen from its page: where that page has another child, an empty leaf makes it a fork.
fn hung(found: Found, page: u64, below: Below, several: bool) -> Found
    ensures { result ≡ hung_found found page below several }
{
    match found {
        Found::Lone(lone) if several => Found::Forked(Fork {
            page,
            at: below.at,
            child: below.child,
            left: lone.left,
            right: lone.right,
        }),
        found => found,
    }
}

/// The page before the child at a place, on its level: the child before it, or the last child of the page before.
fn beside<P: PageSource>(
    space: &mut Workspace<P>,
    id: u64,
    at: u16,
    left: Option<u64>,
) -> Result<Option<u64>, EditFault>
    ensures found { IfOk result (IsBeside (meant P.pages space.old) id at left) }
    ensures fit { (height : ℕ) → IsInnerPage height (meant P.pages space.old id) → at < length (meant P.pages space.old id).cells →
        ((n : ℕ) → left ≡ Some n → IsInnerPage height (meant P.pages space.old n)) → IsNotUnfit result }
    ensures edits { space.new.edits ≡ space.old.edits }
    ensures pages { meant P.pages space.new ≡ meant P.pages space.old }
    ensures base { P.pages space.new.base ≡ P.pages space.old.base }
    ensures excused { IsEditExcused result (P.losses space.old.base) (P.losses space.new.base) }
{
    if at > 0 {
        let before = child_at(space, id, at - 1)?;
        return Ok(Some(before));
    }
    match left {
        None => Ok(None),
        Some(left) => {
            let last = last_child(space, left)?;
            Ok(Some(last))
        }
    }
}

/// The child at a place of a page.
fn child_at<P: PageSource>(space: &mut Workspace<P>, id: u64, at: u16) -> Result<u64, EditFault>
    ensures child { IfOk result (IsChildAt (meant P.pages space.old) id at) }
    ensures fit { (height : ℕ) → IsInnerPage height (meant P.pages space.old id) → at < length (meant P.pages space.old id).cells →
        IsNotUnfit result }
    ensures edits { space.new.edits ≡ space.old.edits }
    ensures pages { meant P.pages space.new ≡ meant P.pages space.old }
    ensures base { P.pages space.new.base ≡ P.pages space.old.base }
    ensures excused { IsEditExcused result (P.losses space.old.base) (P.losses space.new.base) }
{
    space.load_to_edit(id)?;
    match child_of_place(space.page(), at) {
        Some(child) => Ok(child),
        None => Err(EditFault::Unfit),
    }
}

/// The last child of a page.
fn last_child<P: PageSource>(space: &mut Workspace<P>, id: u64) -> Result<u64, EditFault>
    ensures child { IfOk result (IsLastChild (meant P.pages space.old) id) }
    ensures fit { (height : ℕ) → IsInnerPage height (meant P.pages space.old id) → IsNotUnfit result }
    ensures edits { space.new.edits ≡ space.old.edits }
    ensures pages { meant P.pages space.new ≡ meant P.pages space.old }
    ensures base { P.pages space.new.base ≡ P.pages space.old.base }
    ensures excused { IsEditExcused result (P.losses space.old.base) (P.losses space.new.base) }
{
    space.load_to_edit(id)?;
    let page = space.page();
    let count = page.count();
    if count == 0 {
        return Err(EditFault::Unfit);
    }
    match child_of_place(page, count - 1) {
        Some(child) => Ok(child),
        None => Err(EditFault::Unfit),
    }
}

/// The child at a place of this page.
fn child_of_place(page: &Page, at: u16) -> Option<u64>
    ensures child { IfSome result (IsChildIn page.now at) }
    ensures some { (cell : List ℕ) → slice_get page.now.cells at ≡ Some cell → IsInnerCell cell → IsSome result }
{
    let cell = page.cell(at)?;
    child_in(cell)
}

/// The one child of a page above the leaves; `None` of a leaf.
pub(crate) fn only_child(page: &Page) -> Result<Option<u64>, EditFault>
    ensures child { IfOk result (IsOnly page.now) }
    ensures fit { HasOneChild page.now → IsNotUnfit result }
    ensures excused { (count : ℕ) → IsEditExcused result count count }
{
    match page.head().kind {
        PageKind::Leaf => Ok(None),
        PageKind::Inner => match child_of_place(page, 0) {
            Some(child) => Ok(Some(child)),
            None => Err(EditFault::Unfit),
        },
        _ => Err(EditFault::Unfit),
    }
}
