ghost use Rattle.std.specs.Prelude.{ℕ, ◌≡◌, ◌+◌, ◌-◌, ◌^◌, ◌<◌, List, Some, IfOk, IfSome, IsSome, MatchOption};
ghost use Rattle.page_store.specs.Sources.{IsExcused};
ghost use Rattle.btree_index.specs.Keys.{Key};
ghost use Rattle.btree_index.specs.Pairs.{value_at, cell_value, choice};
ghost use Rattle.btree_index.specs.Steps.{IsBelow};
ghost use Rattle.btree_index.specs.Trees.{Ascends, IsInnerPage, TreeList};
ghost use Rattle.btree_index.specs.Ways.{OnWay};
ghost use Rattle.page_store.specs.declared.pages.PageKind.TheVariants.{Leaf};

use crate::cells::{child_in, key_in, value_in};
use crate::keys::is_same;
use crate::places::{count_before, turn_for};
use page_store::{Cell, Page, PageFault, PageKind, PageSource};
use std::alloc::{AllocError, Global};

/// A child of a page above the leaves, with the place of its cell.
#[derive(Clone, Copy)]
pub(crate) struct Below {
    pub(crate) at: u16,
    pub(crate) child: u64,
}

/// The value of a key in the tree below a root; `None` where the key is not there. `Gone` comes only where the source
/// lost its pages; the other error is want of memory.
pub fn find<P: PageSource>(
    alloc: Global,
    pages: &mut P,
    root: u64,
    key: &[u8],
) -> Result<Option<Cell>, PageFault>
    ensures found { (list : List (Key × List ℕ)) → TreeList (P.pages pages.old) root list → IfOk result (λ v. v ≡ value_at key.now list) }
    ensures pages { P.pages pages.new ≡ P.pages pages.old }
    ensures below { P.below pages.new ≡ P.below pages.old }
    ensures excused { IsExcused result (P.losses pages.old) (P.losses pages.new) }
{
    leaf_for(pages, root, key)?;
    look_up(alloc, pages.page(), key).map_err(|_| PageFault::NoMemory)
}

/// Loads the leaf below which a key may stand, and gives its number.
pub(crate) fn leaf_for<P: PageSource>(
    pages: &mut P,
    root: u64,
    key: &[u8],
) -> Result<u64, PageFault>
    ensures way { (list : List (Key × List ℕ)) → TreeList (P.pages pages.old) root list →
        IfOk result (λ id. OnWay (P.pages pages.old) key.now id list) }
    ensures leaf { IfOk result (λ id. (P.pages pages.old id).head.kind ≡ Leaf) }
    ensures loaded { IfOk result (λ id. P.loaded pages.new ≡ Some (P.pages pages.old id)) }
    ensures pages { P.pages pages.new ≡ P.pages pages.old }
    ensures below { P.below pages.new ≡ P.below pages.old }
    ensures excused { IsExcused result (P.losses pages.old) (P.losses pages.new) }
{
    pages.load(root)?;
    let turns = turns_from(pages.page().head().level);
    let mut id = root;
    'down: for _ in 0..turns {
        pages.load(id)?;
        let page = pages.page();
        match page.head().kind {
            PageKind::Leaf => return Ok(id),
            PageKind::Inner => match child_for(page, key) {
                Some(child) => id = child,
                None => return Err(PageFault::NoMemory),
            },
            _ => return Err(PageFault::NoMemory),
        }
    }
    // no tree is higher than its root says
    Err(PageFault::NoMemory)
}

/// How many pages the way down from a root has at most, by its level; 255 stands for 255 and more.
pub(crate) fn turns_from(level: u8) -> u64
    ensures low { level < 255 → result ≡ level + 1 }
    ensures high { level ≡ 255 → result ≡ 2 ^ 64 - 1 }
{
    if level == u8::MAX {
        u64::MAX
    } else {
        u64::from(level) + 1
    }
}

/// The value of a key in the cells of a leaf, where their keys rise.
fn look_up(alloc: Global, page: &Page, key: &[u8]) -> Result<Option<Cell>, AllocError>
    ensures { Ascends page.now.cells → IfOk result (λ v. v ≡ cell_value key.now page.now.cells) }
{
    let Some(cell) = page.cell(count_before(page, key)) else {
        return Ok(None);
    };
    if is_same(key, key_in(cell)) {
        return Ok(Some(Cell::from_slice(alloc, value_in(cell))?));
    }
    Ok(None)
}

/// The child below which a key may stand, on a page above the leaves; `None` where a cell has no child.
pub(crate) fn child_for(page: &Page, key: &[u8]) -> Option<u64>
    ensures child { MatchOption result (Unit {0}) (λ child. child ≡ choice key.now page.now.cells) }
    ensures some { (height : ℕ) → IsInnerPage height page.now → IsSome result }
{
    let below = child_below(page, key)?;
    Some(below.child)
}

/// The same, with the place of its cell.
pub(crate) fn child_below(page: &Page, key: &[u8]) -> Option<Below>
    ensures child { IfSome result (λ below. below.child ≡ choice key.now page.now.cells) }
    ensures place { IfSome result (IsBelow page.now) }
    ensures some { (height : ℕ) → IsInnerPage height page.now → IsSome result }
{
    let at = turn_for(page, key);
    let child = child_in(page.cell(at)?)?;
    Some(Below { at, child })
}
