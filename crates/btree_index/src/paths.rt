ghost use Rattle.std.specs.Prelude.{ℕ, ◌≡◌, ◌⊎◌, List, Some, None, IfOk, MatchOption};
ghost use Rattle.page_workspace.specs.Drafts.{meant, IsEditExcused, IsNotUnfit};
ghost use Rattle.btree_index.specs.Keys.{Key};
ghost use Rattle.btree_index.specs.Trees.{Ascends, TreeList};
ghost use Rattle.btree_index.specs.Fits.{HasSpare, IsFull};
ghost use Rattle.btree_index.specs.Pairs.{cell_value, HasKeyAt};
ghost use Rattle.btree_index.specs.Changes.{IsBelow, IsWay};
ghost use Rattle.btree_index.specs.Prunes.{HasLeaf};

use crate::cells::key_in;
use crate::finds::{child_for, turns_from};
use crate::keys::is_same;
use crate::places::count_before;
use page_store::{Page, PageKind, PageSource};
use page_workspace::{EditFault, Workspace};

/// The most bytes that a cell above the leaves takes of a page: its slot, the length of its key, the key, the child.
const SEPARATOR_SIZE: u16 = 4 + 2 + 1630 + 8;

/// The way from a root to a key: the leaf, and the last page above it that has room for a separator more.
#[derive(Clone, Copy)]
pub(crate) struct Way {
    pub(crate) leaf: u64,
    pub(crate) roomy: Option<u64>,
}

/// The way from a root to a key. The leaf is the loaded page afterwards. `Unfit` comes only where the pages hold no
/// tree.
pub(crate) fn way_for<P: PageSource>(
    space: &mut Workspace<P>,
    root: u64,
    key: &[u8],
) -> Result<Way, EditFault>
    ensures way { IfOk result (IsWay (meant P.pages space.old) root key.now) }
    ensures below { IfOk result (λ way. IsBelow (meant P.pages space.old) root key.now way.leaf) }
    ensures leaf { IfOk result (λ way. HasLeaf (meant P.pages space.old) key.now root way.leaf) }
    ensures fit { (list : List (Key × List ℕ)) → TreeList (meant P.pages space.old) root list → IsNotUnfit result }
    ensures edits { space.new.edits ≡ space.old.edits }
    ensures loaded { IfOk result (λ way. space.new.loaded ≡ Some (meant P.pages space.old way.leaf)) }
    ensures pages { meant P.pages space.new ≡ meant P.pages space.old }
    ensures base { P.pages space.new.base ≡ P.pages space.old.base }
    ensures excused { IsEditExcused result (P.losses space.old.base) (P.losses space.new.base) }
{
    space.load_to_edit(root)?;
    let turns = turns_from(space.page().head().level);
    let mut leaf = root;
    let mut roomy = None;
    'down: for _ in 0..turns {
        space.load_to_edit(leaf)?;
        let page = space.page();
        match page.head().kind {
            PageKind::Leaf => return Ok(Way { leaf, roomy }),
            PageKind::Inner => match child_for(page, key) {
                Some(child) => {
                    roomy = roomier(page, leaf, roomy);
                    leaf = child;
                }
                None => return Err(EditFault::Unfit),
            },
            _ => return Err(EditFault::Unfit),
        }
    }
    // no tree is higher than its root says
    Err(EditFault::Unfit)
}

/// The page where it has room for a separator more, else the one before.
fn roomier(page: &Page, id: u64, before: Option<u64>) -> Option<u64>
    ensures { ((result ≡ Some id) × HasSpare page.now) ⊎ ((result ≡ before) × IsFull page.now) }
{
    if page.space() >= SEPARATOR_SIZE {
        Some(id)
    } else {
        before
    }
}

/// The place of a key in the cells of a leaf. `None` says that it is not there, where their keys rise.
pub(crate) fn key_place(page: &Page, key: &[u8]) -> Option<u16>
    ensures { MatchOption result (Ascends page.now.cells → cell_value key.now page.now.cells ≡ None)
        (λ at. HasKeyAt key.now page.now.cells at) }
{
    let at = count_before(page, key);
    let Some(cell) = page.cell(at) else {
        return None;
    };
    if is_same(key, key_in(cell)) {
        return Some(at);
    }
    None
}
