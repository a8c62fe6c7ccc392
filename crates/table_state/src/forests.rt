//! The trees, the meta page and the free pages of a store, whatever the rows mean.
ghost use Rattle.std.specs.Prelude.{ℕ, ◌≡◌, ◌<◌, ◌^◌, IfOk};
ghost use Rattle.page_store.specs.Image.{blank_image};
ghost use Rattle.page_store.specs.Sources.{IsExcused};
ghost use Rattle.page_workspace.specs.Spare.{IsIn};
ghost use Rattle.table_state.specs.Found.{IsFound, IsGathered};

use crate::grown::walk_trees;
use crate::numbers::are_apart;
use crate::reserves::{Reserve, reserve_of};
use page_store::{PageFault, PageSource};
use page_workspace::COUNT_LIMIT;
use std::alloc::Global;
use tree_walk::Walked;

/// What pages hold: the next genid, the numbers of the free pages, and the trees from root 1 on, each with the numbers of
/// its pages and the cells of its leaves.
#[derive(Drop)]
pub(crate) struct Found {
    /// The next genid.
    pub(crate) next: u64,
    /// The numbers of the free pages, as they are chained.
    pub(crate) free: Vec<u64>,
    /// The trees, by their roots.
    pub(crate) trees: Vec<Walked>,
}

/// The trees of any pages, `trees` of them from root 1 on, with the meta page and the free pages. Each page whose number is
/// not in `edited` is blank.
///
/// `None` exactly where the pages hold no such trees, all on pages of their own, or where the next genid or the number of
/// pages is 2^62 or more. `Gone` comes only where the source lost its pages; `NoMemory` is want of memory.
pub(crate) fn forest_of<P: PageSource>(
    alloc: Global,
    pages: &mut P,
    trees: u64,
    edited: &[u64],
) -> Result<Option<Found>, PageFault>
    requires blank { (n : ℕ) → (IsIn n edited.now → ⊥) → P.pages pages.old n ≡ blank_image }
    requires few { trees < 2 ^ 62 }
    ensures found { IfOk result (IsFound (P.pages pages.old) trees) }
    ensures pages { P.pages pages.new ≡ P.pages pages.old }
    ensures below { P.below pages.new ≡ P.below pages.old }
    ensures excused { IsExcused result (P.losses pages.old) (P.losses pages.new) }
{
    let limit = edited.len() as u64;
    if limit >= COUNT_LIMIT {
        return Err(PageFault::NoMemory);
    }
    let Some(reserve) = reserve_of(alloc, pages, edited, limit + 1)? else {
        return Ok(None);
    };
    let Some(grown) = walk_trees(alloc, pages, trees, limit)? else {
        return Ok(None);
    };
    gather(alloc, reserve, grown)
}

/// What was found, where no page stands twice in it.
fn gather(alloc: Global, reserve: Reserve, trees: Vec<Walked>) -> Result<Option<Found>, PageFault>
    ensures gathered { IfOk result (IsGathered reserve trees.items) }
    ensures excused { (losses : ℕ) → IsExcused result losses losses }
{
    let apart = are_apart(
        alloc,
        trees.as_slice(),
        reserve.free.as_slice(),
        reserve.count,
    )
    .map_err(|_| PageFault::NoMemory)?;
    if !apart {
        return Ok(None);
    }
    Ok(Some(Found {
        next: reserve.next,
        free: reserve.free,
        trees,
    }))
}
