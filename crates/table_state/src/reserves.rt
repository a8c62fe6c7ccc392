//! The pages that are in no tree.
ghost use Rattle.std.specs.Prelude.{ℕ, ◌≡◌, ◌<◌, IfOk, length};
ghost use Rattle.page_store.specs.Image.{blank_image};
ghost use Rattle.page_store.specs.Sources.{IsExcused};
ghost use Rattle.page_workspace.specs.Spare.{IsIn};
ghost use Rattle.table_state.specs.Reserves.{IsReserve};

use crate::chains::{are_past_end, chain};
use crate::counts::read_meta;
use page_store::{PageFault, PageSource};
use std::alloc::Global;

/// The pages that are in no tree: the next genid and the number of pages, which the meta page tells, and the free pages.
#[derive(Drop)]
pub(crate) struct Reserve {
    pub(crate) next: u64,
    pub(crate) count: u64,
    pub(crate) free: Vec<u64>,
}

/// The pages that are in no tree, but that no number is looked at twice; `None` where there are none. The limit is what the
/// free pages may be at most.
pub(crate) fn reserve_of<P: PageSource>(
    alloc: Global,
    pages: &mut P,
    edited: &[u64],
    limit: u64,
) -> Result<Option<Reserve>, PageFault>
    requires blank { (n : ℕ) → (IsIn n edited.now → ⊥) → P.pages pages.old n ≡ blank_image }
    requires limit { length edited.now < limit }
    ensures reserve { IfOk result (IsReserve (P.pages pages.old)) }
    ensures pages { P.pages pages.new ≡ P.pages pages.old }
    ensures below { P.below pages.new ≡ P.below pages.old }
    ensures excused { IsExcused result (P.losses pages.old) (P.losses pages.new) }
{
    let Some(meta) = read_meta(pages)? else {
        return Ok(None);
    };
    let past = are_past_end(pages, meta.count, edited)?;
    if !past {
        return Ok(None);
    }
    let Some(free) = chain(alloc, pages, meta.free, limit)? else {
        return Ok(None);
    };
    Ok(Some(Reserve {
        next: meta.next,
        count: meta.count,
        free,
    }))
}
