ghost use Rattle.std.specs.Prelude.{ℕ, ◌≡◌, ◌≢◌, ◌⊎◌, ◌<◌, [], Some, IfOk, IfSome, MatchOption, length};
ghost use Rattle.page_store.specs.declared.pages.PageKind.TheVariants.{Leaf, Inner};
ghost use Rattle.page_workspace.specs.Drafts.{meant, IsEditExcused, IsNotUnfit};
ghost use Rattle.btree_index.specs.Cells.{IsInnerCell};
ghost use Rattle.btree_index.specs.Fits.{IsHalvable};
ghost use Rattle.btree_index.specs.Steps.{Halves, IsFirstFor, IsHalf};

use crate::cells::{child_in, key_in, make_inner_cell};
use crate::steps::{alter, claim, fill, trim};
use page_store::{Cell, Edit, Head, Page, PageKind, PageSource};
use page_workspace::{EditFault, Workspace};
use std::alloc::Global;

/// The bytes that a page has for its cells.
const ROOM: u16 = 4072;

/// The bytes of a cell's slot.
const SLOT_SIZE: usize = 4;

/// Where a page is cut: the place, the page's head, the separator, and the cell that the fresh page begins with.
#[derive(Drop)]
pub(crate) struct Half {
    at: u16,
    head: Head,
    separator: Cell,
    first: Cell,
}

/// Moves the cells of a page from near the middle on to a fresh page, links it behind, and gives the separator.
pub(crate) fn halve<P: PageSource>(
    alloc: Global,
    space: &mut Workspace<P>,
    id: u64,
    fresh: u64,
) -> Result<Cell, EditFault>
    ensures halved { IfOk result (Halves (meant P.pages space.old) (meant P.pages space.new) id fresh) }
    ensures fit { id ≢ fresh → IsHalvable (meant P.pages space.old id) → (meant P.pages space.old fresh).cells ≡ [] →
        IsNotUnfit result }
    ensures base { P.pages space.new.base ≡ P.pages space.old.base }
    ensures excused { IsEditExcused result (P.losses space.old.base) (P.losses space.new.base) }
{
    if id == fresh {
        return Err(EditFault::Unfit);
    }
    space.load_to_edit(id)?;
    let half = read_half(alloc, space.page())?;
    let Some(behind) = half.at.checked_add(1) else {
        return Err(EditFault::Unfit);
    };
    claim(space, fresh, half.head)?;
    alter(
        space,
        fresh,
        Edit::PutCell {
            at: 0,
            cell: half.first,
        },
    )?;
    fill(alloc, space, id, behind, fresh)?;
    trim(alloc, space, id, half.at)?;
    let after = Head {
        right: fresh,
        ..half.head
    };
    alter(
        space,
        id,
        Edit::SetHead {
            before: half.head,
            after,
        },
    )?;
    Ok(half.separator)
}

/// Where a page is to be cut. `Unfit` comes where it has too few cells, or cells of no tree.
fn read_half(alloc: Global, page: &Page) -> Result<Half, EditFault>
    ensures half { IfOk result (IsHalf page.now) }
    ensures fit { IsHalvable page.now → IsNotUnfit result }
    ensures excused { (count : ℕ) → IsEditExcused result count count }
{
    let Some(at) = cut_place(page) else {
        return Err(EditFault::Unfit);
    };
    let Some(middle) = page.cell(at) else {
        return Err(EditFault::Unfit);
    };
    let head = page.head();
    let separator = Cell::from_slice(alloc, key_in(middle)).map_err(|_| EditFault::NoMemory)?;
    let first = first_for(alloc, head.kind, middle)?;
    Ok(Half {
        at,
        head,
        separator,
        first,
    })
}

/// The cell that a fresh page begins with, by the cell where the page was cut: above the leaves its key is empty.
fn first_for(alloc: Global, kind: PageKind, middle: &[u8]) -> Result<Cell, EditFault>
    ensures first { IfOk result (IsFirstFor kind middle.now) }
    ensures fit { (kind ≡ Leaf) ⊎ ((kind ≡ Inner) × IsInnerCell middle.now) → IsNotUnfit result }
    ensures excused { (count : ℕ) → IsEditExcused result count count }
{
    match kind {
        PageKind::Leaf => Cell::from_slice(alloc, middle).map_err(|_| EditFault::NoMemory),
        PageKind::Inner => match child_in(middle) {
            Some(child) => make_inner_cell(alloc, &[], child).map_err(|_| EditFault::NoMemory),
            None => Err(EditFault::Unfit),
        },
        _ => Err(EditFault::Unfit),
    }
}

/// The first place behind half of the bytes, before the last cell; `None` where there are fewer than two cells.
fn cut_place(page: &Page) -> Option<u16>
    ensures some { IfSome result (λ at. 0 < at) }
    ensures within { MatchOption result (length page.now.cells < 2) (λ at. at < length page.now.cells) }
{
    let count = page.count();
    if count < 2 {
        return None;
    }
    let half = (ROOM.saturating_sub(page.space()) / 2) as usize;
    let mut passed = 0usize;
    'passing: for at in 1..count - 1 {
        let cell = page.cell(at - 1)?;
        passed = passed.saturating_add(SLOT_SIZE).saturating_add(cell.len());
        if passed >= half {
            return Some(at);
        }
    }
    Some(count - 1)
}
