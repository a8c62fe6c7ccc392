ghost use Rattle.std.specs.Prelude.{ℕ, ◌≡◌, ◌+◌, ◌≤◌, OnOk, IfOk, min, length};
ghost use Rattle.page_store.specs.declared.pages.PageKind.TheVariants.{Inner};
ghost use Rattle.page_workspace.specs.Drafts.{meant, IsEditExcused, IsNotUnfit};
ghost use Rattle.btree_index.specs.Cells.{inner_cell};
ghost use Rattle.btree_index.specs.Fits.{IsSplittable, IsRaisable};
ghost use Rattle.btree_index.specs.Steps.{Splits, Crowns};

use crate::cells::make_inner_cell;
use crate::finds::child_below;
use crate::halves::halve;
use crate::steps::{alter, claim, fill, trim};
use page_store::{Cell, Edit, Head, PageKind, PageSource};
use page_workspace::{EditFault, Workspace};
use std::alloc::Global;

/// The most bytes of a key.
const KEY_SIZE: usize = 1630;

/// Halves the page below a parent on the way to a key, and puts the fresh page behind it.
pub(crate) fn split_below<P: PageSource>(
    alloc: Global,
    space: &mut Workspace<P>,
    parent: u64,
    key: &[u8],
) -> Result<(), EditFault>
    ensures split { OnOk result (Splits (meant P.pages space.old) (meant P.pages space.new) parent) }
    ensures fit { IsSplittable (meant P.pages space.old) parent key.now → IsNotUnfit result }
    ensures base { P.pages space.new.base ≡ P.pages space.old.base }
    ensures excused { IsEditExcused result (P.losses space.old.base) (P.losses space.new.base) }
{
    let fresh = space.take_page(alloc)?;
    space.load_to_edit(parent)?;
    let Some(below) = child_below(space.page(), key) else {
        return Err(EditFault::Unfit);
    };
    let Some(behind) = below.at.checked_add(1) else {
        return Err(EditFault::Unfit);
    };
    let separator = halve(alloc, space, below.child, fresh)?;
    let cell = separator_cell(alloc, &separator, fresh)?;
    alter(space, parent, Edit::PutCell { at: behind, cell })?;
    Ok(())
}

/// The cell of a separator.
fn separator_cell(alloc: Global, separator: &Cell, child: u64) -> Result<Cell, EditFault>
    ensures cell { IfOk result (λ c. c ≡ inner_cell separator.now child) }
    ensures short { OnOk result (length separator.now ≤ 1630) }
    ensures fit { length separator.now ≤ 1630 → IsNotUnfit result }
    ensures excused { (count : ℕ) → IsEditExcused result count count }
{
    if separator.len() > KEY_SIZE {
        return Err(EditFault::Unfit);
    }
    make_inner_cell(alloc, separator.as_slice(), child).map_err(|_| EditFault::NoMemory)
}

/// Moves the cells of a root to a fresh page, and makes the root the one page above it.
pub(crate) fn crown<P: PageSource>(
    alloc: Global,
    space: &mut Workspace<P>,
    root: u64,
) -> Result<(), EditFault>
    ensures crowned { OnOk result (Crowns (meant P.pages space.old) (meant P.pages space.new) root) }
    ensures fit { IsRaisable (meant P.pages space.old) root → IsNotUnfit result }
    ensures base { P.pages space.new.base ≡ P.pages space.old.base }
    ensures excused { IsEditExcused result (P.losses space.old.base) (P.losses space.new.base) }
{
    let fresh = space.take_page(alloc)?;
    if root == fresh {
        return Err(EditFault::Unfit);
    }
    space.load_to_edit(root)?;
    let before = space.page().head();
    claim(space, fresh, before)?;
    fill(alloc, space, root, 0, fresh)?;
    trim(alloc, space, root, 0)?;
    let after = raised(before);
    alter(space, root, Edit::SetHead { before, after })?;
    let cell = make_inner_cell(alloc, &[], fresh).map_err(|_| EditFault::NoMemory)?;
    alter(space, root, Edit::PutCell { at: 0, cell })?;
    Ok(())
}

/// The head of a root that stands one level higher.
fn raised(head: Head) -> Head
    ensures kind { result.kind ≡ Inner }
    ensures level { result.level ≡ min (head.level + 1) 255 }
{
    Head {
        kind: PageKind::Inner,
        level: head.level.saturating_add(1),
        right: head.right,
    }
}
