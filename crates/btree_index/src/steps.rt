ghost use Rattle.std.specs.Prelude.{ℕ, ◌≡◌, ◌≢◌, ◌<◌, ◌++◌, ◌∷◌, List, [], Some, IfOk, OnOk, drop, length, take};
ghost use Rattle.std.specs.List.{insert, slice_get};
ghost use Rattle.page_store.specs.Image.{HasRoom};
ghost use Rattle.page_store.specs.Edits.{head_after, cells_after, IsFit};
ghost use Rattle.page_workspace.specs.Drafts.{meant, IsEditExcused, IsNotUnfit};
ghost use Rattle.btree_index.specs.Steps.{Alters, CopiesCell, TakesAt};

use page_store::{Cell, Edit, Head, Page, PageSource};
use page_workspace::{EditFault, Workspace};
use std::alloc::Global;

/// Makes an edit of a page.
pub(crate) fn alter<P: PageSource>(
    space: &mut Workspace<P>,
    id: u64,
    edit: Edit,
) -> Result<(), EditFault>
    ensures altered { OnOk result (Alters (meant P.pages space.old) (meant P.pages space.new) id
        (head_after (meant P.pages space.old id).head edit) (cells_after (meant P.pages space.old id).cells edit)) }
    ensures room { OnOk result (HasRoom (cells_after (meant P.pages space.old id).cells edit)) }
    ensures fit { IsFit (meant P.pages space.old id) edit → IsNotUnfit result }
    ensures base { P.pages space.new.base ≡ P.pages space.old.base }
    ensures excused { IsEditExcused result (P.losses space.old.base) (P.losses space.new.base) }
{
    space.edit(id, edit)
}

/// Gives a page without cells another head.
pub(crate) fn claim<P: PageSource>(
    space: &mut Workspace<P>,
    id: u64,
    head: Head,
) -> Result<(), EditFault>
    ensures claimed { OnOk result (Alters (meant P.pages space.old) (meant P.pages space.new) id head []) }
    ensures fit { (meant P.pages space.old id).cells ≡ [] → IsNotUnfit result }
    ensures base { P.pages space.new.base ≡ P.pages space.old.base }
    ensures excused { IsEditExcused result (P.losses space.old.base) (P.losses space.new.base) }
{
    space.load_to_edit(id)?;
    let page = space.page();
    if page.count() != 0 {
        return Err(EditFault::Unfit);
    }
    let before = page.head();
    alter(
        space,
        id,
        Edit::SetHead {
            before,
            after: head,
        },
    )
}

/// Copies the cells of a page from a place on behind those of another.
pub(crate) fn fill<P: PageSource>(
    alloc: Global,
    space: &mut Workspace<P>,
    from: u64,
    start: u16,
    to: u64,
) -> Result<(), EditFault>
    ensures filled { from ≢ to → OnOk result (Alters (meant P.pages space.old) (meant P.pages space.new) to
        (meant P.pages space.old to).head ((meant P.pages space.old to).cells ++ drop start (meant P.pages space.old from).cells)) }
    ensures fit { from ≢ to →
        HasRoom ((meant P.pages space.old to).cells ++ drop start (meant P.pages space.old from).cells) →
        IsNotUnfit result }
    ensures base { P.pages space.new.base ≡ P.pages space.old.base }
    ensures excused { IsEditExcused result (P.losses space.old.base) (P.losses space.new.base) }
{
    space.load_to_edit(from)?;
    let count = space.page().count();
    'filling: for at in start..count {
        copy_cell(alloc, space, from, at, to)?;
    }
    Ok(())
}

/// Copies a cell of a page behind those of another.
fn copy_cell<P: PageSource>(
    alloc: Global,
    space: &mut Workspace<P>,
    from: u64,
    at: u16,
    to: u64,
) -> Result<(), EditFault>
    ensures copied { OnOk result (CopiesCell (meant P.pages space.old) (meant P.pages space.new) from at to) }
    ensures fit { (cell : List ℕ) → slice_get (meant P.pages space.old from).cells at ≡ Some cell →
        HasRoom ((meant P.pages space.old to).cells ++ cell ∷ []) → IsNotUnfit result }
    ensures base { P.pages space.new.base ≡ P.pages space.old.base }
    ensures excused { IsEditExcused result (P.losses space.old.base) (P.losses space.new.base) }
{
    space.load_to_edit(from)?;
    let cell = copied(alloc, space.page(), at)?;
    space.load_to_edit(to)?;
    let count = space.page().count();
    alter(space, to, Edit::PutCell { at: count, cell })
}

/// A copy of the cell at a place.
pub(crate) fn copied(alloc: Global, page: &Page, at: u16) -> Result<Cell, EditFault>
    ensures cell { IfOk result (λ c. slice_get page.now.cells at ≡ Some c) }
    ensures fit { at < length page.now.cells → IsNotUnfit result }
    ensures excused { (count : ℕ) → IsEditExcused result count count }
{
    let Some(cell) = page.cell(at) else {
        return Err(EditFault::Unfit);
    };
    Cell::from_slice(alloc, cell).map_err(|_| EditFault::NoMemory)
}

/// Takes the cells from a place on away.
pub(crate) fn trim<P: PageSource>(
    alloc: Global,
    space: &mut Workspace<P>,
    id: u64,
    at: u16,
) -> Result<(), EditFault>
    ensures trimmed { OnOk result (Alters (meant P.pages space.old) (meant P.pages space.new) id
        (meant P.pages space.old id).head (take at (meant P.pages space.old id).cells)) }
    ensures fit { IsNotUnfit result }
    ensures base { P.pages space.new.base ≡ P.pages space.old.base }
    ensures excused { IsEditExcused result (P.losses space.old.base) (P.losses space.new.base) }
{
    space.load_to_edit(id)?;
    let count = space.page().count();
    'trimming: for _ in at..count {
        take_at(alloc, space, id, at)?;
    }
    Ok(())
}

/// Takes the cell at a place away. `Unfit` comes only where there is none.
pub(crate) fn take_at<P: PageSource>(
    alloc: Global,
    space: &mut Workspace<P>,
    id: u64,
    at: u16,
) -> Result<(), EditFault>
    ensures taken { OnOk result (TakesAt (meant P.pages space.old) (meant P.pages space.new) id at) }
    ensures fit { at < length (meant P.pages space.old id).cells → IsNotUnfit result }
    ensures base { P.pages space.new.base ≡ P.pages space.old.base }
    ensures excused { IsEditExcused result (P.losses space.old.base) (P.losses space.new.base) }
{
    space.load_to_edit(id)?;
    let page = space.page();
    // the cells that are left fit, since all of them do
    let _space = page.space();
    let cell = copied(alloc, page, at)?;
    alter(space, id, Edit::TakeCell { at, cell })
}
