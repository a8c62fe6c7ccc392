ghost use Rattle.std.specs.Prelude.{ℕ, ◌≡◌, IfOk, OnErr, OnOk};
ghost use Rattle.page_store.specs.declared.pages.PageKind.TheVariants.{Free};
ghost use Rattle.page_workspace.specs.Drafts.{meant, IsEditExcused, IsNotUnfit};
ghost use Rattle.page_workspace.specs.Metas.{TellsMeta};
ghost use Rattle.page_workspace.specs.Spare.{IsMeta};
ghost use Rattle.page_workspace.specs.Takes.{FreesPage, TakesPage};

use crate::metas::{COUNT_LIMIT, Meta};
use crate::workspaces::{EditFault, Workspace};
use page_store::{Edit, Head, PageKind, PageSource};
use std::alloc::Global;

impl<P: PageSource> Workspace<P> {
    /// Takes the first free page, or the first one that was never written where none is free, by the meta page, and
    /// gives its number. The number of pages stays below 2^62: want of memory is the answer where it would not, too.
    /// `Unfit` comes only where page 0 is no meta page, `Gone` only where the source lost its pages.
    pub fn take_page(&mut self, alloc: Global) -> Result<u64, EditFault>
        ensures taken { IfOk result (TakesPage (meant P.pages self.old) (meant P.pages self.new)) }
        ensures fit { IsMeta (meant P.pages self.old 0) → IsNotUnfit result }
        ensures unchanged { OnErr result (self.new.edits ≡ self.old.edits) }
        ensures base { P.pages self.new.base ≡ P.pages self.old.base }
        ensures excused { IsEditExcused result (P.losses self.old.base) (P.losses self.new.base) }
    {
        let meta = self.meta()?;
        if meta.free == 0 {
            take_new(self, alloc, meta)
        } else {
            take_free(self, alloc, meta)
        }
    }

    /// Gives a page back: it goes in front of the free pages, and keeps its cells. `Unfit` comes only for page 0, and where
    /// page 0 is no meta page; `Gone` only where the source lost its pages. After an error the workspace may only be
    /// dropped.
    pub fn free_page(&mut self, alloc: Global, id: u64) -> Result<(), EditFault>
        ensures freed { OnOk result (FreesPage (meant P.pages self.old) (meant P.pages self.new) id) }
        ensures fit { (id ≡ 0 → ⊥) → IsMeta (meant P.pages self.old 0) → IsNotUnfit result }
        ensures base { P.pages self.new.base ≡ P.pages self.old.base }
        ensures excused { IsEditExcused result (P.losses self.old.base) (P.losses self.new.base) }
    {
        if id == 0 {
            return Err(EditFault::Unfit);
        }
        let meta = self.meta()?;
        self.load_to_edit(id)?;
        let page = self.page();
        // the cells fit, since they are those of a page
        let _space = page.space();
        let before = page.head();
        let after = free_head(meta.free);
        self.edit(id, Edit::SetHead { before, after })?;
        self.set_meta(alloc, Meta { free: id, ..meta })
    }
}

/// The head of a free page before this one.
fn free_head(right: u64) -> Head
    ensures { result ≡ record { kind = Free; level = 0; right = right } }
{
    Head {
        kind: PageKind::Free,
        level: 0,
        right,
    }
}

/// Takes the first page that was never written.
fn take_new<P: PageSource>(
    space: &mut Workspace<P>,
    alloc: Global,
    meta: Meta,
) -> Result<u64, EditFault>
    ensures taken { TellsMeta (meant P.pages space.old) meta → meta.free ≡ 0 →
        IfOk result (TakesPage (meant P.pages space.old) (meant P.pages space.new)) }
    ensures fit { IsMeta (meant P.pages space.old 0) → IsNotUnfit result }
    ensures unchanged { OnErr result (space.new.edits ≡ space.old.edits) }
    ensures base { P.pages space.new.base ≡ P.pages space.old.base }
    ensures excused { IsEditExcused result (P.losses space.old.base) (P.losses space.new.base) }
{
    if meta.count >= COUNT_LIMIT - 1 {
        return Err(EditFault::NoMemory);
    }
    let raised = Meta {
        count: meta.count + 1,
        ..meta
    };
    space.set_meta(alloc, raised)?;
    Ok(meta.count)
}

/// Takes the first free page: the one behind it is the first then.
fn take_free<P: PageSource>(
    space: &mut Workspace<P>,
    alloc: Global,
    meta: Meta,
) -> Result<u64, EditFault>
    ensures taken { TellsMeta (meant P.pages space.old) meta → (meta.free ≡ 0 → ⊥) →
        IfOk result (TakesPage (meant P.pages space.old) (meant P.pages space.new)) }
    ensures fit { IsMeta (meant P.pages space.old 0) → IsNotUnfit result }
    ensures unchanged { OnErr result (space.new.edits ≡ space.old.edits) }
    ensures base { P.pages space.new.base ≡ P.pages space.old.base }
    ensures excused { IsEditExcused result (P.losses space.old.base) (P.losses space.new.base) }
{
    space.load_to_edit(meta.free)?;
    let right = space.page().head().right;
    space.set_meta(
        alloc,
        Meta {
            free: right,
            ..meta
        },
    )?;
    Ok(meta.free)
}
