ghost use Rattle.std.specs.Prelude.{ℕ, ◌≡◌, ◌++◌, ◌∷◌, [], None, OnOk, OnErr, IfOk, IsSome, List, option_copied};
ghost use Rattle.page_store.specs.Image.{Image};
ghost use Rattle.page_store.specs.Edits.{IsFit};
ghost use Rattle.page_store.specs.declared.edits.Edit.{Edit};
ghost use Rattle.page_store.specs.Sources.{IsExcused};
ghost use Rattle.page_workspace.specs.Drafts.{meant, edited, edited_by, AreFit, TellsEditFit, IsEditExcused, IsNotUnfit};
ghost use Rattle.page_workspace.specs.Owned.{own_at, or_loaded, IsKept};

use crate::owns::{edit_own, hold, own_page};
use page_store::{ApplyFault, Edit, Page, PageFault, PageSource};
use std::alloc::Global;
use std::collections::HashMap;
use std::marker::Model;
use thiserror::Error;

/// Why an edit was not made.
#[derive(Debug, Drop, Error)]
pub enum EditFault {
    /// The place is out of range, something else stands there, or what the edit leaves does not fit the page.
    #[error("the edit does not fit the page")]
    Unfit,
    /// The one who gives the pages is gone; the source's count of losses rose.
    #[error("the pages are gone")]
    Gone,
    /// Want of memory.
    #[error("out of memory")]
    NoMemory,
}

/// Edits over the pages of a source, in order. The source stays as it is; the workspace is itself a source, of the
/// pages after the edits.
#[derive(Debug, Drop)]
pub struct Workspace<P: PageSource> {
    base: P,
    edits: Vec<(u64, Edit)>,
    owns: HashMap<u64, Page>,
    at: Option<u64>,
}

impl<P: PageSource> Model for Workspace<P> {
    ghost use Rattle.page_workspace.specs.Drafts.{Draft};
    ghost use Rattle.page_workspace.specs.Owned.{own_at, or_loaded, IsKept};

    ghost Value = { Draft P };

    ghost view = { λ w. record { base = w.base; edits = w.edits.items; loaded = or_loaded (own_at w.owns.entries w.at) (P.loaded w.base) } };

    ghost invariant = { λ w. IsKept w.owns.entries w.edits.items (P.pages w.base) };
}

impl<P: PageSource> PageSource for Workspace<P> {
    ghost pages = { λ w. meant P.pages w };

    ghost below = { λ w. P.pages w.base };

    ghost loaded = { λ w. w.loaded };

    ghost losses = { λ w. P.losses w.base };

    fn load(&mut self, id: u64) -> Result<(), PageFault>
        ensures base { P.pages self.new.base ≡ P.pages self.old.base }
        ensures edits { self.new.edits ≡ self.old.edits }
        ensures loaded { OnOk result (self.new.loaded ≡ Some (meant P.pages self.old id)) }
        ensures none { OnErr result (self.new.loaded ≡ None) }
        ensures excused { IsExcused result (P.losses self.old.base) (P.losses self.new.base) }
    {
        if self.owns.contains_key(&id) {
            self.at = Some(id);
            return Ok(());
        }
        self.at = None;
        self.base.load(id)
    }

    fn page(&self) -> &Page {
        match own_page(&self.owns, self.at) {
            Some(page) => page,
            None => self.base.page(),
        }
    }
}

impl<P: PageSource> Workspace<P> {
    /// A workspace over these pages, without edits. Nothing is allocated yet.
    pub fn new(alloc: Global, base: P) -> Workspace<P>
        ensures { result ≡ record { base = base; edits = []; loaded = P.loaded base } }
    {
        Workspace {
            base,
            edits: Vec::new(alloc),
            owns: HashMap::new(alloc),
            at: None,
        }
    }

    /// Makes a page the loaded one, as `load` does, with the faults of an edit; `Unfit` never comes. After an error no page
    /// is loaded.
    pub fn load_to_edit(&mut self, id: u64) -> Result<(), EditFault>
        ensures base { P.pages self.new.base ≡ P.pages self.old.base }
        ensures edits { self.new.edits ≡ self.old.edits }
        ensures pages { meant P.pages self.new ≡ meant P.pages self.old }
        ensures loaded { OnOk result (self.new.loaded ≡ Some (meant P.pages self.old id)) }
        ensures none { OnErr result (self.new.loaded ≡ None) }
        ensures fit { IsNotUnfit result }
        ensures excused { IsEditExcused result (P.losses self.old.base) (P.losses self.new.base) }
    {
        match self.load(id) {
            Ok(()) => Ok(()),
            Err(PageFault::Gone) => Err(EditFault::Gone),
            Err(PageFault::NoMemory) => Err(EditFault::NoMemory),
        }
    }

    /// Makes an edit of a page. Another page may be the loaded one afterwards, or none. `Unfit` comes only where the
    /// edit does not fit, `Gone` only where the source lost its pages; the other error is want of memory.
    pub fn edit(&mut self, id: u64, edit: Edit) -> Result<(), EditFault>
        ensures made { OnOk result (self.new.edits ≡ self.old.edits ++ (id, edit) ∷ []) }
        ensures pages { OnOk result (meant P.pages self.new ≡ edited (meant P.pages self.old) id edit) }
        ensures fits { TellsEditFit result (IsFit (meant P.pages self.old id) edit) }
        ensures unchanged { OnErr result (self.new.edits ≡ self.old.edits) }
        ensures base { P.pages self.new.base ≡ P.pages self.old.base }
        ensures excused { IsEditExcused result (P.losses self.old.base) (P.losses self.new.base) }
    {
        edit_parts(&mut self.base, &mut self.owns, &mut self.edits, id, edit)
    }

    /// The edits in order, each with the number of its page. Applied to the pages below they give the pages of the
    /// workspace, and each fits.
    pub fn finish(self) -> Vec<(u64, Edit)>
    where
        P: Drop,
        ensures edits { result.items ≡ self.edits }
        ensures fit { AreFit result.items (P.pages self.base) }
        ensures pages { (n : ℕ) → edited_by result.items (P.pages self.base) n ≡ meant P.pages self n }
    {
        let Workspace { edits, .. } = self;
        edits
    }
}

/// Makes an edit on the parts of a workspace.
fn edit_parts<P: PageSource>(
    base: &mut P,
    owns: &mut HashMap<u64, Page>,
    edits: &mut Vec<(u64, Edit)>,
    id: u64,
    edit: Edit,
) -> Result<(), EditFault>
    ensures kept { IsKept owns.old.entries edits.old.items (P.pages base.old) → IsKept owns.new.entries edits.new.items (P.pages base.new) }
    ensures made { OnOk result (edits.new.items ≡ edits.old.items ++ (id, edit) ∷ []) }
    ensures fits { IsKept owns.old.entries edits.old.items (P.pages base.old) →
        TellsEditFit result (IsFit (edited_by edits.old.items (P.pages base.old) id) edit) }
    ensures unchanged { OnErr result (edits.new.items ≡ edits.old.items) }
    ensures pages { P.pages base.new ≡ P.pages base.old }
    ensures excused { IsEditExcused result (P.losses base.old) (P.losses base.new) }
{
    hold(base, owns, id)?;
    edits.reserve(1).map_err(|_| EditFault::NoMemory)?;
    edit_own(owns, id, &edit)?;
    match edits.push((id, edit)) {
        Ok(()) => Ok(()),
        Err(_) => unreachable!(),
    }
}
