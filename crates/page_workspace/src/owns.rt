ghost use Rattle.std.specs.Prelude.{ℕ, ◌≡◌, IsSome, OnOk, OnErr, option_copied};
ghost use Rattle.page_store.specs.Image.{Image};
ghost use Rattle.page_store.specs.Edits.{IsFit, TellsFit};
ghost use Rattle.page_workspace.specs.Drafts.{edited, TellsEditFit, IsEditExcused, IsNotUnfit};
ghost use Rattle.page_workspace.specs.Owned.{own_of, own_at, overlay};

use crate::workspaces::EditFault;
use page_store::{ApplyFault, Edit, Page, PageFault, PageSource, apply};
use std::collections::HashMap;

/// The own page of a number, where one is told and is there.
pub(crate) fn own_page(owns: &HashMap<u64, Page>, id: Option<u64>) -> Option<&Page>
    ensures { option_copied result ≡ own_at owns.now.entries id }
{
    owns.get(&id?)
}

/// Loads a page below.
fn load_below<P: PageSource>(base: &mut P, id: u64) -> Result<(), EditFault>
    ensures loaded { OnOk result (P.loaded base.new ≡ Some (P.pages base.old id)) }
    ensures pages { P.pages base.new ≡ P.pages base.old }
    ensures excused { IsEditExcused result (P.losses base.old) (P.losses base.new) }
    ensures reading { IsNotUnfit result }
{
    match base.load(id) {
        Ok(()) => Ok(()),
        Err(PageFault::Gone) => Err(EditFault::Gone),
        Err(PageFault::NoMemory) => Err(EditFault::NoMemory),
    }
}

/// Sees to it that there is an own page of a number; it is a copy of the page below where there was none.
pub(crate) fn hold<P: PageSource>(
    base: &mut P,
    owns: &mut HashMap<u64, Page>,
    id: u64,
) -> Result<(), EditFault>
    ensures held { OnOk result (IsSome (own_of owns.new.entries id)) }
    ensures same { (n : ℕ) → overlay owns.new.entries (P.pages base.old) n ≡ overlay owns.old.entries (P.pages base.old) n }
    ensures pages { P.pages base.new ≡ P.pages base.old }
    ensures excused { IsEditExcused result (P.losses base.old) (P.losses base.new) }
    ensures reading { IsNotUnfit result }
{
    if owns.contains_key(&id) {
        return Ok(());
    }
    load_below(base, id)?;
    let page = base.page().copy().map_err(|_| EditFault::NoMemory)?;
    match owns.insert(id, page) {
        Ok(_) => Ok(()),
        Err(_) => Err(EditFault::NoMemory),
    }
}

/// Makes an edit on the own page of a number, and leaves its LSN.
pub(crate) fn edit_own(owns: &mut HashMap<u64, Page>, id: u64, edit: &Edit) -> Result<(), EditFault>
    requires { IsSome (own_of owns.old.entries id) }
    ensures made { OnOk result ((pages : ℕ → Image) (n : ℕ) → overlay owns.new.entries pages n ≡ edited (overlay owns.old.entries pages) id edit.now n) }
    ensures fits { (pages : ℕ → Image) → TellsEditFit result (IsFit (overlay owns.old.entries pages id) edit.now) }
    ensures unchanged { OnErr result (owns.new.entries ≡ owns.old.entries) }
    ensures excused { (count : ℕ) → IsEditExcused result count count }
{
    match apply_own(owns, id, edit) {
        Ok(()) => Ok(()),
        Err(ApplyFault::Unfit) => Err(EditFault::Unfit),
        Err(ApplyFault::NoMemory) => Err(EditFault::NoMemory),
    }
}

/// The same, with the fault of the page alone.
fn apply_own(owns: &mut HashMap<u64, Page>, id: u64, edit: &Edit) -> Result<(), ApplyFault>
    requires { IsSome (own_of owns.old.entries id) }
    ensures made { OnOk result ((pages : ℕ → Image) (n : ℕ) → overlay owns.new.entries pages n ≡ edited (overlay owns.old.entries pages) id edit.now n) }
    ensures fits { (pages : ℕ → Image) → TellsFit result (IsFit (overlay owns.old.entries pages id) edit.now) }
    ensures unchanged { OnErr result (owns.new.entries ≡ owns.old.entries) }
{
    match owns.get_mut(&id) {
        Some(page) => {
            let lsn = page.lsn();
            apply(page, edit, lsn)
        }
        None => unreachable!(),
    }
}
