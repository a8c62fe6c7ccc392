ghost use Rattle.std.specs.Prelude.{ℕ, ◌≡◌, [], ◌∷◌, ◌++◌, List, map, false, option_copied, IfOk, OnOk};
ghost use Rattle.page_store.specs.Sources.{IsExcused};
ghost use Rattle.btree_index.specs.Keys.{Key};
ghost use Rattle.btree_index.specs.Pairs.{between, is_below, HasBeyond};
ghost use Rattle.btree_index.specs.Trees.{Ascends, TreeList, pair_of};

use crate::cells::{key_in, value_in};
use crate::finds::leaf_for;
use crate::keys::is_before;
use crate::places::count_before;
use page_store::{Cell, Page, PageFault, PageSource};
use std::alloc::{AllocError, Global};

/// All pairs of the tree below a root whose keys are not before `low`, and before `high` where it is given, in order.
/// `Gone` comes only where the source lost its pages; the other error is want of memory.
pub fn scan<P: PageSource>(
    alloc: Global,
    pages: &mut P,
    root: u64,
    low: &[u8],
    high: Option<&[u8]>,
) -> Result<Vec<(Cell, Cell)>, PageFault>
    ensures found { (list : List (Key × List ℕ)) → TreeList (P.pages pages.old) root list →
        IfOk result (λ v. v.items ≡ between low.now (option_copied high.entry) list) }
    ensures pages { P.pages pages.new ≡ P.pages pages.old }
    ensures below { P.below pages.new ≡ P.below pages.old }
    ensures excused { IsExcused result (P.losses pages.old) (P.losses pages.new) }
{
    let mut id = leaf_for(pages, root, low)?;
    let mut found = Vec::new(alloc);
    'along: for _ in 0..u64::MAX {
        let page = pages.page();
        let right = page.head().right;
        let goes_on = add_between(alloc, page, low, high, &mut found).map_err(
            |_| PageFault::NoMemory,
        )?;
        if right == 0 || !goes_on {
            return Ok(found);
        }
        pages.load(right)?;
        id = right;
    }
    // no tree has so many leaves
    Err(PageFault::NoMemory)
}

/// Adds the pairs of a leaf that are between, where its keys rise, and tells whether all its keys are below the high
/// one.
fn add_between(
    alloc: Global,
    page: &Page,
    low: &[u8],
    high: Option<&[u8]>,
    found: &mut Vec<(Cell, Cell)>,
) -> Result<bool, AllocError>
    ensures pairs { Ascends page.now.cells →
        OnOk result (found.new.items
        ≡ found.old.items ++ between low.now (option_copied high.entry) (map pair_of page.now.cells)) }
    ensures beyond { IfOk result (λ goes_on. goes_on ≡ false → HasBeyond (option_copied high.entry) page.now.cells) }
{
    'adding: for at in count_before(page, low)..page.count() {
        let Some(cell) = page.cell(at) else {
            return Ok(true);
        };
        if !is_key_below(key_in(cell), high) {
            return Ok(false);
        }
        add_cell(alloc, cell, found)?;
    }
    Ok(true)
}

/// Adds the pair of a cell.
fn add_cell(alloc: Global, cell: &[u8], found: &mut Vec<(Cell, Cell)>) -> Result<(), AllocError>
    ensures { OnOk result (found.new.items ≡ found.old.items ++ pair_of cell.now ∷ []) }
{
    let key = Cell::from_slice(alloc, key_in(cell))?;
    let value = Cell::from_slice(alloc, value_in(cell))?;
    found.push((key, value))?;
    Ok(())
}

/// Whether a key is below another, where one is given.
fn is_key_below(key: &[u8], high: Option<&[u8]>) -> bool
    ensures { result ≡ is_below (option_copied high.entry) key.now }
{
    match high {
        None => true,
        Some(high) => is_before(key, high),
    }
}
