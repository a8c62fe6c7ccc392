//! Places of keys among the cells of a page, found by halves.
ghost use Rattle.std.specs.Prelude.{ℕ, ◌≡◌, ◌≤◌, List, Some, length, drop};
ghost use Rattle.std.specs.List.{slice_get};
ghost use Rattle.btree_index.specs.Cells.{key_of_cell};
ghost use Rattle.btree_index.specs.Keys.{before};
ghost use Rattle.btree_index.specs.Pairs.{place_in, is_above, turn};
ghost use Rattle.btree_index.specs.Trees.{Ascends};

use crate::cells::key_in;
use crate::keys::is_before;
use page_store::Page;

/// How many cells come before a key, where their keys rise.
pub(crate) fn count_before(page: &Page, key: &[u8]) -> u16
    ensures place { Ascends page.now.cells → result ≡ place_in key.now page.now.cells }
    ensures within { result ≤ length page.now.cells }
{
    let mut low = 0u16;
    let mut high = page.count();
    'halving: while low < high {
        let middle = low + (high - low) / 2;
        if is_cell_before(page, middle, key) {
            low = middle + 1;
        } else {
            high = middle;
        }
    }
    low
}

/// How many cells behind the first one are not above a key, where their keys do not fall.
pub(crate) fn turn_for(page: &Page, key: &[u8]) -> u16
    ensures { result ≡ turn key.now (drop 1 page.now.cells) }
{
    let mut low = 0u16;
    let mut high = page.count().saturating_sub(1);
    'halving: while low < high {
        let middle = low + (high - low) / 2;
        if is_cell_above(page, middle + 1, key) {
            high = middle;
        } else {
            low = middle + 1;
        }
    }
    low
}

/// Whether there is a cell at a place, and above a key.
fn is_cell_above(page: &Page, at: u16, key: &[u8]) -> bool
    ensures { result ≡ is_above key.now (slice_get page.now.cells at) }
{
    match page.cell(at) {
        Some(cell) => is_before(key, key_in(cell)),
        None => false,
    }
}

/// Whether the cell at a place comes before a key.
fn is_cell_before(page: &Page, at: u16, key: &[u8]) -> bool
    ensures { (cell : List ℕ) → slice_get page.now.cells at ≡ Some cell → result ≡ before (key_of_cell cell) key.now }
{
    match page.cell(at) {
        Some(cell) => is_before(key_in(cell), key),
        None => false,
    }
}
