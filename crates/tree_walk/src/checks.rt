//! Pages as they are to be in a tree.
ghost use Rattle.std.specs.Prelude.{◌≡◌, ◌+◌, not, length, nat_le};
ghost use Rattle.std.specs.List.{list_all};
ghost use Rattle.page_store.specs.Image.{taken};
ghost use Rattle.btree_index.specs.Keys.{before};
ghost use Rattle.btree_index.specs.Cells.{key_of_cell};
ghost use Rattle.tree_walk.specs.Walks.{is_leaf_kind, is_inner_kind, is_leaf_cell, is_inner_cell, begins_empty, is_leaf, is_inner, is_under, is_up_to, ascend, is_fenced, is_linked, is_leaf_of};

use crate::cells::{may_stand_above, may_stand_in_leaf};
use crate::lows::Low;
use btree_index::{is_before, key_in};
use page_store::{Cell, Page, PageKind};

/// Whether a kind is that of leaves.
pub(crate) fn is_leaf_page_kind(kind: PageKind) -> bool
    ensures { result ≡ is_leaf_kind kind }
{
    match kind {
        PageKind::Leaf => true,
        PageKind::Free | PageKind::Inner | PageKind::Meta => false,
    }
}

/// Whether a kind is that of pages above the leaves.
pub(crate) fn is_inner_page_kind(kind: PageKind) -> bool
    ensures { result ≡ is_inner_kind kind }
{
    match kind {
        PageKind::Inner => true,
        PageKind::Free | PageKind::Leaf | PageKind::Meta => false,
    }
}

/// Whether each cell may stand in a leaf.
fn are_leaf_cells(cells: &[Cell]) -> bool
    ensures { result ≡ list_all is_leaf_cell cells.now }
{
    cells.iter().all(|c| may_stand_in_leaf(c.as_slice()))
}

/// Whether each cell may stand above the leaves.
fn are_inner_cells(cells: &[Cell]) -> bool
    ensures { result ≡ list_all is_inner_cell cells.now }
{
    cells.iter().all(|c| may_stand_above(c.as_slice()))
}

/// Whether the first cell is there and has the empty key.
fn begins_with_empty(cells: &[Cell]) -> bool
    ensures { result ≡ begins_empty cells.now }
{
    match cells.split_first() {
        None => false,
        Some((cell, _)) => key_in(cell.as_slice()).len() == 0,
    }
}

/// Whether a page is a leaf.
fn is_leaf_page(page: &Page, cells: &[Cell]) -> bool
    requires { cells.now ≡ page.now.cells }
    ensures { result ≡ is_leaf page.now.head page.now.cells }
{
    let _space = page.space();
    is_leaf_page_kind(page.head().kind) && (page.head().level == 0 && are_leaf_cells(cells))
}

/// Whether a page is one so far above the leaves.
pub(crate) fn is_inner_page(page: &Page, cells: &[Cell], height: u64) -> bool
    requires { cells.now ≡ page.now.cells }
    ensures { result ≡ is_inner height page.now.head page.now.cells }
{
    let _space = page.space();
    is_inner_page_kind(page.head().kind)
        && (u64::from(page.head().level) == height.min(255)
            && (begins_with_empty(cells) && are_inner_cells(cells)))
}

/// Whether a key is below the first of these entries.
fn is_key_under(key: &[u8], others: &[Low]) -> bool
    ensures { result ≡ is_under key.now others.now }
{
    match others.split_first() {
        None => true,
        Some((entry, _)) => is_before(key, entry.low.as_slice()),
    }
}

/// Whether a key is not above the first of these entries.
fn is_key_up_to(key: &[u8], others: &[Low]) -> bool
    ensures { result ≡ is_up_to key.now others.now }
{
    match others.split_first() {
        None => true,
        Some((entry, _)) => !is_before(entry.low.as_slice(), key),
    }
}

/// Whether the keys of cells rise.
fn is_rising(cells: &[Cell]) -> bool
    ensures { result ≡ ascend cells.now }
{
    let Some((first, others)) = cells.split_first() else {
        return true;
    };
    let mut cell = first;
    let mut rest = others;
    'rising: while let Some((next, after)) = rest.split_first() {
        if !is_before(key_in(cell.as_slice()), key_in(next.as_slice())) {
            return false;
        }
        cell = next;
        rest = after;
    }
    true
}

/// Whether no key of cells comes before a least one.
fn are_from(cells: &[Cell], low: &[u8]) -> bool
    ensures { result ≡ list_all (λ c. not (before (key_of_cell c) low.now)) cells.now }
{
    cells.iter().all(|c| !is_before(key_in(c.as_slice()), low))
}

/// Whether each key of cells comes before the least one of the next page.
fn are_under(cells: &[Cell], others: &[Low]) -> bool
    ensures { result ≡ list_all (λ c. is_under (key_of_cell c) others.now) cells.now }
{
    cells
        .iter()
        .all(|c| is_key_under(key_in(c.as_slice()), others))
}

/// Whether the keys of a leaf are in order between those of its neighbours.
fn is_page_fenced(low: &[u8], cells: &[Cell], others: &[Low]) -> bool
    ensures { result ≡ is_fenced low.now cells.now others.now }
{
    are_from(cells, low)
        && (are_under(cells, others) && (is_rising(cells) && is_key_up_to(low, others)))
}

/// Whether a leaf links to the next one.
fn is_page_linked(right: u64, others: &[Low]) -> bool
    ensures { result ≡ is_linked right others.now }
{
    match others.split_first() {
        None => right == 0,
        Some((entry, _)) => right == entry.page,
    }
}

/// Whether a page is a leaf before these others.
pub(crate) fn is_leaf_here(page: &Page, cells: &[Cell], entry: &Low, others: &[Low]) -> bool
    requires { cells.now ≡ page.now.cells }
    ensures { result ≡ is_leaf_of entry.now others.now page.now }
{
    is_leaf_page(page, cells)
        && (is_page_fenced(entry.low.as_slice(), cells, others)
            && is_page_linked(page.head().right, others))
}
