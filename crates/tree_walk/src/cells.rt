//! Cells as they are to be in a tree.
ghost use Rattle.std.specs.Prelude.{◌≡◌, ◌<◌, ◌≤◌, IfOk, length, true};
ghost use Rattle.btree_index.specs.Cells.{child_of, key_size};
ghost use Rattle.tree_walk.specs.Walks.{is_leaf_cell, is_inner_cell};

use btree_index::value_in;
use byteorder::{BigEndian, ByteOrder};
use page_store::{Cell, Page};
use std::alloc::{AllocError, Global};

/// The bytes that a cell tells for its key.
fn size_in(cell: &[u8]) -> u16
    requires { 2 ≤ length cell.now }
    ensures { result ≡ key_size cell.now }
{
    BigEndian::read_u16(cell)
}

/// Whether a cell may stand in a leaf.
pub(crate) fn may_stand_in_leaf(cell: &[u8]) -> bool
    ensures { result ≡ is_leaf_cell cell.now }
{
    if cell.len() < 2 {
        return false;
    }
    let size = size_in(cell) as usize;
    2 + size <= cell.len() && (size <= 1630 && cell.len() <= 1640)
}

/// Whether a cell may stand above the leaves.
pub(crate) fn may_stand_above(cell: &[u8]) -> bool
    ensures { result ≡ is_inner_cell cell.now }
{
    if cell.len() < 2 {
        return false;
    }
    let size = size_in(cell) as usize;
    cell.len() == 2 + size + 8 && size <= 1630
}

/// The child of a cell above the leaves.
pub(crate) fn child_in(cell: &[u8]) -> u64
    requires { is_inner_cell cell.now ≡ true }
    ensures { result ≡ child_of cell.now }
{
    BigEndian::read_u64(value_in(cell))
}

/// Copies of the cells of a page.
pub(crate) fn cells_in(alloc: Global, page: &Page) -> Result<Vec<Cell>, AllocError>
    ensures { IfOk result (λ v. v.items ≡ page.now.cells) }
{
    let mut cells = Vec::new(alloc);
    'copying: for at in 0..page.count() {
        let Some(cell) = page.cell(at) else {
            return Ok(cells);
        };
        cells.push(Cell::from_slice(alloc, cell)?)?;
    }
    Ok(cells)
}
