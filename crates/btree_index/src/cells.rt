ghost use Rattle.std.specs.Prelude.{◌≡◌, ◌<◌, ◌^◌, MatchOption, IfOk, length};
ghost use Rattle.btree_index.specs.Cells.{key_of_cell, value_of_cell, child_of, leaf_cell, inner_cell};

use byte_words::{put_u16, put_u64};
use byteorder::{BigEndian, ByteOrder};
use page_store::Cell;
use std::alloc::{AllocError, Global};

/// The key of a cell, as far as it is there: nothing of a cell that is too short to tell its key's length.
pub fn key_in(cell: &[u8]) -> &[u8]
    ensures { result.now ≡ key_of_cell cell.now }
{
    if cell.len() < 2 {
        return &cell[..0];
    }
    let size = BigEndian::read_u16(cell) as usize;
    let (_, rest) = cell.split_at(2);
    if rest.len() < size {
        return rest;
    }
    let (key, _) = rest.split_at(size);
    key
}

/// What a cell has for its key, which is nothing in a cell that is too short.
pub fn value_in(cell: &[u8]) -> &[u8]
    ensures { result.now ≡ value_of_cell cell.now }
{
    if cell.len() < 2 {
        return &cell[..0];
    }
    let size = BigEndian::read_u16(cell) as usize;
    if cell.len() - 2 < size {
        return &cell[..0];
    }
    let (_, value) = cell.split_at(2 + size);
    value
}

/// The child of a cell above the leaves; `None` where it has no room for one.
pub(crate) fn child_in(cell: &[u8]) -> Option<u64>
    ensures { MatchOption result (length (value_of_cell cell.now) < 8) (λ n. n ≡ child_of cell.now) }
{
    let value = value_in(cell);
    if value.len() < 8 {
        return None;
    }
    Some(BigEndian::read_u64(value))
}

/// The cell of a leaf with this key and this value.
pub(crate) fn make_leaf_cell(alloc: Global, key: &[u8], value: &[u8]) -> Result<Cell, AllocError>
    requires { length key.now < 2 ^ 16 }
    ensures { IfOk result (λ c. c ≡ leaf_cell key.now value.now) }
{
    let mut bytes = Vec::new(alloc);
    put_u16(&mut bytes, key.len() as u16)?;
    bytes.extend_from_slice(key)?;
    bytes.extend_from_slice(value)?;
    Ok(Cell::new(bytes))
}

/// The cell above the leaves with this key and this child.
pub(crate) fn make_inner_cell(alloc: Global, key: &[u8], child: u64) -> Result<Cell, AllocError>
    requires { length key.now < 2 ^ 16 }
    ensures { IfOk result (λ c. c ≡ inner_cell key.now child) }
{
    let mut bytes = Vec::new(alloc);
    put_u16(&mut bytes, key.len() as u16)?;
    bytes.extend_from_slice(key)?;
    put_u64(&mut bytes, child)?;
    Ok(Cell::new(bytes))
}
