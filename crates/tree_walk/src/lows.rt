//! Pages of a level with the least keys that may stand below them.
ghost use Rattle.std.specs.Prelude.{◌≡◌, ◌++◌, IfOk, OnOk, true};
ghost use Rattle.std.specs.List.{list_all};
ghost use Rattle.btree_index.specs.Cells.{child_of};
ghost use Rattle.btree_index.specs.Trees.{below, top, entry_of};
ghost use Rattle.tree_walk.specs.Walks.{is_inner_cell};

use crate::cells::child_in;
use btree_index::key_in;
use page_store::Cell;
use std::alloc::{AllocError, Global};
use std::marker::Model;

/// A page of a level, with the least key that may stand below it.
#[derive(Drop)]
pub(crate) struct Low {
    pub(crate) low: Cell,
    pub(crate) page: u64,
}

impl Model for Low {
    ghost use Rattle.btree_index.specs.Trees.{Entry};

    ghost Value = { Entry };

    ghost view = { λ l. record { low = l.low; page = l.page } };
}

/// The root alone.
pub(crate) fn top_level(alloc: Global, root: u64) -> Result<Vec<Low>, AllocError>
    ensures { IfOk result (λ v. v.items ≡ top root) }
{
    let mut level = Vec::new(alloc);
    let low = Cell::new(Vec::new(alloc));
    level.push(Low { low, page: root })?;
    Ok(level)
}

/// The entry of a cell above the leaves.
fn low_of(alloc: Global, cell: &[u8]) -> Result<Low, AllocError>
    requires { is_inner_cell cell.now ≡ true }
    ensures { IfOk result (λ l. l ≡ entry_of cell.now) }
{
    let low = Cell::from_slice(alloc, key_in(cell))?;
    let page = child_in(cell);
    Ok(Low { low, page })
}

/// The entry of the first cell of a page of this least key.
fn first_of(alloc: Global, low: &Cell, cell: &[u8]) -> Result<Low, AllocError>
    requires { is_inner_cell cell.now ≡ true }
    ensures { IfOk result (λ l. l ≡ record { low = low.now; page = child_of cell.now }) }
{
    let low = low.clone()?;
    let page = child_in(cell);
    Ok(Low { low, page })
}

/// Adds the entries below a page of this least key with these cells.
pub(crate) fn add_below(
    alloc: Global,
    next: &mut Vec<Low>,
    low: &Cell,
    cells: &[Cell],
) -> Result<(), AllocError>
    requires { list_all is_inner_cell cells.now ≡ true }
    ensures { OnOk result (next.new.items ≡ next.old.items ++ below low.now cells.now) }
{
    let Some((first, others)) = cells.split_first() else {
        return Ok(());
    };
    next.push(first_of(alloc, low, first.as_slice())?)?;
    let mut rest = others;
    'adding: while let Some((cell, after)) = rest.split_first() {
        next.push(low_of(alloc, cell.as_slice())?)?;
        rest = after;
    }
    Ok(())
}
