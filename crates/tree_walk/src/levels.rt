//! One level of a walk.
ghost use Rattle.std.specs.Prelude.{◌≡◌, ◌+◌, ◌≤◌, ◌++◌, IfOk, OnOk, length, true, false, option_map};
ghost use Rattle.page_store.specs.Sources.{IsExcused};
ghost use Rattle.btree_index.specs.Trees.{below};
ghost use Rattle.tree_walk.specs.Walks.{is_inner, is_leaf_of, descend, gather};

use crate::cells::cells_in;
use crate::checks::{is_inner_page, is_leaf_here};
use crate::lows::{Low, add_below};
use crate::visits::VisitedPages;
use page_store::{Cell, Page, PageFault};
use std::alloc::{AllocError, Global};

/// Adds the entries below a page, and tells whether it is what it is to be.
fn add_page(
    alloc: Global,
    page: &Page,
    height: u64,
    low: &Cell,
    next: &mut Vec<Low>,
) -> Result<bool, AllocError>
    ensures told { IfOk result (λ went. went ≡ is_inner height page.now.head page.now.cells) }
    ensures added { IfOk result (λ went. went ≡ true → next.new.items ≡ next.old.items ++ below low.now page.now.cells) }
{
    let cells = cells_in(alloc, page)?;
    if !is_inner_page(page, cells.as_slice(), height) {
        return Ok(false);
    }
    add_below(alloc, next, low, cells.as_slice())?;
    Ok(true)
}

/// One level down; `None` where a page is not what it is to be.
pub(crate) fn inner_level<P: VisitedPages>(
    alloc: Global,
    pages: &mut P,
    height: u64,
    level: &[Low],
) -> Result<Option<Vec<Low>>, PageFault>
    ensures found { IfOk result (λ r. option_map (λ v. v.items) r ≡ descend (P.pages pages.old) height level.now) }
    ensures pages { P.pages pages.new ≡ P.pages pages.old }
    ensures below { P.below pages.new ≡ P.below pages.old }
    ensures visited { P.visits pages.new ≤ P.visits pages.old + length level.now }
    ensures excused { IsExcused result (P.losses pages.old) (P.losses pages.new) }
{
    let mut next = Vec::new(alloc);
    let mut rest = level;
    'along: while let Some((entry, after)) = rest.split_first() {
        pages.visit(entry.page)?;
        let went = add_page(alloc, pages.page(), height, &entry.low, &mut next).map_err(
            |_| PageFault::NoMemory,
        )?;
        if !went {
            return Ok(None);
        }
        rest = after;
    }
    Ok(Some(next))
}

/// Adds the cells of a leaf, and tells whether it is what it is to be.
fn add_leaf(
    alloc: Global,
    page: &Page,
    entry: &Low,
    others: &[Low],
    found: &mut Vec<Cell>,
) -> Result<bool, AllocError>
    ensures told { IfOk result (λ went. went ≡ is_leaf_of entry.now others.now page.now) }
    ensures added { IfOk result (λ went. went ≡ true → found.new.items ≡ found.old.items ++ page.now.cells) }
{
    let cells = cells_in(alloc, page)?;
    if !is_leaf_here(page, cells.as_slice(), entry, others) {
        return Ok(false);
    }
    add_cells(alloc, found, cells.as_slice())?;
    Ok(true)
}

/// Adds copies of cells.
fn add_cells(alloc: Global, found: &mut Vec<Cell>, cells: &[Cell]) -> Result<(), AllocError>
    ensures { OnOk result (found.new.items ≡ found.old.items ++ cells.now) }
{
    let mut rest = cells;
    'adding: while let Some((cell, after)) = rest.split_first() {
        found.push(Cell::from_slice(alloc, cell.as_slice())?)?;
        rest = after;
    }
    Ok(())
}

/// The cells of the leaves; `None` where one is not what it is to be.
pub(crate) fn leaf_level<P: VisitedPages>(
    alloc: Global,
    pages: &mut P,
    level: &[Low],
) -> Result<Option<Vec<Cell>>, PageFault>
    ensures found { IfOk result (λ r. option_map (λ v. v.items) r ≡ gather (P.pages pages.old) level.now) }
    ensures pages { P.pages pages.new ≡ P.pages pages.old }
    ensures below { P.below pages.new ≡ P.below pages.old }
    ensures visited { P.visits pages.new ≤ P.visits pages.old + length level.now }
    ensures excused { IsExcused result (P.losses pages.old) (P.losses pages.new) }
{
    let mut found = Vec::new(alloc);
    let mut rest = level;
    'along: while let Some((entry, after)) = rest.split_first() {
        pages.visit(entry.page)?;
        let went = add_leaf(alloc, pages.page(), entry, after, &mut found).map_err(
            |_| PageFault::NoMemory,
        )?;
        if !went {
            return Ok(None);
        }
        rest = after;
    }
    Ok(Some(found))
}
