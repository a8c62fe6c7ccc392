//! The walk.
ghost use Rattle.std.specs.Prelude.{ℕ, ◌≡◌, ◌+◌, ◌*◌, ◌≤◌, ◌++◌, IfOk, IfSome, OnOk, false, length, map, nat_lt};
ghost use Rattle.page_store.specs.Sources.{IsExcused};
ghost use Rattle.btree_index.specs.Trees.{top, page_of};
ghost use Rattle.tree_walk.specs.Walks.{left_child, depth_from, IsDown, IsWalked};

use crate::cells::{child_in, may_stand_above};
use crate::checks::{is_inner_page_kind, is_leaf_page_kind};
use crate::levels::{inner_level, leaf_level};
use crate::lows::{Low, top_level};
use crate::visits::VisitedPages;
use page_store::{Cell, Page, PageFault};
use std::alloc::{AllocError, Global};

/// The pages of a tree, from the root down, and the cells of its leaves.
#[derive(Drop)]
pub struct Walked {
    /// The numbers of its pages, from the root down, level by level.
    pub own: Vec<u64>,
    /// The cells of its leaves, in the order of their keys.
    pub cells: Vec<Cell>,
}

/// The tree below a root of any pages, by its pages and the cells of its leaves; `None` where there is none, or where it has
/// more pages than the limit. That no page comes twice is not asked; one that comes twice counts twice. Whatever comes of it,
/// the source is asked for no more pages than the limit on the way along the first cells, and for no more on the way down.
pub fn walk<P: VisitedPages>(
    alloc: Global,
    pages: &mut P,
    root: u64,
    limit: u64,
) -> Result<Option<Walked>, PageFault>
    ensures walked { IfOk result (IsWalked (P.pages pages.old) root limit) }
    ensures few { IfOk result (λ found. IfSome found (λ w. length w.own.items ≤ limit)) }
    ensures pages { P.pages pages.new ≡ P.pages pages.old }
    ensures below { P.below pages.new ≡ P.below pages.old }
    ensures visited { P.visits pages.new ≤ P.visits pages.old + 2 * limit }
    ensures excused { IsExcused result (P.losses pages.old) (P.losses pages.new) }
{
    let Some(height) = height_of(pages, root, limit)? else {
        return Ok(None);
    };
    walk_down(alloc, pages, root, height, limit)
}

/// The child of the first cell above the leaves.
fn first_child(page: &Page) -> Option<u64>
    ensures { result ≡ left_child page.now.cells }
{
    let cell = page.cell(0)?;
    if !may_stand_above(cell) {
        return None;
    }
    Some(child_in(cell))
}

/// How far above the leaves a root stands, by the way along the first cells.
fn height_of<P: VisitedPages>(
    pages: &mut P,
    root: u64,
    limit: u64,
) -> Result<Option<u64>, PageFault>
    ensures found { IfOk result (λ r. r ≡ depth_from (P.pages pages.old) limit root 0) }
    ensures pages { P.pages pages.new ≡ P.pages pages.old }
    ensures below { P.below pages.new ≡ P.below pages.old }
    ensures visited { P.visits pages.new ≤ P.visits pages.old + limit }
    ensures excused { IsExcused result (P.losses pages.old) (P.losses pages.new) }
{
    let mut id = root;
    let mut turns = limit;
    let mut height = 0;
    'down: while turns > 0 {
        pages.visit(id)?;
        let page = pages.page();
        if is_leaf_page_kind(page.head().kind) {
            return Ok(Some(height));
        }
        if !is_inner_page_kind(page.head().kind) {
            return Ok(None);
        }
        let Some(child) = first_child(page) else {
            return Ok(None);
        };
        id = child;
        turns -= 1;
        height += 1;
    }
    Ok(None)
}

/// Adds the numbers of the pages of a level.
fn add_pages(own: &mut Vec<u64>, level: &[Low]) -> Result<(), AllocError>
    ensures { OnOk result (own.new.items ≡ own.old.items ++ map page_of level.now) }
{
    let mut rest = level;
    'adding: while let Some((entry, after)) = rest.split_first() {
        own.push(entry.page)?;
        rest = after;
    }
    Ok(())
}

/// Whether there are more numbers than the limit.
fn is_past(own: &Vec<u64>, limit: u64) -> bool
    ensures told { result ≡ nat_lt limit (length own.now.items) }
    ensures few { result ≡ false → length own.now.items ≤ limit }
{
    own.len() as u64 > limit
}

/// The way down from a root of this height.
fn walk_down<P: VisitedPages>(
    alloc: Global,
    pages: &mut P,
    root: u64,
    height: u64,
    limit: u64,
) -> Result<Option<Walked>, PageFault>
    ensures down { IfOk result (IsDown (P.pages pages.old) root height limit) }
    ensures few { IfOk result (λ found. IfSome found (λ w. length w.own.items ≤ limit)) }
    ensures pages { P.pages pages.new ≡ P.pages pages.old }
    ensures below { P.below pages.new ≡ P.below pages.old }
    ensures visited { P.visits pages.new ≤ P.visits pages.old + limit }
    ensures excused { IsExcused result (P.losses pages.old) (P.losses pages.new) }
{
    let mut own = Vec::new(alloc);
    let mut level = top_level(alloc, root).map_err(|_| PageFault::NoMemory)?;
    let mut above = height;
    'down: while above > 0 {
        add_pages(&mut own, level.as_slice()).map_err(|_| PageFault::NoMemory)?;
        if is_past(&own, limit) {
            return Ok(None);
        }
        let Some(next) = inner_level(alloc, pages, above, level.as_slice())? else {
            return Ok(None);
        };
        level = next;
        above -= 1;
    }
    add_pages(&mut own, level.as_slice()).map_err(|_| PageFault::NoMemory)?;
    if is_past(&own, limit) {
        return Ok(None);
    }
    let Some(cells) = leaf_level(alloc, pages, level.as_slice())? else {
        return Ok(None);
    };
    Ok(Some(Walked { own, cells }))
}
