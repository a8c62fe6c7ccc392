ghost use Rattle.std.specs.Prelude.{ℕ, ◌≡◌, ◌+◌, ◌<◌, ◌^◌, ◌++◌, IfOk, OnOk, length};
ghost use Rattle.page_store.specs.Image.{Image};
ghost use Rattle.page_store.specs.declared.pages.PageKind.TheVariants.{Leaf};
ghost use Rattle.page_workspace.specs.Drafts.{edited_by, AreFit};
ghost use Rattle.page_workspace.specs.Spare.{count_of};
ghost use Rattle.cdb_values.specs.Rows.{no_rows};
ghost use Rattle.table_store.specs.Plans.{plan_from};
ghost use Rattle.table_store.specs.Stored.{Stands};
ghost use Rattle.table_store.specs.Begins.{AreBlank, turns, leaf_edits, meta_edits, first_cell_of};

use cdb_values::{Schema, TableDef};
use page_store::{Cell, Edit, Head, PageKind};
use page_workspace::{COUNT_LIMIT, Meta};
use std::alloc::{AllocError, Global};

/// The edits, each with the number of its page, that make of pages that were never written the store of a schema:
/// a leaf without cells for the rows of each table and for each key, and the meta page, whose next genid is 1. There are
/// fewer than 2^62 pages then.
///
/// Answers `AllocError` for want of memory, and where the schema has 2^62 trees or more.
pub fn create_edits(alloc: Global, schema: &Schema) -> Result<Vec<(u64, Edit)>, AllocError>
    ensures fit { (pages : ℕ → Image) → AreBlank pages → IfOk result (λ edits. AreFit edits.items pages) }
    ensures stands { (pages : ℕ → Image) → AreBlank pages →
        IfOk result (λ edits. Stands (edited_by edits.items pages) schema.now (no_rows schema.now)) }
    ensures few { (pages : ℕ → Image) → AreBlank pages →
        IfOk result (λ edits. count_of (edited_by edits.items pages) < 2 ^ 62) }
{
    let trees = count_trees(schema.tables())?;
    let mut edits = make_leaves(alloc, trees)?;
    add_meta(alloc, &mut edits, trees)?;
    Ok(edits)
}

/// How many trees these tables have: one for the rows of each, and one for each key.
pub(crate) fn count_trees(tables: &[TableDef]) -> Result<u64, AllocError>
    ensures count { IfOk result (λ trees. trees ≡ length (plan_from 0 tables.now)) }
    ensures few { IfOk result (λ trees. trees + 1 < 2 ^ 62) }
{
    let mut trees = 0u64;
    let mut rest = tables;
    'tables: while let Some((table, after)) = rest.split_first() {
        trees = with_table(trees, table.keys.len() as u64)?;
        rest = after;
    }
    Ok(trees)
}

/// A number of trees with those of a table of so many keys.
fn with_table(trees: u64, keys: u64) -> Result<u64, AllocError>
    requires { trees + 1 < 2 ^ 62 }
    ensures count { IfOk result (λ sum. sum ≡ 1 + keys + trees) }
    ensures few { IfOk result (λ sum. sum + 1 < 2 ^ 62) }
{
    if keys >= COUNT_LIMIT || trees + keys + 2 >= COUNT_LIMIT {
        return Err(AllocError);
    }
    Ok(1 + keys + trees)
}

/// The edits that make leaves of the pages from 1 up to the last one.
fn make_leaves(alloc: Global, last: u64) -> Result<Vec<(u64, Edit)>, AllocError>
    requires { last + 1 < 2 ^ 62 }
    ensures { IfOk result (λ edits. edits.items ≡ leaf_edits last) }
{
    let mut edits = Vec::new(alloc);
    'leaves: for at in 0..last {
        edits.push((at + 1, turn(PageKind::Leaf)))?;
    }
    Ok(edits)
}

/// Adds the edits that make the meta page of a store with so many trees.
fn add_meta(alloc: Global, edits: &mut Vec<(u64, Edit)>, trees: u64) -> Result<(), AllocError>
    requires { trees + 1 < 2 ^ 62 }
    ensures { OnOk result (edits.new.items ≡ edits.old.items ++ meta_edits trees) }
{
    let cell = make_first_cell(alloc, trees)?;
    edits.push((0, turn(PageKind::Meta)))?;
    edits.push((0, Edit::PutCell { at: 0, cell }))?;
    Ok(())
}

/// The cell of the meta page of a store that begins with so many trees.
fn make_first_cell(alloc: Global, trees: u64) -> Result<Cell, AllocError>
    requires { trees + 1 < 2 ^ 62 }
    ensures { IfOk result (λ cell. cell ≡ first_cell_of trees) }
{
    let meta = Meta {
        next: 1,
        count: trees + 1,
        free: 0,
    };
    meta.cell(alloc)
}

/// The edit that makes a page of this kind of one that was never written.
fn turn(kind: PageKind) -> Edit
    ensures { result ≡ turns kind }
{
    Edit::SetHead {
        before: lone_head(PageKind::Free),
        after: lone_head(kind),
    }
}

/// A head of this kind, of level 0 and without a right neighbour.
fn lone_head(kind: PageKind) -> Head
    ensures { result ≡ record { kind = kind; level = 0; right = 0 } }
{
    Head {
        kind,
        level: 0,
        right: 0,
    }
}
