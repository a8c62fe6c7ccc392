//! The versions of a table, read from pages.
ghost use Rattle.std.specs.Prelude.{ℕ, ◌≡◌, ◌+◌, ◌<◌, ◌++◌, ◌∷◌, [], None, List, IfOk, OnOk, length, take};
ghost use Rattle.std.specs.List.{AllByRecursion};
ghost use Rattle.page_store.specs.Sources.{IsExcused};
ghost use Rattle.cdb_values.specs.Rows.{Rows, versions_of};
ghost use Rattle.cdb_values.specs.declared.rows.Version.{Version};
ghost use Rattle.table_store.specs.Plans.{plan_from};
ghost use Rattle.table_store.specs.Listings.{pair_of_version};
ghost use Rattle.table_store.specs.Stored.{Stands};
ghost use Rattle.table_store.specs.Readings.{IsReadable, row_pairs};

use crate::creates::count_trees;
use btree_index::scan;
use byte_words::take_u64;
use cdb_values::{Schema, TableDef, Version};
use key_code::decode_row;
use page_store::{Cell, PageFault, PageSource};
use std::alloc::{AllocError, Global};

/// The versions of a table, by rising genid, from pages that stand for a state of the schema. `table` is the table's
/// place in the schema, from 0. Over pages that stand for no state the answer says nothing.
///
/// Answers `Gone` only where the source lost its pages; `NoMemory` is want of memory.
pub fn table_versions<P: PageSource>(
    alloc: Global,
    pages: &mut P,
    schema: &Schema,
    table: u16,
) -> Result<Vec<Version>, PageFault>
    requires known { table < length schema.now }
    ensures versions { (rows : Rows) → Stands (P.pages pages.old) schema.now rows →
        IfOk result (λ versions. versions.items ≡ versions_of rows table) }
    ensures pages { P.pages pages.new ≡ P.pages pages.old }
    ensures below { P.below pages.new ≡ P.below pages.old }
    ensures excused { IsExcused result (P.losses pages.old) (P.losses pages.new) }
{
    let root = root_of(schema.tables(), table)?;
    let pairs = scan(alloc, pages, root, b"", None)?;
    match read_versions(alloc, pairs.as_slice()) {
        Ok(versions) => Ok(versions),
        Err(_) => Err(PageFault::NoMemory),
    }
}

/// The root of the rows' tree of a table.
fn root_of(tables: &[TableDef], table: u16) -> Result<u64, PageFault>
    requires known { table < length tables.now }
    ensures root { IfOk result (λ root. root ≡ 1 + length (plan_from 0 (take table tables.now))) }
    ensures excused { (losses : ℕ) → IsExcused result losses losses }
{
    let (before, _) = tables.split_at(table as usize);
    match count_trees(before) {
        Ok(trees) => Ok(1 + trees),
        Err(_) => Err(PageFault::NoMemory),
    }
}

/// The versions of which a rows' tree has these pairs.
fn read_versions(alloc: Global, pairs: &[(Cell, Cell)]) -> Result<Vec<Version>, AllocError>
    ensures { (versions : List Version) → AllByRecursion IsReadable versions → pairs.now ≡ row_pairs versions →
        IfOk result (λ found. found.items ≡ versions) }
{
    let mut found = Vec::new(alloc);
    let mut rest = pairs;
    'reading: while let Some((pair, after)) = rest.split_first() {
        add_version(alloc, pair, &mut found)?;
        rest = after;
    }
    Ok(found)
}

/// Adds the version of which a rows' tree has this pair. A pair of no version is passed over.
fn add_version(
    alloc: Global,
    pair: &(Cell, Cell),
    found: &mut Vec<Version>,
) -> Result<(), AllocError>
    ensures { (v : Version) → IsReadable v → pair.now ≡ pair_of_version None v →
        OnOk result (found.new.items ≡ found.old.items ++ v ∷ []) }
{
    let Some((genid, _)) = take_u64(pair.0.as_slice()) else {
        return Ok(());
    };
    let Some(row) = decode_row(alloc, pair.1.as_slice())? else {
        return Ok(());
    };
    found.push(Version { genid, row })?;
    Ok(())
}
