//! The versions that the rows' tree of a table has.
ghost use Rattle.std.specs.Prelude.{ℕ, ◌≡◌, ◌≤◌, ◌<◌, ◌^◌, List, IfOk, MatchOption, length};
ghost use Rattle.byteorder.specs.Endian.{big_bytes};
ghost use Rattle.btree_index.specs.Trees.{pair_of};
ghost use Rattle.cdb_values.specs.declared.rows.Version.{Version};
ghost use Rattle.table_state.specs.Listed.{IsCellOf, AreCellsOf};

use crate::fits::is_fitting;
use btree_index::{key_in, value_in};
use byte_words::take_u64;
use cdb_values::{TableDef, Version};
use key_code::decode_row;
use page_store::Cell;
use std::alloc::{AllocError, Global};

/// The versions of a table, whose rows' tree has these cells; `None` where they are those of no versions that the table
/// may have below the next genid. `Err` is want of memory.
pub(crate) fn read_versions(
    alloc: Global,
    table: &TableDef,
    next: u64,
    cells: &[Cell],
) -> Result<Option<Vec<Version>>, AllocError>
    requires { next < 2 ^ 62 }
    ensures { IfOk result (λ r. MatchOption r ((vs : List Version) → AreCellsOf table.now 0 next cells.now vs → ⊥)
        (λ v. AreCellsOf table.now 0 next cells.now v.items)) }
{
    let mut versions = Vec::new(alloc);
    let mut least = 0u64;
    let mut rest = cells;
    'reading: while let Some((cell, after)) = rest.split_first() {
        let Some(version) = read_version(alloc, table, least, next, cell.as_slice())? else {
            return Ok(None);
        };
        least = version.genid + 1;
        versions.push(version)?;
        rest = after;
    }
    Ok(Some(versions))
}

/// The version that a cell has; `None` where it is that of no version that the table may have with a genid in these
/// bounds.
fn read_version(
    alloc: Global,
    table: &TableDef,
    least: u64,
    next: u64,
    cell: &[u8],
) -> Result<Option<Version>, AllocError>
    requires { next < 2 ^ 62 }
    ensures { IfOk result (λ r. MatchOption r ((v : Version) → IsCellOf table.now least next cell.now v → ⊥)
        (λ v. IsCellOf table.now least next cell.now v)) }
{
    let Some(genid) = genid_in(key_in(cell)) else {
        return Ok(None);
    };
    if genid < least || genid >= next {
        return Ok(None);
    }
    let Some(row) = decode_row(alloc, value_in(cell))? else {
        return Ok(None);
    };
    let fits = is_fitting(alloc, table, &row)?;
    if !fits {
        return Ok(None);
    }
    Ok(Some(Version { genid, row }))
}

/// The genid of which a key has the eight bytes.
fn genid_in(key: &[u8]) -> Option<u64>
    ensures { MatchOption result ((n : ℕ) → n < 2 ^ 64 → key.now ≡ big_bytes 8 n → ⊥) (λ genid. big_bytes 8 genid ≡ key.now) }
{
    let (genid, behind) = take_u64(key)?;
    if !behind.is_empty() {
        return None;
    }
    Some(genid)
}
