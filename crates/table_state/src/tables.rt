//! The versions of all tables, from the cells of their trees.
ghost use Rattle.std.specs.Prelude.{◌≡◌, ◌<◌, ◌^◌, List, IfOk, MatchOption, length, take, drop};
ghost use Rattle.cdb_values.specs.declared.rows.Version.{Version};
ghost use Rattle.table_state.specs.Grown.{list_of, lists_of};
ghost use Rattle.table_state.specs.Listed.{Climb, AllClimb, IsTable, AreTables};

use crate::keys::are_key_lists;
use crate::rows::read_versions;
use cdb_values::{List, TableDef, Version};
use std::alloc::{AllocError, Global};
use tree_walk::Walked;

/// The versions of each of these tables, whose trees come in the order of the plan; `None` where the trees list no
/// versions that the tables may have below the next genid. `Err` is want of memory.
pub(crate) fn read_tables(
    alloc: Global,
    tables: &[TableDef],
    trees: &[Walked],
    next: u64,
) -> Result<Option<List<List<Version>>>, AllocError>
    requires climb { AllClimb trees.now }
    requires next { next < 2 ^ 62 }
    ensures { IfOk result (λ r. MatchOption r ((all : List (List Version)) → AreTables next tables.now (lists_of trees.now) all → ⊥)
        (λ all. AreTables next tables.now (lists_of trees.now) all)) }
{
    let mut found = List::new(alloc);
    let mut rest = tables;
    let mut left = trees;
    'tables: while let Some((table, others)) = rest.split_first() {
        let Some((rows, later)) = left.split_first() else {
            return Ok(None);
        };
        let (keys, behind) = cut(later, table.keys.len());
        let Some(versions) = read_table(alloc, table, rows, keys, next)? else {
            return Ok(None);
        };
        found.push(versions)?;
        rest = others;
        left = behind;
    }
    if !left.is_empty() {
        return Ok(None);
    }
    Ok(Some(found))
}

/// The first so many trees, as far as there are so many, and the others.
fn cut(trees: &[Walked], count: usize) -> (&[Walked], &[Walked])
    ensures first { result.0.now ≡ take count trees.now }
    ensures others { result.1.now ≡ drop count trees.now }
{
    if trees.len() < count {
        return (trees, &[]);
    }
    trees.split_at(count)
}

/// The versions of a table, from the tree of its rows and those of its keys.
fn read_table(
    alloc: Global,
    table: &TableDef,
    rows: &Walked,
    keys: &[Walked],
    next: u64,
) -> Result<Option<List<Version>>, AllocError>
    requires climb { Climb rows.now.cells.items }
    requires climb_all { AllClimb keys.now }
    requires next { next < 2 ^ 62 }
    ensures { IfOk result (λ r. MatchOption r ((vs : List Version) → IsTable table.now next (list_of rows.now) (lists_of keys.now) vs → ⊥)
        (λ vs. IsTable table.now next (list_of rows.now) (lists_of keys.now) vs)) }
{
    let Some(versions) = read_versions(alloc, table, next, rows.cells.as_slice())? else {
        return Ok(None);
    };
    let listed = are_key_lists(
        alloc,
        table.keys.as_slice(),
        keys,
        versions.as_slice(),
        next,
    )?;
    if !listed {
        return Ok(None);
    }
    Ok(Some(List::from_vec(versions)))
}
