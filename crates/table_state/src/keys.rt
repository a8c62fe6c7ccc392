//! Whether the tree of a key lists the versions of its table.
ghost use Rattle.std.specs.Prelude.{◌≡◌, ◌<◌, ◌^◌, ◌&&◌, IfOk, length, map, Some, true};
ghost use Rattle.std.specs.Bool.{Decides};
ghost use Rattle.std.specs.List.{AllByRecursion};
ghost use Rattle.btree_index.specs.Trees.{pair_of};
ghost use Rattle.table_store.specs.Listings.{IsAmong, pair_of_version, Lists};
ghost use Rattle.table_store.specs.States.{Rise};
ghost use Rattle.table_state.specs.Grown.{lists_of};
ghost use Rattle.table_state.specs.Listed.{Climb, AreKeyLists, AllClimb, IsPlaceOf};

use btree_index::{is_before, key_in, value_in};
use cdb_values::{KeyDef, Version};
use page_store::Cell;
use std::alloc::{AllocError, Global};
use table_store::key_pair;
use tree_walk::Walked;

/// Whether these trees, one for each key, list these versions. `Err` is want of memory.
pub(crate) fn are_key_lists(
    alloc: Global,
    keys: &[KeyDef],
    trees: &[Walked],
    versions: &[Version],
    next: u64,
) -> Result<bool, AllocError>
    requires climb { AllClimb trees.now }
    requires rise { Rise versions.now next }
    requires next { next < 2 ^ 62 }
    ensures { IfOk result (λ listed. Decides listed (AreKeyLists keys.now versions.now (lists_of trees.now))) }
{
    let mut rest = keys;
    let mut lists = trees;
    'keys: while let Some((key, others)) = rest.split_first() {
        let Some((tree, later)) = lists.split_first() else {
            return Ok(false);
        };
        let listed = is_list(alloc, key, tree.cells.as_slice(), versions, next)?;
        if !listed {
            return Ok(false);
        }
        rest = others;
        lists = later;
    }
    Ok(lists.is_empty())
}

/// Whether the cells of a key's tree list these versions.
fn is_list(
    alloc: Global,
    key: &KeyDef,
    cells: &[Cell],
    versions: &[Version],
    next: u64,
) -> Result<bool, AllocError>
    requires climb { Climb cells.now }
    requires rise { Rise versions.now next }
    requires next { next < 2 ^ 62 }
    ensures { IfOk result (λ listed. Decides listed (Lists (Some key.now) versions.now (map pair_of cells.now))) }
{
    if cells.len() != versions.len() {
        return Ok(false);
    }
    are_listed(alloc, key, cells, versions)
}

/// Whether a key's tree has a pair for each of these versions.
fn are_listed(
    alloc: Global,
    key: &KeyDef,
    cells: &[Cell],
    versions: &[Version],
) -> Result<bool, AllocError>
    requires { Climb cells.now }
    ensures { IfOk result (λ all. Decides all (AllByRecursion (λ v. IsAmong (pair_of_version (Some key.now) v) (map pair_of cells.now)) versions.now)) }
{
    let mut rest = versions;
    'versions: while let Some((version, others)) = rest.split_first() {
        let listed = is_version_listed(alloc, key, cells, version)?;
        if !listed {
            return Ok(false);
        }
        rest = others;
    }
    Ok(true)
}

/// Whether a key's tree has the pair of a version.
fn is_version_listed(
    alloc: Global,
    key: &KeyDef,
    cells: &[Cell],
    version: &Version,
) -> Result<bool, AllocError>
    requires { Climb cells.now }
    ensures { IfOk result (λ listed. Decides listed (IsAmong (pair_of_version (Some key.now) version.now) (map pair_of cells.now))) }
{
    let (code, value) = key_pair(alloc, key, version.genid, &version.row)?;
    Ok(is_pair_listed(cells, code.as_bytes(), value.as_bytes()))
}

/// Whether a tree has this pair.
fn is_pair_listed(cells: &[Cell], key: &[u8], value: &[u8]) -> bool
    requires { Climb cells.now }
    ensures { Decides result (IsAmong (key.now, value.now) (map pair_of cells.now)) }
{
    let (_, rest) = cells.split_at(place_of(cells, key));
    match rest.split_first() {
        None => false,
        Some((cell, _)) => is_pair(cell.as_slice(), key, value),
    }
}

/// Whether a cell has this pair.
fn is_pair(cell: &[u8], key: &[u8], value: &[u8]) -> bool
    ensures { Decides result ((key.now, value.now) ≡ pair_of cell.now) }
{
    key_in(cell) == key && value_in(cell) == value
}

/// How many cells have keys before this one.
fn place_of(cells: &[Cell], key: &[u8]) -> usize
    requires { Climb cells.now }
    ensures { IsPlaceOf cells.now key.now result }
{
    cells.partition_point(|c| is_before(key_in(c.as_slice()), key))
}
