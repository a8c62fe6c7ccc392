//! The state for which pages stand.
ghost use Rattle.std.specs.Prelude.{ℕ, ◌≡◌, ◌+◌, ◌<◌, ◌^◌, List, IfOk, MatchOption, length};
ghost use Rattle.page_store.specs.Image.{blank_image};
ghost use Rattle.page_store.specs.Sources.{IsExcused};
ghost use Rattle.page_workspace.specs.Spare.{IsIn};
ghost use Rattle.cdb_values.specs.Rows.{Rows};
ghost use Rattle.cdb_values.specs.declared.rows.Version.{Version};
ghost use Rattle.table_store.specs.Plans.{plan_from};
ghost use Rattle.table_state.specs.Found.{IsRead};
ghost use Rattle.table_state.specs.Grown.{lists_of};
ghost use Rattle.table_state.specs.Listed.{AllClimb, AreTables};
ghost use Rattle.table_state.specs.States.{HasState};

use crate::forests::{Found, forest_of};
use crate::tables::read_tables;
use cdb_values::{List, Schema, TableDef, Version};
use page_store::{PageFault, PageSource};
use page_workspace::COUNT_LIMIT;
use std::alloc::{AllocError, Global};
use std::marker::Model;
use table_store::{pages_hold_one_forest, pages_that_stand_keep_their_keys};

/// The versions of each table, by the table's place, and the next genid. Contracts see the record `Rows`.
#[derive(Drop)]
pub struct State {
    /// The versions of each table, by rising genid.
    pub tables: List<List<Version>>,
    /// The next genid, which is above all of them.
    pub next: u64,
}

impl Model for State {
    ghost use Rattle.cdb_values.specs.Rows.{Rows};

    ghost Value = { Rows };

    ghost view = { λ s. record { tables = s.tables; next = s.next } };
}

/// The state of a schema for which any pages stand, those of a damaged or hostile store among them. Each page whose number
/// is not in `edited` is blank.
///
/// `None` exactly where the pages stand for no good state, or where the next genid or the number of pages is 2^62 or more.
/// `Gone` comes only where the source lost its pages; `NoMemory` is want of memory.
pub fn state_of<P: PageSource>(
    alloc: Global,
    pages: &mut P,
    schema: &Schema,
    edited: &[u64],
) -> Result<Option<State>, PageFault>
    requires { (n : ℕ) → (IsIn n edited.now → ⊥) → P.pages pages.old n ≡ blank_image }
    ensures state { IfOk result (λ r. MatchOption r ((rows : Rows) → HasState (P.pages pages.old) schema.now rows → ⊥)
        (λ state. HasState (P.pages pages.old) schema.now state)) }
    ensures pages { P.pages pages.new ≡ P.pages pages.old }
    ensures below { P.below pages.new ≡ P.below pages.old }
    ensures excused { IsExcused result (P.losses pages.old) (P.losses pages.new) }
{
    // These two laws run nothing. By the first the trees that are found are those of any state, by the second unique keys
    // need no look.
    pages_hold_one_forest();
    pages_that_stand_keep_their_keys();
    let trees = count_trees(schema.tables()).map_err(|_| PageFault::NoMemory)?;
    let Some(found) = forest_of(alloc, pages, trees, edited)? else {
        return Ok(None);
    };
    read_found(alloc, schema.tables(), &found).map_err(|_| PageFault::NoMemory)
}

/// The state that the trees of pages list; `None` where they list no versions that the tables may have.
fn read_found(
    alloc: Global,
    tables: &[TableDef],
    found: &Found,
) -> Result<Option<State>, AllocError>
    requires climb { AllClimb found.now.trees.items }
    requires next { found.now.next < 2 ^ 62 }
    ensures { IfOk result (λ r. MatchOption r ((all : List (List Version)) → AreTables found.now.next tables.now (lists_of found.now.trees.items) all → ⊥)
        (IsRead found.now tables.now)) }
{
    let Some(versions) = read_tables(alloc, tables, found.trees.as_slice(), found.next)? else {
        return Ok(None);
    };
    Ok(Some(State {
        tables: versions,
        next: found.next,
    }))
}

/// How many trees these tables have: one for the rows of each, and one for each key. `Err` comes where they are 2^62 or
/// more.
fn count_trees(tables: &[TableDef]) -> Result<u64, AllocError>
    ensures count { IfOk result (λ trees. trees ≡ length (plan_from 0 tables.now)) }
    ensures few { IfOk result (λ trees. trees < 2 ^ 62) }
{
    let mut trees = 0u64;
    let mut rest = tables;
    'tables: while let Some((table, after)) = rest.split_first() {
        trees = with_table(trees, table.keys.len() as u64)?;
        rest = after;
    }
    Ok(trees)
}

/// A number of trees with those of a table of so many keys.
fn with_table(trees: u64, keys: u64) -> Result<u64, AllocError>
    requires { trees < 2 ^ 62 }
    ensures count { IfOk result (λ sum. sum ≡ 1 + keys + trees) }
    ensures few { IfOk result (λ sum. sum < 2 ^ 62) }
{
    if keys >= COUNT_LIMIT || trees + keys + 1 >= COUNT_LIMIT {
        return Err(AllocError);
    }
    Ok(1 + keys + trees)
}
