//! The trees of a schema, one after the other in the order of the plan.
ghost use Rattle.std.specs.Prelude.{ℕ, ◌≡◌, ◌+◌, ◌≤◌, ◌<◌, ◌^◌, ◌∷◌, ◌++◌, [], List as Many, None, Some, IfOk, length, true};
ghost use Rattle.std.specs.List.{AllByRecursion, list_any};
ghost use Rattle.std.specs.Option.{option_copied};
ghost use Rattle.page_workspace.specs.Drafts.{meant};
ghost use Rattle.btree_index.specs.Changes.{IsExcusedInsert};
ghost use Rattle.cdb_values.specs.Rows.{Rows, versions_of, apply_all};
ghost use Rattle.table_store.specs.Operations.{born, breaks_in};
ghost use Rattle.table_store.specs.Plans.{Planned, key_trees, plan_from};
ghost use Rattle.table_changes.specs.Changed.{IsPuttable};
ghost use Rattle.table_edits.specs.Answers.{Tells, TellsOne, AreOpsExcused};
ghost use Rattle.table_edits.specs.Broken.{broken_from, broken_place, or_later};
ghost use Rattle.table_edits.specs.Fits.{WritesFitting, names as names_of};
ghost use Rattle.table_edits.specs.Halfway.{planned, IsHalfway};
ghost use Rattle.table_edits.specs.Kept.{Store};

use crate::faults::OpsFault;
use btree_index::InsertFault;
use cdb_values::limits::MOST_TABLES;
use cdb_values::{KeyDef, RowOp, Schema};
use page_store::PageSource;
use page_workspace::Workspace;
use std::alloc::Global;
use table_changes::change_tree;
use table_store::{a_change_of_one_tree_keeps_the_others, a_tree_after_operations};

/// Does operations on all trees of a schema, table after table, from a next genid on.
pub(crate) fn change_tables<P: PageSource>(
    alloc: Global,
    space: &mut Workspace<P>,
    schema: &Schema,
    next: u64,
    ops: &[RowOp],
) -> Result<(), OpsFault>
    requires few { next + length ops.now < 2 ^ 64 }
    requires fit { AllByRecursion (WritesFitting schema.now) ops.now }
    ensures changed { (start : Store) (rows : Rows) → length rows.tables ≡ length schema.now →
        IsHalfway start (meant P.pages space.old) rows ops.now (plan_from 0 schema.now) next 1 (plan_from 0 schema.now) →
        Tells result (λ _. (root : ℕ) × IsHalfway start (meant P.pages space.new) rows ops.now (plan_from 0 schema.now) next root [])
        (broken_place (apply_all rows ops.now) 0 schema.now) }
    ensures base { P.pages space.new.base ≡ P.pages space.old.base }
    ensures excused { AreOpsExcused result (P.losses space.old.base) (P.losses space.new.base) }
{
    let count = schema.tables().len();
    if count > MOST_TABLES {
        // no schema has so many
        return Err(OpsFault::NoMemory);
    }
    let mut root = 1u64;
    'tables: for place in 0..count as u16 {
        match change_table(alloc, space, schema.keys(place), place, root, next, ops) {
            Ok(behind) => root = behind,
            Err(fault) => return Err(fault),
        }
    }
    Ok(())
}

/// Does operations on the trees of the table at a place, which has these keys and whose first tree has this root. Gives
/// the root behind its trees.
fn change_table<P: PageSource>(
    alloc: Global,
    space: &mut Workspace<P>,
    keys: &[KeyDef],
    place: u16,
    root: u64,
    next: u64,
    ops: &[RowOp],
) -> Result<u64, OpsFault>
    requires few { next + length ops.now < 2 ^ 64 }
    requires keys { length keys.now ≤ 8 }
    requires room { root + 9 < 2 ^ 64 }
    requires row_fits { AllByRecursion (IsPuttable None) (born place next ops.now) }
    requires keys_fit { AllByRecursion (λ key. AllByRecursion (IsPuttable (Some key)) (born place next ops.now)) keys.now }
    ensures changed { (start : Store) (rows : Rows) (plan left : Many Planned) → place < length rows.tables →
        IsHalfway start (meant P.pages space.old) rows ops.now plan next root (planned place None ∷ (key_trees place keys.now ++ left)) →
        Tells result (λ behind. IsHalfway start (meant P.pages space.new) rows ops.now plan next behind left)
        (or_later place (broken_from 0 (versions_of (apply_all rows ops.now) place) keys.now) None) }
    ensures behind { IfOk result (λ behind. behind ≡ root + 1 + length keys.now) }
    ensures base { P.pages space.new.base ≡ P.pages space.old.base }
    ensures excused { AreOpsExcused result (P.losses space.old.base) (P.losses space.new.base) }
{
    if !is_named(place, ops) {
        // laws, which run nothing: such a tree lists the state after as it lists the state before
        a_change_of_one_tree_keeps_the_others();
        a_tree_after_operations();
        return Ok(root + 1 + keys.len() as u64);
    }
    match change_rows_tree(alloc, space, place, root, next, ops) {
        Ok(()) => change_keys(alloc, space, keys, place, root + 1, next, ops),
        Err(fault) => Err(fault),
    }
}

/// Whether operations name the table at a place.
fn is_named(place: u16, ops: &[RowOp]) -> bool
    ensures { result ≡ list_any (names_of place) ops.now }
{
    ops.iter().any(|op| names(op, place))
}

/// Whether an operation names the table at a place.
fn names(op: &RowOp, place: u16) -> bool
    ensures { result ≡ names_of place op.now }
{
    match op {
        RowOp::Insert { table, .. } | RowOp::Update { table, .. } | RowOp::Delete { table, .. } =>
            *table == place,
    }
}

/// Does operations on the tree of a table's rows.
fn change_rows_tree<P: PageSource>(
    alloc: Global,
    space: &mut Workspace<P>,
    place: u16,
    root: u64,
    next: u64,
    ops: &[RowOp],
) -> Result<(), OpsFault>
    requires named { list_any (names_of place) ops.now ≡ true }
    requires few { next + length ops.now < 2 ^ 64 }
    requires fit { AllByRecursion (IsPuttable None) (born place next ops.now) }
    ensures changed { (start : Store) (rows : Rows) (plan left : Many Planned) → place < length rows.tables →
        IsHalfway start (meant P.pages space.old) rows ops.now plan next root (planned place None ∷ left) →
        Tells result (λ _. IsHalfway start (meant P.pages space.new) rows ops.now plan next (root + 1) left) None }
    ensures base { P.pages space.new.base ≡ P.pages space.old.base }
    ensures excused { AreOpsExcused result (P.losses space.old.base) (P.losses space.new.base) }
{
    match change_one(alloc, space, None, place, root, next, ops) {
        Ok(()) => Ok(()),
        // no genid is there twice where a tree stands
        Err(InsertFault::Duplicate) => Err(OpsFault::NoMemory),
        Err(InsertFault::Gone) => Err(OpsFault::Gone),
        Err(InsertFault::NoMemory) => Err(OpsFault::NoMemory),
    }
}

/// Does operations on the trees of a table's keys, in their order. Gives the root behind them.
fn change_keys<P: PageSource>(
    alloc: Global,
    space: &mut Workspace<P>,
    keys: &[KeyDef],
    place: u16,
    root: u64,
    next: u64,
    ops: &[RowOp],
) -> Result<u64, OpsFault>
    requires named { list_any (names_of place) ops.now ≡ true }
    requires few { next + length ops.now < 2 ^ 64 }
    requires keys { length keys.now ≤ 8 }
    requires room { root + 8 < 2 ^ 64 }
    requires fit { AllByRecursion (λ key. AllByRecursion (IsPuttable (Some key)) (born place next ops.now)) keys.now }
    ensures changed { (start : Store) (rows : Rows) (plan left : Many Planned) → place < length rows.tables →
        IsHalfway start (meant P.pages space.old) rows ops.now plan next root (key_trees place keys.now ++ left) →
        Tells result (λ behind. IsHalfway start (meant P.pages space.new) rows ops.now plan next behind left)
        (or_later place (broken_from 0 (versions_of (apply_all rows ops.now) place) keys.now) None) }
    ensures behind { IfOk result (λ behind. behind ≡ root + length keys.now) }
    ensures base { P.pages space.new.base ≡ P.pages space.old.base }
    ensures excused { AreOpsExcused result (P.losses space.old.base) (P.losses space.new.base) }
{
    let mut at = 0u8;
    let mut rest = keys;
    'keys: while let Some((key, others)) = rest.split_first() {
        match change_key(alloc, space, key, place, at, root + at as u64, next, ops) {
            Ok(()) => {
                at += 1;
                rest = others;
            }
            Err(fault) => return Err(fault),
        }
    }
    Ok(root + at as u64)
}

/// Does operations on the tree of a key, which stands at a place among the keys of its table.
fn change_key<P: PageSource>(
    alloc: Global,
    space: &mut Workspace<P>,
    key: &KeyDef,
    place: u16,
    at: u8,
    root: u64,
    next: u64,
    ops: &[RowOp],
) -> Result<(), OpsFault>
    requires named { list_any (names_of place) ops.now ≡ true }
    requires few { next + length ops.now < 2 ^ 64 }
    requires fit { AllByRecursion (IsPuttable (Some key.now)) (born place next ops.now) }
    ensures changed { (start : Store) (rows : Rows) (plan left : Many Planned) → place < length rows.tables →
        IsHalfway start (meant P.pages space.old) rows ops.now plan next root (planned place (Some key.now) ∷ left) →
        Tells result (λ _. IsHalfway start (meant P.pages space.new) rows ops.now plan next (root + 1) left)
        (or_later place (broken_from at (versions_of (apply_all rows ops.now) place) (key.now ∷ [])) None) }
    ensures base { P.pages space.new.base ≡ P.pages space.old.base }
    ensures excused { AreOpsExcused result (P.losses space.old.base) (P.losses space.new.base) }
{
    match change_one(alloc, space, Some(key), place, root, next, ops) {
        Ok(()) => Ok(()),
        Err(InsertFault::Duplicate) => Err(OpsFault::Duplicate {
            table: place,
            key: at,
        }),
        Err(InsertFault::Gone) => Err(OpsFault::Gone),
        Err(InsertFault::NoMemory) => Err(OpsFault::NoMemory),
    }
}

/// Does operations on one tree of a table: that of a key, or that of the rows where no key is given.
fn change_one<P: PageSource>(
    alloc: Global,
    space: &mut Workspace<P>,
    key: Option<&KeyDef>,
    place: u16,
    root: u64,
    next: u64,
    ops: &[RowOp],
) -> Result<(), InsertFault>
    requires named { list_any (names_of place) ops.now ≡ true }
    requires few { next + length ops.now < 2 ^ 64 }
    requires fit { AllByRecursion (IsPuttable (option_copied key)) (born place next ops.now) }
    ensures changed { (start : Store) (rows : Rows) (plan left : Many Planned) → place < length rows.tables →
        IsHalfway start (meant P.pages space.old) rows ops.now plan next root (planned place (option_copied key.entry) ∷ left) →
        TellsOne result (IsHalfway start (meant P.pages space.new) rows ops.now plan next (root + 1) left)
        (breaks_in (option_copied key.entry) (versions_of (apply_all rows ops.now) place)) }
    ensures base { P.pages space.new.base ≡ P.pages space.old.base }
    ensures excused { IsExcusedInsert result (P.losses space.old.base) (P.losses space.new.base) }
{
    // laws, which run nothing: the other trees stay, and this one lists the state after
    a_change_of_one_tree_keeps_the_others();
    a_tree_after_operations();
    change_tree(alloc, space, root, key, place, next, ops)
}
