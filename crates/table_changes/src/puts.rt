//! All that comes is put into a tree.
ghost use Rattle.std.specs.Prelude.{ℕ, ◌≡◌, ◌+◌, ◌<◌, ◌^◌, ◌∷◌, [], List as Many, OnOk, length};
ghost use Rattle.std.specs.List.{AllByRecursion};
ghost use Rattle.std.specs.Option.{option_copied};
ghost use Rattle.page_workspace.specs.Drafts.{meant};
ghost use Rattle.btree_index.specs.Changes.{TreeStands, IsExcusedInsert};
ghost use Rattle.btree_index.specs.Filled.{KeepsFilled};
ghost use Rattle.cdb_values.specs.Rows.{version};
ghost use Rattle.table_store.specs.Forests.{Pair};
ghost use Rattle.table_store.specs.Operations.{born, put_all as put_all_of};
ghost use Rattle.table_changes.specs.Changed.{IsPut, IsPuttable, born_by, born_if, next_by, next_of};

use btree_index::{InsertFault, insert};
use cdb_values::{KeyDef, Row, RowOp, RowRef};
use page_store::PageSource;
use page_workspace::Workspace;
use std::alloc::Global;
use table_store::pair_for;

/// Puts what a tree has of all versions that operations write to its table into it, from a next genid on.
pub(crate) fn put_all<P: PageSource>(
    alloc: Global,
    space: &mut Workspace<P>,
    root: u64,
    key: Option<&KeyDef>,
    table: u16,
    next: u64,
    ops: &[RowOp],
) -> Result<(), InsertFault>
    requires few { next + length ops.now < 2 ^ 64 }
    requires fit { AllByRecursion (IsPuttable (option_copied key)) (born table next ops.now) }
    ensures put { (own free : Many ℕ) (list : Many Pair) → TreeStands (meant P.pages space.old) root own free list →
        IsPut (meant P.pages space.old) (meant P.pages space.new) root own free
        (put_all_of (option_copied key.entry) (born table next ops.now) list) result }
    ensures filled { (own free : Many ℕ) (list : Many Pair) → TreeStands (meant P.pages space.old) root own free list →
        OnOk result (KeepsFilled (meant P.pages space.old) (meant P.pages space.new) root) }
    ensures base { P.pages space.new.base ≡ P.pages space.old.base }
    ensures excused { IsExcusedInsert result (P.losses space.old.base) (P.losses space.new.base) }
{
    let mut genid = next;
    let mut rest = ops;
    'ops: while let Some((op, others)) = rest.split_first() {
        match put_one(alloc, space, root, key, table, genid, op) {
            Ok(()) => {
                genid = next_genid(genid, op);
                rest = others;
            }
            Err(fault) => return Err(fault),
        }
    }
    Ok(())
}

/// The next genid behind an operation.
fn next_genid(next: u64, op: &RowOp) -> u64
    requires { next + 1 < 2 ^ 64 }
    ensures { result ≡ next_of next op.now }
{
    match op {
        RowOp::Insert { .. } => next + 1,
        RowOp::Update { target, .. } => next_behind(next, target),
        RowOp::Delete { .. } => next,
    }
}

/// The next genid behind an update of a target.
fn next_behind(next: u64, target: &RowRef) -> u64
    requires { next + 1 < 2 ^ 64 }
    ensures { result ≡ next_by next target.now }
{
    match target {
        RowRef::Base(_) => next + 1,
        RowRef::Own(_) => next,
    }
}

/// Puts what a tree has of the version that an operation writes, if it writes one to its table.
#[tactic(auto, using(crate::proofs::ChangedLemmas::born_insert, crate::proofs::ChangedLemmas::born_update))]
fn put_one<P: PageSource>(
    alloc: Global,
    space: &mut Workspace<P>,
    root: u64,
    key: Option<&KeyDef>,
    table: u16,
    next: u64,
    op: &RowOp,
) -> Result<(), InsertFault>
    requires { AllByRecursion (IsPuttable (option_copied key)) (born table next (op.now ∷ [])) }
    ensures put { (own free : Many ℕ) (list : Many Pair) → TreeStands (meant P.pages space.old) root own free list →
        IsPut (meant P.pages space.old) (meant P.pages space.new) root own free
        (put_all_of (option_copied key.entry) (born table next (op.now ∷ [])) list) result }
    ensures filled { (own free : Many ℕ) (list : Many Pair) → TreeStands (meant P.pages space.old) root own free list →
        OnOk result (KeepsFilled (meant P.pages space.old) (meant P.pages space.new) root) }
    ensures base { P.pages space.new.base ≡ P.pages space.old.base }
    ensures excused { IsExcusedInsert result (P.losses space.old.base) (P.losses space.new.base) }
{
    match op {
        RowOp::Insert { table: place, row } => {
            put_new(alloc, space, root, key, *place == table, next, row)
        }
        RowOp::Update {
            table: place,
            target,
            row,
            ..
        } => put_updated(alloc, space, root, key, *place == table, next, target, row),
        RowOp::Delete { .. } => Ok(()),
    }
}

/// Puts what a tree has of a version that updates a target, where this is of its table.
fn put_updated<P: PageSource>(
    alloc: Global,
    space: &mut Workspace<P>,
    root: u64,
    key: Option<&KeyDef>,
    is_here: bool,
    next: u64,
    target: &RowRef,
    row: &Row,
) -> Result<(), InsertFault>
    requires { AllByRecursion (IsPuttable (option_copied key)) (born_by is_here next target.now row.now) }
    ensures put { (own free : Many ℕ) (list : Many Pair) → TreeStands (meant P.pages space.old) root own free list →
        IsPut (meant P.pages space.old) (meant P.pages space.new) root own free
        (put_all_of (option_copied key.entry) (born_by is_here next target.now row.now) list) result }
    ensures filled { (own free : Many ℕ) (list : Many Pair) → TreeStands (meant P.pages space.old) root own free list →
        OnOk result (KeepsFilled (meant P.pages space.old) (meant P.pages space.new) root) }
    ensures base { P.pages space.new.base ≡ P.pages space.old.base }
    ensures excused { IsExcusedInsert result (P.losses space.old.base) (P.losses space.new.base) }
{
    match target {
        RowRef::Base(_) => put_new(alloc, space, root, key, is_here, next, row),
        RowRef::Own(_) => Ok(()),
    }
}

/// Puts what a tree has of a new version, where this is of its table.
fn put_new<P: PageSource>(
    alloc: Global,
    space: &mut Workspace<P>,
    root: u64,
    key: Option<&KeyDef>,
    is_here: bool,
    genid: u64,
    row: &Row,
) -> Result<(), InsertFault>
    requires { AllByRecursion (IsPuttable (option_copied key)) (born_if is_here genid row.now) }
    ensures put { (own free : Many ℕ) (list : Many Pair) → TreeStands (meant P.pages space.old) root own free list →
        IsPut (meant P.pages space.old) (meant P.pages space.new) root own free
        (put_all_of (option_copied key.entry) (born_if is_here genid row.now) list) result }
    ensures filled { (own free : Many ℕ) (list : Many Pair) → TreeStands (meant P.pages space.old) root own free list →
        OnOk result (KeepsFilled (meant P.pages space.old) (meant P.pages space.new) root) }
    ensures base { P.pages space.new.base ≡ P.pages space.old.base }
    ensures excused { IsExcusedInsert result (P.losses space.old.base) (P.losses space.new.base) }
{
    if is_here {
        put_version(alloc, space, root, key, genid, row)
    } else {
        Ok(())
    }
}

/// Puts what a tree has of a version.
fn put_version<P: PageSource>(
    alloc: Global,
    space: &mut Workspace<P>,
    root: u64,
    key: Option<&KeyDef>,
    genid: u64,
    row: &Row,
) -> Result<(), InsertFault>
    requires { IsPuttable (option_copied key) (version genid row.now) }
    ensures put { (own free : Many ℕ) (list : Many Pair) → TreeStands (meant P.pages space.old) root own free list →
        IsPut (meant P.pages space.old) (meant P.pages space.new) root own free
        (put_all_of (option_copied key.entry) (version genid row.now ∷ []) list) result }
    ensures filled { (own free : Many ℕ) (list : Many Pair) → TreeStands (meant P.pages space.old) root own free list →
        OnOk result (KeepsFilled (meant P.pages space.old) (meant P.pages space.new) root) }
    ensures base { P.pages space.new.base ≡ P.pages space.old.base }
    ensures excused { IsExcusedInsert result (P.losses space.old.base) (P.losses space.new.base) }
{
    let (key, value) = pair_for(alloc, key, genid, row).map_err(|_| InsertFault::NoMemory)?;
    insert(alloc, space, root, key.as_bytes(), value.as_bytes())
}
