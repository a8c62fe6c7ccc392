ghost use Rattle.std.specs.Prelude.{◌≡◌, ◌++◌, ◌∷◌, [], IfOk, OnOk, OnErr};
ghost use Rattle.net_writes.specs.Net.{held_at, taken_out, rewritten, undone, held_with, standing};
ghost use Rattle.net_writes.specs.Steps.{held_by, out_by, own_held, own_out, stands_for};

use cdb_values::{List, Row, RowOp, RowRef};
use std::alloc::{AllocError, Global};
use std::marker::Model;

/// What the writes of a transaction stand for, kept up one write at a time. Contracts see what each write is held as,
/// in the order of the writes: an operation on the base, or nothing.
#[derive(Drop)]
pub struct Overlay {
    held: List<Option<RowOp>>,
}

impl Model for Overlay {
    ghost use Rattle.std.specs.Prelude.{List as Many, Option};
    ghost use Rattle.cdb_values.specs.declared.rows.RowOp.{RowOp as OneOp};

    ghost Value = { Many (Option OneOp) };

    ghost view = { λ o. o.held };
}

impl Overlay {
    /// No write. Takes no memory.
    pub fn new(alloc: Global) -> Overlay
        ensures { result ≡ [] }
    {
        Overlay {
            held: List::new(alloc),
        }
    }

    /// Holds one more write, which may name an own earlier one by its number, from 1. What it costs does not grow with
    /// the writes before it. `Err` is want of memory, and then nothing has changed.
    pub fn write(&mut self, op: RowOp) -> Result<(), AllocError>
        ensures held { OnOk result (self.new ≡ held_with self.old op) }
        ensures unchanged { OnErr result (self.new ≡ self.old) }
    {
        self.held.push(None)?;
        let last = self.held.len() - 1;
        let taken = take_target(&mut self.held, &op);
        let now = meant(taken, op);
        let _nothing = self.held.replace_at(last, now);
        Ok(())
    }

    /// The net operations, in order. `Err` is want of memory.
    pub fn into_net(self, alloc: Global) -> Result<List<RowOp>, AllocError>
        ensures { IfOk result (λ ops. ops ≡ standing self) }
    {
        still_standing(alloc, self.held)
    }
}

/// Takes out the own write that a write names, if it names one, and gives what that was held as.
fn take_target(held: &mut List<Option<RowOp>>, op: &RowOp) -> Option<RowOp>
    ensures gives { result ≡ held_by held.old op.now }
    ensures leaves { held.new ≡ out_by held.old op.now }
{
    match op {
        RowOp::Insert { .. } => None,
        RowOp::Update { target, .. } => take_own(held, target),
        RowOp::Delete { target, .. } => take_own(held, target),
    }
}

/// Takes out the write that a target names, if it names one, and gives what that was held as.
fn take_own(held: &mut List<Option<RowOp>>, target: &RowRef) -> Option<RowOp>
    ensures gives { result ≡ own_held held.old target.now }
    ensures leaves { held.new ≡ own_out held.old target.now }
{
    match target {
        RowRef::Base(_) => None,
        RowRef::Own(write) => take_out(held, *write),
    }
}

/// Takes out the write of a number, from 1, and gives what it was held as.
fn take_out(held: &mut List<Option<RowOp>>, write: u64) -> Option<RowOp>
    ensures gives { result ≡ held_at held.old write }
    ensures leaves { held.new ≡ taken_out held.old write }
{
    if write == 0 || write > held.len() as u64 {
        return None;
    }
    held.replace_at((write - 1) as usize, None)
}

/// What a write stands for, where its target was held as that.
fn meant(taken: Option<RowOp>, op: RowOp) -> Option<RowOp>
    ensures { result ≡ stands_for taken op }
{
    match op {
        RowOp::Update {
            target: RowRef::Own(_),
            row,
            ..
        } => rewrite(taken, row),
        RowOp::Delete {
            target: RowRef::Own(_),
            ..
        } => undo(taken),
        other => Some(other),
    }
}

/// What an update of an own write to a row stands for.
fn rewrite(before: Option<RowOp>, row: Row) -> Option<RowOp>
    ensures { result ≡ rewritten before row }
{
    match before {
        Some(RowOp::Insert { table, row: _ }) => Some(RowOp::Insert { table, row }),
        Some(
            RowOp::Update {
                table,
                target,
                old: first,
                row: _middle,
            },
        ) => Some(RowOp::Update {
            table,
            target,
            old: first,
            row,
        }),
        _ => None,
    }
}

/// What a delete of an own write stands for.
fn undo(before: Option<RowOp>) -> Option<RowOp>
    ensures { result ≡ undone before }
{
    match before {
        Some(
            RowOp::Update {
                table,
                target,
                old,
                row: _,
            },
        ) => Some(RowOp::Delete { table, target, old }),
        _ => None,
    }
}

/// The operations that stand for something, in order.
#[tactic(auto, using(crate::proofs::StandingLemmas::adds))]
fn still_standing(alloc: Global, held: List<Option<RowOp>>) -> Result<List<RowOp>, AllocError>
    ensures { IfOk result (λ ops. ops ≡ standing held) }
{
    let mut ops = List::new(alloc);
    let items = held.into_vec();
    'held: for one in items {
        add(&mut ops, one)?;
    }
    Ok(ops)
}

/// Adds an operation at the end, if there is one.
fn add(ops: &mut List<RowOp>, one: Option<RowOp>) -> Result<(), AllocError>
    ensures { OnOk result (ops.new ≡ ops.old ++ standing (one ∷ [])) }
{
    match one {
        None => Ok(()),
        Some(op) => ops.push(op),
    }
}
