//! One write that names an operation of its own transaction: what takes the place of that one.
ghost use Rattle.std.specs.Prelude.{◌≡◌, ◌++◌, ◌∷◌, [], ◌<◌, length, map, slice_get, if◌then◌else◌, is_ok, nat_lt, None, IfOk, OnOk, Some};
ghost use Rattle.cdb_values.specs.declared.limits.TheConstants.{MOST_NET_OPERATIONS};
ghost use Rattle.cdb_values.specs.declared.rows.RowOp.{RowOp as OneOp};
ghost use Rattle.cdb_values.specs.declared.rows.RowRef.TheVariants as target;
ghost use Rattle.net_writes.specs.Net.{held_after, net_of};
ghost use Rattle.osql_session.specs.Own.{exchanged, named as named_of, on_first as on_first_of, place_alone as place_alone_of, place_of_own};

use crate::requests::copied_op;
use cdb_values::limits::MOST_NET_OPERATIONS;
use cdb_values::{Interval, List, RowOp, RowRef};
use net_writes::Overlay;
use own_writes::OwnWrites;
use std::alloc::{AllocError, Global};

/// The place, among so many operations, of the one that writes name, where they are one write that names one.
pub(crate) fn place_alone(ops: usize, writes: &[RowOp]) -> Option<usize>
    ensures { result ≡ place_alone_of ops writes.now }
{
    let (write, others) = writes.split_first()?;
    match others.split_first() {
        Some(_) => None,
        None => named_of_few(ops, write),
    }
}

/// The place of the operation that a write names, where the operations are no more than there may be.
fn named_of_few(ops: usize, write: &RowOp) -> Option<usize>
    ensures { result ≡ (if nat_lt MOST_NET_OPERATIONS ops then None else named_of ops write.now) }
{
    if ops > MOST_NET_OPERATIONS {
        None
    } else {
        named(ops, write)
    }
}

/// The place of the operation that a write names, if it names one of so many.
fn named(ops: usize, write: &RowOp) -> Option<usize>
    ensures { result ≡ named_of ops write.now }
{
    match write {
        RowOp::Insert { .. } => None,
        RowOp::Update { target, .. } => place_of(ops, target),
        RowOp::Delete { target, .. } => place_of(ops, target),
    }
}

/// The place of an operation that a target names, if it names one of so many.
fn place_of(ops: usize, target: &RowRef) -> Option<usize>
    ensures { result ≡ place_of_own ops target.now }
{
    match *target {
        RowRef::Base(_) => None,
        RowRef::Own(number) => place_of_number(ops, number),
    }
}

/// The place of the operation of a number, from 1, if it is one of so many.
fn place_of_number(ops: usize, number: u64) -> Option<usize>
    ensures { result ≡ place_of_own ops (target.Own number) }
{
    if number == 0 || number > ops as u64 {
        None
    } else {
        Some((number - 1) as usize)
    }
}

/// What takes the place of an operation, where writes name it: the net operations of a copy of it with these behind it.
pub(crate) fn over(
    alloc: Global,
    ops: &[RowOp],
    at: usize,
    writes: List<RowOp>,
) -> Result<List<RowOp>, AllocError>
    ensures { IfOk result (λ now. (op : OneOp) → slice_get ops.now at ≡ Some op → now ≡ net_of (op ∷ map on_first_of writes)) }
{
    match ops.get(at) {
        Some(op) => over_one(alloc, op, writes),
        None => Ok(List::new(alloc)),
    }
}

/// The net operations of a copy of an operation, with writes behind it that name it.
fn over_one(alloc: Global, op: &RowOp, writes: List<RowOp>) -> Result<List<RowOp>, AllocError>
    ensures { IfOk result (λ now. now ≡ net_of (op.now ∷ map on_first_of writes)) }
{
    let mut overlay = Overlay::new(alloc);
    overlay.write(copied_op(op)?)?;
    hold_on_first(&mut overlay, writes)?;
    overlay.into_net(alloc)
}

/// Holds these operations more, each of which names the first one in place of an own write.
fn hold_on_first(overlay: &mut Overlay, ops: List<RowOp>) -> Result<(), AllocError>
    ensures { OnOk result (overlay.new ≡ held_after overlay.old (map on_first_of ops)) }
{
    let items = ops.into_vec();
    'ops: for op in items {
        overlay.write(on_first(op))?;
    }
    Ok(())
}

/// A write that names the first write in place of an own one.
fn on_first(op: RowOp) -> RowOp
    ensures { result ≡ on_first_of op }
{
    match op {
        RowOp::Update {
            table,
            target: RowRef::Own(_),
            old,
            row,
        } => RowOp::Update {
            table,
            target: RowRef::Own(1),
            old,
            row,
        },
        RowOp::Delete {
            table,
            target: RowRef::Own(_),
            old,
        } => RowOp::Delete {
            table,
            target: RowRef::Own(1),
            old,
        },
        other => other,
    }
}

/// Takes an operation out, and adds these at the end, and intervals to the ranges: all of it, or nothing for want of memory.
pub(crate) fn exchange(
    ops: &mut OwnWrites,
    at: usize,
    now: List<RowOp>,
    ranges: &mut Vec<Interval>,
    read: List<Interval>,
) -> Result<(), AllocError>
    requires { at < length ops.old }
    ensures ops { ops.new ≡ (if is_ok result then exchanged ops.old at now else ops.old) }
    ensures ranges { ranges.new.items ≡ (if is_ok result then ranges.old.items ++ read else ranges.old.items) }
{
    let mut read = read.into_vec();
    ranges.reserve(read.len())?;
    ops.exchange(at, now)?;
    // There is room for these.
    ranges.append(&mut read)
}
