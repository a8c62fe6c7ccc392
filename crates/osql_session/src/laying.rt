//! Writes laid over the operations so far. Where something is wanting, all is left as it was.
ghost use Rattle.std.specs.Prelude.{◌≡◌, ◌++◌, ◌∷◌, [], ◌+◌, ◌≤◌, true, false, length, if◌then◌else◌, is_ok, Some, IfOk, OnOk, OnErr};
ghost use Rattle.std.specs.List.{list_all};
ghost use Rattle.net_writes.specs.Net.{held_after, net_of};
ghost use Rattle.query_laws.specs.Alone.{replies_of};
ghost use Rattle.cdb_values.specs.declared.replies.Reply.TheVariants as reply;
ghost use Rattle.sql_answer.specs.Answers.{net_given, ops_after};
ghost use Rattle.sql_answer_plain.specs.Laid.{is_base as is_base_of, is_on_base as is_on_base_of};
ghost use Rattle.osql_session.specs.Own.{place_alone as place_alone_of};
ghost use Rattle.osql_session.specs.Used.{used_of};

use crate::own::{exchange, over, place_alone};
use crate::requests::copied_op;
use cdb_values::limits::MOST_NET_OPERATIONS;
use cdb_values::{Interval, List, Reply, RowOp, RowRef, StatementError};
use net_writes::Overlay;
use own_writes::OwnWrites;
use std::alloc::{AllocError, Global};

/// One line alone.
pub(crate) fn alone(alloc: Global, line: Reply) -> Result<List<Reply>, AllocError>
    ensures { IfOk result (λ lines. lines ≡ line ∷ []) }
{
    let mut lines = List::new(alloc);
    lines.push(line)?;
    Ok(lines)
}

/// Adds these items to the one, and those to the other: all of them, or none for want of memory.
pub(crate) fn append_both<A: Drop, B: Drop>(
    first: &mut Vec<A>,
    to_first: List<A>,
    second: &mut Vec<B>,
    to_second: List<B>,
) -> Result<(), AllocError>
    ensures first { first.new.items ≡ (if is_ok result then first.old.items ++ to_first else first.old.items) }
    ensures second { second.new.items ≡ (if is_ok result then second.old.items ++ to_second else second.old.items) }
{
    let mut to_first = to_first.into_vec();
    let mut to_second = to_second.into_vec();
    first.reserve(to_first.len())?;
    second.append(&mut to_second)?;
    // There is room for these.
    first.append(&mut to_first)
}

/// Adds these writes to the operations, and these intervals to the ranges: all of them, or none for want of memory.
fn add_both(
    ops: &mut OwnWrites,
    writes: List<RowOp>,
    ranges: &mut Vec<Interval>,
    read: List<Interval>,
) -> Result<(), AllocError>
    ensures ops { ops.new ≡ (if is_ok result then ops.old ++ writes else ops.old) }
    ensures ranges { ranges.new.items ≡ (if is_ok result then ranges.old.items ++ read else ranges.old.items) }
{
    let mut read = read.into_vec();
    ranges.reserve(read.len())?;
    ops.add_all(writes)?;
    // There is room for these.
    ranges.append(&mut read)
}

/// The answer of writes, where no row has an error. The operations and the ranges are as before where it is not given,
/// and where the writes would leave too many operations.
pub(crate) fn written(
    alloc: Global,
    ops: &mut OwnWrites,
    writes: List<RowOp>,
    ranges: &mut Vec<Interval>,
    read: List<Interval>,
) -> Result<List<Reply>, AllocError>
    requires { list_all is_on_base_of ops.old ≡ true }
    ensures replies { IfOk result (λ lines. lines ≡ replies_of (net_given ops.old writes)) }
    ensures ops { OnOk result (ops.new ≡ ops_after ops.old (net_given ops.old writes)) }
    ensures ranges { OnOk result (ranges.new.items ≡ ranges.old.items ++ used_of (net_given ops.old writes) read) }
    ensures ops_stay { OnErr result (ops.new ≡ ops.old) }
    ensures ranges_stay { OnErr result (ranges.new.items ≡ ranges.old.items) }
    ensures based { list_all is_on_base_of ops.new ≡ true }
{
    let count = ops.as_slice().len();
    if add_up(count, writes.as_slice()) {
        return added(alloc, ops, writes, ranges, read);
    }
    match place_alone(count, writes.as_slice()) {
        Some(at) => laid_over(alloc, ops, at, writes, ranges, read),
        None => laid(alloc, ops, writes, ranges, read),
    }
}

/// Whether writes behind so many operations name no own write, and can't come to too many net operations.
fn add_up(ops: usize, writes: &[RowOp]) -> bool
    ensures few { result ≡ true → ops + length writes.now ≤ 16384 }
    ensures based { result ≡ true → list_all is_on_base_of writes.now ≡ true }
{
    are_few(ops, writes.len()) && are_on_base(writes)
}

/// Whether so many operations and writes can't come to too many net operations.
fn are_few(ops: usize, writes: usize) -> bool
    ensures { result ≡ true → ops + writes ≤ 16384 }
{
    ops <= MOST_NET_OPERATIONS && writes <= MOST_NET_OPERATIONS - ops
}

/// Whether each operation names no own write.
fn are_on_base(ops: &[RowOp]) -> bool
    ensures { result ≡ list_all is_on_base_of ops.now }
{
    ops.iter().all(|op| is_on_base(op))
}

/// Whether an operation names no own write.
fn is_on_base(op: &RowOp) -> bool
    ensures { result ≡ is_on_base_of op.now }
{
    match op {
        RowOp::Insert { .. } => true,
        RowOp::Update { target, .. } => is_base(target),
        RowOp::Delete { target, .. } => is_base(target),
    }
}

/// Whether a target is a version of the base.
fn is_base(target: &RowRef) -> bool
    ensures { result ≡ is_base_of target.now }
{
    match target {
        RowRef::Base(_) => true,
        RowRef::Own(_) => false,
    }
}

/// The answer of writes that are added behind the operations as they are. No operation is copied.
#[tactic(auto, using(sql_answer_plain::proofs::LaidLemmas::few_fit, sql_answer_plain::proofs::LaidLemmas::base_is_net, crate::proofs::BaseLemmas::both_are_based))]
fn added(
    alloc: Global,
    ops: &mut OwnWrites,
    writes: List<RowOp>,
    ranges: &mut Vec<Interval>,
    read: List<Interval>,
) -> Result<List<Reply>, AllocError>
    requires based { list_all is_on_base_of ops.old ≡ true }
    requires own { list_all is_on_base_of writes ≡ true }
    requires few { length ops.old + length writes ≤ 16384 }
    ensures replies { IfOk result (λ lines. lines ≡ replies_of (net_given ops.old writes)) }
    ensures ops { OnOk result (ops.new ≡ ops_after ops.old (net_given ops.old writes)) }
    ensures ranges { OnOk result (ranges.new.items ≡ ranges.old.items ++ used_of (net_given ops.old writes) read) }
    ensures ops_stay { OnErr result (ops.new ≡ ops.old) }
    ensures ranges_stay { OnErr result (ranges.new.items ≡ ranges.old.items) }
    ensures based { list_all is_on_base_of ops.new ≡ true }
{
    let lines = alone(alloc, Reply::Changed(writes.len() as u64))?;
    add_both(ops, writes, ranges, read)?;
    Ok(lines)
}

/// The answer of a write that names an operation, which is taken out where it stands. No other one is copied.
#[tactic(auto, using(crate::proofs::OwnLemmas::over_is_net, crate::proofs::OwnLemmas::one_fits, crate::proofs::OwnLemmas::over_is_based))]
fn laid_over(
    alloc: Global,
    ops: &mut OwnWrites,
    at: usize,
    writes: List<RowOp>,
    ranges: &mut Vec<Interval>,
    read: List<Interval>,
) -> Result<List<Reply>, AllocError>
    requires based { list_all is_on_base_of ops.old ≡ true }
    requires place { place_alone_of (length ops.old) writes ≡ Some at }
    ensures replies { IfOk result (λ lines. lines ≡ replies_of (net_given ops.old writes)) }
    ensures ops { OnOk result (ops.new ≡ ops_after ops.old (net_given ops.old writes)) }
    ensures ranges { OnOk result (ranges.new.items ≡ ranges.old.items ++ used_of (net_given ops.old writes) read) }
    ensures ops_stay { OnErr result (ops.new ≡ ops.old) }
    ensures ranges_stay { OnErr result (ranges.new.items ≡ ranges.old.items) }
    ensures based { list_all is_on_base_of ops.new ≡ true }
{
    let lines = alone(alloc, Reply::Changed(writes.len() as u64))?;
    let now = over(alloc, ops.as_slice(), at, writes)?;
    exchange(ops, at, now, ranges, read)?;
    Ok(lines)
}

/// The answer of writes, by the net operations of copies of the operations and of the writes behind them.
#[tactic(auto, using(crate::proofs::BaseLemmas::net_is_based))]
fn laid(
    alloc: Global,
    ops: &mut OwnWrites,
    writes: List<RowOp>,
    ranges: &mut Vec<Interval>,
    read: List<Interval>,
) -> Result<List<Reply>, AllocError>
    requires { list_all is_on_base_of ops.old ≡ true }
    ensures replies { IfOk result (λ lines. lines ≡ replies_of (net_given ops.old writes)) }
    ensures ops { OnOk result (ops.new ≡ ops_after ops.old (net_given ops.old writes)) }
    ensures ranges { OnOk result (ranges.new.items ≡ ranges.old.items ++ used_of (net_given ops.old writes) read) }
    ensures ops_stay { OnErr result (ops.new ≡ ops.old) }
    ensures ranges_stay { OnErr result (ranges.new.items ≡ ranges.old.items) }
    ensures based { list_all is_on_base_of ops.new ≡ true }
{
    let count = writes.len() as u64;
    let net = net_with(alloc, ops.as_slice(), writes)?;
    if net.len() > MOST_NET_OPERATIONS {
        alone(alloc, Reply::Error(StatementError::TooLong))
    } else {
        replaced(alloc, count, ops, net, ranges, read)
    }
}

/// The answer of that many writes, which leave these operations.
fn replaced(
    alloc: Global,
    count: u64,
    ops: &mut OwnWrites,
    net: List<RowOp>,
    ranges: &mut Vec<Interval>,
    read: List<Interval>,
) -> Result<List<Reply>, AllocError>
    ensures replies { IfOk result (λ lines. lines ≡ reply.Changed count ∷ []) }
    ensures ops { OnOk result (ops.new ≡ net) }
    ensures ranges { OnOk result (ranges.new.items ≡ ranges.old.items ++ read) }
    ensures ops_stay { OnErr result (ops.new ≡ ops.old) }
    ensures ranges_stay { OnErr result (ranges.new.items ≡ ranges.old.items) }
{
    let lines = alone(alloc, Reply::Changed(count))?;
    let mut read = read.into_vec();
    ranges.append(&mut read)?;
    *ops = OwnWrites::from_writes(alloc, net);
    Ok(lines)
}

/// The net operations of copies of operations and of writes behind them.
#[tactic(auto, using(sql_answer_plain::proofs::LaidLemmas::held_both))]
fn net_with(alloc: Global, ops: &[RowOp], writes: List<RowOp>) -> Result<List<RowOp>, AllocError>
    ensures { IfOk result (λ net. net ≡ net_of (ops.now ++ writes)) }
{
    let mut overlay = Overlay::new(alloc);
    hold_copies(&mut overlay, ops)?;
    hold(&mut overlay, writes)?;
    overlay.into_net(alloc)
}

/// Holds copies of these operations more.
fn hold_copies(overlay: &mut Overlay, ops: &[RowOp]) -> Result<(), AllocError>
    ensures { OnOk result (overlay.new ≡ held_after overlay.old ops.now) }
{
    let mut rest = ops;
    'ops: while let Some((op, others)) = rest.split_first() {
        overlay.write(copied_op(op)?)?;
        rest = others;
    }
    Ok(())
}

/// Holds these operations more.
fn hold(overlay: &mut Overlay, ops: List<RowOp>) -> Result<(), AllocError>
    ensures { OnOk result (overlay.new ≡ held_after overlay.old ops) }
{
    let items = ops.into_vec();
    'ops: for op in items {
        overlay.write(op)?;
    }
    Ok(())
}
