//! What a session asks at its commit.
ghost use Rattle.std.specs.Prelude.{◌≡◌, IfOk};
ghost use Rattle.osql_session.specs.Requests.{versions_used};

use crate::items::UsedItems;
use cdb_values::{Edge, GenidItem, Interval, Level, List, Row, RowOp};
use phys_log::{CommitId, CommitRequest};
use std::alloc::{AllocError, Global};

/// The request of these operations, with what the statements used.
pub(crate) fn asked(
    alloc: Global,
    id: &CommitId,
    begin: u64,
    level: Level,
    ops: &[RowOp],
    genids: &[GenidItem],
    ranges: &[Interval],
) -> Result<CommitRequest, AllocError>
    ensures id { IfOk result (λ request. request.id ≡ id.now) }
    ensures begin { IfOk result (λ request. request.begin ≡ begin) }
    ensures level { IfOk result (λ request. request.level ≡ level) }
    ensures ops { IfOk result (λ request. request.ops ≡ ops.now) }
    ensures genids { IfOk result (λ request. request.genids ≡ versions_used ops.now genids.now) }
    ensures ranges { IfOk result (λ request. request.ranges ≡ ranges.now) }
{
    Ok(CommitRequest {
        id: copied_id(id)?,
        begin,
        level,
        ops: copied_ops(alloc, ops)?,
        genids: used(alloc, ops, genids)?,
        ranges: copied_ranges(alloc, ranges)?,
    })
}

/// The versions that operations take away and those that SELECTV used, without repeats.
#[tactic(auto, using(crate::proofs::ItemLemmas::one_after_the_other))]
fn used(alloc: Global, ops: &[RowOp], genids: &[GenidItem]) -> Result<List<GenidItem>, AllocError>
    ensures { IfOk result (λ items. items ≡ versions_used ops.now genids.now) }
{
    let mut items = UsedItems::new(alloc);
    items.add_taken(ops)?;
    items.add_all(genids)?;
    items.listed(alloc)
}

/// An equal identity.
fn copied_id(id: &CommitId) -> Result<CommitId, AllocError>
    ensures { IfOk result (λ copy. copy ≡ id.now) }
{
    id.clone()
}

/// An equal operation.
pub(crate) fn copied_op(op: &RowOp) -> Result<RowOp, AllocError>
    ensures { IfOk result (λ copy. copy ≡ op.now) }
{
    op.clone()
}

/// Equal operations.
fn copied_ops(alloc: Global, ops: &[RowOp]) -> Result<List<RowOp>, AllocError>
    ensures { IfOk result (λ copies. copies ≡ ops.now) }
{
    let mut copies = List::new(alloc);
    let mut rest = ops;
    'ops: while let Some((op, others)) = rest.split_first() {
        copies.push(copied_op(op)?)?;
        rest = others;
    }
    Ok(copies)
}

/// An equal range.
fn copied_range(range: &Interval) -> Result<Interval, AllocError>
    ensures { IfOk result (λ copy. copy ≡ range.now) }
{
    Ok(Interval {
        table: range.table,
        key: range.key,
        equal: copied_row(&range.equal)?,
        low: copied_edge(&range.low)?,
        high: copied_edge(&range.high)?,
        empty: range.empty,
    })
}

/// An equal row.
fn copied_row(row: &Row) -> Result<Row, AllocError>
    ensures { IfOk result (λ copy. copy ≡ row.now) }
{
    row.clone()
}

/// An equal end of an interval.
fn copied_edge(edge: &Edge) -> Result<Edge, AllocError>
    ensures { IfOk result (λ copy. copy ≡ edge.now) }
{
    edge.clone()
}

/// Equal ranges.
fn copied_ranges(alloc: Global, ranges: &[Interval]) -> Result<List<Interval>, AllocError>
    ensures { IfOk result (λ copies. copies ≡ ranges.now) }
{
    let mut copies = List::new(alloc);
    let mut rest = ranges;
    'copies: while let Some((range, others)) = rest.split_first() {
        copies.push(copied_range(range)?)?;
        rest = others;
    }
    Ok(copies)
}
