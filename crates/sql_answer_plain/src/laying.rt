//! What an outcome comes to behind the operations so far: writes are laid over them, where that leaves few enough.
ghost use Rattle.std.specs.Prelude.{◌≡◌, ◌++◌, ◌∷◌, [], ◌+◌, ◌≤◌, true, IfOk, OnOk};
ghost use Rattle.std.specs.List.{list_all};
ghost use Rattle.net_writes.specs.Net.{held_after, net_of};
ghost use Rattle.cdb_values.specs.declared.replies.Reply.TheVariants as reply;
ghost use Rattle.sql_answer.specs.Answers.{net_given};
ghost use Rattle.sql_answer.specs.Language.{answered};
ghost use Rattle.sql_answer_plain.specs.Laid.{IsLaid, is_base as is_base_of, is_on_base as is_on_base_of};
ghost use Rattle.sql_answer_plain.specs.Views.{outcome_in};

use crate::copies::copied_op;
use crate::outcomes::Outcome;
use crate::writes::one;
use cdb_values::limits::MOST_NET_OPERATIONS;
use cdb_values::{GenidItem, List, Reply, RowOp, RowRef, StatementError};
use net_writes::{Overlay, net};
use std::alloc::{AllocError, Global};

/// What a statement is answered.
#[derive(Drop)]
pub struct Answer {
    /// What the session is told.
    pub replies: List<Reply>,
    /// The transaction's net operations after the statement.
    pub ops: List<RowOp>,
    /// The versions that the statement uses besides those that operations take away.
    pub uses: List<GenidItem>,
}

/// Writes laid over operations.
#[derive(Drop)]
pub(crate) enum Laid {
    /// The net operations of both.
    Fits(List<RowOp>),
    /// They would be too many: the operations, as they were.
    TooLong(List<RowOp>),
}

/// What a statement is answered behind a transaction's net operations so far, `done`, by its outcome. A statement with
/// an error gives `done` back as it was.
///
/// No row of `done` is copied, but where the statement may leave too many operations.
///
/// `Err` is want of memory.
pub fn answered_by(alloc: Global, done: List<RowOp>, outcome: Outcome) -> Result<Answer, AllocError>
    ensures replies { IfOk result (λ a. a.replies ≡ (answered [] done (outcome_in done outcome)).replies) }
    ensures ops { IfOk result (λ a. a.ops ≡ (answered [] done (outcome_in done outcome)).ops) }
    ensures uses { IfOk result (λ a. a.uses ≡ (answered [] done (outcome_in done outcome)).uses) }
{
    match outcome {
        Outcome::Fails(cause) => refused(alloc, done, cause),
        Outcome::Tells { replies, uses } => Ok(Answer {
            replies,
            ops: done,
            uses,
        }),
        Outcome::Writes(writes) => written(alloc, done, writes),
    }
}

/// The answer by an error: the operations stay as they were.
pub fn refused(
    alloc: Global,
    done: List<RowOp>,
    cause: StatementError,
) -> Result<Answer, AllocError>
    ensures replies { IfOk result (λ a. a.replies ≡ reply.Error cause ∷ []) }
    ensures ops { IfOk result (λ a. a.ops ≡ done) }
    ensures uses { IfOk result (λ a. a.uses ≡ []) }
{
    let replies = one(alloc, Reply::Error(cause))?;
    Ok(Answer {
        replies,
        ops: done,
        uses: List::new(alloc),
    })
}

/// The answer of writes, where no row has an error.
fn written(alloc: Global, done: List<RowOp>, writes: List<RowOp>) -> Result<Answer, AllocError>
    ensures replies { IfOk result (λ a. a.replies ≡ (answered [] done (net_given done writes)).replies) }
    ensures ops { IfOk result (λ a. a.ops ≡ (answered [] done (net_given done writes)).ops) }
    ensures uses { IfOk result (λ a. a.uses ≡ (answered [] done (net_given done writes)).uses) }
{
    let count = writes.len() as u64;
    match lay(alloc, done, writes)? {
        Laid::Fits(ops) => changed(alloc, count, ops),
        Laid::TooLong(done) => refused(alloc, done, StatementError::TooLong),
    }
}

/// The answer of that many writes, which leave these operations.
fn changed(alloc: Global, count: u64, ops: List<RowOp>) -> Result<Answer, AllocError>
    ensures replies { IfOk result (λ a. a.replies ≡ reply.Changed count ∷ []) }
    ensures ops { IfOk result (λ a. a.ops ≡ ops) }
    ensures uses { IfOk result (λ a. a.uses ≡ []) }
{
    let replies = one(alloc, Reply::Changed(count))?;
    Ok(Answer {
        replies,
        ops,
        uses: List::new(alloc),
    })
}

/// Writes are laid over operations.
#[tactic(auto, using(crate::proofs::LaidLemmas::few_fit))]
fn lay(alloc: Global, done: List<RowOp>, writes: List<RowOp>) -> Result<Laid, AllocError>
    ensures { IfOk result (λ l. IsLaid done writes l) }
{
    if are_few(done.len(), writes.len()) {
        Ok(Laid::Fits(net_with(alloc, done, writes)?))
    } else {
        judged(alloc, done, writes)
    }
}

/// Whether so many operations and writes can't come to too many net operations.
fn are_few(done: usize, writes: usize) -> bool
    ensures { result ≡ true → done + writes ≤ 16384 }
{
    done <= MOST_NET_OPERATIONS && writes <= MOST_NET_OPERATIONS - done
}

/// Writes are laid over copies of operations, which stay where they would be too many.
fn judged(alloc: Global, done: List<RowOp>, writes: List<RowOp>) -> Result<Laid, AllocError>
    ensures { IfOk result (λ l. IsLaid done writes l) }
{
    let all = joined(alloc, done.as_slice(), writes.as_slice())?;
    let ops = net(alloc, all.as_slice())?;
    if ops.len() > MOST_NET_OPERATIONS {
        Ok(Laid::TooLong(done))
    } else {
        Ok(Laid::Fits(ops))
    }
}

/// Copies of operations, and of these more behind them.
fn joined(alloc: Global, ops: &[RowOp], more: &[RowOp]) -> Result<List<RowOp>, AllocError>
    ensures { IfOk result (λ all. all ≡ ops.now ++ more.now) }
{
    let mut all = List::new(alloc);
    add_ops(&mut all, ops)?;
    add_ops(&mut all, more)?;
    Ok(all)
}

/// Adds copies of operations.
fn add_ops(all: &mut List<RowOp>, ops: &[RowOp]) -> Result<(), AllocError>
    ensures { OnOk result (all.new ≡ all.old ++ ops.now) }
{
    let mut rest = ops;
    'ops: while let Some((op, others)) = rest.split_first() {
        all.push(copied_op(op)?)?;
        rest = others;
    }
    Ok(())
}

/// The net operations of operations and of writes behind them. Nothing is copied; where no own write is named, the
/// operations stay where they are.
#[tactic(auto, using(crate::proofs::LaidLemmas::base_is_net))]
fn net_with(
    alloc: Global,
    done: List<RowOp>,
    writes: List<RowOp>,
) -> Result<List<RowOp>, AllocError>
    ensures { IfOk result (λ ops. ops ≡ net_of (done ++ writes)) }
{
    if are_on_base(done.as_slice()) && are_on_base(writes.as_slice()) {
        appended(done, writes)
    } else {
        overlaid(alloc, done, writes)
    }
}

/// Whether each operation names no own write.
fn are_on_base(ops: &[RowOp]) -> bool
    ensures { result ≡ list_all is_on_base_of ops.now }
{
    ops.iter().all(|op| is_on_base(op))
}

/// Whether an operation names no own write.
fn is_on_base(op: &RowOp) -> bool
    ensures { result ≡ is_on_base_of op.now }
{
    match op {
        RowOp::Insert { .. } => true,
        RowOp::Update { target, .. } => is_base(target),
        RowOp::Delete { target, .. } => is_base(target),
    }
}

/// Whether a target is a version of the base.
fn is_base(target: &RowRef) -> bool
    ensures { result ≡ is_base_of target.now }
{
    match target {
        RowRef::Base(_) => true,
        RowRef::Own(_) => false,
    }
}

/// These operations, and then those.
fn appended(first: List<RowOp>, second: List<RowOp>) -> Result<List<RowOp>, AllocError>
    ensures { IfOk result (λ all. all ≡ first ++ second) }
{
    let mut all = first.into_vec();
    let mut more = second.into_vec();
    all.append(&mut more)?;
    Ok(List::from_vec(all))
}

/// The net operations of operations and of writes behind them, each of them held one after the other.
#[tactic(auto, using(crate::proofs::LaidLemmas::held_both))]
fn overlaid(
    alloc: Global,
    done: List<RowOp>,
    writes: List<RowOp>,
) -> Result<List<RowOp>, AllocError>
    ensures { IfOk result (λ ops. ops ≡ net_of (done ++ writes)) }
{
    let mut overlay = Overlay::new(alloc);
    hold(&mut overlay, done)?;
    hold(&mut overlay, writes)?;
    overlay.into_net(alloc)
}

/// Holds these operations more.
fn hold(overlay: &mut Overlay, ops: List<RowOp>) -> Result<(), AllocError>
    ensures { OnOk result (overlay.new ≡ held_after overlay.old ops) }
{
    let items = ops.into_vec();
    'ops: for op in items {
        overlay.write(op)?;
    }
    Ok(())
}
