//! The net operations of a transaction: what its writes come to on the rows of its begin position.
//!
//! Each write is recorded in order, and names an own earlier write by its number, from 1. The net
//! operations name versions of the base alone.
//!
//! | A write | stands for |
//! |---|---|
//! | an insert, or an update or a delete of a base version | itself |
//! | an update of an own insert | an insert of the new row, at the end |
//! | an update of an own update | an update of the same base version, with its old row, at the end |
//! | a delete of an own insert | nothing |
//! | a delete of an own update | the delete of that base version, with its old row, at the end |
//!
//! In each of the last four the earlier write stands for nothing from then on. For example: insert
//! `(1)`; insert `(2)`; update write 1 to `(3)`; delete write 2 leaves the one operation insert `(3)`.
//!
//! `Overlay` keeps them up one write at a time, by a place for each write:
//!
//! ```text
//! insert (1)            1: insert (1)
//! insert (2)            1: insert (1)   2: insert (2)
//! update 1 to (3)       1:              2: insert (2)   3: insert (3)
//! delete 2              1:              2:              3: insert (3)   4:
//! ```
#![tactic(auto)]

ghost use Rattle.std.specs.Prelude.{◌≡◌, ◌++◌, ◌∷◌, [], List as Many, IfOk};
ghost use Rattle.cdb_values.specs.declared.rows.RowOp.{RowOp as OneOp};
ghost use Rattle.net_writes.specs.Net.{held_with, held_after, standing, net_of};
ghost use Rattle.net_writes.specs.Slots.{NumbersAreAsGood};

mod overlay;

use cdb_values::{List, RowOp};
pub use overlay::Overlay;
use std::alloc::{AllocError, Global};

/// The net operations of these writes, which are kept up one after the other. `Err` is want of memory.
pub fn net(alloc: Global, ops: &[RowOp]) -> Result<List<RowOp>, AllocError>
    ensures { IfOk result (λ net. net ≡ net_of ops.now) }
{
    let mut overlay = Overlay::new(alloc);
    let mut rest = ops;
    'writes: while let Some((op, after)) = rest.split_first() {
        let copy = copied(op)?;
        overlay.write(copy)?;
        rest = after;
    }
    overlay.into_net(alloc)
}

/// A copy of an operation.
fn copied(op: &RowOp) -> Result<RowOp, AllocError>
    ensures { IfOk result (λ copy. copy ≡ op.now) }
{
    op.clone()
}

/// The law that what is kept up a write at a time is the net of the writes so far: a write more is held behind them.
/// Where later writes name own ones by their numbers, they come to the same net operations as where they name them by
/// their places among the net operations so far; and the net operations are their own net.
pub fn kept_up_is_net()
    ensures kept { (ops : Many OneOp) (op : OneOp) → net_of (ops ++ op ∷ []) ≡ standing (held_with (held_after [] ops) op) }
    ensures numbers { NumbersAreAsGood }
    ensures again { (ops : Many OneOp) → net_of (net_of ops) ≡ net_of ops }
{}
