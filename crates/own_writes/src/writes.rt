//! The own writes of a transaction, in order.
ghost use Rattle.std.specs.Prelude.{◌≡◌, ℕ, ◌<◌, ◌≤◌, ◌++◌, ◌∷◌, [], List as Many, length, slice_get, take, drop, ◌+◌, if◌then◌else◌, is_ok, true, false, Some, IfSome};
ghost use Rattle.std.specs.List.{list_any};
ghost use Rattle.cdb_values.specs.Rows.{row_written, takes as takes_of};
ghost use Rattle.cdb_values.specs.declared.rows.RowOp.{RowOp as OneOp};
ghost use Rattle.cdb_values.specs.declared.values.Value.{Value as OneValue};
ghost use Rattle.session_language.specs.Intervals.{lies as lies_of};
ghost use Rattle.own_writes.specs.Kept.{AreKept, Rise, stamp_at};

use crate::keeping::{mark_up, unmark};
use crate::marks::STAMP_LIMIT;
use crate::places::{is_taken, key_named, next_by};
use cdb_values::{Interval, List, RowOp, TableDef};
use std::alloc::{AllocError, Global};
use std::collections::BTreeSet;
use std::marker::Model;

/// So many writes are looked at one after the other for less than their marks cost.
const MOST_UNMARKED: usize = 8;
/// So many are marked at a time, so that no statement pays for all writes of a long transaction.
const MOST_AT_ONCE: usize = 1024;

/// The own writes of a transaction, in order. Contracts see the list.
#[derive(Drop)]
pub struct OwnWrites {
    ops: Vec<RowOp>,
    /// A stamp for each write that is marked, which are the first ones.
    stamps: Vec<u64>,
    /// The marks of these, each with the stamp of its write.
    marks: BTreeSet<u64>,
}

impl Model for OwnWrites {
    ghost use Rattle.std.specs.Prelude.{List as Many};
    ghost use Rattle.cdb_values.specs.declared.rows.RowOp.{RowOp as OneOp};
    ghost use Rattle.own_writes.specs.Kept.{AreKept};

    ghost Value = { Many OneOp };

    ghost view = { λ w. w.ops.items };

    ghost invariant = { λ w. AreKept w.ops.items w.stamps.items w.marks };
}

impl OwnWrites {
    /// No write. Takes no memory.
    pub fn new(alloc: Global) -> OwnWrites
        ensures { result ≡ [] }
    {
        OwnWrites::from_writes(alloc, List::new(alloc))
    }

    /// These writes. Takes no memory.
    pub fn from_writes(alloc: Global, writes: List<RowOp>) -> OwnWrites
        ensures { result ≡ writes }
    {
        OwnWrites {
            ops: writes.into_vec(),
            stamps: Vec::new(alloc),
            marks: BTreeSet::new(alloc),
        }
    }

    /// The writes as a slice. Takes no memory.
    pub fn as_slice(&self) -> &[RowOp]
        ensures { result.now ≡ self.now }
    {
        self.ops.as_slice()
    }

    /// Whether writes take that version of a table away. What it costs grows with the logarithm of the writes that are
    /// marked, and with those that are not.
    pub fn takes(&self, table: u16, genid: u64) -> bool
        ensures { result ≡ list_any (takes_of table genid) self.now }
    {
        is_taken(
            self.ops.as_slice(),
            self.stamps.as_slice(),
            &self.marks,
            table,
            genid,
        )
    }

    /// The first place, from one on, that may be of a write whose row lies in an interval: the writes before it wrote
    /// none there. Where the interval has values in the first columns of its key, the others that are marked are
    /// passed over at once.
    pub fn next_within(&self, tables: &[TableDef], interval: &Interval, from: usize) -> usize
        ensures later { from ≤ result }
        ensures passed { (k : ℕ) (op : OneOp) (row : Many OneValue) → from ≤ k → k < result → slice_get self.now k ≡ Some op
            → row_written interval.now.table op ≡ Some row → lies_of tables.now interval.now row ≡ false }
    {
        match key_named(tables, interval) {
            Some(key) => next_by(
                self.stamps.as_slice(),
                &self.marks,
                interval.table,
                key.columns.as_slice(),
                interval.equal.as_slice(),
                from,
            ),
            None => from,
        }
    }

    /// Marks writes that are not, where they are more than a few. What stays as it is, for want of memory or because
    /// it was enough for once, is looked at one after the other.
    pub fn mark(&mut self)
        ensures { self.new ≡ self.old }
    {
        mark_rest(self.ops.as_slice(), &mut self.stamps, &mut self.marks);
    }

    /// Adds these writes at the end: all of them, or none for want of memory.
    pub fn add_all(&mut self, writes: List<RowOp>) -> Result<(), AllocError>
        ensures { self.new ≡ (if is_ok result then self.old ++ writes else self.old) }
    {
        append(&mut self.ops, self.stamps.as_slice(), &self.marks, writes)
    }

    /// Takes the write of a place out, and adds these at the end: all of it, or nothing for want of memory. The writes
    /// behind that place move down.
    #[tactic(auto, using(crate::proofs::OutLemmas::taken_out))]
    pub fn exchange(&mut self, at: usize, now: List<RowOp>) -> Result<(), AllocError>
        requires { at < length self.old }
        ensures { self.new ≡ (if is_ok result then (take at self.old ++ drop (at + 1) self.old) ++ now else self.old) }
    {
        self.add_all(now)?;
        self.remove(at);
        Ok(())
    }

    /// Takes the write of a place out. Those behind it move down.
    pub fn remove(&mut self, at: usize)
        requires { at < length self.old }
        ensures { self.new ≡ take at self.old ++ drop (at + 1) self.old }
    {
        take_out(&mut self.ops, &mut self.stamps, &mut self.marks, at);
    }
}

/// Adds these writes at the end, and no marks: all of them, or none for want of memory.
fn append(
    ops: &mut Vec<RowOp>,
    stamps: &[u64],
    marks: &BTreeSet<u64>,
    writes: List<RowOp>,
) -> Result<(), AllocError>
    requires { AreKept ops.old.items stamps.now marks.now }
    ensures added { ops.new.items ≡ (if is_ok result then ops.old.items ++ writes else ops.old.items) }
    ensures kept { AreKept ops.new.items stamps.now marks.now }
{
    let mut added = writes.into_vec();
    ops.append(&mut added)
}

/// Takes the write of a place out, with its stamp and its marks where it is marked.
fn take_out(ops: &mut Vec<RowOp>, stamps: &mut Vec<u64>, marks: &mut BTreeSet<u64>, at: usize)
    requires kept { AreKept ops.old.items stamps.old.items marks.old }
    requires place { at < length ops.old.items }
    ensures left { ops.new.items ≡ take at ops.old.items ++ drop (at + 1) ops.old.items }
    ensures kept { AreKept ops.new.items stamps.new.items marks.new }
{
    if at < stamps.len() {
        take_marked(ops, stamps, marks, at);
    } else {
        let _op = ops.remove(at);
    }
}

/// Takes the write of a place out, with its stamp and its marks.
fn take_marked(ops: &mut Vec<RowOp>, stamps: &mut Vec<u64>, marks: &mut BTreeSet<u64>, at: usize)
    requires kept { AreKept ops.old.items stamps.old.items marks.old }
    requires place { at < length stamps.old.items }
    ensures left { ops.new.items ≡ take at ops.old.items ++ drop (at + 1) ops.old.items }
    ensures kept { AreKept ops.new.items stamps.new.items marks.new }
{
    let stamp = stamps.remove(at);
    let op = ops.remove(at);
    unmark(marks, &op, stamp);
}

/// Marks some writes that are not marked, where they are more than a few, as far as there is memory for it.
fn mark_rest(ops: &[RowOp], stamps: &mut Vec<u64>, marks: &mut BTreeSet<u64>)
    requires { AreKept ops.now stamps.old.items marks.old }
    ensures { AreKept ops.now stamps.new.items marks.new }
{
    let count = stamps.len();
    if ops.len() - count > MOST_UNMARKED {
        mark_each(ops, stamps, marks, count.saturating_add(MOST_AT_ONCE));
    }
}

/// Marks writes that are not marked, one after the other, till so many are, as far as there is memory for it.
fn mark_each(ops: &[RowOp], stamps: &mut Vec<u64>, marks: &mut BTreeSet<u64>, most: usize)
    requires { AreKept ops.now stamps.old.items marks.old }
    ensures { AreKept ops.now stamps.new.items marks.new }
{
    'writes: while stamps.len() < most {
        if !is_next_marked(ops, stamps, marks) {
            return;
        }
    }
}

/// Marks the first write that is not, if there is one, and memory for it.
fn is_next_marked(ops: &[RowOp], stamps: &mut Vec<u64>, marks: &mut BTreeSet<u64>) -> bool
    requires { AreKept ops.now stamps.old.items marks.old }
    ensures kept { AreKept ops.now stamps.new.items marks.new }
    ensures more { result ≡ true → length stamps.old.items < length stamps.new.items }
{
    let Some(op) = ops.get(stamps.len()) else {
        return false;
    };
    let Some(stamp) = next_stamp(stamps) else {
        return false;
    };
    is_marked(ops, stamps, marks, op, stamp)
}

/// Marks the first write that is not by a stamp, if there is memory for it.
fn is_marked(
    ops: &[RowOp],
    stamps: &mut Vec<u64>,
    marks: &mut BTreeSet<u64>,
    op: &RowOp,
    stamp: u64,
) -> bool
    requires kept { AreKept ops.now stamps.old.items marks.old }
    requires place { slice_get ops.now (length stamps.old.items) ≡ Some op.now }
    requires small { stamp < 4294967296 }
    requires above { (k : ℕ) → k < length stamps.old.items → stamp_at stamps.old.items k < stamp }
    ensures kept { AreKept ops.now stamps.new.items marks.new }
    ensures more { result ≡ true → length stamps.old.items < length stamps.new.items }
{
    match mark_up(marks, op, stamp) {
        Ok(()) => stamps.push(stamp).is_ok(),
        Err(_) => false,
    }
}

/// A stamp above all of these, if there is one.
fn next_stamp(stamps: &[u64]) -> Option<u64>
    requires { Rise stamps.now }
    ensures small { IfSome result (λ stamp. stamp < 4294967296) }
    ensures above { IfSome result (λ stamp. (k : ℕ) → k < length stamps.now → stamp_at stamps.now k < stamp) }
{
    let count = stamps.len();
    if count == 0 {
        return Some(0);
    }
    let last = stamps[count - 1];
    if last < STAMP_LIMIT - 1 {
        Some(last + 1)
    } else {
        None
    }
}
