//! The marks of writes, which are put in and taken out.
ghost use Rattle.std.specs.Prelude.{◌≡◌, ◌<◌, true, OnOk};
ghost use Rattle.own_writes.specs.Kept.{has, HasColumns, HasTarget, IsMarked, Keeps, KeepsOthers};

use crate::marks::{column_mark, genid_mark, key_of};
use cdb_values::{RowOp, RowRef, Value};
use std::alloc::AllocError;
use std::collections::BTreeSet;

/// Puts the marks of a write in. What is there stays.
pub(crate) fn mark_up(marks: &mut BTreeSet<u64>, op: &RowOp, stamp: u64) -> Result<(), AllocError>
    requires { stamp < 4294967296 }
    ensures marked { OnOk result (IsMarked marks.new stamp op.now) }
    ensures keeps { Keeps marks.old marks.new }
{
    match op {
        RowOp::Insert { table, row } => mark_row(marks, *table, row.as_slice(), stamp),
        RowOp::Update {
            table,
            target,
            row,
            ..
        } => {
            mark_target(marks, *table, target, stamp)?;
            mark_row(marks, *table, row.as_slice(), stamp)
        }
        RowOp::Delete { table, target, .. } => mark_target(marks, *table, target, stamp),
    }
}

/// Puts the mark of each column of a row in.
fn mark_row(
    marks: &mut BTreeSet<u64>,
    table: u16,
    row: &[Value],
    stamp: u64,
) -> Result<(), AllocError>
    requires { stamp < 4294967296 }
    ensures marked { OnOk result (HasColumns marks.new stamp table row.now) }
    ensures keeps { Keeps marks.old marks.new }
{
    let mut column: usize = 0;
    'columns: while column < row.len() {
        let mark = column_mark(table, column as u64, &row[column]);
        add_mark(marks, mark, stamp)?;
        column += 1;
    }
    Ok(())
}

/// Puts the mark of a version that is taken away in.
fn mark_target(
    marks: &mut BTreeSet<u64>,
    table: u16,
    target: &RowRef,
    stamp: u64,
) -> Result<(), AllocError>
    requires { stamp < 4294967296 }
    ensures marked { OnOk result (HasTarget marks.new stamp table target.now) }
    ensures keeps { Keeps marks.old marks.new }
{
    match *target {
        RowRef::Base(genid) => add_mark(marks, genid_mark(table, genid), stamp),
        RowRef::Own(_) => Ok(()),
    }
}

fn add_mark(marks: &mut BTreeSet<u64>, mark: u64, stamp: u64) -> Result<(), AllocError>
    requires mark { mark < 4294967296 }
    requires stamp { stamp < 4294967296 }
    ensures has { OnOk result (has marks.new mark stamp ≡ true) }
    ensures keeps { Keeps marks.old marks.new }
{
    match marks.insert(key_of(mark, stamp)) {
        Ok(_) => Ok(()),
        Err(_) => Err(AllocError),
    }
}

/// Takes the marks of a write out. Those of other stamps stay.
pub(crate) fn unmark(marks: &mut BTreeSet<u64>, op: &RowOp, stamp: u64)
    requires { stamp < 4294967296 }
    ensures { KeepsOthers stamp marks.old marks.new }
{
    match op {
        RowOp::Insert { table, row } => unmark_row(marks, *table, row.as_slice(), stamp),
        RowOp::Update {
            table,
            target,
            row,
            ..
        } => {
            unmark_target(marks, *table, target, stamp);
            unmark_row(marks, *table, row.as_slice(), stamp);
        }
        RowOp::Delete { table, target, .. } => unmark_target(marks, *table, target, stamp),
    }
}

/// Takes the mark of each column of a row out.
fn unmark_row(marks: &mut BTreeSet<u64>, table: u16, row: &[Value], stamp: u64)
    requires { stamp < 4294967296 }
    ensures { KeepsOthers stamp marks.old marks.new }
{
    let mut column: usize = 0;
    'columns: while column < row.len() {
        let mark = column_mark(table, column as u64, &row[column]);
        remove_mark(marks, mark, stamp);
        column += 1;
    }
}

/// Takes the mark of a version that is taken away out.
fn unmark_target(marks: &mut BTreeSet<u64>, table: u16, target: &RowRef, stamp: u64)
    requires { stamp < 4294967296 }
    ensures { KeepsOthers stamp marks.old marks.new }
{
    match *target {
        RowRef::Base(genid) => remove_mark(marks, genid_mark(table, genid), stamp),
        RowRef::Own(_) => {}
    }
}

fn remove_mark(marks: &mut BTreeSet<u64>, mark: u64, stamp: u64)
    requires mark { mark < 4294967296 }
    requires stamp { stamp < 4294967296 }
    ensures { KeepsOthers stamp marks.old marks.new }
{
    let _was_there = marks.remove(&key_of(mark, stamp));
}
