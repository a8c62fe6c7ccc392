//! Operations on rows by genid, and what writes come to.
ghost use Rattle.std.specs.Prelude.{◌≡◌};
ghost use Rattle.genid_rows.specs.Targets.{table_of};

use cdb_values::{ColumnDef, ColumnType, List, Name, Row, RowOp, RowRef, TableDef, Value};
use genid_rows::{OpFault, State, apply_op};
use net_writes::{Overlay, net};
use std::alloc::{AllocError, Global};
use std::test::Fail;

fn row(alloc: Global, value: i64) -> Result<Row, AllocError> {
    let mut row = List::new(alloc);
    row.push(Value::Int(value))?;
    Ok(row)
}

fn insert(alloc: Global, value: i64) -> Result<RowOp, AllocError> {
    let row = row(alloc, value)?;
    Ok(RowOp::Insert { table: 0, row })
}

fn update(alloc: Global, target: RowRef, was: i64, value: i64) -> Result<RowOp, AllocError> {
    let old = row(alloc, was)?;
    let row = row(alloc, value)?;
    Ok(RowOp::Update {
        table: 0,
        target,
        old,
        row,
    })
}

fn delete(alloc: Global, target: RowRef, was: i64) -> Result<RowOp, AllocError> {
    let old = row(alloc, was)?;
    Ok(RowOp::Delete {
        table: 0,
        target,
        old,
    })
}

/// The number of a row.
fn number_in(row: &Row) -> i64 {
    match row.as_slice().first() {
        Some(Value::Int(number)) => *number,
        _ => 0,
    }
}

/// An operation as numbers: its kind, and the numbers of its rows.
fn told(op: &RowOp) -> (u16, i64, i64) {
    match op {
        RowOp::Insert { row, .. } => (0, 0, number_in(row)),
        RowOp::Update { old, row, .. } => (1, number_in(old), number_in(row)),
        RowOp::Delete { old, .. } => (2, number_in(old), 0),
    }
}

/// Two inserts, of which one is updated and the other deleted, are one insert.
#[test]
fn writes_come_to_one(rt: HostRuntime) -> Result<(), Fail> {
    let alloc = rt.alloc();
    let mut ops = Vec::new(alloc);
    ops.push(insert(alloc, 1)?)?;
    ops.push(insert(alloc, 2)?)?;
    ops.push(update(alloc, RowRef::Own(1), 1, 3)?)?;
    ops.push(delete(alloc, RowRef::Own(2), 2)?)?;
    let net = net(alloc, ops.as_slice())?;
    assert_eq!(rt; net.len(), 1);
    assert!(rt; net.as_slice().iter().all(|op| told(op) == (0, 0, 3)));
    Ok(())
}

/// Updates one row of the base a thousand times.
fn update_often(alloc: Global, overlay: &mut Overlay) -> Result<(), AllocError> {
    overlay.write(update(alloc, RowRef::Base(5), 7, 0)?)?;
    for write in 1..1000u16 {
        overlay.write(update(alloc, RowRef::Own(u64::from(write)), 7, i64::from(write))?)?;
    }
    Ok(())
}

/// It is one operation.
#[test]
fn a_row_updated_often(rt: HostRuntime) -> Result<(), Fail> {
    let mut overlay = Overlay::new(rt.alloc());
    update_often(rt.alloc(), &mut overlay)?;
    let net = overlay.into_net(rt.alloc())?;
    assert_eq!(rt; net.len(), 1);
    assert!(rt; net.as_slice().iter().all(|op| told(op) == (1, 7, 999)));
    Ok(())
}

fn place(op: &RowOp) -> u16
    ensures { result ≡ table_of op.now }
{
    match op {
        RowOp::Insert { table, .. } => *table,
        RowOp::Update { table, .. } => *table,
        RowOp::Delete { table, .. } => *table,
    }
}

/// What an operation gives, and keeps it.
fn given(
    alloc: Global,
    state: &mut State,
    made: &mut List<u64>,
    op: RowOp,
) -> Result<Option<u64>, OpFault> {
    if place(&op) as usize >= state.tables() {
        return Err(OpFault::Missing);
    }
    let genid = apply_op(alloc, state, &op, made)?;
    match made.push(genid.unwrap_or(0)) {
        Ok(()) => Ok(genid),
        Err(_) => Err(OpFault::NoMemory),
    }
}

/// What an operation gives as a number: its genid, 0 for none, 99 where the row is missing.
fn as_number(given: Result<Option<u64>, OpFault>) -> u64 {
    match given {
        Ok(genid) => genid.unwrap_or(0),
        Err(OpFault::Missing) => 99,
        Err(_) => 100,
    }
}

/// What the operations give, one behind the other, on a table without rows.
fn all_given(alloc: Global, ops: Vec<RowOp>) -> Result<Vec<u64>, AllocError> {
    let mut state = without_rows(alloc)?;
    let mut made = List::new(alloc);
    let mut numbers = Vec::new(alloc);
    for op in ops {
        numbers.push(as_number(given(alloc, &mut state, &mut made, op)))?;
    }
    Ok(numbers)
}

/// A table without a key.
fn table(alloc: Global) -> Result<TableDef, AllocError> {
    let mut columns = List::new(alloc);
    columns.push(ColumnDef {
        name: Name::copied(alloc, b"id")?,
        kind: ColumnType::Integer,
        nullable: false,
    })?;
    Ok(TableDef {
        name: Name::copied(alloc, b"t")?,
        columns,
        keys: List::new(alloc),
    })
}

/// That table alone, without rows.
fn without_rows(alloc: Global) -> Result<State, AllocError> {
    let mut tables = Vec::new(alloc);
    tables.push(table(alloc)?)?;
    State::new(alloc, tables.as_slice())
}

/// An insert, which is updated and deleted, and deletes of what is gone or never was.
fn own_writes(alloc: Global) -> Result<Vec<RowOp>, AllocError> {
    let mut ops = Vec::new(alloc);
    ops.push(insert(alloc, 7)?)?;
    ops.push(update(alloc, RowRef::Own(1), 7, 9)?)?;
    ops.push(delete(alloc, RowRef::Own(2), 9)?)?;
    for target in [RowRef::Own(1), RowRef::Own(5), RowRef::Base(0)] {
        ops.push(delete(alloc, target, 7)?)?;
    }
    Ok(ops)
}

#[test]
fn own_writes_are_updated_and_deleted(rt: HostRuntime) -> Result<(), Fail> {
    let given = all_given(rt.alloc(), own_writes(rt.alloc())?)?;
    assert_eq!(rt; given.as_slice(), [1, 2, 0, 99, 99, 99].as_slice());
    Ok(())
}
