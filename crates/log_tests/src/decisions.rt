//! What is decided of transactions that began at the setup of a log and insert a row, behind one that did.
ghost use Rattle.std.specs.Prelude.{◌≡◌, IfOk};
ghost use Rattle.std.specs.List.{AllByRecursion};
ghost use Rattle.log_tests.specs.Begun.{AsksInserts, IsBegun, IsInsert};

use crate::begun::{begun_log, commit, decided};
use blkseq_table::BlkSeq;
use cdb_values::{Edge, Interval, Item, Level, List, Name, RowOp, Schema, Value};
use log_replay::PagedLog;
use phys_log::{CommitId, CommitRequest, Decision};
use std::alloc::{AllocError, Global};
use std::test::Fail;
use table_read::read_table;

/// The schema of a table without a key.
fn schema(alloc: Global) -> Result<Schema, AllocError> {
    let mut schema = Schema::new(alloc);
    match read_table(alloc, "create table t (id int not null)", &mut schema) {
        Ok(_) => Ok(schema),
        Err(_) => Err(AllocError),
    }
}

/// The insert of a row with one integer.
fn insert(alloc: Global) -> Result<RowOp, AllocError>
    ensures { IfOk result IsInsert }
{
    let mut row = List::new(alloc);
    row.push(Value::Int(7))?;
    Ok(RowOp::Insert { table: 0, row })
}

/// That insert alone.
#[tactic(auto, using(crate::proofs::BegunLemmas::inserts_more))]
fn inserts(alloc: Global) -> Result<List<RowOp>, AllocError>
    ensures { IfOk result (AllByRecursion IsInsert) }
{
    let mut ops = List::new(alloc);
    ops.push(insert(alloc)?)?;
    Ok(ops)
}

/// An interval that a transaction read: of the table by a key at a place or of the whole table, perhaps an empty one.
#[derive(Clone, Copy)]
struct Reads {
    key: Option<u8>,
    empty: bool,
}

/// The whole table.
const WHOLE: Reads = Reads {
    key: None,
    empty: false,
};

/// The intervals of a request that read so.
fn ranges(alloc: Global, reads: Reads) -> Result<List<Interval>, AllocError> {
    let mut ranges = List::new(alloc);
    ranges.push(Interval {
        table: 0,
        key: reads.key,
        equal: List::new(alloc),
        low: Edge::Free,
        high: Edge::Free,
        empty: reads.empty,
    })?;
    Ok(ranges)
}

/// What a transaction with a number asks that began at the setup, inserts a row, and read so.
fn asked(alloc: Global, txn: u64, level: Level, reads: Reads) -> Result<CommitRequest, AllocError>
    ensures ops { IfOk result (λ request. AllByRecursion IsInsert request.ops) }
    ensures begin { IfOk result (λ request. request.begin ≡ 1) }
{
    Ok(CommitRequest {
        id: CommitId {
            began: 1,
            session: Name::copied(alloc, b"a")?,
            txn,
        },
        begin: 1,
        level,
        ops: inserts(alloc)?,
        genids: List::new(alloc),
        ranges: ranges(alloc, reads)?,
    })
}

/// A log of the setup and the first transaction.
fn log_of_one(alloc: Global, schema: &Schema) -> Result<PagedLog, AllocError>
    ensures { IfOk result (IsBegun schema.now) }
{
    let mut log = begun_log(alloc, schema)?;
    let mut known = BlkSeq::of_entries(alloc, log.entries())?;
    let request = asked(alloc, 1, Level::Snapshot, WHOLE)?;
    commit(alloc, schema, &mut log, &mut known, request)?;
    Ok(log)
}

/// What is decided, as far as the tests ask.
#[derive(Clone, Copy, PartialEq)]
enum Told {
    Committed,
    Repeat(u64),
    /// A row came into the range of the whole table.
    Range(u64),
    Other,
}

/// A decision as what is told.
fn shown(decision: Decision) -> Told {
    match decision {
        Decision::Commit(_) => Told::Committed,
        Decision::Repeat(position) => Told::Repeat(position),
        Decision::Conflict {
            position,
            item: Item::Range {
                table: 0,
                key: None,
            },
        } => Told::Range(position),
        _ => Told::Other,
    }
}

/// What is decided of a request over a log.
fn decided_over(
    alloc: Global,
    schema: &Schema,
    log: &PagedLog,
    request: CommitRequest,
) -> Result<Told, AllocError>
    requires begun { IsBegun schema.now log.now }
    requires asks { AsksInserts log.now request }
{
    let known = BlkSeq::of_entries(alloc, log.entries())?;
    match decided(alloc, schema, log, &known, request) {
        Ok(decision) => Ok(shown(decision)),
        Err(error) => Err(error),
    }
}

/// What is decided of a transaction with a number behind the first one.
fn behind_one(alloc: Global, txn: u64, level: Level, reads: Reads) -> Result<Told, AllocError> {
    let request = asked(alloc, txn, level, reads)?;
    let schema = schema(alloc)?;
    let log = log_of_one(alloc, &schema)?;
    decided_over(alloc, &schema, &log, request)
}

/// The transaction of an entry is a repeat of its position, at each level.
#[test]
fn a_committed_transaction_is_a_repeat(rt: HostRuntime) -> Result<(), Fail> {
    for level in [Level::Snapshot, Level::Serializable] {
        assert!(rt; behind_one(rt.alloc(), 1, level, WHOLE)? == Told::Repeat(2));
    }
    Ok(())
}

/// A row that came into an interval that was read is a conflict at level serializable, which tells the range.
#[test]
fn a_row_that_came_is_a_conflict(rt: HostRuntime) -> Result<(), Fail> {
    let found = behind_one(rt.alloc(), 2, Level::Serializable, WHOLE)?;
    assert!(rt; found == Told::Range(2));
    Ok(())
}

/// At level snapshot that row is passed over; no row is in an interval by a key that the table lacks, nor in an empty one.
#[test]
fn a_row_elsewhere_is_no_conflict(rt: HostRuntime) -> Result<(), Fail> {
    let table = [
        (Level::Snapshot, None, false),
        (Level::Serializable, Some(7), false),
        (Level::Serializable, None, true),
    ];
    for (level, key, empty) in table {
        let found = behind_one(rt.alloc(), 2, level, Reads { key, empty })?;
        assert!(rt; found == Told::Committed);
    }
    Ok(())
}
