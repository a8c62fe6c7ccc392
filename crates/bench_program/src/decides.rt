//! A request that is decided against the entries since its begin.
ghost use Rattle.std.specs.Prelude.{◌≡◌, ◌+◌, ◌≤◌, IfOk, OnOk, length};
ghost use Rattle.std.specs.List.{AllByRecursion};
ghost use Rattle.blkseq_table.specs.OfLogs.{identities_of};
ghost use Rattle.log_tests.specs.Begun.{AsksInserts, IsBegun, IsInsert};

use blkseq_table::BlkSeq;
use cdb_values::{Edge, GenidItem, Interval, Level, List, Name, RowOp, Schema, Value};
use log_replay::PagedLog;
use log_tests::{begun_log, commit, decided};
use phys_log::{CommitId, CommitRequest, Decision};
use std::alloc::{AllocError, Global};
use std::io;
use std::time::{Clock, Instant};
use table_read::read_table;

/// How many entries stand behind the begin.
const SINCE: u64 = 1000;

/// How many operations and intervals the request has, and how many versions it used.
const MANY: u32 = 10;

/// How often it is decided.
const TIMES: u64 = 1000;

/// A number of a row that no entry inserts.
const FAR: u32 = 1_000_000_000;

/// The schema.
fn schema(alloc: Global) -> Result<Schema, AllocError> {
    let mut schema = Schema::new(alloc);
    match read_table(alloc, "create table t (id int primary key)", &mut schema) {
        Ok(_) => Ok(schema),
        Err(_) => Err(AllocError),
    }
}

/// The insert of the row of a number.
fn insert_of(alloc: Global, number: u32) -> Result<RowOp, AllocError>
    ensures { IfOk result IsInsert }
{
    let mut row = List::new(alloc);
    row.push(Value::Int(i64::from(number)))?;
    Ok(RowOp::Insert { table: 0, row })
}

/// The inserts of so many rows, from a number on.
#[tactic(auto, using(log_tests::proofs::BegunLemmas::inserts_more))]
fn inserts_from(alloc: Global, first: u32, count: u32) -> Result<List<RowOp>, AllocError>
    ensures { IfOk result (AllByRecursion IsInsert) }
{
    let mut ops = List::new(alloc);
    'rows: for before in 0..count {
        ops.push(insert_of(alloc, first.saturating_add(before))?)?;
    }
    Ok(ops)
}

/// The interval of the row of a number, by the primary key.
fn interval_of(alloc: Global, number: u32) -> Result<Interval, AllocError> {
    let mut equal = List::new(alloc);
    equal.push(Value::Int(i64::from(number)))?;
    Ok(Interval {
        table: 0,
        key: Some(0),
        equal,
        low: Edge::Free,
        high: Edge::Free,
        empty: false,
    })
}

/// What a transaction asks that has a number, began at a position, inserts so many rows from this number on, and used as many
/// versions and intervals.
fn asked(alloc: Global, number: u32, begin: u64, count: u32) -> Result<CommitRequest, AllocError>
    ensures ops { IfOk result (λ request. AllByRecursion IsInsert request.ops) }
    ensures begin { IfOk result (λ request. request.begin ≡ begin) }
{
    let mut genids = List::new(alloc);
    let mut ranges = List::new(alloc);
    for before in 0..count {
        let genid = u64::from(before) + 1;
        genids.push(GenidItem { table: 0, genid })?;
        ranges.push(interval_of(alloc, FAR.saturating_add(before))?)?;
    }
    Ok(CommitRequest {
        id: CommitId {
            began: 1,
            session: Name::copied(alloc, b"a")?,
            txn: u64::from(number),
        },
        begin,
        level: Level::Serializable,
        ops: inserts_from(alloc, number, count)?,
        genids,
        ranges,
    })
}

/// Commits so many rows, each by a transaction that began at the end of the log.
fn commit_rows(
    alloc: Global,
    schema: &Schema,
    log: &mut PagedLog,
    known: &mut BlkSeq,
    count: u32,
) -> Result<(), AllocError>
    requires begun { IsBegun schema.now log.old }
    requires known { known.old ≡ identities_of log.old }
    ensures begun { OnOk result (IsBegun schema.now log.new) }
    ensures known { OnOk result (known.new ≡ identities_of log.new) }
{
    'rows: for number in 0..count {
        commit_row(alloc, schema, log, known, number)?;
    }
    Ok(())
}

/// What a transaction asks that has a number, began so many entries before the end of a log, and inserts so many rows.
#[tactic(auto, using(crate::proofs::DecideLemmas::asks_within))]
fn asked_of(
    alloc: Global,
    log: &PagedLog,
    back: u64,
    number: u32,
    count: u32,
) -> Result<CommitRequest, AllocError>
    requires { 1 ≤ length log.now }
    ensures { IfOk result (AsksInserts log.now) }
{
    let begin = position_back(log, back);
    let request = asked(alloc, number, begin, count)?;
    Ok(request)
}

/// The position so many entries before the end of a log, 1 at least.
fn position_back(log: &PagedLog, back: u64) -> u64
    requires { 1 ≤ length log.now }
    ensures first { 1 ≤ result }
    ensures within { result ≤ length log.now }
{
    let end = log.entries().len() as u64;
    if back < end { end - back } else { 1 }
}

/// Commits the row of a number.
#[tactic(auto, using(crate::proofs::DecideLemmas::begun_some))]
fn commit_row(
    alloc: Global,
    schema: &Schema,
    log: &mut PagedLog,
    known: &mut BlkSeq,
    number: u32,
) -> Result<(), AllocError>
    requires begun { IsBegun schema.now log.old }
    requires known { known.old ≡ identities_of log.old }
    ensures begun { OnOk result (IsBegun schema.now log.new) }
    ensures known { OnOk result (known.new ≡ identities_of log.new) }
{
    let request = asked_of(alloc, log, 0, number, 1)?;
    commit(alloc, schema, log, known, request)
}

/// Asks and decides so often what began 1,000 entries before the end of a log; how often it is the next entry.
fn decide_often(
    alloc: Global,
    schema: &Schema,
    log: &PagedLog,
    known: &BlkSeq,
) -> Result<u64, AllocError>
    requires begun { IsBegun schema.now log.now }
    requires known { known.now ≡ identities_of log.now }
{
    let mut committed = 0u64;
    'times: for _ in 0..TIMES {
        if decide_once(alloc, schema, log, known)? {
            committed = committed.saturating_add(1);
        }
    }
    Ok(committed)
}

/// Asks and decides it once: whether it is the next entry.
#[tactic(auto, using(crate::proofs::DecideLemmas::begun_some))]
fn decide_once(
    alloc: Global,
    schema: &Schema,
    log: &PagedLog,
    known: &BlkSeq,
) -> Result<bool, AllocError>
    requires begun { IsBegun schema.now log.now }
    requires known { known.now ≡ identities_of log.now }
{
    let request = asked_of(alloc, log, SINCE, FAR, MANY)?;
    Ok(matches!(
        decided(alloc, schema, log, known, request)?,
        Decision::Commit(_)
    ))
}

/// The log of a schema and so many rows, each of which a transaction of its own committed.
fn log_of(alloc: Global, schema: &Schema, rows: u32) -> Result<PagedLog, AllocError>
    ensures { IfOk result (IsBegun schema.now) }
{
    let mut log = begun_log(alloc, schema)?;
    let mut known = BlkSeq::of_entries(alloc, log.entries())?;
    commit_rows(alloc, schema, &mut log, &mut known, rows)?;
    Ok(log)
}

/// Prints how long a request takes to be made and decided that began 1,000 entries before the end of a log of so many.
pub(crate) fn measure_decides(rt: &HostRuntime, count: u64) -> io::Result<u64> {
    let schema = schema(rt.alloc())?;
    let log = log_of(rt.alloc(), &schema, u32::try_from(count).unwrap_or(0))?;
    measure_request(rt, &schema, &log)
}

/// Prints how long such a request takes over a log. Gives how often it was the next entry.
fn measure_request(rt: &HostRuntime, schema: &Schema, log: &PagedLog) -> io::Result<u64>
    requires { IsBegun schema.now log.now }
{
    let started = Instant::now(rt)?;
    let committed = decide_over(rt.alloc(), schema, log)?;
    let each = started.elapsed(rt)?.as_micros() / u128::from(TIMES);
    println!(rt; "asked and decided in {each} us each")?;
    Ok(committed)
}

/// Decides such a request so often over a log, whose identities are counted in; how often it was the next entry.
fn decide_over(alloc: Global, schema: &Schema, log: &PagedLog) -> Result<u64, AllocError>
    requires { IsBegun schema.now log.now }
{
    let known = BlkSeq::of_entries(alloc, log.entries())?;
    decide_often(alloc, schema, log, &known)
}
