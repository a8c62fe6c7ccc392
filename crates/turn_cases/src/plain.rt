//! A node in memory: it keeps what each entry changed, and the rows behind it.
ghost use Rattle.std.specs.Prelude.{◌≡◌, ◌≤◌, ◌<◌, length, IfOk};
ghost use Rattle.cdb_values.specs.Good.{first_broken as first_broken_of};
ghost use Rattle.cdb_values.specs.Rows.{apply_all};
ghost use Rattle.session_language.specs.Touched.{ranges_at as ranges_at_level};
ghost use Rattle.session_turns.specs.Decisions.{by_key};
ghost use Rattle.turn_cases.specs.Decided.{told_by, Decides, Judges};
ghost use Rattle.turn_cases.specs.Plain.{rows_at, used_of};

use crate::broken::first_broken;
use crate::rows::{PlainEntry, copied, empty_rows, entry_behind};
use crate::touched::first_use;
use cdb_values::{Interval, Level, List, Reply, RowOp, Schema, TableDef};
use osql_session::OsqlSession;
use phys_log::CommitRequest;
use plan_run::MemRows;
use session_turns::{Begun, CommitOutcome, SessionNode, SessionReader, Told, answer_over};
use sql_run::Prepared;
use std::alloc::{AllocError, Global};

/// More tables than any schema has.
const MOST_TABLES: usize = 65535;

/// The node: the tables, and the entry at each position from 1.
#[derive(Drop)]
pub(crate) struct PlainNode {
    pub schema: Schema,
    pub entries: List<PlainEntry>,
}

impl PlainNode {
    /// A node whose history begins with the tables.
    pub(crate) fn new(alloc: Global, schema: Schema) -> Result<PlainNode, AllocError> {
        let rows = empty_rows(alloc, schema.tables())?;
        let mut entries = List::new(alloc);
        entries.push(PlainEntry {
            changes: List::new(alloc),
            rows,
        })?;
        Ok(PlainNode { schema, entries })
    }
}

impl SessionReader for PlainNode {
    ghost use Rattle.std.proofs.Common.{◌∙◌};
    ghost use Rattle.std.specs.Prelude.{◌≡◌, ◌≤◌, ◌<◌, length, refl};
    ghost use Rattle.turn_cases.specs.Plain.{world_in};

    ghost history = { world_in };

    ghost generation = { λ _. 1 };

    ghost ready = { λ n. 0 < length n.entries };

    ghost reads = { λ n at. (0 < at) × (at ≤ length n.entries) };

    ghost rests = { λ a b. b ≡ a };

    ghost waits = { ⊥ };

    fn begin(&mut self, _alloc: Global) -> Result<Told<Begun>, AllocError> {
        Ok(Told::Now(Begun {
            position: self.entries.len() as u64,
            generation: 1,
        }))
    }

    fn answer(
        &mut self,
        alloc: Global,
        session: &mut OsqlSession,
        prepared: &Prepared,
    ) -> Result<Told<List<Reply>>, AllocError> {
        let mut rows = source_at(
            alloc,
            &self.schema,
            self.entries.as_slice(),
            session.begin(),
        )?;
        match answer_over(alloc, &self.schema, session, prepared, &mut rows) {
            Ok(replies) => Ok(Told::Now(replies)),
            Err(_) => Err(AllocError),
        }
    }

    ghost rests_still = { λ a. refl };

    ghost rests_on = { λ a b c first second. second ∙ first };
}

impl SessionNode for PlainNode {
    ghost use Rattle.std.specs.Prelude.{◌≤◌, ◌<◌, length};

    ghost takes = { λ n s. (0 < length n.entries) × (s.begin ≤ length n.entries) };

    ghost settles = { λ n s o n'. Unit {0} };

    fn schema(&self) -> &Schema {
        &self.schema
    }

    fn commit(
        &mut self,
        alloc: Global,
        session: &OsqlSession,
    ) -> Result<Told<CommitOutcome>, AllocError> {
        match judge(alloc, &self.schema, self.entries.as_slice(), session)? {
            Decided::Told(outcome) => Ok(Told::Now(outcome)),
            Decided::Enters(entry) => {
                self.entries.push(entry)?;
                Ok(Told::Now(CommitOutcome::Committed(self.entries.len() as u64)))
            }
        }
    }
}

/// What is decided on a transaction.
#[derive(Drop)]
enum Decided {
    /// It is told so, and no entry comes of it.
    Told(CommitOutcome),
    /// It is committed, and this is its entry.
    Enters(PlainEntry),
}

/// What is decided on the transaction of a session over a history.
#[tactic(auto, using(crate::proofs::KeptLemmas::none_judged))]
fn judge(
    alloc: Global,
    schema: &Schema,
    entries: &[PlainEntry],
    session: &OsqlSession,
) -> Result<Decided, AllocError>
    requires some { 0 < length entries.now }
    requires within { session.now.begin ≤ length entries.now }
    ensures { IfOk result (Judges schema.now entries.now session.now) }
{
    let Some(request) = session.request(alloc)? else {
        return Ok(Decided::Told(CommitOutcome::Committed(session.begin())));
    };
    let decided = decide(alloc, schema, entries, &request);
    drop(request);
    decided
}

/// The rows at a position of a history.
fn source_at(
    alloc: Global,
    schema: &Schema,
    entries: &[PlainEntry],
    position: u64,
) -> Result<MemRows, AllocError>
    requires some { 0 < position }
    requires within { position ≤ length entries.now }
    ensures tables { IfOk result (λ r. r.tables ≡ schema.now) }
    ensures versions { IfOk result (λ r. r.versions ≡ (rows_at entries.now position).tables) }
{
    let entry = &entries[position as usize - 1];
    Ok(MemRows {
        tables: copied_tables(alloc, schema.tables())?,
        versions: copied(alloc, entry.rows.tables.as_slice())?,
    })
}

/// Equal tables.
fn copied_tables(alloc: Global, tables: &[TableDef]) -> Result<List<TableDef>, AllocError>
    ensures { IfOk result (λ copies. copies ≡ tables.now) }
{
    let mut copies = List::new(alloc);
    let mut rest = tables;
    'tables: while let Some((table, others)) = rest.split_first() {
        copies.push(copied_table(table)?)?;
        rest = others;
    }
    Ok(copies)
}

/// An equal table.
fn copied_table(table: &TableDef) -> Result<TableDef, AllocError>
    ensures { IfOk result (λ copy. copy ≡ table.now) }
{
    table.clone()
}

/// What is decided on a request over a history.
#[tactic(auto, using(crate::proofs::DecideLemmas::touch_told, crate::proofs::DecideLemmas::none_told))]
fn decide(
    alloc: Global,
    schema: &Schema,
    entries: &[PlainEntry],
    request: &CommitRequest,
) -> Result<Decided, AllocError>
    requires some { 0 < length entries.now }
    requires within { request.now.begin ≤ length entries.now }
    ensures { IfOk result (Decides schema.now entries.now (told_by schema.now entries.now request.now.begin
        (used_of request.now.genids (ranges_at_level request.now.level request.now.ranges)) request.now.ops) request.now.ops) }
{
    let ranges = ranges_at(request.level, request.ranges.as_slice());
    let (_before, since) = entries.split_at(request.begin as usize);
    match first_use(
        schema.tables(),
        request.begin,
        since,
        request.genids.as_slice(),
        ranges,
    ) {
        Some(touch) => Ok(Decided::Told(CommitOutcome::Conflict {
            position: touch.position,
            item: touch.item,
        })),
        None => decide_now(alloc, schema, entries, request.ops.as_slice()),
    }
}

/// The intervals that count at a level.
fn ranges_at(level: Level, ranges: &[Interval]) -> &[Interval]
    ensures { result.now ≡ ranges_at_level level ranges.now }
{
    match level {
        Level::Snapshot => &[],
        Level::Serializable => ranges,
    }
}

/// What is decided on operations of which no entry touches what their transaction used, on the rows now.
fn decide_now(
    alloc: Global,
    schema: &Schema,
    entries: &[PlainEntry],
    ops: &[RowOp],
) -> Result<Decided, AllocError>
    requires { 0 < length entries.now }
    ensures { IfOk result (Decides schema.now entries.now (by_key (length entries.now) (first_broken_of schema.now
        (apply_all (rows_at entries.now (length entries.now)) ops.now).tables)) ops.now) }
{
    let entry = entry_behind(alloc, &entries[entries.len() - 1].rows, ops)?;
    if MOST_TABLES < entry.rows.tables.len() {
        return Err(AllocError);
    }
    match first_broken(schema, entry.rows.tables.as_slice()) {
        Some(broken) => Ok(Decided::Told(CommitOutcome::Duplicate {
            position: entries.len() as u64,
            table: broken.table,
            key: broken.key,
        })),
        None => Ok(Decided::Enters(entry)),
    }
}
