ghost use Rattle.std.specs.Prelude.{◌≡◌, IfOk};
ghost use Rattle.phys_log.specs.Logs.{records_of, last_lsn_of};

use cdb_values::{Change, Level, List, Name, Schema};
use page_store::Edit;
use std::alloc::{AllocError, Global};

/// One physical record of a log: the edit of one page.
#[derive(Clone, Drop)]
pub struct LogRecord {
    /// Its number over the whole log, from 1.
    pub lsn: u64,
    /// The LSN of the last earlier record of the same page, 0 where there is none.
    pub prev: u64,
    /// The number of the page.
    pub page: u64,
    pub edit: Edit,
}

/// What tells a transaction from all others: the generation in which it began, its session, and its number there.
#[derive(Clone, Drop)]
pub struct CommitId {
    pub began: u64,
    pub session: Name,
    pub txn: u64,
}

/// One entry of a log: the schema, or one committed transaction.
#[derive(Clone, Drop)]
pub enum Entry {
    /// The first entry of a cluster.
    Setup {
        generation: u64,
        schema: Schema,
        records: List<LogRecord>,
    },
    /// A committed transaction, with the position that it began at and what it changed.
    Commit {
        generation: u64,
        id: CommitId,
        begin: u64,
        level: Level,
        changes: List<Change>,
        records: List<LogRecord>,
    },
}

impl Entry {
    /// The records, in LSN order. Takes no memory.
    pub fn records(&self) -> &[LogRecord]
        ensures { result.now ≡ records_of self.now }
    {
        match self {
            Entry::Setup { records, .. } => records.as_slice(),
            Entry::Commit { records, .. } => records.as_slice(),
        }
    }
}

/// An equal entry. The error is want of memory.
pub fn copy_entry(alloc: Global, entry: &Entry) -> Result<Entry, AllocError>
    ensures { IfOk result (λ e. e ≡ entry.now) }
{
    match entry {
        Entry::Setup {
            generation,
            schema,
            records,
        } => Ok(Entry::Setup {
            generation: *generation,
            schema: schema.clone()?,
            records: copy_records(alloc, records)?,
        }),
        Entry::Commit {
            generation,
            id,
            begin,
            level,
            changes,
            records,
        } => Ok(Entry::Commit {
            generation: *generation,
            id: id.clone()?,
            begin: *begin,
            level: *level,
            changes: copy_changes(alloc, changes)?,
            records: copy_records(alloc, records)?,
        }),
    }
}

/// An equal record. The error is want of memory.
pub fn copy_record(original: &LogRecord) -> Result<LogRecord, AllocError>
    ensures { IfOk result (λ r. r ≡ original.now) }
{
    original.clone()
}

/// An equal change.
fn copy_change(change: &Change) -> Result<Change, AllocError>
    ensures { IfOk result (λ c. c ≡ change.now) }
{
    change.clone()
}

/// Equal changes.
fn copy_changes(alloc: Global, changes: &List<Change>) -> Result<List<Change>, AllocError>
    ensures { IfOk result (λ c. c ≡ changes.now) }
{
    let mut copies = List::new(alloc);
    for change in changes.as_slice() {
        copies.push(copy_change(change)?)?;
    }
    Ok(copies)
}

/// Equal records.
fn copy_records(alloc: Global, records: &List<LogRecord>) -> Result<List<LogRecord>, AllocError>
    ensures { IfOk result (λ r. r ≡ records.now) }
{
    Ok(List::from_vec(Vec::from_clones(alloc, records.as_slice())?))
}

/// The LSN of the last record of these entries, 0 where they have none. Takes no memory.
pub fn last_lsn(entries: &[Entry]) -> u64
    ensures { result ≡ last_lsn_of entries.now }
{
    let mut rest = entries;
    'back: while let Some((last, before)) = rest.split_last() {
        if let Some((newest, _)) = last.records().split_last() {
            return newest.lsn;
        }
        rest = before;
    }
    0
}
