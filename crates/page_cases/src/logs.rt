//! What is done to a log.

use crate::trees::change;
use crate::words::words_of;
use cdb_values::{List, Schema};
use edit_records::records_of;
use log_replay::{AppendFault, LogPages, PagedLog};
use page_store::{Edit, PageSource};
use page_workspace::Workspace;
use phys_log::{Entry, LogRecord, last_lsn};
use std::alloc::{AllocError, Global};
use table_store::create_edits;
use test_cases::commit_entry;

/// Appends an entry, and tells whether it fits.
fn append(alloc: Global, log: &mut PagedLog, entry: Entry) -> Result<&'static str, AllocError> {
    match log.append(alloc, entry) {
        Ok(()) => Ok("done"),
        Err(AppendFault::Unfit(_)) => Ok("unfit"),
        Err(AppendFault::NoMemory(_)) => Err(AllocError),
    }
}

/// Appends the entry of records.
pub(crate) fn append_records(
    alloc: Global,
    log: &mut PagedLog,
    records: List<LogRecord>,
) -> Result<&'static str, AllocError> {
    let entry = commit_entry(alloc, 1, records)?;
    append(alloc, log, entry)
}

/// Edits as the next records of a log.
fn records_behind(
    alloc: Global,
    log: &PagedLog,
    edits: Vec<(u64, Edit)>,
) -> Result<List<LogRecord>, AllocError> {
    let mut pages = LogPages::new(alloc, log)?;
    match records_of(alloc, &mut pages, last_lsn(log.entries()), edits) {
        Ok(records) => Ok(records),
        Err(_) => Err(AllocError),
    }
}

/// Appends the entry of edits, where there are some.
pub(crate) fn commit(
    alloc: Global,
    log: &mut PagedLog,
    edits: Vec<(u64, Edit)>,
) -> Result<&'static str, AllocError> {
    if edits.is_empty() {
        return Ok("done");
    }
    let records = records_behind(alloc, log, edits)?;
    append_records(alloc, log, records)
}

/// Appends the entry of the tables.
pub(crate) fn set_up(
    alloc: Global,
    log: &mut PagedLog,
    schema: &Schema,
) -> Result<&'static str, AllocError> {
    let edits = create_edits(alloc, schema)?;
    let records = records_behind(alloc, log, edits)?;
    let entry = Entry::Setup {
        generation: 1,
        schema: schema.clone()?,
        records,
    };
    append(alloc, log, entry)
}

/// Drops the entries behind a position.
pub(crate) fn drop_behind(
    alloc: Global,
    log: &mut PagedLog,
    position: u64,
) -> Result<&'static str, AllocError> {
    if position > log.entries().len() as u64 {
        return Ok("?");
    }
    log.drop_tail(alloc, position)?;
    Ok("done")
}

/// Does the lines of trees as one entry, and adds each with its answer.
pub(crate) fn change_all(
    alloc: Global,
    log: &mut PagedLog,
    lines: &[String],
    out: &mut String,
) -> Result<(), AllocError> {
    let edits = edits_of_lines(alloc, log, lines, out)?;
    commit(alloc, log, edits)?;
    Ok(())
}

/// The edits of lines of trees.
fn edits_of_lines(
    alloc: Global,
    log: &PagedLog,
    lines: &[String],
    out: &mut String,
) -> Result<Vec<(u64, Edit)>, AllocError> {
    let mut space = Workspace::new(alloc, LogPages::new(alloc, log)?);
    for line in lines {
        change_line(alloc, &mut space, line.as_str(), out)?;
    }
    Ok(space.finish())
}

/// Does a line of a tree.
fn change_line<P: PageSource>(
    alloc: Global,
    space: &mut Workspace<P>,
    line: &str,
    out: &mut String,
) -> Result<(), AllocError> {
    let words = words_of(alloc, line)?;
    out.push_str(line)?;
    out.push_str(" -> ")?;
    change(alloc, space, words.as_slice(), out)?;
    out.push('\n')
}
