//! Row operations and rows.
ghost use Rattle.std.specs.Prelude.{◌≡◌};
ghost use Rattle.cdb_values.specs.Rows.{Rows};
ghost use Rattle.phys_log.specs.Logs.{pages_of};
ghost use Rattle.table_store.specs.Stored.{Stands};

use crate::words::{number, place, put_number, put_value, value_of, word};
use cdb_values::{Edge, Interval, List, Row, RowOp, RowRef, Schema, Value, Version};
use log_replay::{LogPages, PagedLog};
use page_rows::PageRows;
use page_store::{Edit, PageFault, PageSource};
use plan_run::RowSource;
use std::alloc::{AllocError, Global};
use table_edits::{OpsFault, ops_to_edits};
use table_store::table_versions;
use test_cases::{all_fit, state_at_end};

/// The row operation of a line.
pub(crate) fn op_of(alloc: Global, words: &[&str]) -> Result<RowOp, AllocError> {
    let table = place(word(words, 1));
    if word(words, 0) == "put" {
        let row = row_of(alloc, words, 2)?;
        return Ok(RowOp::Insert { table, row });
    }
    let target = RowRef::Base(number(word(words, 2)));
    let old = row_of(alloc, words, 3)?;
    if word(words, 0) == "take" {
        return Ok(RowOp::Delete { table, target, old });
    }
    // `change T GENID V.. to V..` has as many values on both sides
    let row = row_of(alloc, words, (words.len() / 2).saturating_add(2))?;
    Ok(RowOp::Update {
        table,
        target,
        old,
        row,
    })
}

/// The row of the words from a place on, up to `to`.
fn row_of(alloc: Global, words: &[&str], from: usize) -> Result<Row, AllocError> {
    let mut row = List::new(alloc);
    for word in words.get(from..).unwrap_or(&[]) {
        if *word == "to" {
            return Ok(row);
        }
        row.push(value_of(alloc, *word)?)?;
    }
    Ok(row)
}

/// The edits of operations over the pages of a log; where there are none, what is answered is added.
pub(crate) fn edits_of(
    alloc: Global,
    schema: &Schema,
    log: &PagedLog,
    ops: &[RowOp],
    out: &mut String,
) -> Result<Option<Vec<(u64, Edit)>>, AllocError> {
    if !all_fit(alloc, schema, ops)? {
        out.push_str("long")?;
        return Ok(None);
    }
    match ops_to_edits(alloc, LogPages::new(alloc, log)?, schema, ops) {
        Ok(edits) => Ok(Some(edits)),
        Err(OpsFault::Duplicate { table, key }) => {
            out.push_str(format!(in alloc; "duplicate {table} {key}")?.as_str())?;
            Ok(None)
        }
        Err(_) => Err(AllocError),
    }
}

/// Adds the versions of a table.
pub(crate) fn put_rows<P: PageSource>(
    alloc: Global,
    pages: &mut P,
    schema: &Schema,
    table: u16,
    out: &mut String,
) -> Result<(), AllocError> {
    if table as usize >= schema.tables().len() {
        return out.push('?');
    }
    match table_versions(alloc, pages, schema, table) {
        Ok(versions) => put_versions(alloc, versions.as_slice(), out),
        Err(_) => Err(AllocError),
    }
}

/// Adds the whole state of a log's pages.
pub(crate) fn put_state(
    alloc: Global,
    schema: &Schema,
    log: &PagedLog,
    out: &mut String,
) -> Result<(), AllocError> {
    match state_at_end(alloc, log, schema) {
        Ok(Some(state)) => put_tables(alloc, state.next, state.tables.as_slice(), out),
        Ok(None) => out.push_str("none"),
        Err(_) => Err(AllocError),
    }
}

/// Adds a state: its next genid, and the versions of each table.
fn put_tables(
    alloc: Global,
    next: u64,
    tables: &[List<Version>],
    out: &mut String,
) -> Result<(), AllocError> {
    out.push_str("next ")?;
    put_number(alloc, out, next)?;
    for versions in tables {
        out.push_str("; ")?;
        put_versions(alloc, versions.as_slice(), out)?;
    }
    Ok(())
}

/// Adds the versions of an interval, where the pages stand for a state.
pub(crate) fn put_between(
    alloc: Global,
    schema: &Schema,
    log: &PagedLog,
    interval: &Interval,
    out: &mut String,
) -> Result<(), AllocError> {
    match state_at_end(alloc, log, schema) {
        Ok(Some(_)) => put_lying(alloc, schema, log, interval, out),
        Ok(None) => out.push_str("none"),
        Err(_) => Err(AllocError),
    }
}

/// Adds the versions of an interval.
fn put_lying(
    alloc: Global,
    schema: &Schema,
    log: &PagedLog,
    interval: &Interval,
    out: &mut String,
) -> Result<(), AllocError>
    requires { (rows : Rows) × Stands (pages_of log.now) schema.now rows }
{
    let pages = LogPages::new(alloc, log)?;
    let mut rows = PageRows::new(pages, schema);
    match rows.between(alloc, interval) {
        Ok(versions) => put_versions(alloc, versions.as_slice(), out),
        Err(_) => Err(AllocError),
    }
}

/// The interval of a line: a table, a key, a bound and a value.
pub(crate) fn interval_of(alloc: Global, words: &[&str]) -> Result<Interval, AllocError> {
    let value = value_of(alloc, word(words, 4))?;
    let mut equal = List::new(alloc);
    let (low, high) = match word(words, 3) {
        "from" => (Edge::AtLeast(value), Edge::Free),
        "above" => (Edge::Above(value), Edge::Free),
        "to" => (Edge::Free, Edge::AtMost(value)),
        "below" => (Edge::Free, Edge::Below(value)),
        _ => {
            equal.push(value)?;
            (Edge::Free, Edge::Free)
        }
    };
    Ok(Interval {
        table: place(word(words, 1)),
        key: Some(word(words, 2).parse::<u8>().unwrap_or(0)),
        equal,
        low,
        high,
        empty: false,
    })
}

/// Adds versions, each as `GENID: VALUES`.
fn put_versions(alloc: Global, versions: &[Version], out: &mut String) -> Result<(), AllocError> {
    if versions.is_empty() {
        return out.push_str("none");
    }
    let mut sign = "";
    for version in versions {
        out.push_str(sign)?;
        put_version(alloc, version, out)?;
        sign = ", ";
    }
    Ok(())
}

/// Adds a version.
fn put_version(alloc: Global, version: &Version, out: &mut String) -> Result<(), AllocError> {
    put_number(alloc, out, version.genid)?;
    out.push(':')?;
    for value in version.row.as_slice() {
        out.push(' ')?;
        put_value(alloc, out, value)?;
    }
    Ok(())
}
