//! What is told of a text that is read as a report.

use cdb_values::{Level, Name, Reply, StatementError, Value};
use report_read::read_report;
use report_text::{EntryLine, Line, Report, print};
use std::alloc::{AllocError, Global};

/// Adds a word and a number.
fn put_number(alloc: Global, out: &mut Vec<u8>, word: &str, number: u64) -> Result<(), AllocError> {
    out.extend_from_slice(format!(in alloc; " {word} {number}")?.as_bytes())
}

/// Adds a word and a name.
fn put_name(out: &mut Vec<u8>, word: &str, name: &Name) -> Result<(), AllocError> {
    put_word(out, word)?;
    put_bytes(out, name.as_bytes())
}

/// Adds a word.
fn put_word(out: &mut Vec<u8>, word: &str) -> Result<(), AllocError> {
    put_bytes(out, word.as_bytes())
}

/// Adds bytes behind a blank.
fn put_bytes(out: &mut Vec<u8>, bytes: &[u8]) -> Result<(), AllocError> {
    out.push(b' ')?;
    out.extend_from_slice(bytes)
}

/// Adds the error of a statement.
fn put_error(alloc: Global, out: &mut Vec<u8>, error: StatementError) -> Result<(), AllocError> {
    match error {
        StatementError::Syntax { at } => put_number(alloc, out, "Syntax at", u64::from(at)),
        StatementError::Table => put_word(out, "Table"),
        StatementError::Column => put_word(out, "Column"),
        StatementError::Ambiguous => put_word(out, "Ambiguous"),
        StatementError::Type_ => put_word(out, "Type"),
        StatementError::Count => put_word(out, "Count"),
        StatementError::Overflow => put_word(out, "Overflow"),
        StatementError::NotNull => put_word(out, "NotNull"),
        StatementError::TooLong => put_word(out, "TooLong"),
        StatementError::State => put_word(out, "State"),
    }
}

/// Adds a level.
fn put_level(out: &mut Vec<u8>, level: Level) -> Result<(), AllocError> {
    put_word(
        out,
        match level {
            Level::Snapshot => "Snapshot",
            Level::Serializable => "Serializable",
        },
    )
}

/// Adds the type of a value.
fn put_value(out: &mut Vec<u8>, value: &Value) -> Result<(), AllocError> {
    put_word(
        out,
        match value {
            Value::Null => "Null",
            Value::Int(_) => "Int",
            Value::Text(_) => "Text",
            Value::Blob(_) => "Blob",
        },
    )
}

/// Adds a reply by its names.
fn put_reply(alloc: Global, out: &mut Vec<u8>, reply: &Reply) -> Result<(), AllocError> {
    match reply {
        Reply::Begin(begin) => put_number(alloc, out, "Begin", *begin),
        Reply::Row(row) => {
            put_word(out, "Row")?;
            for value in row.as_slice() {
                put_value(out, value)?;
            }
            Ok(())
        }
        Reply::Done(rows) => put_number(alloc, out, "Done", *rows),
        Reply::Changed(rows) => put_number(alloc, out, "Changed", *rows),
        Reply::Error(error) => put_error(alloc, out, *error),
        Reply::Level(level) => put_level(out, *level),
        Reply::RolledBack => put_word(out, "RolledBack"),
        Reply::Committed(position) => put_number(alloc, out, "Committed", *position),
        Reply::NoMemory => put_word(out, "NoMemory"),
        _ => put_refusal(alloc, out, reply),
    }
}

/// Adds a reply that says why a transaction does not stand, by its names.
fn put_refusal(alloc: Global, out: &mut Vec<u8>, reply: &Reply) -> Result<(), AllocError> {
    match reply {
        Reply::ConflictGenid {
            position,
            table,
            genid,
        } => {
            put_number(alloc, out, "ConflictGenid position", *position)?;
            put_name(out, "table", table)?;
            put_number(alloc, out, "genid", *genid)
        }
        Reply::ConflictRange {
            position,
            table,
            key,
        } => {
            put_number(alloc, out, "ConflictRange position", *position)?;
            put_name(out, "table", table)?;
            put_name(out, "key", key)
        }
        Reply::Duplicate {
            position,
            table,
            key,
        } => {
            put_number(alloc, out, "Duplicate position", *position)?;
            put_name(out, "table", table)?;
            put_name(out, "key", key)
        }
        Reply::Lost { node, down } => {
            put_number(alloc, out, "Lost node", *node)?;
            put_number(alloc, out, "down", *down)
        }
        Reply::NoMajority { up, nodes } => {
            put_number(alloc, out, "NoMajority up", *up)?;
            put_number(alloc, out, "nodes", *nodes)
        }
        _ => Ok(()),
    }
}

/// Adds a line by its names.
fn put_line(alloc: Global, out: &mut Vec<u8>, line: &Line) -> Result<(), AllocError> {
    match line {
        Line::Session { name, txn, reply } => {
            put_name(out, "session", name)?;
            put_number(alloc, out, "txn", *txn)?;
            put_reply(alloc, out, reply)?;
        }
        Line::Down { count, node, fault } => {
            put_number(alloc, out, "Down count", *count)?;
            put_number(alloc, out, "node", *node)?;
            put_word(out, if *fault { "fault" } else { "stop" })?;
        }
        Line::Up { node } => put_number(alloc, out, "Up node", *node)?,
        Line::Barrier => put_word(out, "Barrier")?,
        Line::Fed { position } => put_number(alloc, out, "Fed position", *position)?,
    }
    out.extend_from_slice(b"\n")
}

/// Adds an entry by its names.
fn put_entry(alloc: Global, out: &mut Vec<u8>, entry: &EntryLine) -> Result<(), AllocError> {
    match entry {
        EntryLine::Setup { position } => put_number(alloc, out, "Setup position", *position)?,
        EntryLine::Commit {
            position,
            session,
            txn,
            begin,
            level,
        } => {
            put_number(alloc, out, "Commit position", *position)?;
            put_name(out, "session", session)?;
            put_number(alloc, out, "txn", *txn)?;
            put_number(alloc, out, "begin", *begin)?;
            put_level(out, *level)?;
        }
    }
    out.extend_from_slice(b"\n")
}

/// Adds what a report holds, a line each.
fn put_report(alloc: Global, out: &mut Vec<u8>, report: &Report) -> Result<(), AllocError> {
    for line in report.lines.as_slice() {
        put_line(alloc, out, line)?;
    }
    if let Some(base) = report.base {
        put_number(alloc, out, "Base", base)?;
        out.push(b'\n')?;
    }
    for entry in report.entries.as_slice() {
        put_entry(alloc, out, entry)?;
    }
    for feed in report.feeds.as_slice() {
        put_number(alloc, out, "Feed place", feed.place)?;
        put_name(out, "table", &feed.table)?;
        put_number(alloc, out, "taken", feed.taken)?;
        put_number(alloc, out, "dropped", feed.dropped)?;
        out.push(b'\n')?;
    }
    put_number(alloc, out, "End", report.end)?;
    out.extend_from_slice(b"\n")
}

/// Adds what is told of bytes that are read as a report: what it holds, or in short that it is one; or that it is none.
pub(crate) fn put_read(
    alloc: Global,
    out: &mut Vec<u8>,
    bytes: &[u8],
    in_short: bool,
) -> Result<(), AllocError> {
    let Some(report) = read_report(alloc, bytes)? else {
        return out.extend_from_slice(b"no report\n");
    };
    if print(alloc, &report)?.as_bytes() != bytes {
        return out.extend_from_slice(b"another report\n");
    }
    out.extend_from_slice(b"report\n")?;
    if in_short {
        return Ok(());
    }
    put_report(alloc, out, &report)
}
