//! Bytes, values, changes and records as text.

use cdb_values::{Change, ColumnDef, KeyDef, List, TableDef, Value};
use page_store::{Edit, Head, PageKind};
use phys_log::LogRecord;
use std::alloc::AllocError;

/// Whether a byte stands as it is between quotes.
fn is_plain(byte: &u8) -> bool {
    *byte >= 32 && *byte < 127 && *byte != b'\''
}

/// The bytes as text, where they stand as they are between quotes.
fn plain_text(mark: char, bytes: &[u8]) -> Option<&str> {
    if mark == 'x' || !bytes.iter().all(|byte| is_plain(byte)) {
        return None;
    }
    str::from_utf8(bytes).ok()
}

/// Adds bytes: between quotes, or behind a mark in hexadecimal digits.
pub(crate) fn put_bytes(out: &mut String, mark: char, bytes: &[u8]) -> Result<(), AllocError> {
    match plain_text(mark, bytes) {
        Some(text) => write!(out, "'{text}'"),
        None => put_digits(out, mark, bytes),
    }
}

/// Adds bytes in hexadecimal digits.
fn put_digits(out: &mut String, mark: char, bytes: &[u8]) -> Result<(), AllocError> {
    write!(out, "{mark}'")?;
    for byte in bytes {
        write!(out, "{byte:02x}")?;
    }
    out.push('\'')
}

/// Adds a value.
fn put_value(out: &mut String, value: &Value) -> Result<(), AllocError> {
    match value {
        Value::Null => out.push_str("null"),
        Value::Int(number) => write!(out, "{number}"),
        Value::Text(text) => put_bytes(out, 't', text.as_bytes()),
        Value::Blob(blob) => put_bytes(out, 'x', blob.as_bytes()),
    }
}

/// Adds a version: its genid and its row.
fn put_version(out: &mut String, genid: u64, row: &List<Value>) -> Result<(), AllocError> {
    write!(out, " {genid} (")?;
    for (at, value) in row.as_slice().iter().enumerate() {
        if at > 0 {
            out.push_str(", ")?;
        }
        put_value(out, value)?;
    }
    out.push(')')
}

/// Adds a change.
pub(crate) fn put_change(out: &mut String, change: &Change) -> Result<(), AllocError> {
    match change {
        Change::Insert { table, genid, row } => {
            write!(out, "\n    insert {table}")?;
            put_version(out, *genid, row)
        }
        Change::Update {
            table,
            old_genid,
            old,
            genid,
            row,
        } => {
            write!(out, "\n    update {table}")?;
            put_version(out, *old_genid, old)?;
            put_version(out, *genid, row)
        }
        Change::Delete {
            table,
            old_genid,
            old,
        } => {
            write!(out, "\n    delete {table}")?;
            put_version(out, *old_genid, old)
        }
    }
}

/// Adds a head.
fn put_head(out: &mut String, head: &Head) -> Result<(), AllocError> {
    let kind = match head.kind {
        PageKind::Free => "free",
        PageKind::Leaf => "leaf",
        PageKind::Inner => "inner",
        PageKind::Meta => "meta",
    };
    let level = head.level;
    let right = head.right;
    write!(out, " {kind} {level} {right}")
}

/// Adds a place on a page, and the cell there.
fn put_cell(out: &mut String, word: &str, at: u16, cell: &[u8]) -> Result<(), AllocError> {
    write!(out, " {word} {at} ")?;
    put_bytes(out, 'b', cell)
}

/// Adds an edit.
fn put_edit(out: &mut String, edit: &Edit) -> Result<(), AllocError> {
    match edit {
        Edit::PutCell { at, cell } => put_cell(out, "put", *at, cell.as_slice()),
        Edit::TakeCell { at, cell } => put_cell(out, "take", *at, cell.as_slice()),
        Edit::SwapCell { at, before, after } => {
            put_cell(out, "swap", *at, before.as_slice())?;
            out.push(' ')?;
            put_bytes(out, 'b', after.as_slice())
        }
        Edit::SetHead { before, after } => {
            out.push_str(" head")?;
            put_head(out, before)?;
            put_head(out, after)
        }
    }
}

/// Adds a record.
pub(crate) fn put_record(out: &mut String, record: &LogRecord) -> Result<(), AllocError> {
    let lsn = record.lsn;
    let prev = record.prev;
    let page = record.page;
    write!(out, "\n    record {lsn} prev {prev} page {page}")?;
    put_edit(out, &record.edit)
}

/// Adds a table with its columns and keys.
pub(crate) fn put_table(out: &mut String, table: &TableDef) -> Result<(), AllocError> {
    out.push_str("\n    table ")?;
    put_bytes(out, 'b', table.name.as_bytes())?;
    for column in table.columns.as_slice() {
        put_column(out, column)?;
    }
    for key in table.keys.as_slice() {
        put_key(out, key)?;
    }
    Ok(())
}

/// Adds a column.
fn put_column(out: &mut String, column: &ColumnDef) -> Result<(), AllocError> {
    out.push_str("\n      column ")?;
    put_bytes(out, 'b', column.name.as_bytes())?;
    let kind = column.kind;
    let mark = if column.nullable { " null" } else { "" };
    write!(out, " {kind:?}{mark}")
}

/// Adds a key.
fn put_key(out: &mut String, key: &KeyDef) -> Result<(), AllocError> {
    out.push_str("\n      key ")?;
    put_bytes(out, 'b', key.name.as_bytes())?;
    out.push_str(if key.unique { " unique" } else { "" })?;
    for place in key.columns.as_slice() {
        write!(out, " {place}")?;
    }
    Ok(())
}
