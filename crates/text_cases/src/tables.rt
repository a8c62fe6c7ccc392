//! What is told of texts that are read as definitions of tables.

use cdb_values::{ColumnDef, ColumnType, KeyDef, Schema, TableDef};
use std::alloc::{AllocError, Global};
use table_read::{TableStop, read_table};

/// No text of a case is longer.
const LONGEST: usize = 1 << 20;

/// Adds a column as ` a integer`, with `not null` where NULL may not stand in it.
fn put_column(out: &mut Vec<u8>, column: &ColumnDef) -> Result<(), AllocError> {
    out.push(b' ')?;
    out.extend_from_slice(column.name.as_bytes())?;
    out.extend_from_slice(match column.kind {
        ColumnType::Integer => b" integer",
        ColumnType::Text => b" text",
        ColumnType::Blob => b" blob",
    })?;
    if !column.nullable {
        out.extend_from_slice(b" not null")?;
    }
    out.push(b';')?;
    Ok(())
}

/// Adds a key as ` key k 1 0;` or ` unique k 0;`, with the places of its columns.
fn put_key(alloc: Global, out: &mut Vec<u8>, key: &KeyDef) -> Result<(), AllocError> {
    out.extend_from_slice(if key.unique { b" unique " } else { b" key " })?;
    out.extend_from_slice(key.name.as_bytes())?;
    for place in key.columns.as_slice() {
        let place = *place;
        out.extend_from_slice(format!(in alloc; " {place}")?.as_bytes())?;
    }
    out.push(b';')?;
    Ok(())
}

/// Adds a table in one line.
fn put_table(alloc: Global, out: &mut Vec<u8>, table: &TableDef) -> Result<(), AllocError> {
    out.extend_from_slice(table.name.as_bytes())?;
    out.push(b':')?;
    for column in table.columns.as_slice() {
        put_column(out, column)?;
    }
    for key in table.keys.as_slice() {
        put_key(alloc, out, key)?;
    }
    out.extend_from_slice(b"\n")
}

/// Adds what is told of a line: a table of the schema, or why it is none. One too long to be read is past the limit.
fn put_line(
    alloc: Global,
    out: &mut Vec<u8>,
    line: &str,
    schema: &mut Schema,
) -> Result<(), AllocError> {
    if line.len() > LONGEST {
        return out.extend_from_slice(b"limit\n");
    }
    match read_table(alloc, line, schema) {
        Ok(table) => put_table(alloc, out, &table),
        Err(TableStop::Unlawful) => out.extend_from_slice(b"unlawful\n"),
        Err(TableStop::Limit) => out.extend_from_slice(b"limit\n"),
        Err(TableStop::NoMemory) => Err(AllocError),
    }
}

/// Adds what is told of each line of a text: a table of the schema with those before it, or why it is none.
pub(crate) fn put_tables(alloc: Global, out: &mut Vec<u8>, text: &str) -> Result<(), AllocError> {
    let mut schema = Schema::new(alloc);
    for line in text.lines() {
        put_line(alloc, out, line, &mut schema)?;
    }
    Ok(())
}
