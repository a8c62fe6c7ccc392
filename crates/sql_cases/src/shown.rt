//! Values, replies, operations, versions, intervals and tables, as lines of text.
//!
//! Values and replies are spelled as in a report. `t pk = 3 > 5` is the interval of t by the key pk whose first column
//! is 3 and whose next is above 5, and `t` the whole table; `t.2` is the version of genid 2, `t#1` the first own write.

use crate::output::Output;
use cdb_values::{
    ColumnDef, ColumnType, Edge, GenidItem, Interval, KeyDef, Reply, Row, RowOp, RowRef,
    StatementError, TableDef, Value,
};
use sql_answer_plain::Outcome;

pub(crate) fn put_value(out: &mut Output, value: &Value) {
    match value {
        Value::Null => out.put("null"),
        Value::Int(number) => out.put_integer(*number),
        Value::Text(text) => put_quoted(out, text.as_bytes()),
        Value::Blob(blob) => put_blob(out, blob.as_bytes()),
    }
}

/// Adds a text between quotes, each of its own twice.
fn put_quoted(out: &mut Output, bytes: &[u8]) {
    out.put("'");
    for byte in bytes {
        out.put_bytes(&[*byte]);
        if *byte == b'\'' {
            out.put("'");
        }
    }
    out.put("'");
}

fn put_blob(out: &mut Output, bytes: &[u8]) {
    out.put("x'");
    for byte in bytes {
        out.put_hex(*byte);
    }
    out.put("'");
}

/// Adds the values of a row behind a sign, with bars between them.
fn put_row(out: &mut Output, sign: &str, row: &Row) {
    let mut before = sign;
    for value in row.as_slice() {
        out.put(before);
        put_value(out, value);
        before = "|";
    }
}

/// Adds a line with replies.
pub(crate) fn put_replies(out: &mut Output, replies: &[Reply]) {
    let mut before = "  ";
    for reply in replies {
        out.put(before);
        put_reply(out, reply);
        before = ", ";
    }
    out.put("\n");
}

fn put_reply(out: &mut Output, reply: &Reply) {
    match reply {
        Reply::Row(row) => put_row(out, "row ", row),
        Reply::Done(rows) => put_counted(out, "done ", *rows),
        Reply::Changed(rows) => put_counted(out, "changed ", *rows),
        Reply::Error(cause) => put_error(out, *cause),
        _ => out.put("no answer of a statement"),
    }
}

/// Adds a word and a count.
pub(crate) fn put_counted(out: &mut Output, word: &str, count: u64) {
    out.put(word);
    out.put_count(count);
}

fn put_error(out: &mut Output, cause: StatementError) {
    let words = match cause {
        StatementError::Syntax { at } => return put_counted(out, "error syntax ", u64::from(at)),
        StatementError::Table => "error table",
        StatementError::Column => "error column",
        StatementError::Ambiguous => "error ambiguous",
        StatementError::Type_ => "error type",
        StatementError::Count => "error count",
        StatementError::Overflow => "error overflow",
        StatementError::NotNull => "error notnull",
        StatementError::TooLong => "error toolong",
        StatementError::State => "error state",
    };
    out.put(words);
}

/// Adds a line with what a statement comes to.
pub(crate) fn put_outcome(out: &mut Output, tables: &[TableDef], outcome: &Outcome) {
    match outcome {
        Outcome::Fails(cause) => put_error(out, *cause),
        Outcome::Tells { replies, uses } => {
            put_replies(out, replies.as_slice());
            put_items(out, tables, uses.as_slice());
        }
        Outcome::Writes(ops) => put_ops(out, tables, ops.as_slice()),
    }
}

/// Adds a line for each net operation.
pub(crate) fn put_ops(out: &mut Output, tables: &[TableDef], ops: &[RowOp]) {
    for op in ops {
        put_op(out, tables, op);
        out.put("\n");
    }
}

fn put_op(out: &mut Output, tables: &[TableDef], op: &RowOp) {
    match op {
        RowOp::Insert { table, row } => {
            put_table_name(out, "  insert ", tables, *table);
            put_row(out, ": ", row);
        }
        RowOp::Update {
            table,
            target,
            old,
            row,
        } => {
            put_table_name(out, "  update ", tables, *table);
            put_target(out, *target);
            put_row(out, ": ", old);
            put_row(out, " to ", row);
        }
        RowOp::Delete { table, target, old } => {
            put_table_name(out, "  delete ", tables, *table);
            put_target(out, *target);
            put_row(out, ": ", old);
        }
    }
}

/// Adds a sign, and the name of the table at a place.
fn put_table_name(out: &mut Output, sign: &str, tables: &[TableDef], table: u16) {
    out.put(sign);
    match tables.get(table as usize) {
        Some(table) => out.put_bytes(table.name.as_bytes()),
        None => out.put("no table"),
    }
}

fn put_target(out: &mut Output, target: RowRef) {
    match target {
        RowRef::Base(genid) => put_counted(out, ".", genid),
        RowRef::Own(write) => put_counted(out, "#", write),
    }
}

/// Adds a line with the versions that were used, where there are some.
pub(crate) fn put_items(out: &mut Output, tables: &[TableDef], items: &[GenidItem]) {
    if items.is_empty() {
        return;
    }
    out.put("  uses");
    for item in items {
        put_table_name(out, " ", tables, item.table);
        put_counted(out, ".", item.genid);
    }
    out.put("\n");
}

/// Adds a line with the intervals that were read, where there are some.
pub(crate) fn put_intervals(out: &mut Output, tables: &[TableDef], intervals: &[Interval]) {
    if intervals.is_empty() {
        return;
    }
    let mut before = "  reads ";
    for interval in intervals {
        put_table_name(out, before, tables, interval.table);
        put_key_name(out, tables, interval);
        put_ends(out, interval);
        before = "; ";
    }
    out.put("\n");
}

/// Adds the name of the key of an interval, where it has one.
fn put_key_name(out: &mut Output, tables: &[TableDef], interval: &Interval) {
    let (Some(table), Some(place)) = (tables.get(interval.table as usize), interval.key) else {
        return;
    };
    out.put(" ");
    match table.keys.as_slice().get(place as usize) {
        Some(key) => out.put_bytes(key.name.as_bytes()),
        None => out.put("no key"),
    }
}

fn put_ends(out: &mut Output, interval: &Interval) {
    for value in interval.equal.as_slice() {
        out.put(" = ");
        put_value(out, value);
    }
    put_edge(out, &interval.low);
    put_edge(out, &interval.high);
    if interval.empty {
        out.put(" empty");
    }
}

fn put_edge(out: &mut Output, edge: &Edge) {
    let (sign, value) = match edge {
        Edge::Free => return,
        Edge::AtLeast(value) => (" >= ", value),
        Edge::Above(value) => (" > ", value),
        Edge::AtMost(value) => (" <= ", value),
        Edge::Below(value) => (" < ", value),
    };
    out.put(sign);
    put_value(out, value);
}

/// Adds a line with a table: its columns, and its keys with the places of theirs.
pub(crate) fn put_table(out: &mut Output, table: &TableDef) {
    out.put("  ");
    out.put_bytes(table.name.as_bytes());
    let mut before = " (";
    for column in table.columns.as_slice() {
        out.put(before);
        put_column(out, column);
        before = ", ";
    }
    out.put(")");
    for key in table.keys.as_slice() {
        put_key(out, key);
    }
    out.put("\n");
}

fn put_column(out: &mut Output, column: &ColumnDef) {
    out.put_bytes(column.name.as_bytes());
    out.put(match column.kind {
        ColumnType::Integer => " int",
        ColumnType::Text => " text",
        ColumnType::Blob => " blob",
    });
    if !column.nullable {
        out.put(" not null");
    }
}

fn put_key(out: &mut Output, key: &KeyDef) {
    out.put(if key.unique { " unique " } else { " key " });
    out.put_bytes(key.name.as_bytes());
    let mut before = " (";
    for column in key.columns.as_slice() {
        put_counted(out, before, u64::from(*column));
        before = ", ";
    }
    out.put(")");
}
