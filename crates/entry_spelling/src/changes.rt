//! Changes and rows that fit their fields.
ghost use Rattle.std.specs.Prelude.{◌<◌, ◌^◌, length};
ghost use Rattle.std.specs.Bool.{Decides};
ghost use Rattle.std.specs.List.{AllByRecursion};
ghost use Rattle.std.specs.Str.{IsUtf8};
ghost use Rattle.key_code.specs.Codes.{row_code, IsRowValue};
ghost use Rattle.frame_code.specs.Spelled.{IsStoredRow, IsOneRow, IsChange};

use crate::numbers::is_number;
use cdb_values::{Change, Row, Text, Value};
use key_code::{codes_have_their_sizes, row_size};
use std::str;

/// The code of a row has fewer bytes than this.
const ROW_END: u64 = 1 << 32;

/// A text or a blob has fewer bytes than this.
const BYTES_END: usize = 1 << 32;

/// Whether each of these changes fits its fields.
pub(crate) fn are_changes(changes: &[Change]) -> bool
    ensures { Decides result (AllByRecursion IsChange changes.now) }
{
    let mut rest = changes;
    'changes: while let Some((change, others)) = rest.split_first() {
        if !is_change(change) {
            return false;
        }
        rest = others;
    }
    true
}

/// Whether a change fits its fields.
fn is_change(change: &Change) -> bool
    ensures { Decides result (IsChange change.now) }
{
    match change {
        Change::Insert { table, genid, row } => is_one_row(*table, *genid, row),
        Change::Update {
            table,
            old_genid,
            old,
            genid,
            row,
        } => is_one_row(*table, *old_genid, old) && is_one_row(*table, *genid, row),
        Change::Delete {
            table,
            old_genid,
            old,
        } => is_one_row(*table, *old_genid, old),
    }
}

/// Whether a genid fits its field, and a row does. A table's place always does.
fn is_one_row(table: u16, genid: u64, row: &Row) -> bool
    ensures { Decides result (IsOneRow table genid row.now) }
{
    is_number(genid) && is_row(row)
}

/// Whether a row has a code that fits its field.
fn is_row(row: &Row) -> bool
    ensures { Decides result (IsStoredRow row.now) }
{
    is_short_row(row) && are_values(row.as_slice())
}

/// Whether the length of a row's code fits its 4 bytes.
fn is_short_row(row: &Row) -> bool
    ensures { Decides result (length (row_code row.now) < 2 ^ 32) }
{
    codes_have_their_sizes();
    row_size(row) < ROW_END
}

/// Whether each of these values has a code in a row.
fn are_values(values: &[Value]) -> bool
    ensures { Decides result (AllByRecursion IsRowValue values.now) }
{
    let mut rest = values;
    'values: while let Some((value, others)) = rest.split_first() {
        if !is_value(value) {
            return false;
        }
        rest = others;
    }
    true
}

/// Whether a value has a code in a row. An integer of the code is one of 64 bits.
fn is_value(value: &Value) -> bool
    ensures { Decides result (IsRowValue value.now) }
{
    match value {
        Value::Null => true,
        Value::Int(x) => {
            let _in_range = *x;
            true
        }
        Value::Text(text) => text.len() < BYTES_END && is_utf8(text),
        Value::Blob(blob) => blob.len() < BYTES_END,
    }
}

/// Whether a text is UTF-8.
fn is_utf8(text: &Text) -> bool
    ensures { Decides result (IsUtf8 text.now) }
{
    str::from_utf8(text.as_bytes()).is_ok()
}
