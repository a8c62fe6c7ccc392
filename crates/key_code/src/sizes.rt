ghost use Rattle.std.specs.Prelude.{◌≡◌, ◌+◌, ◌-◌, ◌^◌, ◌==◌, min, length, count_by};
ghost use Rattle.cdb_values.specs.Good.{key_bytes, row_bytes, bytes_of_key, bytes_of_row};

use cdb_values::{Row, Value};

/// The size in bytes of these values' code in a key; 2^64 - 1 stands for each size from there on. Takes no memory.
pub fn key_size(values: &[Value]) -> u64
    ensures { result ≡ min (bytes_of_key values.now) (2 ^ 64 - 1) }
{
    let mut size = 0u64;
    let mut rest = values;
    'measuring: while let Some((first, others)) = rest.split_first() {
        size = size.saturating_add(key_value_size(first));
        rest = others;
    }
    size
}

/// The size of one value's code in a key.
fn key_value_size(value: &Value) -> u64
    ensures { result ≡ min (key_bytes value.now) (2 ^ 64 - 1) }
{
    match value {
        Value::Null => 1,
        Value::Int(_) => 9,
        Value::Text(text) => ended_size(text.as_bytes()),
        Value::Blob(blob) => ended_size(blob.as_bytes()),
    }
}

/// The size of bytes that are escaped and ended.
fn ended_size(bytes: &[u8]) -> u64
    ensures { result ≡ min (3 + length bytes.now + count_by (λ b. b == 0) bytes.now) (2 ^ 64 - 1) }
{
    let escapes = bytes.iter().filter(|b| **b == 0).count();
    (bytes.len() as u64)
        .saturating_add(3)
        .saturating_add(escapes as u64)
}

/// The size in bytes of a row's code; 2^64 - 1 stands for each size from there on. Takes no memory.
pub fn row_size(row: &Row) -> u64
    ensures { result ≡ min (bytes_of_row row.now) (2 ^ 64 - 1) }
{
    let mut size = 0u64;
    let mut rest = row.as_slice();
    'measuring: while let Some((first, others)) = rest.split_first() {
        size = size.saturating_add(row_value_size(first));
        rest = others;
    }
    size
}

/// The size of one value's code in a row.
fn row_value_size(value: &Value) -> u64
    ensures { result ≡ min (row_bytes value.now) (2 ^ 64 - 1) }
{
    match value {
        Value::Null => 1,
        Value::Int(_) => 9,
        Value::Text(text) => (text.as_bytes().len() as u64).saturating_add(5),
        Value::Blob(blob) => (blob.as_bytes().len() as u64).saturating_add(5),
    }
}
