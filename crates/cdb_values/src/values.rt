ghost use Rattle.std.specs.Prelude.{◌≡◌};
ghost use Rattle.cdb_values.specs.Order.{value_order, rank};

use byte_lists::{Bytes, Text};
use std::cmp::Ordering;

/// One value of a row: NULL, an integer of 64 bits, a text or a blob.
#[derive(Clone, Drop)]
pub enum Value {
    Null,
    Int(i64),
    Text(Text),
    Blob(Bytes),
}

/// The total order of values: NULL, then integers, then texts by their bytes, then blobs by theirs.
pub fn order(a: &Value, b: &Value) -> Ordering
    ensures { result ≡ value_order a.now b.now }
{
    match (a, b) {
        (Value::Int(a), Value::Int(b)) => a.cmp(b),
        (Value::Text(a), Value::Text(b)) => a.as_bytes().cmp(b.as_bytes()),
        (Value::Blob(a), Value::Blob(b)) => a.as_bytes().cmp(b.as_bytes()),
        (a, b) => rank_of(a).cmp(&rank_of(b)),
    }
}

/// The place of a value's kind in the order: NULL 0, integers 1, texts 2, blobs 3.
fn rank_of(value: &Value) -> u8
    ensures { result ≡ rank value.now }
{
    match value {
        Value::Null => 0,
        Value::Int(_) => 1,
        Value::Text(_) => 2,
        Value::Blob(_) => 3,
    }
}
