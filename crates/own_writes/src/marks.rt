//! The numbers by which writes are found.
ghost use Rattle.std.specs.Prelude.{◌≡◌, ◌<◌};
ghost use Rattle.own_writes.specs.Marks.{reduced as reduced_of, mixed as mixed_of, bytes_mark as bytes_mark_of, value_mark as value_mark_of, column_mark as column_mark_of, genid_mark as genid_mark_of, key_of as key_of_mark};

use cdb_values::Value;

/// A prime number below 2^32.
const MODULUS: u64 = 4_294_967_291;
/// No column has this number.
const NO_COLUMN: u64 = 1_000_003;
/// Stamps are below this number, 2^32.
pub(crate) const STAMP_LIMIT: u64 = 4_294_967_296;

/// The mark of a value in a column of a table.
pub(crate) fn column_mark(table: u16, column: u64, value: &Value) -> u64
    ensures mark { result ≡ column_mark_of table column value.now }
    ensures small { result < 4294967296 }
{
    let place = mixed(reduced(column), table as u64);
    mixed(place, value_mark(value))
}

/// The mark of a version of a table that is taken away.
pub(crate) fn genid_mark(table: u16, genid: u64) -> u64
    ensures mark { result ≡ genid_mark_of table genid }
    ensures small { result < 4294967296 }
{
    let place = mixed(NO_COLUMN, table as u64);
    mixed(place, reduced(genid))
}

/// A mark with the stamp of its write, as one number.
pub(crate) fn key_of(mark: u64, stamp: u64) -> u64
    requires mark { mark < 4294967296 }
    requires stamp { stamp < 4294967296 }
    ensures { result ≡ key_of_mark mark stamp }
{
    mark * STAMP_LIMIT + stamp
}

fn value_mark(value: &Value) -> u64
    ensures mark { result ≡ value_mark_of value.now }
    ensures small { result < 4294967296 }
{
    match value {
        Value::Null => 0,
        Value::Int(number) => reduced(number.unsigned_abs()),
        Value::Text(text) => bytes_mark(text.as_bytes()),
        Value::Blob(blob) => bytes_mark(blob.as_bytes()),
    }
}

fn bytes_mark(bytes: &[u8]) -> u64
    ensures mark { result ≡ bytes_mark_of 0 bytes.now }
    ensures small { result < 4294967296 }
{
    let mut mark: u64 = 0;
    let mut rest = bytes;
    'bytes: while let Some((byte, others)) = rest.split_first() {
        mark = mixed(mark, *byte as u64);
        rest = others;
    }
    mark
}

#[tactic(auto, unfolding(crate::specs::Marks::reduced))]
fn reduced(number: u64) -> u64
    ensures value { result ≡ reduced_of number }
    ensures small { result < 4294967296 }
{
    number % MODULUS
}

/// A mark with a number more.
#[tactic(auto, unfolding(crate::specs::Marks::mixed))]
fn mixed(mark: u64, number: u64) -> u64
    requires mark { mark < 4294967296 }
    requires number { number < 4294967296 }
    ensures value { result ≡ mixed_of mark number }
    ensures small { result < 4294967296 }
{
    (mark * 65_537 + number) % MODULUS
}
