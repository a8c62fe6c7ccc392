//! Codes of keys and rows, as the first page of `key_code` shows them.
ghost use Rattle.std.specs.Prelude.{◌≡◌, true};
ghost use Rattle.key_code.specs.Codes.{IsShort};

use cdb_values::{Bytes, List, Text, order};
use key_code::*;
use std::alloc::{AllocError, Global};
use std::test::Fail;

fn text(alloc: Global, bytes: &[u8]) -> Result<Value, AllocError> {
    Ok(Value::Text(Text::copied(alloc, bytes)?))
}

fn blob(alloc: Global, bytes: &[u8]) -> Result<Value, AllocError> {
    Ok(Value::Blob(Bytes::copied(alloc, bytes)?))
}

fn are_same(xs: &[Value], ys: &[Value]) -> bool {
    xs.len() == ys.len() && xs.iter().zip(ys.iter()).all(|(x, y)| order(x, y).is_eq())
}

/// Whether these values have this code, and it reads back to them.
fn is_code(alloc: Global, values: &[Value], code: &[u8]) -> Result<bool, AllocError> {
    let made = encode_key(alloc, values)?;
    if made.as_bytes() != code || key_size(values) != code.len() as u64 {
        return Ok(false);
    }
    Ok(match decode_key(alloc, code)? {
        Some(read) => are_same(read.as_slice(), values),
        None => false,
    })
}

/// Numbers, and their codes.
static NUMBERS: [(i64, &[u8]); 4] = [
    (1, b"\x01\x80\0\0\0\0\0\0\x01"),
    (-1, b"\x01\x7f\xff\xff\xff\xff\xff\xff\xff"),
    (i64::MIN, b"\x01\0\0\0\0\0\0\0\0"),
    (i64::MAX, b"\x01\xff\xff\xff\xff\xff\xff\xff\xff"),
];

/// Texts, and their codes.
static TEXTS: [(&str, &[u8]); 4] = [
    ("a", b"\x02a\0\0"),
    ("a\0", b"\x02a\0\xff\0\0"),
    ("\0\0", b"\x02\0\xff\0\xff\0\0"),
    ("\u{1f600}", b"\x02\xf0\x9f\x98\x80\0\0"),
];

/// Whether a value alone has this code.
fn is_key(alloc: Global, value: Value, code: &[u8]) -> Result<bool, AllocError> {
    let values = [value];
    is_code(alloc, &values, code)
}

#[test]
fn keys_of_the_table(rt: HostRuntime) -> Result<(), Fail> {
    for (number, code) in &NUMBERS {
        assert!(rt; is_key(rt.alloc(), Value::Int(*number), *code)?);
    }
    for (letters, code) in &TEXTS {
        let text = text(rt.alloc(), letters.as_bytes())?;
        assert!(rt; is_key(rt.alloc(), text, *code)?);
    }
    let values = [Value::Null, Value::Int(1)];
    assert!(rt; is_code(rt.alloc(), &values, b"\0\x01\x80\0\0\0\0\0\0\x01")?);
    assert!(rt; decode_key(rt.alloc(), b"\x02a\0\x01\0\0")?.is_none());
    Ok(())
}

/// Whether a value has fewer than a hundred bytes.
fn is_short(value: &Value) -> bool
    ensures { result ≡ true → IsShort value.now }
{
    match value {
        Value::Text(text) => text.as_bytes().len() < 100,
        Value::Blob(blob) => blob.as_bytes().len() < 100,
        _ => true,
    }
}

/// Whether the row of a value has this code, and it reads back to it.
fn is_row(alloc: Global, value: Value, code: &[u8]) -> Result<bool, AllocError> {
    if !is_short(&value) {
        return Ok(false);
    }
    let row = List::from_vec(vec![in alloc; value]?);
    if encode_row(alloc, &row)?.as_bytes() != code || row_size(&row) != code.len() as u64 {
        return Ok(false);
    }
    Ok(match decode_row(alloc, code)? {
        Some(read) => are_same(read.as_slice(), row.as_slice()),
        None => false,
    })
}

#[test]
fn rows_of_each_kind(rt: HostRuntime) -> Result<(), Fail> {
    let alloc = rt.alloc();
    assert!(rt; is_row(alloc, Value::Null, b"\0")?);
    assert!(rt;
        is_row(
            alloc,
            Value::Int(-1),
            b"\x01\xff\xff\xff\xff\xff\xff\xff\xff"
        )?
    );
    assert!(rt; is_row(alloc, text(alloc, b"a\0")?, b"\x02\0\0\0\x02a\0")?);
    assert!(rt; is_row(alloc, blob(alloc, b"")?, b"\x03\0\0\0\0")?);
    assert!(rt; decode_row(alloc, b"\x02\0\0\0\x02a")?.is_none());
    Ok(())
}
