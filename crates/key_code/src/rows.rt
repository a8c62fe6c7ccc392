ghost use Rattle.std.specs.Prelude.{◌≡◌, ◌<◌, ◌^◌, ◌∷◌, ◌++◌, length, IfOk, OnOk};
ghost use Rattle.std.specs.List.{AllByRecursion};
ghost use Rattle.key_code.specs.Codes.{counted, row_value, row_code, IsShort, HasRowCode, IsRowValue};
ghost use Rattle.key_code.specs.Reads.{Reads, Decodes, Counts};

use crate::numbers::{complement_of, signed};
use crate::reads::{Read, is_text};
use byte_words::{put_u32, put_u64, take_u32, take_u64};
use cdb_values::{Bytes, List, Row, Text, Value};
use std::alloc::{AllocError, Global};

/// The code of a row, whose texts and blobs are shorter than 2^32 bytes. The error is want of memory.
pub fn encode_row(alloc: Global, row: &Row) -> Result<Bytes, AllocError>
    requires { AllByRecursion IsShort row.now }
    ensures code { IfOk result (λ b. b ≡ row_code row.now) }
    ensures range { OnOk result (AllByRecursion HasRowCode row.now) }
{
    let mut out = Vec::new(alloc);
    let mut rest = row.as_slice();
    'encoding: while let Some((first, others)) = rest.split_first() {
        put_row_value(&mut out, first)?;
        rest = others;
    }
    Ok(Bytes::from_vec(out))
}

/// Adds the code of one value.
fn put_row_value(out: &mut Vec<u8>, value: &Value) -> Result<(), AllocError>
    requires { IsShort value.now }
    ensures code { OnOk result (out.new.items ≡ out.old.items ++ row_value value.now) }
    ensures range { OnOk result (HasRowCode value.now) }
{
    match value {
        Value::Null => {
            out.push(0)?;
            Ok(())
        }
        Value::Int(x) => {
            out.push(1)?;
            put_u64(out, complement_of(*x))
        }
        Value::Text(text) => {
            out.push(2)?;
            put_counted(out, text.as_bytes())
        }
        Value::Blob(blob) => {
            out.push(3)?;
            put_counted(out, blob.as_bytes())
        }
    }
}

/// Adds bytes behind their length.
fn put_counted(out: &mut Vec<u8>, bytes: &[u8]) -> Result<(), AllocError>
    requires { length bytes.now < 2 ^ 32 }
    ensures { OnOk result (out.new.items ≡ out.old.items ++ counted bytes.now) }
{
    put_u32(out, bytes.len() as u32)?;
    out.extend_from_slice(bytes)
}

/// The values whose code in a row these bytes are; `None` exactly where they are no values' code. The error is want of
/// memory.
pub fn decode_row(alloc: Global, bytes: &[u8]) -> Result<Option<Row>, AllocError>
    ensures { IfOk result (λ found. Decodes row_value IsRowValue found bytes.now) }
{
    let mut values = List::new(alloc);
    let mut rest = bytes;
    'decoding: while !rest.is_empty() {
        match read_row_value(alloc, rest) {
            Err(fault) => return Err(fault),
            Ok(None) => return Ok(None),
            Ok(Some(read)) => {
                values.push(read.value)?;
                rest = read.rest;
            }
        }
    }
    Ok(Some(values))
}

/// The value whose code in a row stands at the front of these bytes.
fn read_row_value(alloc: Global, bytes: &[u8]) -> Result<Option<Read<'_>>, AllocError>
    ensures { IfOk result (λ found. Reads row_value IsRowValue found bytes.now) }
{
    let Some((tag, rest)) = bytes.split_first() else {
        return Ok(None);
    };
    match *tag {
        0 => Ok(Some(Read {
            value: Value::Null,
            rest,
        })),
        1 => Ok(read_row_int(rest)),
        2 => read_row_text(alloc, rest),
        3 => read_row_blob(alloc, rest),
        _ => Ok(None),
    }
}

/// The integer whose code in a row is the tag and the front of these bytes.
fn read_row_int(rest: &[u8]) -> Option<Read<'_>>
    ensures { Reads row_value IsRowValue result (1 ∷ rest.now) }
{
    let (number, rest) = take_u64(rest)?;
    Some(Read {
        value: Value::Int(signed(number)),
        rest,
    })
}

/// The text whose code in a row is the tag and the front of these bytes.
fn read_row_text(alloc: Global, rest: &[u8]) -> Result<Option<Read<'_>>, AllocError>
    ensures { IfOk result (λ found. Reads row_value IsRowValue found (2 ∷ rest.now)) }
{
    let Some(found) = read_counted(rest) else {
        return Ok(None);
    };
    if !is_text(found.bytes) {
        return Ok(None);
    }
    let text = Text::copied(alloc, found.bytes)?;
    Ok(Some(Read {
        value: Value::Text(text),
        rest: found.rest,
    }))
}

/// The blob whose code in a row is the tag and the front of these bytes.
fn read_row_blob(alloc: Global, rest: &[u8]) -> Result<Option<Read<'_>>, AllocError>
    ensures { IfOk result (λ found. Reads row_value IsRowValue found (3 ∷ rest.now)) }
{
    let Some(found) = read_counted(rest) else {
        return Ok(None);
    };
    let blob = Bytes::copied(alloc, found.bytes)?;
    Ok(Some(Read {
        value: Value::Blob(blob),
        rest: found.rest,
    }))
}

/// Bytes that were read behind their length, and the bytes behind them.
#[derive(Clone, Copy)]
pub(crate) struct Counted<'a> {
    pub(crate) bytes: &'a [u8],
    pub(crate) rest: &'a [u8],
}

/// Reads bytes behind their length; `None` exactly where none stand at the front.
fn read_counted(bytes: &[u8]) -> Option<Counted<'_>>
    ensures { Counts result bytes.now }
{
    let (size, rest) = take_u32(bytes)?;
    if rest.len() < size as usize {
        return None;
    }
    let (bytes, rest) = rest.split_at(size as usize);
    Some(Counted { bytes, rest })
}
