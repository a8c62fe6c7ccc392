ghost use Rattle.std.specs.Prelude.{◌≡◌, ◌∷◌, ◌++◌, IfOk, OnOk};
ghost use Rattle.std.specs.List.{AllByRecursion};
ghost use Rattle.key_code.specs.Codes.{key_value, key_code, IsInRange, IsKeyValue};
ghost use Rattle.key_code.specs.Reads.{Reads, Decodes};

use crate::escapes::{put_ended, read_ended};
use crate::numbers::{lift, lower};
use crate::reads::{Read, is_text};
use byte_words::{put_u64, take_u64};
use cdb_values::{Bytes, List, Row, Text, Value};
use std::alloc::{AllocError, Global};

/// The code of these values in a key. The error is want of memory.
pub fn encode_key(alloc: Global, values: &[Value]) -> Result<Bytes, AllocError>
    ensures code { IfOk result (λ b. b ≡ key_code values.now) }
    ensures range { OnOk result (AllByRecursion IsInRange values.now) }
{
    let mut out = Vec::new(alloc);
    let mut rest = values;
    'encoding: while let Some((first, others)) = rest.split_first() {
        put_key_value(&mut out, first)?;
        rest = others;
    }
    Ok(Bytes::from_vec(out))
}

/// Adds the code of one value.
fn put_key_value(out: &mut Vec<u8>, value: &Value) -> Result<(), AllocError>
    ensures code { OnOk result (out.new.items ≡ out.old.items ++ key_value value.now) }
    ensures range { OnOk result (IsInRange value.now) }
{
    match value {
        Value::Null => {
            out.push(0)?;
            Ok(())
        }
        Value::Int(x) => {
            out.push(1)?;
            put_u64(out, lift(*x))
        }
        Value::Text(text) => {
            out.push(2)?;
            put_ended(out, text.as_bytes())
        }
        Value::Blob(blob) => {
            out.push(3)?;
            put_ended(out, blob.as_bytes())
        }
    }
}

/// The values whose code in a key these bytes are; `None` exactly where they are no values' code. The error is want of
/// memory.
pub fn decode_key(alloc: Global, bytes: &[u8]) -> Result<Option<Row>, AllocError>
    ensures { IfOk result (λ found. Decodes key_value IsKeyValue found bytes.now) }
{
    let mut values = List::new(alloc);
    let mut rest = bytes;
    'decoding: while !rest.is_empty() {
        match read_key_value(alloc, rest) {
            Err(fault) => return Err(fault),
            Ok(None) => return Ok(None),
            Ok(Some(read)) => {
                values.push(read.value)?;
                rest = read.rest;
            }
        }
    }
    Ok(Some(values))
}

/// The value whose code in a key stands at the front of these bytes.
fn read_key_value(alloc: Global, bytes: &[u8]) -> Result<Option<Read<'_>>, AllocError>
    ensures { IfOk result (λ found. Reads key_value IsKeyValue found bytes.now) }
{
    let Some((tag, rest)) = bytes.split_first() else {
        return Ok(None);
    };
    match *tag {
        0 => Ok(Some(Read {
            value: Value::Null,
            rest,
        })),
        1 => Ok(read_key_int(rest)),
        2 => read_key_text(alloc, rest),
        3 => read_key_blob(alloc, rest),
        _ => Ok(None),
    }
}

/// The integer whose code in a key is the tag and the front of these bytes.
fn read_key_int(rest: &[u8]) -> Option<Read<'_>>
    ensures { Reads key_value IsKeyValue result (1 ∷ rest.now) }
{
    let (number, rest) = take_u64(rest)?;
    Some(Read {
        value: Value::Int(lower(number)),
        rest,
    })
}

/// The text whose code in a key is the tag and the front of these bytes.
fn read_key_text(alloc: Global, rest: &[u8]) -> Result<Option<Read<'_>>, AllocError>
    ensures { IfOk result (λ found. Reads key_value IsKeyValue found (2 ∷ rest.now)) }
{
    let Some(found) = read_ended(alloc, rest)? else {
        return Ok(None);
    };
    if !is_text(found.bytes.as_slice()) {
        return Ok(None);
    }
    Ok(Some(Read {
        value: Value::Text(Text::from_vec(found.bytes)),
        rest: found.rest,
    }))
}

/// The blob whose code in a key is the tag and the front of these bytes.
fn read_key_blob(alloc: Global, rest: &[u8]) -> Result<Option<Read<'_>>, AllocError>
    ensures { IfOk result (λ found. Reads key_value IsKeyValue found (3 ∷ rest.now)) }
{
    let Some(found) = read_ended(alloc, rest)? else {
        return Ok(None);
    };
    Ok(Some(Read {
        value: Value::Blob(Bytes::from_vec(found.bytes)),
        rest: found.rest,
    }))
}
