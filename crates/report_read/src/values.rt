ghost use Rattle.std.specs.Prelude.{◌≡◌, ◌∷◌, ◌≤◌, ◌↔◌, ◌^◌, IsTrue, length, pos, negsuc};
ghost use Rattle.std.specs.Str.{IsUtf8, is_utf8};
ghost use Rattle.byte_words.specs.Answers.{Finds, Gives};
ghost use Rattle.report_read.specs.Reading.{minus, negative_at, integer_at, plain_value_at, text_at, blob_at, value_at, with_first, more_values_at, values_at};

use super::coded::{Hexadecimal, Quoted, read_coded};
use super::words::{take_number_within, take_word};
use cdb_values::{Bytes, List, Row, Text, Value};
use std::alloc::{AllocError, Global};
use std::str;

/// The size of the least integer.
const LEAST: u64 = 1 << 63;

/// The number below 0 of that size; `None` for 0.
fn below_zero(size: u64) -> Option<i64>
    requires { size ≤ 2 ^ 63 }
    ensures { Finds (λ x. x) result (minus size) }
{
    if size == 0 {
        None
    } else {
        Some(-((size - 1) as i64) - 1)
    }
}

/// The integer below 0 whose size these bytes begin with, and what stands behind it.
#[tactic(auto, unfolding(crate::specs::Reading::negative_at))]
fn take_negative(bytes: &[u8]) -> Option<(i64, &[u8])>
    ensures { Finds (λ x. (x.0, x.1.now)) result (negative_at bytes.now) }
{
    let (size, rest) = take_number_within(LEAST, bytes)?;
    let value = below_zero(size)?;
    Some((value, rest))
}

/// An integer, and what stands behind it.
#[tactic(auto, unfolding(crate::specs::Reading::integer_at))]
fn take_integer(bytes: &[u8]) -> Option<(i64, &[u8])>
    ensures { Finds (λ x. (x.0, x.1.now)) result (integer_at bytes.now) }
{
    match take_word(b"-", bytes) {
        Some(rest) => take_negative(rest),
        None => {
            let (value, rest) = take_number_within(LEAST - 1, bytes)?;
            Some((value as i64, rest))
        }
    }
}

/// A value that takes no memory, and what stands behind it.
#[tactic(auto, unfolding(crate::specs::Reading::plain_value_at))]
fn take_plain_value(bytes: &[u8]) -> Option<(Value, &[u8])>
    ensures { Finds (λ x. (x.0, x.1.now)) result (plain_value_at bytes.now) }
{
    match take_word(b"null", bytes) {
        Some(rest) => Some((Value::Null, rest)),
        None => {
            let (value, rest) = take_integer(bytes)?;
            Some((Value::Int(value), rest))
        }
    }
}

/// Whether bytes are UTF-8.
fn is_text(bytes: &[u8]) -> bool
    ensures { result ≡ is_utf8 bytes.now }
{
    str::from_utf8(bytes).is_ok()
}

/// A text, and what stands behind it.
#[tactic(auto, unfolding(crate::specs::Reading::text_at))]
fn read_text(alloc: Global, bytes: &[u8]) -> Result<Option<(Value, &[u8])>, AllocError>
    ensures { Gives (λ x. (x.0, x.1.now)) result (text_at bytes.now) }
{
    let Some(rest) = take_word(b"'", bytes) else {
        return Ok(None);
    };
    let Some((text, rest)) = read_coded::<Quoted>(alloc, rest)? else {
        return Ok(None);
    };
    if is_text(text.as_slice()) {
        Ok(Some((Value::Text(Text::from_vec(text)), rest)))
    } else {
        Ok(None)
    }
}

/// A blob, and what stands behind it.
#[tactic(auto, unfolding(crate::specs::Reading::blob_at))]
fn read_blob(alloc: Global, bytes: &[u8]) -> Result<Option<(Value, &[u8])>, AllocError>
    ensures { Gives (λ x. (x.0, x.1.now)) result (blob_at bytes.now) }
{
    let Some(rest) = take_word(b"x'", bytes) else {
        return Ok(None);
    };
    let Some((blob, rest)) = read_coded::<Hexadecimal>(alloc, rest)? else {
        return Ok(None);
    };
    Ok(Some((Value::Blob(Bytes::from_vec(blob)), rest)))
}

/// A value, and what stands behind it.
#[tactic(auto, unfolding(crate::specs::Reading::value_at))]
fn read_value(alloc: Global, bytes: &[u8]) -> Result<Option<(Value, &[u8])>, AllocError>
    ensures { Gives (λ x. (x.0, x.1.now)) result (value_at bytes.now) }
{
    if let Some(plain) = take_plain_value(bytes) {
        return Ok(Some(plain));
    }
    if let Some(text) = read_text(alloc, bytes)? {
        return Ok(Some(text));
    }
    read_blob(alloc, bytes)
}

/// The values of a row, and what stands behind them.
#[tactic(auto, unfolding(crate::specs::Reading::values_at))]
pub fn read_values(alloc: Global, bytes: &[u8]) -> Result<Option<(Row, &[u8])>, AllocError>
    ensures { Gives (λ x. (x.0, x.1.now)) result (values_at bytes.now) }
{
    let Some((first, rest)) = read_value(alloc, bytes)? else {
        return Ok(None);
    };
    read_more(alloc, first, rest)
}

/// The values of a row behind its first, which is given, and what stands behind them.
fn read_more(alloc: Global, first: Value, bytes: &[u8]) -> Result<Option<(Row, &[u8])>, AllocError>
    ensures { Gives (λ x. (x.0, x.1.now)) result (with_first first (more_values_at (length bytes.now) bytes.now)) }
{
    let mut row = List::new(alloc);
    row.push(first)?;
    let mut rest = bytes;
    'values: for _ in 0..bytes.len() {
        let Some(behind_bar) = take_word(b"|", rest) else {
            return Ok(Some((row, rest)));
        };
        let Some((value, after)) = read_value(alloc, behind_bar)? else {
            return Ok(None);
        };
        row.push(value)?;
        rest = after;
    }
    Ok(Some((row, rest)))
}
