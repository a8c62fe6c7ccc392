//! Words and what they stand for.

use cdb_values::{Bytes, Text, Value};
use std::alloc::{AllocError, Global};

/// The most times that a sign stands.
const MOST_TIMES: u16 = 5000;

/// From so many on, equal bytes are written as one with their number.
const RUN: u64 = 6;

/// The words of a line.
pub(crate) fn words_of(alloc: Global, line: &str) -> Result<Vec<&str>, AllocError> {
    line.split_whitespace().collect(alloc)
}

/// The word at a place of a line; an empty one where there is none.
pub(crate) fn word<'a>(words: &[&'a str], at: usize) -> &'a str {
    match words.get(at) {
        Some(word) => *word,
        None => "",
    }
}

/// The number that a word tells, 0 where it tells none.
pub(crate) fn number(word: &str) -> u64 {
    word.parse::<u64>().unwrap_or(0)
}

/// The place in a page, a table or a schema that a word tells.
pub(crate) fn place(word: &str) -> u16 {
    word.parse::<u16>().unwrap_or(0)
}

/// The bytes that the signs of a word stand for.
pub(crate) fn bytes_of(alloc: Global, word: &[u8]) -> Result<Vec<u8>, AllocError> {
    let mut bytes = Vec::new(alloc);
    let mut rest = word;
    for _ in 0..word.len() {
        match rest.split_first() {
            Some((sign, others)) => rest = put_read(&mut bytes, *sign, others)?,
            None => return Ok(bytes),
        }
    }
    Ok(bytes)
}

/// Adds what a sign stands for, with those behind it that belong to it, and gives the rest.
fn put_read<'a>(bytes: &mut Vec<u8>, sign: u8, rest: &'a [u8]) -> Result<&'a [u8], AllocError> {
    match sign {
        b'-' => Ok(rest),
        b'%' => put_hex(bytes, rest),
        b'{' => put_more(bytes, rest),
        sign => {
            bytes.push(sign)?;
            Ok(rest)
        }
    }
}

/// Adds the byte of two hex digits.
fn put_hex<'a>(bytes: &mut Vec<u8>, rest: &'a [u8]) -> Result<&'a [u8], AllocError> {
    let [high, low, others @ ..] = rest else {
        return Ok(rest);
    };
    bytes.push(
        digit_of(*high)
            .wrapping_mul(16)
            .wrapping_add(digit_of(*low)),
    )?;
    Ok(others)
}

/// The number of a hex digit.
fn digit_of(sign: u8) -> u8 {
    if sign.is_ascii_digit() {
        sign.wrapping_sub(b'0')
    } else {
        sign.wrapping_sub(b'a' - 10)
    }
}

/// Adds the last byte until it stands as often as the number before `}` tells.
fn put_more<'a>(bytes: &mut Vec<u8>, rest: &'a [u8]) -> Result<&'a [u8], AllocError> {
    let mut times = 0u16;
    let mut rest = rest;
    for _ in 0..5u8 {
        let Some((sign, others)) = rest.split_first() else {
            return Ok(rest);
        };
        rest = others;
        if *sign == b'}' {
            break;
        }
        times = times
            .wrapping_mul(10)
            .wrapping_add(u16::from(digit_of(*sign)));
    }
    repeat_last(bytes, times)?;
    Ok(rest)
}

/// Adds the last byte until it stands so often.
fn repeat_last(bytes: &mut Vec<u8>, times: u16) -> Result<(), AllocError> {
    if let Some(last) = bytes.last().copied() {
        for _ in 1..times.min(MOST_TIMES) {
            bytes.push(last)?;
        }
    }
    Ok(())
}

/// Adds the word of bytes.
pub(crate) fn put_bytes(alloc: Global, out: &mut String, bytes: &[u8]) -> Result<(), AllocError> {
    if bytes.is_empty() {
        return out.push('-');
    }
    let mut last = 0u8;
    let mut times = 0u64;
    for byte in bytes {
        if *byte != last {
            put_run(alloc, out, last, times)?;
            last = *byte;
            times = 0;
        }
        times = times.wrapping_add(1);
    }
    put_run(alloc, out, last, times)
}

/// Adds the signs of a byte that stands so often.
fn put_run(alloc: Global, out: &mut String, byte: u8, times: u64) -> Result<(), AllocError> {
    if times < RUN {
        for _ in 0..times {
            put_sign(alloc, out, byte)?;
        }
        return Ok(());
    }
    put_sign(alloc, out, byte)?;
    out.push_str(format!(in alloc; "{{{times}}}")?.as_str())
}

/// Adds the sign of a byte.
fn put_sign(alloc: Global, out: &mut String, byte: u8) -> Result<(), AllocError> {
    if byte.is_ascii_alphanumeric() || byte == b'_' {
        out.push(byte as char)
    } else {
        out.push_str(format!(in alloc; "%{byte:02x}")?.as_str())
    }
}

/// Adds a number.
pub(crate) fn put_number(alloc: Global, out: &mut String, number: u64) -> Result<(), AllocError> {
    out.push_str(number.to_string(alloc)?.as_str())
}

/// The value of a word.
pub(crate) fn value_of(alloc: Global, word: &str) -> Result<Value, AllocError> {
    match word.as_bytes().split_first() {
        Some((b'n', _)) => Ok(Value::Null),
        Some((b'\'', text)) => Ok(Value::Text(Text::from_vec(bytes_of(alloc, text)?))),
        Some((b':', blob)) => Ok(Value::Blob(Bytes::from_vec(bytes_of(alloc, blob)?))),
        _ => Ok(Value::Int(word.parse::<i64>().unwrap_or(0))),
    }
}

/// Adds the word of a value.
pub(crate) fn put_value(alloc: Global, out: &mut String, value: &Value) -> Result<(), AllocError> {
    match value {
        Value::Null => out.push_str("null"),
        Value::Int(number) => out.push_str(number.to_string(alloc)?.as_str()),
        Value::Text(text) => {
            out.push('\'')?;
            put_bytes(alloc, out, text.as_bytes())
        }
        Value::Blob(blob) => {
            out.push(':')?;
            put_bytes(alloc, out, blob.as_bytes())
        }
    }
}
