//! Numbers, texts and blobs.
ghost use Rattle.std.specs.Prelude.{◌≡◌, IfOk, IfSome, IfNone, Bool, true, false, List, [], ◌∷◌, length, option_map, ◌<◌, ◌≤◌};
ghost use Rattle.std.specs.List.{prefix_len};
ghost use Rattle.std.specs.Char.{is_ascii_digit};
ghost use Rattle.sql_tokens.specs.Letters.{hex_digit, hex_byte, is_quote, next_is};
ghost use Rattle.sql_tokens.specs.Reading.{number_value, number_found, text_from, text_found, blob_from, blob_found};

use crate::found::{Copied, Found};
use crate::kinds::Token;
use byte_lists::Bytes;
use std::alloc::{AllocError, Global};

const LARGEST: u64 = 9223372036854775808;

/// How many digits stand at the front.
fn digits_len(bytes: &[u8]) -> usize
    ensures { result ≡ prefix_len is_ascii_digit bytes.now }
{
    bytes.iter().take_while(|b| b.is_ascii_digit()).count()
}

/// A digit more makes the value no smaller, so the first value that is too large decides.
#[tactic(auto, using(crate::proofs::ValueLemmas::value_stays_large))]
fn number_value(digits: &[u8]) -> Option<u64>
    ensures { result ≡ number_value digits.now }
{
    let mut value: u64 = 0;
    let mut rest = digits;
    'digits: while let Some((digit, behind)) = rest.split_first() {
        let more = 10 * u128::from(value) + u128::from(digit.saturating_sub(b'0'));
        if more > u128::from(LARGEST) {
            return None;
        }
        value = more as u64;
        rest = behind;
    }
    Some(value)
}

/// The number at the front, if digits stand there.
#[tactic(auto, unfolding(crate::specs::Reading::number_found))]
pub(crate) fn number(bytes: &[u8]) -> Option<Found>
    ensures { result ≡ number_found bytes.now }
{
    let size = digits_len(bytes);
    match number_value(&bytes[..size]) {
        Some(value) => Some(Found {
            token: Token::Number(value),
            size,
        }),
        None => None,
    }
}

/// Whether a byte is the quote of texts.
fn is_quote(byte: u8) -> bool
    ensures { result ≡ is_quote byte }
{
    byte == b'\''
}

/// What stands behind a quote, if there is one.
fn after_quote(bytes: &[u8]) -> Option<&[u8]>
    ensures none { IfNone result (next_is is_quote bytes.now ≡ false) }
    ensures some { IfSome result (λ after. bytes.now ≡ 39 ∷ after.now) }
{
    match bytes.split_first() {
        Some((first, after)) if is_quote(*first) => Some(after),
        _ => None,
    }
}

/// The characters behind the first quote of a text, each doubled quote as one.
fn text_bytes(alloc: Global, after: &[u8]) -> Result<Option<Copied>, AllocError>
    ensures value { IfOk result (λ c. c ≡ text_from after.now) }
    ensures left { IfOk result (λ c. IfSome c (λ c. c.left ≤ length after.now)) }
{
    let mut items = Vec::new(alloc);
    let mut rest = after;
    'characters: while let Some((first, behind)) = rest.split_first() {
        if !is_quote(*first) {
            items.push(*first)?;
            rest = behind;
            continue;
        }
        let Some(behind_both) = after_quote(behind) else {
            return Ok(Some(Copied {
                bytes: Bytes::from_vec(items),
                left: behind.len(),
            }));
        };
        items.push(*first)?;
        rest = behind_both;
    }
    Ok(None)
}

/// The value of a hexadecimal digit, in either case.
fn hex_digit(byte: u8) -> Option<u8>
    ensures value { result ≡ hex_digit byte }
    ensures bound { IfSome result (λ d. d < 16) }
{
    match byte {
        b'0'..=b'9' => Some(byte - b'0'),
        b'a'..=b'f' => Some(byte - b'a' + 10),
        b'A'..=b'F' => Some(byte - b'A' + 10),
        _ => None,
    }
}

/// The byte of two hexadecimal digits, the higher one first.
fn hex_byte(high: u8, low: u8) -> Option<u8>
    ensures { result ≡ hex_byte high low }
{
    let high = hex_digit(high)?;
    let low = hex_digit(low)?;
    Some(16 * high + low)
}

/// The bytes that the digits behind the first quote of a blob spell.
fn blob_bytes(alloc: Global, after: &[u8]) -> Result<Option<Copied>, AllocError>
    ensures value { IfOk result (λ c. c ≡ blob_from after.now) }
    ensures left { IfOk result (λ c. IfSome c (λ c. c.left ≤ length after.now)) }
{
    let mut items = Vec::new(alloc);
    let mut rest = after;
    'digits: while let Some((high, behind)) = rest.split_first() {
        if is_quote(*high) {
            return Ok(Some(Copied {
                bytes: Bytes::from_vec(items),
                left: behind.len(),
            }));
        }
        let Some((low, further)) = behind.split_first() else {
            return Ok(None);
        };
        let Some(byte) = hex_byte(*high, *low) else {
            return Ok(None);
        };
        items.push(byte)?;
        rest = further;
    }
    Ok(None)
}

/// The text behind its opening quote, if it is closed.
pub(crate) fn text(alloc: Global, after: &[u8]) -> Result<Option<Found>, AllocError>
    ensures { IfOk result (λ f. f ≡ text_found after.now) }
{
    match text_bytes(alloc, after)? {
        Some(copied) => Ok(Some(Found {
            size: after.len() - copied.left + 1,
            token: Token::Text(copied.bytes),
        })),
        None => Ok(None),
    }
}

/// The blob behind its letter and opening quote, if it is well formed and closed.
pub(crate) fn blob(alloc: Global, after: &[u8]) -> Result<Option<Found>, AllocError>
    ensures { IfOk result (λ f. f ≡ blob_found after.now) }
{
    match blob_bytes(alloc, after)? {
        Some(copied) => Ok(Some(Found {
            size: after.len() - copied.left + 2,
            token: Token::Blob(copied.bytes),
        })),
        None => Ok(None),
    }
}
