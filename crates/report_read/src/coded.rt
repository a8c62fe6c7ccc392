ghost use Rattle.std.specs.Prelude.{◌≡◌, ◌≢◌, ◌∷◌, ◌≤◌, ◌<◌, ℕ, List, Option, IfSome};
ghost use Rattle.byte_words.specs.Answers.{Finds, Gives};
ghost use Rattle.report_read.specs.Reading.{Read, Steps, quoted_at, hexadecimal_at, digit_value, byte_of};

use std::alloc::{AllocError, Global};

/// What stands at the front of bytes that are written in quotes, behind the first quote.
pub enum Piece<'a> {
    /// One byte, and what is behind it.
    Byte(u8, &'a [u8]),
    /// The closing quote, and what is behind it.
    End(&'a [u8]),
    /// Neither of them.
    Dead,
}

/// A way to write bytes in quotes.
pub trait Coded {
    ghost use Rattle.std.specs.Prelude as std;

    ghost reading: { std.List ℕ → Read (std.List ℕ) };

    /// The piece at the front of bytes.
    fn piece_of(bytes: &[u8]) -> Piece<'_>
        ensures { Steps Self.reading result bytes.now };
}

/// A text: each quote of it stands twice.
pub struct Quoted;

impl Coded for Quoted {
    ghost reading = { quoted_at };

    #[tactic(auto, using(crate::proofs::CodedLemmas::quoted_byte), unfolding(crate::specs::Reading::quoted_at))]
    fn piece_of(bytes: &[u8]) -> Piece<'_> {
        match bytes.split_first() {
            None => Piece::Dead,
            Some((b'\'', after)) => behind_quote(after),
            Some((byte, after)) => Piece::Byte(*byte, after),
        }
    }
}

/// The piece at the front of a quote and these bytes of a text.
#[tactic(auto, unfolding(crate::specs::Reading::quoted_at))]
fn behind_quote(after: &[u8]) -> Piece<'_>
    ensures { Steps quoted_at result (39 ∷ after.now) }
{
    match after.split_first() {
        None => Piece::End(after),
        Some((b'\'', more)) => Piece::Byte(b'\'', more),
        Some(_) => Piece::End(after),
    }
}

/// A blob: two lower-case digits of sixteen for each byte.
pub struct Hexadecimal;

impl Coded for Hexadecimal {
    ghost reading = { hexadecimal_at };

    #[tactic(auto, using(crate::proofs::CodedLemmas::hexadecimal_end), unfolding(crate::specs::Reading::hexadecimal_at))]
    fn piece_of(bytes: &[u8]) -> Piece<'_> {
        match bytes.split_first() {
            None => Piece::Dead,
            Some((b'\'', after)) => Piece::End(after),
            Some((high, after)) => behind_digit(*high, after),
        }
    }
}

/// The piece at the front of that byte, which is no quote, and these bytes of a blob.
#[tactic(auto, using(crate::proofs::CodedLemmas::hexadecimal_digits, crate::proofs::CodedLemmas::hexadecimal_dead, crate::proofs::CodedLemmas::hexadecimal_odd))]
fn behind_digit(high: u8, after: &[u8]) -> Piece<'_>
    requires { high ≢ 39 }
    ensures { Steps hexadecimal_at result (high ∷ after.now) }
{
    match after.split_first() {
        None => Piece::Dead,
        Some((low, more)) => match byte_from(high, *low) {
            None => Piece::Dead,
            Some(byte) => Piece::Byte(byte, more),
        },
    }
}

/// The value of a digit of sixteen in lower case.
fn value_of_digit(digit: u8) -> Option<u8>
    ensures value { Finds (λ x. x) result (digit_value digit) }
    ensures small { IfSome result (λ x. x < 16) }
{
    if b'0' <= digit && digit <= b'9' {
        Some(digit - b'0')
    } else if b'a' <= digit && digit <= b'f' {
        Some(digit - 87)
    } else {
        None
    }
}

/// The byte of two digits of sixteen.
fn byte_from(high: u8, low: u8) -> Option<u8>
    ensures { Finds (λ x. x) result (byte_of high low) }
{
    let high = value_of_digit(high)?;
    let low = value_of_digit(low)?;
    Some(16 * high + low)
}

/// The bytes that are written behind a first quote, and what stands behind the last one; `None` where
/// they are not written so. The error is want of memory.
pub fn read_coded<C: Coded>(
    alloc: Global,
    bytes: &[u8],
) -> Result<Option<(Vec<u8>, &[u8])>, AllocError>
    ensures { Gives (λ x. (x.0.items, x.1.now)) result (C.reading bytes.now) }
{
    let mut found = Vec::new(alloc);
    let mut rest = bytes;
    'pieces: loop {
        match C::piece_of(rest) {
            Piece::Byte(byte, after) => {
                found.push(byte)?;
                rest = after;
            }
            Piece::End(after) => return Ok(Some((found, after))),
            Piece::Dead => return Ok(None),
        }
    }
}
