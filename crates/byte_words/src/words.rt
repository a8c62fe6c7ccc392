ghost use Rattle.std.specs.Prelude.{◌≡◌, ◌≤◌, IfSome, not};
ghost use Rattle.std.specs.List.{list_any};
ghost use Rattle.byte_words.specs.Answers.{Finds};
ghost use Rattle.byte_words.specs.Words.{piece, after_piece, after_sign, is_end, is_name, fits_name, is_within, is_begun, is_upper, value_of, value_from, at_most, number_at, number_within, number_of_piece, numeral_of, is_numeral};

use super::bytes::{
    Digit, PieceByte, WordByte, is_lower_case, is_of_kind, is_upper_case, skip_blanks, split_while,
};

/// The piece that comes next, which is empty only where nothing but blanks is left, and what stands
/// behind it.
pub fn next_piece(bytes: &[u8]) -> (&[u8], &[u8])
    ensures before { result.0.now ≡ piece bytes.now }
    ensures after { result.1.now ≡ after_piece bytes.now }
{
    split_while::<PieceByte>(skip_blanks(bytes))
}

/// What stands behind that byte; `None` where another one comes first.
pub fn take_byte(sign: u8, bytes: &[u8]) -> Option<&[u8]>
    ensures { Finds (λ x. x.now) result (after_sign sign bytes.now) }
{
    match bytes.split_first() {
        None => None,
        Some((first, after)) => { if *first == sign { Some(after) } else { None } }
    }
}

/// Whether nothing but blanks is left.
pub fn is_at_end(bytes: &[u8]) -> bool
    ensures { result ≡ is_end bytes.now }
{
    skip_blanks(bytes).is_empty()
}

/// Whether a word is a name: it fits the rule of names, and keeps within their limits.
pub fn is_name_word(found: &[u8]) -> bool
    ensures { result ≡ is_name found.now }
{
    fits_name_rule(found) && !has_upper_case(found) && found.len() <= 32
}

/// Whether a word fits the rule of names: a letter or an underscore, and letters, digits and
/// underscores behind it.
pub fn fits_name_rule(found: &[u8]) -> bool
    ensures { result ≡ fits_name found.now }
{
    begins_as_name(found) && is_of_kind::<WordByte>(found)
}

/// Whether the first byte is one with which a name may begin.
fn begins_as_name(found: &[u8]) -> bool
    ensures { result ≡ is_begun found.now }
{
    match found.split_first() {
        None => false,
        Some((first, _)) => is_lower_case(*first) || is_upper_case(*first) || *first == b'_',
    }
}

/// Whether one of the bytes is an upper-case letter.
fn has_upper_case(found: &[u8]) -> bool
    ensures { result ≡ list_any is_upper found.now }
{
    found.iter().any(|byte| is_upper_case(*byte))
}

/// The value of these digits; `None` where there is none, or it is above `most`.
fn digits_value(most: u64, digits: &[u8]) -> Option<u64>
    ensures value { Finds (λ x. x) result (value_of most digits.now) }
    ensures within { IfSome result (λ x. x ≤ most) }
{
    if digits.is_empty() {
        None
    } else {
        value_at_most(most, digits)
    }
}

/// The value of these digits; `None` where it is above `most`.
#[tactic(auto, using(crate::proofs::NumberLemmas::value_grows))]
fn value_at_most(most: u64, digits: &[u8]) -> Option<u64>
    ensures value { Finds (λ x. x) result (at_most most (value_from 0 digits.now)) }
    ensures within { IfSome result (λ x. x ≤ most) }
{
    let mut value = 0u128;
    let mut rest = digits;
    'digits: while let Some((digit, after)) = rest.split_first() {
        value = value * 10 + digit.saturating_sub(b'0') as u128;
        if value > most as u128 {
            return None;
        }
        rest = after;
    }
    Some(value as u64)
}

/// A number of at most that size without blanks in front, and what stands behind it.
fn take_digits(most: u64, bytes: &[u8]) -> Option<(u64, &[u8])>
    ensures value { Finds (λ x. (x.0, x.1.now)) result (number_within most bytes.now) }
    ensures within { IfSome result (λ x. x.0 ≤ most) }
{
    let (digits, after) = split_while::<Digit>(bytes);
    let value = digits_value(most, digits)?;
    Some((value, after))
}

/// A number of at most that size, and what stands behind it.
pub fn take_number(most: u64, bytes: &[u8]) -> Option<(u64, &[u8])>
    ensures value { Finds (λ x. (x.0, x.1.now)) result (number_at most bytes.now) }
    ensures within { IfSome result (λ x. x.0 ≤ most) }
{
    take_digits(most, skip_blanks(bytes))
}

/// The number that a piece is: digits of a value below 2^64, without a zero in front of others.
pub fn piece_number(found: &[u8]) -> Option<u64>
    ensures { Finds (λ n. n) result (number_of_piece found.now) }
{
    if is_of_kind::<Digit>(found) {
        numeral_value(u64::MAX, found)
    } else {
        None
    }
}

/// The number that these digits spell; `None` where there is none, a zero stands in front of others, or the number is
/// above `most`.
pub fn numeral_value(most: u64, digits: &[u8]) -> Option<u64>
    ensures value { Finds (λ x. x) result (numeral_of most digits.now) }
    ensures within { IfSome result (λ x. x ≤ most) }
{
    if is_number_text(digits) {
        value_at_most(most, digits)
    } else {
        None
    }
}

/// Whether digits are a number's: one or more, and no 0 before others.
fn is_number_text(digits: &[u8]) -> bool
    ensures { result ≡ is_numeral digits.now }
{
    match digits.split_first() {
        None => false,
        Some((first, others)) => *first != b'0' || others.is_empty(),
    }
}
