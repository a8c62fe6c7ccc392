ghost use Rattle.std.specs.Prelude.{◌≡◌, ◌≤◌, ◌∷◌, [], Some, IfSome};
ghost use Rattle.byte_words.specs.Answers.{Finds};
ghost use Rattle.byte_words.specs.Names.{is_name_byte, begins_lower};
ghost use Rattle.report_read.specs.Reading.{before, behind_word, number_within, number_at, name_of, name_at, number_then_at, name_then_at, numbered_at, counted_at, pair_at, numbered_line_at};

use byte_words::{Digit, Kind, is_lower_case, numeral_value, split_while};

/// Bytes of names: lower-case letters, digits and the underscore.
pub struct NameByte;

impl Kind for NameByte {
    ghost test = { is_name_byte };

    fn is(byte: u8) -> bool {
        is_lower_case(byte) || Digit::is(byte) || byte == b'_'
    }
}

/// What stands behind that word; `None` where the bytes do not begin with it.
#[tactic(auto, unfolding(crate::specs::Reading::behind_word))]
pub fn take_word<'a>(word: &[u8], bytes: &'a [u8]) -> Option<&'a [u8]>
    ensures { Finds (λ x. x.now) result (behind_word word.now bytes.now) }
{
    let mut wanted = word;
    let mut rest = bytes;
    'word: while let Some((first, others)) = wanted.split_first() {
        let (byte, after) = rest.split_first()?;
        if *first != *byte {
            return None;
        }
        wanted = others;
        rest = after;
    }
    Some(rest)
}

/// A number of at most that size, and what stands behind it.
#[tactic(auto, unfolding(crate::specs::Reading::number_within))]
pub fn take_number_within(most: u64, bytes: &[u8]) -> Option<(u64, &[u8])>
    ensures value { Finds (λ x. (x.0, x.1.now)) result (number_within most bytes.now) }
    ensures within { IfSome result (λ x. x.0 ≤ most) }
{
    let (digits, after) = split_while::<Digit>(bytes);
    let value = numeral_value(most, digits)?;
    Some((value, after))
}

/// A number of 64 bits, and what stands behind it.
#[tactic(auto, unfolding(crate::specs::Reading::number_at))]
pub fn take_number(bytes: &[u8]) -> Option<(u64, &[u8])>
    ensures { Finds (λ x. (x.0, x.1.now)) result (number_at bytes.now) }
{
    take_number_within(u64::MAX, bytes)
}

/// The bytes of a word as a name: 1 to 32, no digit at the front.
fn as_name(word: &[u8]) -> Option<&[u8]>
    ensures { Finds (λ x. x.now) result (name_of word.now) }
{
    if is_begun_as_name(word) && word.len() <= 32 {
        Some(word)
    } else {
        None
    }
}

/// Whether a letter or the underscore comes first.
fn is_begun_as_name(word: &[u8]) -> bool
    ensures { result ≡ begins_lower word.now }
{
    match word.split_first() {
        None => false,
        Some((first, _)) => is_lower_case(*first) || *first == b'_',
    }
}

/// A name, and what stands behind it.
#[tactic(auto, unfolding(crate::specs::Reading::name_at))]
pub fn take_name(bytes: &[u8]) -> Option<(&[u8], &[u8])>
    ensures { Finds (λ x. (x.0.now, x.1.now)) result (name_at bytes.now) }
{
    let (word, after) = split_while::<NameByte>(bytes);
    let name = as_name(word)?;
    Some((name, after))
}

/// A number before a space, and what stands behind the space.
#[tactic(auto, unfolding(crate::specs::Reading::number_then_at))]
pub fn take_number_then(bytes: &[u8]) -> Option<(u64, &[u8])>
    ensures { Finds (λ x. (x.0, x.1.now)) result (number_then_at bytes.now) }
{
    let (number, rest) = take_number(bytes)?;
    let rest = take_word(b" ", rest)?;
    Some((number, rest))
}

/// A name before a space, and what stands behind the space.
#[tactic(auto, unfolding(crate::specs::Reading::name_then_at))]
pub fn take_name_then(bytes: &[u8]) -> Option<(&[u8], &[u8])>
    ensures { Finds (λ x. (x.0.now, x.1.now)) result (name_then_at bytes.now) }
{
    let (name, rest) = take_name(bytes)?;
    let rest = take_word(b" ", rest)?;
    Some((name, rest))
}

/// A number behind that word, and what stands behind it.
#[tactic(auto, unfolding(crate::specs::Reading::numbered_at))]
pub fn take_numbered<'a>(word: &[u8], bytes: &'a [u8]) -> Option<(u64, &'a [u8])>
    ensures { Finds (λ x. (x.0, x.1.now)) result (numbered_at word.now bytes.now) }
{
    let rest = take_word(word, bytes)?;
    take_number(rest)
}

/// A number behind that word and before a space, and what stands behind the space.
#[tactic(auto, unfolding(crate::specs::Reading::counted_at))]
pub fn take_counted<'a>(word: &[u8], bytes: &'a [u8]) -> Option<(u64, &'a [u8])>
    ensures { Finds (λ x. (x.0, x.1.now)) result (counted_at word.now bytes.now) }
{
    let rest = take_word(word, bytes)?;
    take_number_then(rest)
}

/// Two numbers behind that word, and what stands behind them.
#[tactic(auto, unfolding(crate::specs::Reading::pair_at))]
pub fn take_pair<'a>(word: &[u8], bytes: &'a [u8]) -> Option<((u64, u64), &'a [u8])>
    ensures { Finds (λ x. (x.0, x.1.now)) result (pair_at word.now bytes.now) }
{
    let (first, rest) = take_counted(word, bytes)?;
    let (second, rest) = take_number(rest)?;
    Some(((first, second), rest))
}

/// A value that was read before the end of its line, and what stands behind that end.
pub fn ended<T: Drop>(value: T, rest: &[u8]) -> Option<(T, &[u8])>
    ensures { Finds (λ x. (x.0, x.1.now)) result (before (λ bytes. Some (value, bytes)) (10 ∷ []) rest.now) }
{
    let rest = take_word(b"\n", rest)?;
    Some((value, rest))
}

/// The number of a line that is that word and the number, and what stands behind the line.
#[tactic(auto, unfolding(crate::specs::Reading::numbered_line_at))]
pub fn take_numbered_line<'a>(word: &[u8], bytes: &'a [u8]) -> Option<(u64, &'a [u8])>
    ensures { Finds (λ x. (x.0, x.1.now)) result (numbered_line_at word.now bytes.now) }
{
    let (number, rest) = take_numbered(word, bytes)?;
    ended(number, rest)
}
