//! The tokens of SQL: how a text is cut into words, numbers, texts, blobs and signs, each with the place where it begins.
//!
//! | Token | Spelled by | Stands for |
//! |---|---|---|
//! | word | a letter or `_`, then letters, digits and `_` | its bytes, letters folded to lower case |
//! | `Keyword` | a word that spells a reserved word | that word |
//! | `Name` | any other word | the folded bytes, of any number |
//! | `Number` | decimal digits, leading zeros allowed | their value, at most 9223372036854775808 |
//! | `Text` | `'`, the characters with each `'` twice, `'` | the characters |
//! | `Blob` | `x'` or `X'`, two hexadecimal digits for each byte, `'` | the bytes |
//! | `Sign` | `( ) , . ; * = <> != < <= > >= + -` | the sign; `<>` and `!=` are one |
//! | `Unknown` | nothing | here no token begins |
//!
//! Letters and digits are those of ASCII. Blanks are space and tab; they stand between tokens and belong to none.
//!
//! Where a token ends is its own rule, and nothing else ends one. A word and a number take all the bytes that can go on
//! with them, so `1and` is a number and a word. A text ends at a quote with no quote behind it. Of two signs that begin
//! alike the longer is taken. An `x` directly before a quote is no word: it begins a blob.
//!
//! Where bytes are left and no token begins, the last token is `Unknown`: at the first digit of a number that is too
//! large, at the first quote of a text that is not closed, at the `x` of a blob that is not closed or has an odd or a
//! wrong digit, at a `!` alone, at a byte above 127, at a line's end. Its place is the first byte with no token.
//!
//! A worked example, the text `a<=X'0f' 'it''s' !` with the offset of each of its bytes:
//!
//! ```text
//! a  <  =  X  '  0  f  '     '  i  t  '  '  s  '     !
//! 0  1  2  3  4  5  6  7  8  9 10 11 12 13 14 15 16 17
//!
//! 0 Name(a)   1 Sign(LessEqual)   3 Blob(15)   9 Text(it's)   17 Unknown
//! ```
//!
//! Of each list of tokens: the places rise and are below the text's length, there is one place for each token, only the
//! last token may be `Unknown`, a name has at least one byte, and a number is at most 9223372036854775808. A text has
//! exactly one such list.
#![tactic(auto)]

ghost use Rattle.std.specs.Prelude.{◌≡◌, ◌+◌, ◌-◌, ◌<◌, ◌≤◌, ◌^◌, ℕ, List, IfOk, length, drop};
ghost use Rattle.sql_tokens.specs.Spot.{Spot};
ghost use Rattle.sql_tokens.specs.Tokens.{Tokens};
ghost use Rattle.sql_tokens.specs.Laws.{ArePlacesIn, IsUnknownOnlyLast, AreInBounds};

mod found;
mod kinds;
mod next;
mod placed;
mod signs;
mod values;
mod words;

pub use byte_lists::Bytes;
pub use kinds::{Keyword, Sign, Token};
use next::{is_blank, next};
pub use placed::Spots;
use std::alloc::{AllocError, Global};

/// What stands behind a token of that size.
fn behind_token(bytes: &[u8], size: usize) -> &[u8]
    requires { size ≤ length bytes.now }
    ensures { result.now ≡ drop size bytes.now }
{
    bytes.split_at(size).1
}

/// The tokens of a text, each with its offset in bytes. The time is in proportion to the text. Fails only where memory
/// runs out.
pub fn tokens(alloc: Global, text: &str) -> Result<Spots, AllocError>
    requires { length text.now < 2 ^ 32 }
    ensures { IfOk result (λ s. Tokens 0 text.now s) }
{
    let bytes = text.as_bytes();
    let mut spots = Spots::new(alloc);
    let mut rest = bytes;
    'tokens: while let Some((first, behind)) = rest.split_first() {
        if is_blank(*first) {
            rest = behind;
            continue;
        }
        let place = (bytes.len() - rest.len()) as u32;
        let Some(found) = next(alloc, rest)? else {
            spots.push(Token::Unknown, place)?;
            return Ok(spots);
        };
        spots.push(found.token, place)?;
        rest = behind_token(rest, found.size);
    }
    Ok(spots)
}

/// Every text has a list of tokens.
pub fn every_text_has_tokens()
    ensures { (at : ℕ) (text : List ℕ) → (ss : List Spot) × Tokens at text ss }
{}

/// A text has one list of tokens only.
pub fn a_text_has_one_list()
    ensures { (at : ℕ) (text : List ℕ) (ss us : List Spot) → Tokens at text ss → Tokens at text us → ss ≡ us }
{}

/// The places rise, and each is below the text's length.
pub fn places_rise()
    ensures { (at : ℕ) (text : List ℕ) (ss : List Spot) → Tokens at text ss → ArePlacesIn at (at + length text) ss }
{}

/// Only the last token may be `Unknown`.
pub fn only_the_last_is_unknown()
    ensures { (at : ℕ) (text : List ℕ) (ss : List Spot) → Tokens at text ss → IsUnknownOnlyLast ss }
{}

/// A name has a byte, and a number is at most 9223372036854775808.
pub fn names_and_numbers_are_in_bounds()
    ensures { (at : ℕ) (text : List ℕ) (ss : List Spot) → Tokens at text ss → AreInBounds ss }
{}
