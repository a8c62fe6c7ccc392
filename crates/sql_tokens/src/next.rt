//! The token at the front of some bytes.
ghost use Rattle.std.specs.Prelude.{◌≡◌, ◌<◌, ◌≤◌, IfOk, IfSome, IfNone, length, Bool, true, false, List, [], ◌∷◌};
ghost use Rattle.sql_tokens.specs.Letters.{is_blank, begins_blob};
ghost use Rattle.sql_tokens.specs.Reading.{next, IsBlobStart};

use crate::found::Found;
use crate::signs::sign;
use crate::values::{blob, number, text};
use crate::words::{is_word_start, word};
use std::alloc::{AllocError, Global};

/// Whether a byte is a blank: a space or a tab.
pub(crate) fn is_blank(byte: u8) -> bool
    ensures { result ≡ is_blank byte }
{
    byte == b' ' || byte == b'\t'
}

/// What stands behind an `x` and a quote, if the bytes begin so.
fn after_blob_start(bytes: &[u8]) -> Option<&[u8]>
    ensures none { IfNone result (begins_blob bytes.now ≡ false) }
    ensures some { IfSome result (λ after. IsBlobStart bytes.now after.now) }
{
    let (first, behind) = bytes.split_first()?;
    let (second, after) = behind.split_first()?;
    if (*first == b'x' || *first == b'X') && *second == b'\'' {
        Some(after)
    } else {
        None
    }
}

/// The token at the front, if one begins there. A blob's `x` comes before words, which it would begin too.
#[tactic(auto, unfolding(crate::specs::Reading::next))]
pub(crate) fn next(alloc: Global, bytes: &[u8]) -> Result<Option<Found>, AllocError>
    ensures { IfOk result (λ f. f ≡ next bytes.now) }
{
    if let Some(after) = after_blob_start(bytes) {
        return blob(alloc, after);
    }
    let Some((first, after)) = bytes.split_first() else {
        return Ok(None);
    };
    if is_word_start(*first) {
        Ok(Some(word(alloc, bytes)?))
    } else if first.is_ascii_digit() {
        Ok(number(bytes))
    } else if *first == b'\'' {
        text(alloc, after)
    } else {
        Ok(sign(bytes))
    }
}
