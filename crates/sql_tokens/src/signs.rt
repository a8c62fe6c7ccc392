//! Signs, of one byte or two.
ghost use Rattle.std.specs.Prelude.{◌≡◌};
ghost use Rattle.sql_tokens.specs.Reading.{found, long_sign, short_sign, sign_found};

use crate::found::Found;
use crate::kinds::{Sign, Token};

/// The sign of two bytes.
fn long_sign(first: u8, second: u8) -> Option<Sign>
    ensures { result ≡ long_sign first second }
{
    match (first, second) {
        (b'<', b'=') => Some(Sign::LessEqual),
        (b'<', b'>') => Some(Sign::NotEqual),
        (b'>', b'=') => Some(Sign::GreaterEqual),
        (b'!', b'=') => Some(Sign::NotEqual),
        _ => None,
    }
}

/// The sign of one byte.
fn short_sign(byte: u8) -> Option<Sign>
    ensures { result ≡ short_sign byte }
{
    match byte {
        b'(' => Some(Sign::Open),
        b')' => Some(Sign::Close),
        b',' => Some(Sign::Comma),
        b'.' => Some(Sign::Dot),
        b';' => Some(Sign::Semicolon),
        b'*' => Some(Sign::Star),
        b'=' => Some(Sign::Equal),
        b'<' => Some(Sign::Less),
        b'>' => Some(Sign::Greater),
        b'+' => Some(Sign::Plus),
        b'-' => Some(Sign::Minus),
        _ => None,
    }
}

/// A sign as a token of so many bytes.
fn sign_token(sign: Sign, size: usize) -> Found
    ensures { result ≡ found (Token.Sign sign) size }
{
    Found {
        token: Token::Sign(sign),
        size,
    }
}

/// The longest sign at the front.
#[tactic(auto, unfolding(crate::specs::Reading::sign_found))]
pub(crate) fn sign(bytes: &[u8]) -> Option<Found>
    ensures { result ≡ sign_found bytes.now }
{
    let Some((first, after)) = bytes.split_first() else {
        return None;
    };
    let long = match after.split_first() {
        Some((second, _)) => long_sign(*first, *second),
        None => None,
    };
    match (long, short_sign(*first)) {
        (Some(sign), _) => Some(sign_token(sign, 2)),
        (None, Some(sign)) => Some(sign_token(sign, 1)),
        (None, None) => None,
    }
}
