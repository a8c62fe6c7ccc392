//! The tokens that are still to be read: steps over one of them, and why a reader stops.
ghost use Rattle.std.specs.Prelude.{◌≡◌, ℕ, Ok, Err, MatchResult};
ghost use Rattle.grammar_forms.specs.Forms.{next_is, as_of};
ghost use Rattle.grammar_forms.specs.Parts.{word};
ghost use Rattle.sql_grammar.specs.Words.{keyword, sign_is};
ghost use Rattle.sql_grammar.specs.Readers.{name_r, is_name};
ghost use Rattle.sql_grammar.specs.Views.{name_in};
ghost use Rattle.sql_reader.specs.Gives.{Gives};
ghost use Rattle.sql_reader.specs.declared.cursor.ReadError.TheVariants.{Memory};

use byte_lists::Name;
use sql_tokens::{Keyword, Sign, Token};
use std::alloc::{AllocError, AllocFailed, Global};

/// Why a rule was not read to its end.
#[derive(Drop)]
pub(crate) enum ReadError<'a> {
    /// Memory ran out.
    Memory,
    /// The first of these tokens cannot stand here, or one is missing behind the last token.
    Refused(&'a [Token]),
}

impl From<AllocError> for ReadError<'_> {
    ghost from_gives = { λ _ e. e ≡ Memory };

    fn from(_e: AllocError) -> Self {
        ReadError::Memory
    }
}

impl<T: Drop> From<AllocFailed<T>> for ReadError<'_> {
    ghost from_gives = { λ _ e. e ≡ Memory };

    fn from(_e: AllocFailed<T>) -> Self {
        ReadError::Memory
    }
}

/// What was read, beside a value from before it. The value is let go here where nothing was read, so that the steps of
/// its destructor are no part of the reader that holds it.
pub(crate) fn beside<T: Drop, U>(
    value: T,
    read: Result<U, ReadError<'_>>,
) -> Result<(T, U), ReadError<'_>>
    ensures { MatchResult result (λ x. (x.0 ≡ value) × (read.entry ≡ Ok x.1)) (λ e. read.entry ≡ Err e) }
{
    match read {
        Ok(found) => Ok((value, found)),
        Err(stop) => Err(stop),
    }
}

/// Whether the token is this reserved word.
pub(crate) fn is_keyword(token: &Token, expected: Keyword) -> bool
    ensures { result ≡ keyword expected token.now }
{
    match token {
        Token::Keyword(found) => *found == expected,
        _ => false,
    }
}

/// Whether the token is this sign.
pub(crate) fn is_same_sign(token: &Token, expected: Sign) -> bool
    ensures { result ≡ sign_is expected token.now }
{
    match token {
        Token::Sign(found) => *found == expected,
        _ => false,
    }
}

/// Whether the next token is this reserved word.
pub(crate) fn is_next(tokens: &[Token], expected: Keyword) -> bool
    ensures { result ≡ next_is (keyword expected) tokens.now }
{
    match tokens.first() {
        Some(token) => is_keyword(token, expected),
        None => false,
    }
}

/// Whether the next token is this sign.
pub(crate) fn is_sign(tokens: &[Token], expected: Sign) -> bool
    ensures { result ≡ next_is (sign_is expected) tokens.now }
{
    match tokens.first() {
        Some(token) => is_same_sign(token, expected),
        None => false,
    }
}

/// The tokens behind this reserved word.
pub(crate) fn expect(tokens: &[Token], expected: Keyword) -> Result<&[Token], ReadError<'_>>
    ensures { Gives (λ _. tt) (λ x. x.now) result (word (keyword expected) tokens.now) }
{
    match tokens.split_first() {
        Some((token, rest)) if is_keyword(token, expected) => Ok(rest),
        _ => Err(ReadError::Refused(tokens)),
    }
}

/// The tokens behind this sign.
pub(crate) fn expect_sign(tokens: &[Token], expected: Sign) -> Result<&[Token], ReadError<'_>>
    ensures { Gives (λ _. tt) (λ x. x.now) result (word (sign_is expected) tokens.now) }
{
    match tokens.split_first() {
        Some((token, rest)) if is_same_sign(token, expected) => Ok(rest),
        _ => Err(ReadError::Refused(tokens)),
    }
}

/// What this reserved word stands for, and the tokens behind it.
pub(crate) fn word_as<T: Drop>(
    tokens: &[Token],
    expected: Keyword,
    meaning: T,
) -> Result<(T, &[Token]), ReadError<'_>>
    ensures { Gives (λ x. x.0) (λ x. x.1.now) result (as_of (λ _. meaning) (word (keyword expected)) tokens.now) }
{
    let rest = expect(tokens, expected)?;
    Ok((meaning, rest))
}

/// What this sign stands for, and the tokens behind it.
pub(crate) fn sign_as<T: Drop>(
    tokens: &[Token],
    expected: Sign,
    meaning: T,
) -> Result<(T, &[Token]), ReadError<'_>>
    ensures { Gives (λ x. x.0) (λ x. x.1.now) result (as_of (λ _. meaning) (word (sign_is expected)) tokens.now) }
{
    let rest = expect_sign(tokens, expected)?;
    Ok((meaning, rest))
}

/// A name, copied.
#[tactic(auto, unfolding(sql_grammar::specs::Readers::name_r))]
pub(crate) fn name(alloc: Global, tokens: &[Token]) -> Result<(Name, &[Token]), ReadError<'_>>
    ensures { Gives (λ x. name_in x.0) (λ x. x.1.now) result (name_r tokens.now) }
{
    match tokens.split_first() {
        Some((Token::Name(bytes), rest)) if bytes.len() <= 32 => Ok((
            Name::copied(alloc, bytes.as_bytes())?,
            rest,
        )),
        _ => Err(ReadError::Refused(tokens)),
    }
}

/// Whether a name stands here.
pub(crate) fn is_name_next(tokens: &[Token]) -> bool
    ensures { result ≡ next_is is_name tokens.now }
{
    match tokens.first() {
        Some(token) => is_short_name(token),
        None => false,
    }
}

/// Whether the token is a name, of at most 32 bytes.
#[tactic(auto, unfolding(sql_grammar::specs::Readers::is_name))]
fn is_short_name(token: &Token) -> bool
    ensures { result ≡ is_name token.now }
{
    match token {
        Token::Name(bytes) => bytes.len() <= 32,
        _ => false,
    }
}
