//! Lists of parts: with a comma between every two, and one behind the other.
ghost use Rattle.std.specs.Prelude.{◌≡◌, ℕ, List, Bool, false, true, map};
ghost use Rattle.grammar_forms.specs.Forms.{Spelling, Reader, many, next_is};
ghost use Rattle.grammar_forms.specs.Kinds.{has, apart};
ghost use Rattle.grammar_forms.specs.Laws.{Exact};
ghost use Rattle.sql_tokens.specs.declared.kinds.Token.{Token};
ghost use Rattle.sql_grammar.specs.Words.{kind};
ghost use Rattle.sql_grammar.specs.Readers.{listed, enclosed};
ghost use Rattle.sql_reader.specs.Gives.{Gives};

use crate::cursor::{ReadError, expect_sign, is_sign};
use sql_grammar::Seq;
use sql_tokens::{Sign, Token};
use std::alloc::Global;

/// A rule of the grammar whose parts stand in lists.
pub(crate) trait Rule {
    type Item: Drop;

    ghost Tree: { Type 0 };

    ghost value: { Self.Item → Tree };

    ghost spells: { Spelling Token Tree };

    ghost reads: { Reader Token Tree };

    ghost begins: { List ℕ };

    ghost goes_on: { List ℕ };

    /// Reads what stands at the front of the tokens.
    fn read(alloc: Global, tokens: &[Token]) -> Result<(Self::Item, &[Token]), ReadError<'_>>
        ensures { Gives (λ x. value x.0) (λ x. x.1.now) result (reads tokens.now) };

    ghost exact: { Exact kind spells reads false begins goes_on };
}

/// A rule whose parts are told by their first token, so that they may stand one behind the other.
pub(crate) trait Told: Rule {
    ghost test: { Token → Bool };

    /// Whether a part begins here.
    fn is_told(tokens: &[Token]) -> bool
        ensures { result ≡ next_is test tokens.now };
}

/// One part or more, with a comma between every two.
pub(crate) fn comma_list<R: Rule>(
    alloc: Global,
    tokens: &[Token],
) -> Result<(Seq<R::Item>, &[Token]), ReadError<'_>>
    ensures { Gives (λ x. map R.value x.0.items.items) (λ x. x.1.now) result (listed R.reads tokens.now) }
{
    let (first, after) = R::read(alloc, tokens)?;
    let mut items = Vec::new(alloc);
    items.push(first)?;
    let mut rest = after;
    'parts: while is_sign(rest, Sign::Comma) {
        let (item, behind) = R::read(alloc, expect_sign(rest, Sign::Comma)?)?;
        items.push(item)?;
        rest = behind;
    }
    Ok((Seq::from_vec(items), rest))
}

/// As many parts as stand one behind the other.
pub(crate) fn series<R: Told>(
    alloc: Global,
    tokens: &[Token],
) -> Result<(Seq<R::Item>, &[Token]), ReadError<'_>>
    ensures { Gives (λ x. map R.value x.0.items.items) (λ x. x.1.now) result (many R.test R.reads tokens.now) }
{
    let mut items = Vec::new(alloc);
    let mut rest = tokens;
    'parts: while R::is_told(rest) {
        let (item, behind) = R::read(alloc, rest)?;
        items.push(item)?;
        rest = behind;
    }
    Ok((Seq::from_vec(items), rest))
}

/// One part or more in parentheses, with a comma between every two.
pub(crate) fn in_parentheses<R: Rule>(
    alloc: Global,
    tokens: &[Token],
) -> Result<(Seq<R::Item>, &[Token]), ReadError<'_>>
    ensures { Gives (λ x. map R.value x.0.items.items) (λ x. x.1.now) result (enclosed (listed R.reads) tokens.now) }
{
    let (items, rest) = comma_list::<R>(alloc, expect_sign(tokens, Sign::Open)?)?;
    Ok((items, expect_sign(rest, Sign::Close)?))
}
