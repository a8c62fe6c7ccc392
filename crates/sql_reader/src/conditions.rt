//! Comparisons and conditions.
ghost use Rattle.std.specs.Prelude.{◌≡◌, ℕ, ◌≤◌};
ghost use Rattle.grammar_forms.specs.Forms.{both};
ghost use Rattle.grammar_forms.specs.Parts.{after, before};
ghost use Rattle.sql_tokens.specs.declared.kinds.Keyword.TheVariants as words;
ghost use Rattle.sql_grammar.specs.Words.{keyword};
ghost use Rattle.sql_grammar.specs.Grammar.{CompareTest};
ghost use Rattle.sql_grammar.specs.Readers.{sign_r, negation_r, operand_r, comparison_r, not_r, and_r, condition_r, where_r};
ghost use Rattle.sql_grammar.specs.Views.{operand_in, condition_in, filter_in};
ghost use Rattle.sql_reader.specs.Gives.{Gives};

use crate::cursor::{ReadError, beside, expect, expect_sign, is_next, is_sign, sign_as, word_as};
use crate::operands::operand;
use sql_grammar::{Comparison, Operand, Seq, Test};
use sql_tokens::{Keyword, Sign, Token};
use std::alloc::Global;

/// How many `(` and `not` may be open at once.
pub(crate) const LEVELS: u8 = 100;

/// The sign of a comparison.
#[tactic(auto, unfolding(sql_grammar::specs::Readers::sign_r))]
fn comparison_sign(tokens: &[Token]) -> Result<(Comparison, &[Token]), ReadError<'_>>
    ensures { Gives (λ x. x.0) (λ x. x.1.now) result (sign_r tokens.now) }
{
    if is_sign(tokens, Sign::Equal) {
        return sign_as(tokens, Sign::Equal, Comparison::Eq);
    }
    if is_sign(tokens, Sign::NotEqual) {
        return sign_as(tokens, Sign::NotEqual, Comparison::Ne);
    }
    if is_sign(tokens, Sign::Less) {
        return sign_as(tokens, Sign::Less, Comparison::Lt);
    }
    if is_sign(tokens, Sign::LessEqual) {
        return sign_as(tokens, Sign::LessEqual, Comparison::Le);
    }
    if is_sign(tokens, Sign::Greater) {
        return sign_as(tokens, Sign::Greater, Comparison::Gt);
    }
    sign_as(tokens, Sign::GreaterEqual, Comparison::Ge)
}

/// Whether `not` stands here, and the tokens behind it.
#[tactic(auto, unfolding(sql_grammar::specs::Readers::negation_r))]
fn negation(tokens: &[Token]) -> Result<(bool, &[Token]), ReadError<'_>>
    ensures { Gives (λ x. x.0) (λ x. x.1.now) result (negation_r tokens.now) }
{
    if is_next(tokens, Keyword::Not) {
        return word_as(tokens, Keyword::Not, true);
    }
    Ok((false, tokens))
}

/// Whether a test for NULL is negated.
fn null_test(tokens: &[Token]) -> Result<(bool, &[Token]), ReadError<'_>>
    ensures { Gives (λ x. x.0) (λ x. x.1.now) result (after (keyword words.Is) (before (keyword words.Null) negation_r) tokens.now) }
{
    let (negated, rest) = negation(expect(tokens, Keyword::Is)?)?;
    word_as(rest, Keyword::Null, negated)
}

/// The sign of a comparison, and what stands behind it.
fn compared(
    alloc: Global,
    tokens: &[Token],
) -> Result<((Comparison, Operand), &[Token]), ReadError<'_>>
    ensures { Gives (λ x. CompareTest x.0.0 (operand_in x.0.1)) (λ x. x.1.now) result (both CompareTest sign_r operand_r tokens.now) }
{
    let (op, rest) = comparison_sign(tokens)?;
    let (right, rest) = operand(alloc, rest)?;
    Ok(((op, right), rest))
}

/// Two operands, or one that is tested for NULL.
#[tactic(auto, unfolding(sql_grammar::specs::Readers::comparison_r, sql_grammar::specs::Readers::test_r, sql_grammar::specs::Views::condition_in))]
fn comparison(alloc: Global, tokens: &[Token]) -> Result<(Test, &[Token]), ReadError<'_>>
    ensures { Gives (λ x. condition_in x.0) (λ x. x.1.now) result (comparison_r tokens.now) }
{
    let (left, rest) = operand(alloc, tokens)?;
    if is_next(rest, Keyword::Is) {
        let (side, (negated, rest)) = beside(left, null_test(rest))?;
        return Ok((Test::IsNull { side, negated }, rest));
    }
    let (left, ((op, right), rest)) = beside(left, compared(alloc, rest))?;
    Ok((Test::Compare { op, left, right }, rest))
}

/// A comparison, or a condition behind `not` or in parentheses, with so many levels to open.
#[cycle(conditions)]
#[tactic(auto, using(crate::proofs::LevelLemmas::not_deeper, crate::proofs::LevelLemmas::not_last), unfolding(sql_grammar::specs::Views::condition_in))]
fn not(alloc: Global, tokens: &[Token], levels: u8) -> Result<(Test, &[Token]), ReadError<'_>>
    ensures { Gives (λ x. condition_in x.0) (λ x. x.1.now) result (not_r levels tokens.now) }
{
    if levels == 0 {
        return comparison(alloc, tokens);
    }
    if is_next(tokens, Keyword::Not) {
        let (inner, rest) = not(alloc, expect(tokens, Keyword::Not)?, levels - 1)?;
        return Ok((Test::Not(Box::new(alloc, inner)?), rest));
    }
    if is_sign(tokens, Sign::Open) {
        let (inner, rest) = any_of(alloc, expect_sign(tokens, Sign::Open)?, levels - 1)?;
        let (inner, rest) = beside(inner, expect_sign(rest, Sign::Close))?;
        return Ok((Test::Group(Box::new(alloc, inner)?), rest));
    }
    comparison(alloc, tokens)
}

/// One part, or parts with `and` between them.
#[cycle(conditions)]
fn all_of(alloc: Global, tokens: &[Token], levels: u8) -> Result<(Test, &[Token]), ReadError<'_>>
    ensures { Gives (λ x. condition_in x.0) (λ x. x.1.now) result (and_r levels tokens.now) }
{
    let (first, after) = not(alloc, tokens, levels)?;
    if !is_next(after, Keyword::And) {
        return Ok((first, after));
    }
    let mut parts = Vec::new(alloc);
    parts.push(first)?;
    let mut rest = after;
    'parts: while is_next(rest, Keyword::And) {
        let (part, behind) = not(alloc, expect(rest, Keyword::And)?, levels)?;
        parts.push(part)?;
        rest = behind;
    }
    Ok((Test::And(Seq::from_vec(parts)), rest))
}

/// One part, or parts with `or` between them.
#[cycle(conditions)]
fn any_of(alloc: Global, tokens: &[Token], levels: u8) -> Result<(Test, &[Token]), ReadError<'_>>
    ensures { Gives (λ x. condition_in x.0) (λ x. x.1.now) result (condition_r levels tokens.now) }
{
    let (first, after) = all_of(alloc, tokens, levels)?;
    if !is_next(after, Keyword::Or) {
        return Ok((first, after));
    }
    let mut parts = Vec::new(alloc);
    parts.push(first)?;
    let mut rest = after;
    'parts: while is_next(rest, Keyword::Or) {
        let (part, behind) = all_of(alloc, expect(rest, Keyword::Or)?, levels)?;
        parts.push(part)?;
        rest = behind;
    }
    Ok((Test::Or(Seq::from_vec(parts)), rest))
}

/// The condition of WHERE, if there is one.
#[tactic(auto, unfolding(sql_grammar::specs::Readers::where_r))]
pub(crate) fn filter(
    alloc: Global,
    tokens: &[Token],
) -> Result<(Option<Test>, &[Token]), ReadError<'_>>
    ensures { Gives (λ x. filter_in x.0) (λ x. x.1.now) result (where_r tokens.now) }
{
    if is_next(tokens, Keyword::Where) {
        let (condition, rest) = any_of(alloc, expect(tokens, Keyword::Where)?, LEVELS)?;
        return Ok((Some(condition), rest));
    }
    Ok((None, tokens))
}
