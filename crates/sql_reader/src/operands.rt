//! Literals, columns and operands.
ghost use Rattle.std.specs.Prelude.{◌≡◌, ℕ, ◌<◌, ◌≤◌, ◌^◌, pos, neg_ℤ, IfOk};
ghost use Rattle.grammar_forms.specs.Forms.{next_is, one};
ghost use Rattle.sql_grammar.specs.Words.{negated, constant_of};
ghost use Rattle.sql_grammar.specs.Readers.{begins_literal, literal_r, column_r, operand_r};
ghost use Rattle.sql_grammar.specs.Views.{literal_in, column_in, operand_in};
ghost use Rattle.sql_reader.specs.Gives.{Gives};

use crate::cursor::{
    ReadError, expect, expect_sign, is_keyword, is_next, is_same_sign, is_sign, name,
};
use byte_lists::{Bytes, Text};
use sql_grammar::{ColumnName, Literal, Operand};
use sql_tokens::{Keyword, Sign, Token};
use std::alloc::{AllocError, Global};

const LARGEST: u64 = 9223372036854775807;

/// The number behind a minus: up to one more than the largest.
fn negative(tokens: &[Token]) -> Result<(Literal, &[Token]), ReadError<'_>>
    ensures { Gives (λ x. literal_in x.0) (λ x. x.1.now) result (one negated tokens.now) }
{
    match tokens.split_first() {
        Some((Token::Number(size), rest)) if *size <= LARGEST => Ok((
            Literal::Int(-(*size as i64)),
            rest,
        )),
        Some((Token::Number(size), rest)) if *size == LARGEST + 1 => Ok((
            Literal::Int(i64::MIN),
            rest,
        )),
        _ => Err(ReadError::Refused(tokens)),
    }
}

/// A number, a text or a blob.
fn constant(alloc: Global, tokens: &[Token]) -> Result<(Literal, &[Token]), ReadError<'_>>
    ensures { Gives (λ x. literal_in x.0) (λ x. x.1.now) result (one constant_of tokens.now) }
{
    match tokens.split_first() {
        Some((Token::Number(size), rest)) if *size <= LARGEST => Ok((
            Literal::Int(*size as i64),
            rest,
        )),
        Some((Token::Text(bytes), rest)) => Ok((
            Literal::Text(Text::copied(alloc, bytes.as_bytes())?),
            rest,
        )),
        Some((Token::Blob(bytes), rest)) => Ok((
            Literal::Blob(Bytes::copied(alloc, bytes.as_bytes())?),
            rest,
        )),
        _ => Err(ReadError::Refused(tokens)),
    }
}

/// A literal: a number with or without a minus, a text, a blob, or `null`.
#[tactic(auto, unfolding(sql_grammar::specs::Readers::literal_r))]
pub(crate) fn literal(alloc: Global, tokens: &[Token]) -> Result<(Literal, &[Token]), ReadError<'_>>
    ensures { Gives (λ x. literal_in x.0) (λ x. x.1.now) result (literal_r tokens.now) }
{
    if is_sign(tokens, Sign::Minus) {
        let (number, rest) = negative(expect_sign(tokens, Sign::Minus)?)?;
        return Ok((number, rest));
    }
    if is_next(tokens, Keyword::Null) {
        let rest = expect(tokens, Keyword::Null)?;
        return Ok((Literal::Null, rest));
    }
    constant(alloc, tokens)
}

/// A column, with its table or alias where a dot stands behind the first name.
#[tactic(auto, unfolding(sql_grammar::specs::Readers::column_r))]
pub(crate) fn column(
    alloc: Global,
    tokens: &[Token],
) -> Result<(ColumnName, &[Token]), ReadError<'_>>
    ensures { Gives (λ x. column_in x.0) (λ x. x.1.now) result (column_r tokens.now) }
{
    let (first, rest) = name(alloc, tokens)?;
    if is_sign(rest, Sign::Dot) {
        let (second, rest) = name(alloc, expect_sign(rest, Sign::Dot)?)?;
        return Ok((
            ColumnName {
                qualifier: Some(first),
                name: second,
            },
            rest,
        ));
    }
    Ok((
        ColumnName {
            qualifier: None,
            name: first,
        },
        rest,
    ))
}

/// Whether a literal begins with this token.
#[tactic(auto, unfolding(sql_grammar::specs::Readers::begins_literal))]
fn begins_literal(token: &Token) -> bool
    ensures { result ≡ begins_literal token.now }
{
    match token {
        Token::Number(size) => *size < LARGEST + 1,
        Token::Text(_) => true,
        Token::Blob(_) => true,
        _ => is_same_sign(token, Sign::Minus) || is_keyword(token, Keyword::Null),
    }
}

/// Whether a literal begins here.
fn is_literal_next(tokens: &[Token]) -> bool
    ensures { result ≡ next_is begins_literal tokens.now }
{
    match tokens.first() {
        Some(token) => begins_literal(token),
        None => false,
    }
}

/// A literal or a column.
#[tactic(auto, unfolding(sql_grammar::specs::Readers::operand_r))]
pub(crate) fn operand(alloc: Global, tokens: &[Token]) -> Result<(Operand, &[Token]), ReadError<'_>>
    ensures { Gives (λ x. operand_in x.0) (λ x. x.1.now) result (operand_r tokens.now) }
{
    if is_literal_next(tokens) {
        let (value, rest) = literal(alloc, tokens)?;
        return Ok((Operand::Literal(value), rest));
    }
    let (column, rest) = column(alloc, tokens)?;
    Ok((Operand::Column(column), rest))
}
