//! CREATE TABLE.
ghost use Rattle.std.specs.Prelude.{◌≡◌, ℕ, map};
ghost use Rattle.grammar_forms.specs.Forms.{next_is};
ghost use Rattle.sql_grammar.specs.Readers.{begins_mark, mark_r, type_r, uniqueness_r, part_r, table_r};
ghost use Rattle.sql_grammar.specs.Views.{part_in, definition_in};
ghost use Rattle.sql_reader.specs.Gives.{Gives};

use crate::changes::names;
use crate::cursor::{ReadError, expect, is_keyword, is_name_next, is_next, name, word_as};
use crate::lists::{in_parentheses, series};
use crate::rules::{MarkRule, PartRule};
use sql_grammar::{CreatePart, CreateTable, Kind, Mark};
use sql_tokens::{Keyword, Token};
use std::alloc::Global;

/// Whether a mark of a column begins with this token.
#[tactic(auto, unfolding(sql_grammar::specs::Readers::begins_mark))]
fn begins_mark(token: &Token) -> bool
    ensures { result ≡ begins_mark token.now }
{
    is_keyword(token, Keyword::Not)
        || is_keyword(token, Keyword::Primary)
        || is_keyword(token, Keyword::Unique)
}

/// Whether a mark of a column begins here.
pub(crate) fn is_mark_next(tokens: &[Token]) -> bool
    ensures { result ≡ next_is begins_mark tokens.now }
{
    match tokens.first() {
        Some(token) => begins_mark(token),
        None => false,
    }
}

/// A mark of a column.
#[tactic(auto, unfolding(sql_grammar::specs::Readers::mark_r))]
pub(crate) fn mark(tokens: &[Token]) -> Result<(Mark, &[Token]), ReadError<'_>>
    ensures { Gives (λ x. x.0) (λ x. x.1.now) result (mark_r tokens.now) }
{
    if is_next(tokens, Keyword::Not) {
        let rest = expect(tokens, Keyword::Not)?;
        return word_as(rest, Keyword::Null, Mark::NotNull);
    }
    if is_next(tokens, Keyword::Primary) {
        let rest = expect(tokens, Keyword::Primary)?;
        return word_as(rest, Keyword::Key, Mark::PrimaryKey);
    }
    word_as(tokens, Keyword::Unique, Mark::Unique)
}

/// The type of a column.
#[tactic(auto, unfolding(sql_grammar::specs::Readers::type_r))]
fn kind(tokens: &[Token]) -> Result<(Kind, &[Token]), ReadError<'_>>
    ensures { Gives (λ x. x.0) (λ x. x.1.now) result (type_r tokens.now) }
{
    if is_next(tokens, Keyword::Integer) {
        return word_as(tokens, Keyword::Integer, Kind::Integer);
    }
    if is_next(tokens, Keyword::Int) {
        return word_as(tokens, Keyword::Int, Kind::Integer);
    }
    if is_next(tokens, Keyword::Text) {
        return word_as(tokens, Keyword::Text, Kind::Text);
    }
    word_as(tokens, Keyword::Blob, Kind::Blob)
}

/// Whether a key is unique.
#[tactic(auto, unfolding(sql_grammar::specs::Readers::uniqueness_r))]
fn uniqueness(tokens: &[Token]) -> Result<(bool, &[Token]), ReadError<'_>>
    ensures { Gives (λ x. x.0) (λ x. x.1.now) result (uniqueness_r tokens.now) }
{
    if is_next(tokens, Keyword::Unique) {
        return word_as(tokens, Keyword::Unique, true);
    }
    word_as(tokens, Keyword::Key, false)
}

/// A column or a key of a table.
#[tactic(auto, unfolding(sql_grammar::specs::Readers::part_r))]
pub(crate) fn part(alloc: Global, tokens: &[Token]) -> Result<(CreatePart, &[Token]), ReadError<'_>>
    ensures { Gives (λ x. part_in x.0) (λ x. x.1.now) result (part_r tokens.now) }
{
    if is_next(tokens, Keyword::Primary) {
        let rest = expect(tokens, Keyword::Primary)?;
        let rest = expect(rest, Keyword::Key)?;
        let (columns, rest) = names(alloc, rest)?;
        return Ok((CreatePart::Primary { columns }, rest));
    }
    if is_name_next(tokens) {
        let (name, rest) = name(alloc, tokens)?;
        let (kind, rest) = kind(rest)?;
        let (marks, rest) = series::<MarkRule>(alloc, rest)?;
        return Ok((CreatePart::Column { name, kind, marks }, rest));
    }
    let (unique, rest) = uniqueness(tokens)?;
    let (name, rest) = name(alloc, rest)?;
    let (columns, rest) = names(alloc, rest)?;
    Ok((
        CreatePart::Key {
            unique,
            name,
            columns,
        },
        rest,
    ))
}

/// CREATE TABLE, up to its closing sign.
#[tactic(auto, unfolding(sql_grammar::specs::Readers::table_r))]
pub(crate) fn table(
    alloc: Global,
    tokens: &[Token],
) -> Result<(CreateTable, &[Token]), ReadError<'_>>
    ensures { Gives (λ x. definition_in x.0) (λ x. x.1.now) result (table_r tokens.now) }
{
    let rest = expect(tokens, Keyword::Create)?;
    let rest = expect(rest, Keyword::Table)?;
    let (name, rest) = name(alloc, rest)?;
    let (parts, rest) = in_parentheses::<PartRule>(alloc, rest)?;
    Ok((CreateTable { name, parts }, rest))
}
