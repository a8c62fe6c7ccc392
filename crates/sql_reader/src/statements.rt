//! Whole statements, and what may stand behind one.
ghost use Rattle.std.specs.Prelude.{◌≡◌, ℕ, []};
ghost use Rattle.grammar_forms.specs.Forms.{only};
ghost use Rattle.sql_grammar.specs.Readers.{simple_r, one_r, statement_r, create_r, ended, no_more};
ghost use Rattle.sql_grammar.specs.Views.{statement_in, definition_in};
ghost use Rattle.sql_reader.specs.Gives.{Gives};

use crate::changes::{delete, insert, level, update};
use crate::cursor::{ReadError, expect, is_next, is_same_sign};
use crate::definitions::table;
use crate::queries::query;
use sql_grammar::{CreateTable, Stmt};
use sql_tokens::{Keyword, Sign, Token};
use std::alloc::Global;

/// A statement of one word, or a query.
#[tactic(auto, unfolding(sql_grammar::specs::Readers::simple_r))]
fn simple(alloc: Global, tokens: &[Token]) -> Result<(Stmt, &[Token]), ReadError<'_>>
    ensures { Gives (λ x. statement_in x.0) (λ x. x.1.now) result (simple_r tokens.now) }
{
    if is_next(tokens, Keyword::Begin) {
        let rest = expect(tokens, Keyword::Begin)?;
        return Ok((Stmt::Begin, rest));
    }
    if is_next(tokens, Keyword::Commit) {
        let rest = expect(tokens, Keyword::Commit)?;
        return Ok((Stmt::Commit, rest));
    }
    if is_next(tokens, Keyword::Rollback) {
        let rest = expect(tokens, Keyword::Rollback)?;
        return Ok((Stmt::Rollback, rest));
    }
    let (found, rest) = query(alloc, tokens)?;
    Ok((Stmt::Select(found), rest))
}

/// A statement, up to its closing sign.
#[tactic(auto, unfolding(sql_grammar::specs::Readers::one_r))]
fn one(alloc: Global, tokens: &[Token]) -> Result<(Stmt, &[Token]), ReadError<'_>>
    ensures { Gives (λ x. statement_in x.0) (λ x. x.1.now) result (one_r tokens.now) }
{
    if is_next(tokens, Keyword::Set) {
        return level(tokens);
    }
    if is_next(tokens, Keyword::Insert) {
        return insert(alloc, tokens);
    }
    if is_next(tokens, Keyword::Update) {
        return update(alloc, tokens);
    }
    if is_next(tokens, Keyword::Delete) {
        return delete(alloc, tokens);
    }
    simple(alloc, tokens)
}

/// The end, with or without a closing sign before it.
fn end(tokens: &[Token]) -> Result<(), ReadError<'_>>
    ensures { Gives (λ _. tt) (λ _. []) result (ended tokens.now) }
{
    match tokens.split_first() {
        None => Ok(()),
        Some((token, rest)) if is_same_sign(token, Sign::Semicolon) => no_more(rest),
        Some(_) => Err(ReadError::Refused(tokens)),
    }
}

/// No token more.
fn no_more(tokens: &[Token]) -> Result<(), ReadError<'_>>
    ensures { Gives (λ _. tt) (λ _. []) result (no_more tokens.now) }
{
    match tokens.first() {
        None => Ok(()),
        Some(_) => Err(ReadError::Refused(tokens)),
    }
}

/// The statement that all the tokens are.
pub(crate) fn statement(alloc: Global, tokens: &[Token]) -> Result<Stmt, ReadError<'_>>
    ensures { Gives statement_in (λ _. []) result (only (statement_r tokens.now)) }
{
    let (found, rest) = one(alloc, tokens)?;
    end(rest).and(Ok(found))
}

/// The definition that all the tokens are.
pub(crate) fn definition(alloc: Global, tokens: &[Token]) -> Result<CreateTable, ReadError<'_>>
    ensures { Gives definition_in (λ _. []) result (only (create_r tokens.now)) }
{
    let (found, rest) = table(alloc, tokens)?;
    end(rest).and(Ok(found))
}
