//! INSERT, UPDATE, DELETE and SET TRANSACTION.
ghost use Rattle.std.specs.Prelude.{◌≡◌, ℕ, map, option_map};
ghost use Rattle.grammar_forms.specs.Parts.{after, optional};
ghost use Rattle.sql_tokens.specs.declared.kinds.Keyword.TheVariants as words;
ghost use Rattle.sql_tokens.specs.declared.kinds.Sign.TheVariants as sign;
ghost use Rattle.sql_grammar.specs.Words.{keyword, sign_is};
ghost use Rattle.grammar_forms.specs.Forms.{next_is, both};
ghost use Rattle.sql_grammar.specs.Grammar.{pair};
ghost use Rattle.sql_grammar.specs.Readers.{listed, begins_step, names_r, tuple_r, change_r, setting_r, insert_r, update_r, delete_r, level_r};
ghost use Rattle.sql_grammar.specs.Views.{name_in, names_in, tuple_in, change_in, setting_in, statement_in};
ghost use Rattle.sql_reader.specs.Gives.{Gives};

use crate::conditions::filter;
use crate::cursor::{ReadError, beside, expect, expect_sign, is_next, is_same_sign, is_sign, name};
use crate::lists::{comma_list, in_parentheses, series};
use crate::operands::operand;
use crate::rules::{ChangeRule, LiteralRule, NameRule, SettingRule, TupleRule};
use byte_lists::Name;
use sql_grammar::{Assign, Literal, Seq, Step, Stmt};
use sql_tokens::{Keyword, Sign, Token};
use std::alloc::Global;

/// Names in parentheses.
#[tactic(auto, unfolding(sql_grammar::specs::Readers::names_r))]
pub(crate) fn names(alloc: Global, tokens: &[Token]) -> Result<(Seq<Name>, &[Token]), ReadError<'_>>
    ensures { Gives (λ x. names_in x.0) (λ x. x.1.now) result (names_r tokens.now) }
{
    in_parentheses::<NameRule>(alloc, tokens)
}

/// The values of a row, in parentheses.
#[tactic(auto, unfolding(sql_grammar::specs::Readers::tuple_r))]
pub(crate) fn tuple(
    alloc: Global,
    tokens: &[Token],
) -> Result<(Seq<Literal>, &[Token]), ReadError<'_>>
    ensures { Gives (λ x. tuple_in x.0) (λ x. x.1.now) result (tuple_r tokens.now) }
{
    in_parentheses::<LiteralRule>(alloc, tokens)
}

/// Whether a step of SET begins with this token.
#[tactic(auto, unfolding(sql_grammar::specs::Readers::begins_step))]
fn begins_change(token: &Token) -> bool
    ensures { result ≡ begins_step token.now }
{
    is_same_sign(token, Sign::Plus) || is_same_sign(token, Sign::Minus)
}

/// Whether a step of SET begins here.
pub(crate) fn is_change_next(tokens: &[Token]) -> bool
    ensures { result ≡ next_is begins_step tokens.now }
{
    match tokens.first() {
        Some(token) => begins_change(token),
        None => false,
    }
}

/// A step of SET.
#[tactic(auto, unfolding(sql_grammar::specs::Readers::change_r))]
pub(crate) fn change(alloc: Global, tokens: &[Token]) -> Result<(Step, &[Token]), ReadError<'_>>
    ensures { Gives (λ x. change_in x.0) (λ x. x.1.now) result (change_r tokens.now) }
{
    if is_sign(tokens, Sign::Plus) {
        let (operand, rest) = operand(alloc, expect_sign(tokens, Sign::Plus)?)?;
        return Ok((
            Step {
                minus: false,
                operand,
            },
            rest,
        ));
    }
    let (operand, rest) = operand(alloc, expect_sign(tokens, Sign::Minus)?)?;
    Ok((
        Step {
            minus: true,
            operand,
        },
        rest,
    ))
}

/// A column of SET and its value.
#[tactic(auto, unfolding(sql_grammar::specs::Readers::setting_r))]
pub(crate) fn setting(alloc: Global, tokens: &[Token]) -> Result<(Assign, &[Token]), ReadError<'_>>
    ensures { Gives (λ x. setting_in x.0) (λ x. x.1.now) result (setting_r tokens.now) }
{
    let (column, rest) = name(alloc, tokens)?;
    let rest = expect_sign(rest, Sign::Equal)?;
    let (first, rest) = operand(alloc, rest)?;
    let (first, (changes, rest)) = beside(first, series::<ChangeRule>(alloc, rest))?;
    Ok((
        Assign {
            column,
            first,
            rest: changes,
        },
        rest,
    ))
}

/// The columns that an INSERT names, if it names any.
fn columns(alloc: Global, tokens: &[Token]) -> Result<(Option<Seq<Name>>, &[Token]), ReadError<'_>>
    ensures { Gives (λ x. option_map names_in x.0) (λ x. x.1.now) result (optional (sign_is sign.Open) names_r tokens.now) }
{
    if is_sign(tokens, Sign::Open) {
        let (found, rest) = names(alloc, tokens)?;
        return Ok((Some(found), rest));
    }
    Ok((None, tokens))
}

/// The rows of an INSERT.
fn rows(alloc: Global, tokens: &[Token]) -> Result<(Seq<Seq<Literal>>, &[Token]), ReadError<'_>>
    ensures { Gives (λ x. map tuple_in x.0.items.items) (λ x. x.1.now) result (after (keyword words.Values) (listed tuple_r) tokens.now) }
{
    let rest = expect(tokens, Keyword::Values)?;
    let (rows, rest) = comma_list::<TupleRule>(alloc, rest)?;
    Ok((rows, rest))
}

/// The rows of an INSERT, and the columns that it names, if it names any.
fn values(
    alloc: Global,
    tokens: &[Token],
) -> Result<((Option<Seq<Name>>, Seq<Seq<Literal>>), &[Token]), ReadError<'_>>
    ensures { Gives (λ x. pair (option_map names_in x.0.0) (map tuple_in x.0.1.items.items)) (λ x. x.1.now) result (both pair (optional (sign_is sign.Open) names_r) (after (keyword words.Values) (listed tuple_r)) tokens.now) }
{
    let (columns, rest) = columns(alloc, tokens)?;
    let (columns, (rows, rest)) = beside(columns, rows(alloc, rest))?;
    Ok(((columns, rows), rest))
}

/// INSERT.
#[tactic(auto, unfolding(sql_grammar::specs::Readers::insert_r))]
pub(crate) fn insert(alloc: Global, tokens: &[Token]) -> Result<(Stmt, &[Token]), ReadError<'_>>
    ensures { Gives (λ x. statement_in x.0) (λ x. x.1.now) result (insert_r tokens.now) }
{
    let rest = expect(tokens, Keyword::Insert)?;
    let rest = expect(rest, Keyword::Into)?;
    let (table, rest) = name(alloc, rest)?;
    let (table, ((columns, rows), rest)) = beside(table, values(alloc, rest))?;
    Ok((
        Stmt::Insert {
            table,
            columns,
            rows,
        },
        rest,
    ))
}

/// UPDATE.
#[tactic(auto, unfolding(sql_grammar::specs::Readers::update_r))]
pub(crate) fn update(alloc: Global, tokens: &[Token]) -> Result<(Stmt, &[Token]), ReadError<'_>>
    ensures { Gives (λ x. statement_in x.0) (λ x. x.1.now) result (update_r tokens.now) }
{
    let rest = expect(tokens, Keyword::Update)?;
    let (table, rest) = name(alloc, rest)?;
    let rest = expect(rest, Keyword::Set)?;
    let (assigns, rest) = comma_list::<SettingRule>(alloc, rest)?;
    let (filter, rest) = filter(alloc, rest)?;
    Ok((
        Stmt::Update {
            table,
            assigns,
            filter,
        },
        rest,
    ))
}

/// DELETE.
#[tactic(auto, unfolding(sql_grammar::specs::Readers::delete_r))]
pub(crate) fn delete(alloc: Global, tokens: &[Token]) -> Result<(Stmt, &[Token]), ReadError<'_>>
    ensures { Gives (λ x. statement_in x.0) (λ x. x.1.now) result (delete_r tokens.now) }
{
    let rest = expect(tokens, Keyword::Delete)?;
    let rest = expect(rest, Keyword::From)?;
    let (table, rest) = name(alloc, rest)?;
    let (filter, rest) = filter(alloc, rest)?;
    Ok((Stmt::Delete { table, filter }, rest))
}

/// SET TRANSACTION.
#[tactic(auto, unfolding(sql_grammar::specs::Readers::level_r))]
pub(crate) fn level(tokens: &[Token]) -> Result<(Stmt, &[Token]), ReadError<'_>>
    ensures { Gives (λ x. statement_in x.0) (λ x. x.1.now) result (level_r tokens.now) }
{
    let rest = expect(tokens, Keyword::Set)?;
    let rest = expect(rest, Keyword::Transaction)?;
    if is_next(rest, Keyword::Snapshot) {
        let rest = expect(rest, Keyword::Snapshot)?;
        return Ok((Stmt::SetSnapshot, rest));
    }
    let rest = expect(rest, Keyword::Serializable)?;
    Ok((Stmt::SetSerializable, rest))
}
