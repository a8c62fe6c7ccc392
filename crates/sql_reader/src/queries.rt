//! SELECT.
ghost use Rattle.std.specs.Prelude.{◌≡◌, ℕ, ◌^◌, ◌<◌, map, option_map, List};
ghost use Rattle.grammar_forms.specs.Forms.{one};
ghost use Rattle.sql_grammar.specs.Words.{limit_of};
ghost use Rattle.sql_grammar.specs.Readers.{alias_r, verb_r, source_r, from_r, argument_r, count_r, item_r, items_r, direction_r, key_r, group_r, order_r, limit_r, tail_r, query_r};
ghost use Rattle.sql_grammar.specs.Views.{name_in, column_in, item_in, items_in, key_in, source_in, filter_in, query_in};
ghost use Rattle.sql_reader.specs.Ending.{ending_in};
ghost use Rattle.sql_reader.specs.Gives.{Gives};

use crate::conditions::filter;
use crate::cursor::{
    ReadError, beside, expect, expect_sign, is_name_next, is_next, is_sign, name, word_as,
};
use crate::lists::comma_list;
use crate::operands::column;
use crate::rules::{ColumnRule, ItemRule, KeyRule};
use byte_lists::Name;
use sql_grammar::{ColumnName, FromTable, OrderKey, SelectItem, SelectStmt, Seq, Test};
use sql_tokens::{Keyword, Sign, Token};
use std::alloc::Global;

/// A column in parentheses.
#[tactic(auto, unfolding(sql_grammar::specs::Readers::argument_r))]
fn argument(alloc: Global, tokens: &[Token]) -> Result<(ColumnName, &[Token]), ReadError<'_>>
    ensures { Gives (λ x. column_in x.0) (λ x. x.1.now) result (argument_r tokens.now) }
{
    let rest = expect_sign(tokens, Sign::Open)?;
    let (column, rest) = column(alloc, rest)?;
    let rest = expect_sign(rest, Sign::Close)?;
    Ok((column, rest))
}

/// What stands behind `count`.
#[tactic(auto, unfolding(sql_grammar::specs::Readers::count_r))]
fn count(tokens: &[Token]) -> Result<(SelectItem, &[Token]), ReadError<'_>>
    ensures { Gives (λ x. item_in x.0) (λ x. x.1.now) result (count_r tokens.now) }
{
    let rest = expect(tokens, Keyword::Count)?;
    let rest = expect_sign(rest, Sign::Open)?;
    let rest = expect_sign(rest, Sign::Star)?;
    let rest = expect_sign(rest, Sign::Close)?;
    Ok((SelectItem::Count, rest))
}

/// A column of the answer.
#[tactic(auto, unfolding(sql_grammar::specs::Readers::item_r))]
pub(crate) fn item(alloc: Global, tokens: &[Token]) -> Result<(SelectItem, &[Token]), ReadError<'_>>
    ensures { Gives (λ x. item_in x.0) (λ x. x.1.now) result (item_r tokens.now) }
{
    if is_next(tokens, Keyword::Sum) {
        let (column, rest) = argument(alloc, expect(tokens, Keyword::Sum)?)?;
        return Ok((SelectItem::Sum(column), rest));
    }
    if is_next(tokens, Keyword::Min) {
        let (column, rest) = argument(alloc, expect(tokens, Keyword::Min)?)?;
        return Ok((SelectItem::Min(column), rest));
    }
    if is_next(tokens, Keyword::Max) {
        let (column, rest) = argument(alloc, expect(tokens, Keyword::Max)?)?;
        return Ok((SelectItem::Max(column), rest));
    }
    if is_next(tokens, Keyword::Count) {
        return count(tokens);
    }
    let (column, rest) = column(alloc, tokens)?;
    Ok((SelectItem::Column(column), rest))
}

/// `*`, or the columns of the answer.
#[tactic(auto, unfolding(sql_grammar::specs::Readers::items_r))]
fn items(
    alloc: Global,
    tokens: &[Token],
) -> Result<(Option<Seq<SelectItem>>, &[Token]), ReadError<'_>>
    ensures { Gives (λ x. items_in x.0) (λ x. x.1.now) result (items_r tokens.now) }
{
    if is_sign(tokens, Sign::Star) {
        let rest = expect_sign(tokens, Sign::Star)?;
        return Ok((None, rest));
    }
    let (items, rest) = comma_list::<ItemRule>(alloc, tokens)?;
    Ok((Some(items), rest))
}

/// The alias of a table, if there is one.
fn alias(alloc: Global, tokens: &[Token]) -> Result<(Option<Name>, &[Token]), ReadError<'_>>
    ensures { Gives (λ x. option_map name_in x.0) (λ x. x.1.now) result (alias_r tokens.now) }
{
    if is_next(tokens, Keyword::As) {
        let (found, rest) = name(alloc, expect(tokens, Keyword::As)?)?;
        return Ok((Some(found), rest));
    }
    if is_name_next(tokens) {
        let (found, rest) = name(alloc, tokens)?;
        return Ok((Some(found), rest));
    }
    Ok((None, tokens))
}

/// A table of FROM.
#[tactic(auto, unfolding(sql_grammar::specs::Readers::source_r))]
fn source(alloc: Global, tokens: &[Token]) -> Result<(FromTable, &[Token]), ReadError<'_>>
    ensures { Gives (λ x. source_in x.0) (λ x. x.1.now) result (source_r tokens.now) }
{
    let (table, rest) = name(alloc, tokens)?;
    let (alias, rest) = alias(alloc, rest)?;
    Ok((FromTable { table, alias }, rest))
}

/// FROM and one to three tables.
#[tactic(auto, unfolding(sql_grammar::specs::Readers::from_r))]
fn from(alloc: Global, tokens: &[Token]) -> Result<(Seq<FromTable>, &[Token]), ReadError<'_>>
    ensures { Gives (λ x. map source_in x.0.items.items) (λ x. x.1.now) result (from_r tokens.now) }
{
    let rest = expect(tokens, Keyword::From)?;
    let (first, rest) = source(alloc, rest)?;
    let mut tables = Vec::new(alloc);
    tables.push(first)?;
    if !is_sign(rest, Sign::Comma) {
        return Ok((Seq::from_vec(tables), rest));
    }
    let (second, rest) = source(alloc, expect_sign(rest, Sign::Comma)?)?;
    tables.push(second)?;
    if !is_sign(rest, Sign::Comma) {
        return Ok((Seq::from_vec(tables), rest));
    }
    let (third, rest) = source(alloc, expect_sign(rest, Sign::Comma)?)?;
    tables.push(third)?;
    Ok((Seq::from_vec(tables), rest))
}

/// Whether `desc` stands here, and the tokens behind it or behind `asc`.
#[tactic(auto, unfolding(sql_grammar::specs::Readers::direction_r))]
fn direction(tokens: &[Token]) -> Result<(bool, &[Token]), ReadError<'_>>
    ensures { Gives (λ x. x.0) (λ x. x.1.now) result (direction_r tokens.now) }
{
    if is_next(tokens, Keyword::Desc) {
        return word_as(tokens, Keyword::Desc, true);
    }
    if is_next(tokens, Keyword::Asc) {
        return word_as(tokens, Keyword::Asc, false);
    }
    Ok((false, tokens))
}

/// A key of ORDER BY.
#[tactic(auto, unfolding(sql_grammar::specs::Readers::key_r))]
pub(crate) fn key(alloc: Global, tokens: &[Token]) -> Result<(OrderKey, &[Token]), ReadError<'_>>
    ensures { Gives (λ x. key_in x.0) (λ x. x.1.now) result (key_r tokens.now) }
{
    let (item, rest) = item(alloc, tokens)?;
    let (item, (descending, rest)) = beside(item, direction(rest))?;
    Ok((OrderKey { item, descending }, rest))
}

/// The columns of GROUP BY.
#[tactic(auto, unfolding(sql_grammar::specs::Readers::group_r))]
fn group(alloc: Global, tokens: &[Token]) -> Result<(Seq<ColumnName>, &[Token]), ReadError<'_>>
    ensures { Gives (λ x. map column_in x.0.items.items) (λ x. x.1.now) result (group_r tokens.now) }
{
    if is_next(tokens, Keyword::Group) {
        let rest = expect(tokens, Keyword::Group)?;
        let rest = expect(rest, Keyword::By)?;
        let (columns, rest) = comma_list::<ColumnRule>(alloc, rest)?;
        return Ok((columns, rest));
    }
    Ok((Seq::from_vec(Vec::new(alloc)), tokens))
}

/// The keys of ORDER BY.
#[tactic(auto, unfolding(sql_grammar::specs::Readers::order_r))]
fn order(alloc: Global, tokens: &[Token]) -> Result<(Seq<OrderKey>, &[Token]), ReadError<'_>>
    ensures { Gives (λ x. map key_in x.0.items.items) (λ x. x.1.now) result (order_r tokens.now) }
{
    if is_next(tokens, Keyword::Order) {
        let rest = expect(tokens, Keyword::Order)?;
        let rest = expect(rest, Keyword::By)?;
        let (keys, rest) = comma_list::<KeyRule>(alloc, rest)?;
        return Ok((keys, rest));
    }
    Ok((Seq::from_vec(Vec::new(alloc)), tokens))
}

/// A number below 2 ^ 63.
fn bound(tokens: &[Token]) -> Result<(u64, &[Token]), ReadError<'_>>
    ensures { Gives (λ x. x.0) (λ x. x.1.now) result (one limit_of tokens.now) }
{
    match tokens.split_first() {
        Some((Token::Number(size), rest)) if *size < 9223372036854775808 => Ok((*size, rest)),
        _ => Err(ReadError::Refused(tokens)),
    }
}

/// The number of LIMIT, if there is one.
#[tactic(auto, unfolding(sql_grammar::specs::Readers::limit_r))]
fn limit(tokens: &[Token]) -> Result<(Option<u64>, &[Token]), ReadError<'_>>
    ensures { Gives (λ x. x.0) (λ x. x.1.now) result (limit_r tokens.now) }
{
    if is_next(tokens, Keyword::Limit) {
        let (size, rest) = bound(expect(tokens, Keyword::Limit)?)?;
        return Ok((Some(size), rest));
    }
    Ok((None, tokens))
}

/// What stands behind FROM.
#[derive(Drop)]
struct Ending {
    filter: Option<Test>,
    group: Seq<ColumnName>,
    order: Seq<OrderKey>,
    limit: Option<u64>,
}

/// What may stand behind the tables of a query: WHERE, GROUP BY, ORDER BY and LIMIT.
#[tactic(auto, unfolding(sql_grammar::specs::Readers::tail_r))]
fn behind_from(alloc: Global, tokens: &[Token]) -> Result<(Ending, &[Token]), ReadError<'_>>
    ensures { Gives (λ x. ending_in x.0) (λ x. x.1.now) result (tail_r tokens.now) }
{
    let (filter, rest) = filter(alloc, tokens)?;
    let (filter, (group, rest)) = beside(filter, group(alloc, rest))?;
    let (filter, (order, rest)) = beside(filter, order(alloc, rest))?;
    let (filter, (limit, rest)) = beside(filter, limit(rest))?;
    Ok((
        Ending {
            filter,
            group,
            order,
            limit,
        },
        rest,
    ))
}

/// Whether it is `selectv`.
fn verb(tokens: &[Token]) -> Result<(bool, &[Token]), ReadError<'_>>
    ensures { Gives (λ x. x.0) (λ x. x.1.now) result (verb_r tokens.now) }
{
    if is_next(tokens, Keyword::Selectv) {
        return word_as(tokens, Keyword::Selectv, true);
    }
    word_as(tokens, Keyword::Select, false)
}

/// SELECT.
#[tactic(auto, unfolding(sql_grammar::specs::Readers::query_r))]
pub(crate) fn query(
    alloc: Global,
    tokens: &[Token],
) -> Result<(SelectStmt, &[Token]), ReadError<'_>>
    ensures { Gives (λ x. query_in x.0) (λ x. x.1.now) result (query_r tokens.now) }
{
    let (selectv, rest) = verb(tokens)?;
    let (items, rest) = items(alloc, rest)?;
    let (tables, rest) = from(alloc, rest)?;
    let (ending, rest) = behind_from(alloc, rest)?;
    let Ending {
        filter,
        group,
        order,
        limit,
    } = ending;
    Ok((
        SelectStmt {
            selectv,
            items,
            tables,
            filter,
            group,
            order,
            limit,
        },
        rest,
    ))
}
