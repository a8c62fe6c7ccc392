//! The reader of SQL: a text is read as the one thing that its tokens spell, or refused at one place.
//!
//! `read` reads a statement, and `read_create` the definition of a table. The text is cut into tokens (`sql_tokens`),
//! and all of them have to spell the answer by this grammar (`sql_grammar`); `[x]` may be left out, and `{x}` comes any
//! number of times:
//!
//! | Rule | Spelled by |
//! |---|---|
//! | statement | `begin`, `commit`, `rollback`, set, insert, update, delete or select; then `[;]` |
//! | set | `set transaction` (`snapshot` or `serializable`) |
//! | insert | `insert into` name [names] `values` tuple {`,` tuple} |
//! | update | `update` name `set` setting {`,` setting} [where] |
//! | setting | name `=` operand {(`+` or `-`) operand} |
//! | delete | `delete from` name [where] |
//! | select | (`select` or `selectv`) (`*` or item {`,` item}) from [where] [group] [order] [limit] |
//! | item | column, `count ( * )`, or (`sum`, `min` or `max`) `(` column `)` |
//! | from | `from` source {`,` source}, three at most; a source is name or name `[as]` name |
//! | group | `group by` column {`,` column} |
//! | order | `order by` key {`,` key}; a key is item [`asc` or `desc`] |
//! | limit | `limit` number, at most 9223372036854775807 |
//! | names, tuple | names, or literals, in parentheses with a comma between every two |
//! | where | `where` or |
//! | or, and | and {`or` and}; not {`and` not} |
//! | not | `not` not, `(` or `)`, or operand test; the first two open a level, of at most 100 at once |
//! | test | (`=`, `<>`, `<`, `<=`, `>` or `>=`) operand, or `is [not] null` |
//! | operand | literal or column; a column is name [`.` name] |
//! | literal | `[-]` number, text, blob or `null`; 9223372036854775808 only behind the minus |
//! | definition | `create table` name `(` part {`,` part} `)`, then `[;]` |
//! | part | name type {mark}, `primary key` names, or (`unique` or `key`) name names |
//! | type, mark | `integer`, `int`, `text` or `blob`; `not null`, `primary key` or `unique` |
//!
//! A name is a word that is not reserved, of at most 32 bytes. Letters are folded to lower case in words; `as`, `asc`, a
//! closing `;`, `!=` for `<>` and blanks leave no trace in what is read. One part of an `or` or an `and` stands as
//! itself, so `Or` and `And` have two parts at least, and a condition in parentheses is a `Group`.
//!
//! A refusal is at the offset in bytes of the first token with which the tokens so far begin nothing that is spelled.
//! Where bytes begin no token (a text that is not closed, a number that is too large), that place counts as a token.
//! Where the tokens end too early the offset is the text's length. Three texts:
//!
//! ```text
//! select * frm t      select * from       delete from t where a = 'b
//! 0      7 9          0      7 9   13     0           12        24
//!
//! refused at 9        refused at 13       refused at 24
//! ```
//!
//! Of every text of fewer than 2 ^ 32 bytes: it spells one thing at most; what it spells is read, and what is read it
//! spells; it is refused at its place, and what has such a place is refused. Only memory that runs out changes this.
//! Readers call themselves once for each level that is open, so at most 100 deep.
#![tactic(auto)]

ghost use Rattle.std.specs.Prelude.{◌≡◌, ℕ, ◌<◌, ◌^◌, length, IfOk, IfErr};
ghost use Rattle.sql_grammar.specs.Trees.{Statement, Definition};
ghost use Rattle.sql_grammar.specs.Grammar.{StatementS, CreateS};
ghost use Rattle.sql_grammar.specs.Views.{statement_in, definition_in};
ghost use Rattle.sql_reader.specs.Promise.{Spells, IsRefusedAt, StopsRight, ReadsAs, Refuses};
ghost use Rattle.sql_reader.specs.Stops.{StopsAs};

mod changes;
mod conditions;
mod cursor;
mod definitions;
mod lists;
mod operands;
mod queries;
mod rules;
mod statements;

use cursor::ReadError;
pub use sql_grammar::{
    Assign, ColumnName, Comparison, CreatePart, CreateTable, FromTable, Kind, Literal, Mark,
    Operand, OrderKey, SelectItem, SelectStmt, Seq, Step, Stmt, Test,
};
use sql_tokens::{Spots, tokens};
use statements::{definition, statement};
use std::alloc::Global;

/// Why a text was not read.
#[derive(Debug, Drop)]
pub enum ReadStop {
    /// The text is no statement. `at` is the offset in bytes of the first token with which the tokens so far begin
    /// none, or the text's length where they end too early.
    Syntax { at: u32 },
    /// Memory ran out.
    NoMemory,
}

/// How a stop is told: by the place of the first token that is left, or by the end.
fn stopped(spots: &Spots, end: u32, stop: ReadError<'_>) -> ReadStop
    ensures { StopsAs spots.now end stop.entry result }
{
    match stop {
        ReadError::Memory => ReadStop::NoMemory,
        ReadError::Refused(left) => match spots.place(spots.len().saturating_sub(left.len())) {
            Some(at) => ReadStop::Syntax { at },
            None => ReadStop::Syntax { at: end },
        },
    }
}

/// The statement that the text spells.
pub fn read(alloc: Global, text: &str) -> Result<Stmt, ReadStop>
    requires { length text.now < 2 ^ 32 }
    // What is read is spelled by the text's tokens, all of them.
    ensures found { IfOk result (λ s. Spells StatementS text.now (statement_in s)) }
    // What is spelled is read, as that very statement, unless memory runs out.
    ensures only { (x : Statement) → Spells StatementS text.now x → ReadsAs statement_in x result }
    // A text spells one statement at most.
    ensures one_reading { (x y : Statement) → Spells StatementS text.now x → Spells StatementS text.now y → x ≡ y }
    // A refusal is at its place.
    ensures refused { IfErr result (λ e. StopsRight StatementS text.now e) }
    // What has such a place is refused there, unless memory runs out.
    ensures only_refused { (at : ℕ) → IsRefusedAt StatementS text.now at → Refuses at result }
{
    let Ok(spots) = tokens(alloc, text) else {
        return Err(ReadStop::NoMemory);
    };
    match statement(alloc, spots.tokens()) {
        Ok(found) => Ok(found),
        Err(stop) => Err(stopped(&spots, text.len() as u32, stop)),
    }
}

/// The definition of a table that the text spells.
pub fn read_create(alloc: Global, text: &str) -> Result<CreateTable, ReadStop>
    requires { length text.now < 2 ^ 32 }
    // What is read is spelled by the text's tokens, all of them.
    ensures found { IfOk result (λ s. Spells CreateS text.now (definition_in s)) }
    // What is spelled is read, as that very definition, unless memory runs out.
    ensures only { (x : Definition) → Spells CreateS text.now x → ReadsAs definition_in x result }
    // A text spells one definition at most.
    ensures one_reading { (x y : Definition) → Spells CreateS text.now x → Spells CreateS text.now y → x ≡ y }
    // A refusal is at its place.
    ensures refused { IfErr result (λ e. StopsRight CreateS text.now e) }
    // What has such a place is refused there, unless memory runs out.
    ensures only_refused { (at : ℕ) → IsRefusedAt CreateS text.now at → Refuses at result }
{
    let Ok(spots) = tokens(alloc, text) else {
        return Err(ReadStop::NoMemory);
    };
    match definition(alloc, spots.tokens()) {
        Ok(found) => Ok(found),
        Err(stop) => Err(stopped(&spots, text.len() as u32, stop)),
    }
}
