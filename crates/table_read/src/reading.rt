//! The table of a text, added to a schema.
ghost use Rattle.std.specs.Prelude.{◌≡◌, ◌<◌, ◌^◌, ◌++◌, ◌∷◌, [], List, length, IfOk, OnErr};
ghost use Rattle.cdb_values.specs.declared.tables.TableDef.{TableDef};
ghost use Rattle.sql_grammar.specs.Views.{definition_in};
ghost use Rattle.table_read.specs.Reading.{definition_of};
ghost use Rattle.table_read.specs.Tables.{table_said};
ghost use Rattle.table_read.specs.Verdict.{judged, table_of};
ghost use Rattle.table_read.specs.Answers.{AnswersDefinition, Reads};

use crate::columns::columns;
use crate::keys::written_keys;
use crate::places::keys;
use cdb_values::{AddFault, Name, Schema, TableDef};
use sql_grammar::CreateTable;
use sql_reader::{ReadStop, read_create};
use std::alloc::{AllocError, Global};
use thiserror::Error;

/// Why a text gave no table.
#[derive(Clone, Copy, Debug, PartialEq, Eq, Error)]
pub enum TableStop {
    /// The text is no definition of a table, or its table says something that no table may say: a
    /// name that is taken or stands twice, two primary keys among them, a key over an unknown
    /// column, or a unique key over a column that may hold NULL.
    #[error("the text is no lawful table")]
    Unlawful,
    /// A limit is passed: 64 tables, 64 columns, 8 keys or 8 columns of a key.
    #[error("a limit of tables is passed")]
    Limit,
    /// Want of memory.
    #[error("out of memory")]
    NoMemory,
}

/// Reads the table of a text behind the tables of a schema, adds it as the last one, and gives it.
/// The text has fewer than 2 ^ 32 bytes. An error leaves the schema as it was.
#[tactic(auto, unfolding(crate::specs::Verdict::table_of))]
pub fn read_table(alloc: Global, text: &str, schema: &mut Schema) -> Result<TableDef, TableStop>
    requires { length text.now < 2 ^ 32 }
    ensures gives { AnswersDefinition result (table_of schema.old text.now) }
    ensures added { IfOk result (λ table. schema.new ≡ schema.old ++ table ∷ []) }
    ensures unchanged { OnErr result (schema.new ≡ schema.old) }
{
    let definition = definition(alloc, text)?;
    let table = table(alloc, &definition).map_err(|_| TableStop::NoMemory)?;
    add(schema, table)
}

/// The definition that a text spells.
fn definition(alloc: Global, text: &str) -> Result<CreateTable, TableStop>
    requires { length text.now < 2 ^ 32 }
    ensures { Reads result (definition_of text.now) }
{
    match read_create(alloc, text) {
        Ok(found) => Ok(found),
        Err(ReadStop::Syntax { .. }) => Err(TableStop::Unlawful),
        Err(ReadStop::NoMemory) => Err(TableStop::NoMemory),
    }
}

/// The table that a definition says, or one that is refused as it is.
fn table(alloc: Global, definition: &CreateTable) -> Result<TableDef, AllocError>
    ensures { IfOk result (λ table. (tables : List TableDef) → judged tables table ≡ judged tables (table_said (definition_in definition.now))) }
{
    let parts = definition.parts.as_slice();
    let written = written_keys(alloc, parts)?;
    let columns = columns(alloc, written.as_slice(), parts)?;
    let keys = keys(alloc, columns.as_slice(), written.as_slice())?;
    Ok(TableDef {
        name: Name::copied(alloc, definition.name.as_bytes())?,
        columns,
        keys,
    })
}

/// Adds a table as the last one, and gives a copy of it.
fn add(schema: &mut Schema, table: TableDef) -> Result<TableDef, TableStop>
    ensures gives { AnswersDefinition result (judged schema.old table) }
    ensures added { IfOk result (λ copy. schema.new ≡ schema.old ++ copy ∷ []) }
    ensures unchanged { OnErr result (schema.new ≡ schema.old) }
{
    let copy = copied(&table).map_err(|_| TableStop::NoMemory)?;
    match schema.add(table) {
        Ok(()) => Ok(copy),
        Err(AddFault::Taken) => Err(TableStop::Unlawful),
        Err(AddFault::Unlawful) => Err(TableStop::Unlawful),
        Err(AddFault::Limit) => Err(TableStop::Limit),
        Err(AddFault::NoMemory) => Err(TableStop::NoMemory),
    }
}

/// A copy of a table.
fn copied(table: &TableDef) -> Result<TableDef, AllocError>
    ensures { IfOk result (λ copy. copy ≡ table.now) }
{
    table.clone()
}
