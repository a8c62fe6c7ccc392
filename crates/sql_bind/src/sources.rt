//! The tables of a statement, looked up in a schema.
ghost use Rattle.std.specs.Prelude.{◌≡◌, false, map, IfOk, IfErr};
ghost use Rattle.std.specs.List.{list_any};
ghost use Rattle.cdb_values.specs.Named.{table_named};
ghost use Rattle.sql_grammar.specs.Views.{name_in, source_in};
ghost use Rattle.sql_bind.specs.Answers.{Misses};
ghost use Rattle.sql_bind.specs.Scope.{is_unknown_table, visible, visible_at, target as target_of};
ghost use Rattle.sql_bind.specs.Seen.{visible_in};

use crate::faults::BindFault;
use crate::scope::VisibleTable;
use cdb_values::{Name, Schema};
use sql_grammar::FromTable;
use std::alloc::{AllocError, Global};

/// A table of the schema, under a name.
fn found<'a>(
    alloc: Global,
    schema: &'a Schema,
    table: &[u8],
    name: &'a [u8],
) -> Result<VisibleTable<'a>, BindFault>
    ensures found { IfOk result (λ v. visible_in v ≡ visible_at name.now (table_named schema.now table.now)) }
    ensures known { IfOk result (λ v. is_unknown_table schema.now table.now ≡ false) }
    ensures refused { IfErr result (λ fault. Misses fault (is_unknown_table schema.now table.now)) }
{
    let table = Name::copied(alloc, table)?;
    match schema.named(&table) {
        Some(found) => Ok(VisibleTable {
            place: found.place,
            name,
            table: found.table,
        }),
        None => Err(BindFault::Table),
    }
}

/// The table of INSERT, UPDATE or DELETE.
pub(crate) fn target<'a>(
    alloc: Global,
    schema: &'a Schema,
    table: &'a Name,
) -> Result<VisibleTable<'a>, BindFault>
    ensures found { IfOk result (λ v. visible_in v ≡ target_of schema.now (name_in table.now)) }
    ensures known { IfOk result (λ v. is_unknown_table schema.now (name_in table.now) ≡ false) }
    ensures refused { IfErr result (λ fault. Misses fault (is_unknown_table schema.now (name_in table.now))) }
{
    found(alloc, schema, table.as_bytes(), table.as_bytes())
}

/// A table of FROM. An alias hides the table's name.
fn source<'a>(
    alloc: Global,
    schema: &'a Schema,
    source: &'a FromTable,
) -> Result<VisibleTable<'a>, BindFault>
    ensures found { IfOk result (λ v. visible_in v ≡ visible schema.now (source_in source.now)) }
    ensures known { IfOk result (λ v. is_unknown_table schema.now (source_in source.now).table ≡ false) }
    ensures refused { IfErr result (λ fault. Misses fault (is_unknown_table schema.now (source_in source.now).table)) }
{
    let table = source.table.as_bytes();
    match &source.alias {
        Some(alias) => found(alloc, schema, table, alias.as_bytes()),
        None => found(alloc, schema, table, table),
    }
}

/// The tables of FROM, in order.
pub(crate) fn sources<'a>(
    alloc: Global,
    schema: &'a Schema,
    tables: &'a [FromTable],
) -> Result<Vec<VisibleTable<'a>>, BindFault>
    ensures found { IfOk result (λ found. map visible_in found.items ≡ map (visible schema.now) (map source_in tables.now)) }
    ensures known { IfOk result (λ found. list_any (is_unknown_table schema.now) (map (λ s. s.table) (map source_in tables.now)) ≡ false) }
    ensures refused { IfErr result (λ fault. Misses fault (list_any (is_unknown_table schema.now) (map (λ s. s.table) (map source_in tables.now)))) }
{
    let mut found = Vec::new(alloc);
    'tables: for table in tables {
        let table = source(alloc, schema, table)?;
        found.push(table)?;
    }
    Ok(found)
}

/// The names by which the columns of these tables may be called.
pub(crate) fn names_of<'a>(
    alloc: Global,
    tables: &[VisibleTable<'a>],
) -> Result<Vec<&'a [u8]>, AllocError>
    ensures { IfOk result (λ names. map (λ n. n.now) names.items ≡ map (λ v. v.name) (map visible_in tables.now)) }
{
    let mut names = Vec::new(alloc);
    'tables: for table in tables {
        names.push(table.name)?;
    }
    Ok(names)
}
