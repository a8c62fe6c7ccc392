//! Rows in memory that are gone at one call.
ghost use Rattle.std.specs.Prelude.{◌≡◌, IfOk};
ghost use Rattle.plan_run.specs.Sources.{last_count};

use cdb_values::{Interval, List, Schema, TableDef, Version};
use plan_run::{MemRows, RowFault, RowSource};
use std::alloc::{AllocError, Global};

/// Rows in memory that are gone at one call.
#[derive(Drop)]
pub(crate) struct Fleeting {
    pub rows: MemRows,
    /// The call at which they are gone, counted from the next one as 1; 0 where they stay.
    pub gone: u64,
}

impl Fleeting {
    /// Whether they are gone at this call.
    fn are_gone(&mut self) -> bool
        ensures { self.new.rows ≡ self.old.rows }
    {
        let are_gone = self.gone == 1;
        self.gone = self.gone.saturating_sub(1);
        are_gone
    }
}

impl RowSource for Fleeting {
    ghost tables = { λ s. s.rows.tables };

    ghost versions = { λ s. s.rows.versions };

    // It does not count them: the last value stands for any count.
    ghost losses = { λ _. last_count };

    fn rows(&mut self, alloc: Global, table: u16) -> Result<List<Version>, RowFault> {
        if self.are_gone() {
            return Err(RowFault::Gone);
        }
        self.rows.rows(alloc, table)
    }

    fn between(&mut self, alloc: Global, interval: &Interval) -> Result<List<Version>, RowFault> {
        if self.are_gone() {
            return Err(RowFault::Gone);
        }
        self.rows.between(alloc, interval)
    }
}

/// The rows of the tables of a schema.
pub(crate) fn rows_of(
    alloc: Global,
    schema: &Schema,
    versions: &[List<Version>],
) -> Result<MemRows, AllocError>
    ensures { IfOk result (λ rows. rows.tables ≡ schema.now) }
{
    Ok(MemRows {
        tables: copied(alloc, schema.tables())?,
        versions: List::from_vec(versions.to_vec(alloc)?),
    })
}

/// Copies of tables.
fn copied(alloc: Global, tables: &[TableDef]) -> Result<List<TableDef>, AllocError>
    ensures { IfOk result (λ copies. copies ≡ tables.now) }
{
    let mut copies = List::new(alloc);
    let mut rest = tables;
    'tables: while let Some((table, others)) = rest.split_first() {
        copies.push(copied_table(table)?)?;
        rest = others;
    }
    Ok(copies)
}

/// A copy of a table.
fn copied_table(table: &TableDef) -> Result<TableDef, AllocError>
    ensures { IfOk result (λ copy. copy ≡ table.now) }
{
    table.clone()
}
