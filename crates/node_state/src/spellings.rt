//! Whether entries have spellings, so that a store can keep them.
ghost use Rattle.std.specs.Prelude.{◌≡◌, ◌++◌, ◌∷◌, [], IsTrue, IfOk, None};
ghost use Rattle.cdb_values.specs.Tables.{add_fault};
ghost use Rattle.entry_spelling.specs.Fields.{IsGrown};
ghost use Rattle.frame_code.specs.Spelled.{Grow, IsSpelled};
ghost use Rattle.frame_code.specs.declared.frames.Frame.TheVariants as frame;
ghost use Rattle.node_log.specs.Logged.{AreSpelled};

use cdb_values::{AddFault, Schema, TableDef};
use entry_spelling::has_spelling;
use phys_log::Entry;
use std::alloc::{AllocError, Global};

/// Whether an entry has a spelling. Of a setup the tables are added to a schema, one after the other.
pub(crate) fn is_spelled(alloc: Global, entry: &Entry) -> Result<bool, AllocError>
    ensures { IfOk result (λ b. IsTrue b → IsSpelled (frame.Entry entry.now)) }
{
    Ok(has_spelling(entry) && is_grown(alloc, entry)?)
}

/// Whether the tables of a setup can be added one after the other.
fn is_grown(alloc: Global, entry: &Entry) -> Result<bool, AllocError>
    ensures { IfOk result (λ b. IsTrue b → IsGrown entry.now) }
{
    match entry {
        Entry::Setup { schema, .. } => can_grow(alloc, schema),
        Entry::Commit { .. } => Ok(true),
    }
}

/// Whether the tables of a schema can be added one after the other.
fn can_grow(alloc: Global, tables: &Schema) -> Result<bool, AllocError>
    ensures { IfOk result (λ b. IsTrue b → Grow [] tables.now) }
{
    let mut schema = Schema::new(alloc);
    let mut rest = tables.tables();
    'tables: while let Some((table, behind)) = rest.split_first() {
        if !grow(&mut schema, table.clone()?)? {
            return Ok(false);
        }
        rest = behind;
    }
    Ok(true)
}

/// Adds a table to a schema, where it can be added.
fn grow(schema: &mut Schema, table: TableDef) -> Result<bool, AllocError>
    ensures { IfOk result (λ b. IsTrue b → (add_fault schema.old table ≡ None) × (schema.new ≡ schema.old ++ table ∷ [])) }
{
    match schema.add(table) {
        Ok(()) => Ok(true),
        Err(AddFault::NoMemory) => Err(AllocError),
        Err(_) => Ok(false),
    }
}

/// Whether each of these has a spelling.
pub(crate) fn are_spelled(alloc: Global, entries: &[Entry]) -> Result<bool, AllocError>
    ensures { IfOk result (λ b. IsTrue b → AreSpelled entries.now) }
{
    let mut rest = entries;
    'entries: while let Some((entry, behind)) = rest.split_first() {
        if !is_spelled(alloc, entry)? {
            return Ok(false);
        }
        rest = behind;
    }
    Ok(true)
}
