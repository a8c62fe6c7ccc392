//! Schemas: tables, their columns and their keys.
ghost use Rattle.std.specs.Prelude.{◌<◌, None, true, false, IfOk, MatchOption};
ghost use Rattle.std.specs.List.{flat_map};
ghost use Rattle.frame_code.specs.Codes.{table_code};
ghost use Rattle.frame_code.specs.Tells.{Lacks, Begins};
ghost use Rattle.log_format.specs.Lists.{AreTables, IsGrown};

use crate::numbers::take_u16;
use crate::parts::{Part, read_few, write_few, write_parts};
use byte_words::put_u16;
use cdb_values::{AddFault, ColumnDef, ColumnType, KeyDef, List, Name, Schema, TableDef};
use std::alloc::{AllocError, Global};

impl Part for ColumnType {
    ghost use Rattle.frame_code.specs.Codes.{type_code};
    ghost use Rattle.frame_code.proofs.FormLaws.{Any};
    ghost use Rattle.frame_code.proofs.PartLaws.{types_tell};

    ghost code = { type_code };

    ghost Has = { λ t. Any t };

    ghost tells = { types_tell };

    fn write(&self, _alloc: Global, out: &mut Vec<u8>) -> Result<(), AllocError> {
        let kind = match self {
            ColumnType::Integer => 1,
            ColumnType::Text => 2,
            ColumnType::Blob => 3,
        };
        out.push(kind)?;
        Ok(())
    }

    fn read(_alloc: Global, bytes: &[u8]) -> Result<Option<(ColumnType, &[u8])>, AllocError> {
        match bytes.split_first() {
            Some((1, rest)) => Ok(Some((ColumnType::Integer, rest))),
            Some((2, rest)) => Ok(Some((ColumnType::Text, rest))),
            Some((3, rest)) => Ok(Some((ColumnType::Blob, rest))),
            _ => Ok(None),
        }
    }
}

/// A column's name, type and whether NULL may stand in it.
type ColumnParts = (Name, (ColumnType, bool));

impl Part for ColumnDef {
    ghost use Rattle.frame_code.specs.Codes.{column_code};
    ghost use Rattle.frame_code.specs.Spelled.{IsColumn};
    ghost use Rattle.frame_code.proofs.PartLaws.{columns_tell};

    ghost code = { column_code };

    ghost Has = { IsColumn };

    ghost tells = { columns_tell };

    fn write(&self, alloc: Global, out: &mut Vec<u8>) -> Result<(), AllocError> {
        self.name.write(alloc, out)?;
        self.kind.write(alloc, out)?;
        self.nullable.write(alloc, out)
    }

    fn read(alloc: Global, bytes: &[u8]) -> Result<Option<(ColumnDef, &[u8])>, AllocError> {
        let Some((parts, rest)) = ColumnParts::read(alloc, bytes)? else {
            return Ok(None);
        };
        let (name, (kind, nullable)) = parts;
        let found = ColumnDef {
            name,
            kind,
            nullable,
        };
        Ok(Some((found, rest)))
    }
}

impl Part for List<ColumnDef> {
    ghost use Rattle.frame_code.specs.Codes.{few, column_code};
    ghost use Rattle.frame_code.specs.Spelled.{AreFew, IsColumn};
    ghost use Rattle.frame_code.proofs.FormLaws.{few_tell};
    ghost use Rattle.frame_code.proofs.PartLaws.{columns_tell};

    ghost code = { few column_code };

    ghost Has = { λ cs. AreFew IsColumn cs };

    ghost tells = { few_tell column_code IsColumn columns_tell };

    fn write(&self, alloc: Global, out: &mut Vec<u8>) -> Result<(), AllocError> {
        write_few(alloc, out, self)
    }

    fn read(alloc: Global, bytes: &[u8]) -> Result<Option<(List<ColumnDef>, &[u8])>, AllocError> {
        read_few::<ColumnDef>(alloc, bytes)
    }
}

impl Part for List<u8> {
    ghost use Rattle.frame_code.specs.Codes.{few, byte};
    ghost use Rattle.frame_code.specs.Spelled.{AreFew, IsByte};
    ghost use Rattle.frame_code.proofs.FormLaws.{few_tell, bytes_tell};

    ghost code = { few byte };

    ghost Has = { λ places. AreFew IsByte places };

    ghost tells = { few_tell byte IsByte bytes_tell };

    fn write(&self, alloc: Global, out: &mut Vec<u8>) -> Result<(), AllocError> {
        write_few(alloc, out, self)
    }

    fn read(alloc: Global, bytes: &[u8]) -> Result<Option<(List<u8>, &[u8])>, AllocError> {
        read_few::<u8>(alloc, bytes)
    }
}

/// A key's name, whether it is unique, and its columns.
type KeyParts = (Name, (bool, List<u8>));

impl Part for KeyDef {
    ghost use Rattle.frame_code.specs.Codes.{index_code};
    ghost use Rattle.frame_code.specs.Spelled.{IsIndex};
    ghost use Rattle.frame_code.proofs.PartLaws.{indexes_tell};

    ghost code = { index_code };

    ghost Has = { IsIndex };

    ghost tells = { indexes_tell };

    fn write(&self, alloc: Global, out: &mut Vec<u8>) -> Result<(), AllocError> {
        self.name.write(alloc, out)?;
        self.unique.write(alloc, out)?;
        self.columns.write(alloc, out)
    }

    fn read(alloc: Global, bytes: &[u8]) -> Result<Option<(KeyDef, &[u8])>, AllocError> {
        let Some((parts, rest)) = KeyParts::read(alloc, bytes)? else {
            return Ok(None);
        };
        let (name, (unique, columns)) = parts;
        let found = KeyDef {
            name,
            columns,
            unique,
        };
        Ok(Some((found, rest)))
    }
}

impl Part for List<KeyDef> {
    ghost use Rattle.frame_code.specs.Codes.{few, index_code};
    ghost use Rattle.frame_code.specs.Spelled.{AreFew, IsIndex};
    ghost use Rattle.frame_code.proofs.FormLaws.{few_tell};
    ghost use Rattle.frame_code.proofs.PartLaws.{indexes_tell};

    ghost code = { few index_code };

    ghost Has = { λ ks. AreFew IsIndex ks };

    ghost tells = { few_tell index_code IsIndex indexes_tell };

    fn write(&self, alloc: Global, out: &mut Vec<u8>) -> Result<(), AllocError> {
        write_few(alloc, out, self)
    }

    fn read(alloc: Global, bytes: &[u8]) -> Result<Option<(List<KeyDef>, &[u8])>, AllocError> {
        read_few::<KeyDef>(alloc, bytes)
    }
}

/// A table's name, its columns and its keys.
type TableParts = (Name, (List<ColumnDef>, List<KeyDef>));

impl Part for TableDef {
    ghost use Rattle.frame_code.specs.Codes.{table_code};
    ghost use Rattle.frame_code.specs.Spelled.{IsTable};
    ghost use Rattle.frame_code.proofs.PartLaws.{tables_tell};

    ghost code = { table_code };

    ghost Has = { IsTable };

    ghost tells = { tables_tell };

    fn write(&self, alloc: Global, out: &mut Vec<u8>) -> Result<(), AllocError> {
        self.name.write(alloc, out)?;
        self.columns.write(alloc, out)?;
        self.keys.write(alloc, out)
    }

    fn read(alloc: Global, bytes: &[u8]) -> Result<Option<(TableDef, &[u8])>, AllocError> {
        let Some((parts, rest)) = TableParts::read(alloc, bytes)? else {
            return Ok(None);
        };
        let (name, (columns, keys)) = parts;
        let found = TableDef {
            name,
            columns,
            keys,
        };
        Ok(Some((found, rest)))
    }
}

/// Adds a table to a schema; `false` exactly where the schema refuses it, and is then as before.
fn grow(schema: &mut Schema, table: TableDef) -> Result<bool, AllocError>
    ensures { IfOk result (λ grown. IsGrown grown schema.old table schema.new) }
{
    match schema.add(table) {
        Ok(()) => Ok(true),
        Err(AddFault::NoMemory) => Err(AllocError),
        Err(AddFault::Taken) => Ok(false),
        Err(AddFault::Unlawful) => Ok(false),
        Err(AddFault::Limit) => Ok(false),
    }
}

/// The schema of so many tables at the front of the bytes; `None` exactly where none stands there.
fn read_tables(
    alloc: Global,
    count: u64,
    bytes: &[u8],
) -> Result<Option<(Schema, &[u8])>, AllocError>
    ensures { IfOk result (λ found. MatchOption found (Lacks (flat_map table_code) (AreTables count) bytes.now)
        (λ p. Begins (flat_map table_code) (AreTables count) p.0 p.1.now bytes.now)) }
{
    let mut schema = Schema::new(alloc);
    let mut rest = bytes;
    'tables: while (schema.tables().len() as u64) < count {
        let Some((table, others)) = TableDef::read(alloc, rest)? else {
            return Ok(None);
        };
        if !grow(&mut schema, table)? {
            return Ok(None);
        }
        rest = others;
    }
    Ok(Some((schema, rest)))
}

impl Part for Schema {
    ghost use Rattle.frame_code.specs.Codes.{schema_code};
    ghost use Rattle.frame_code.specs.Spelled.{IsSchema};
    ghost use Rattle.frame_code.proofs.PartLaws.{schemas_tell};

    ghost code = { schema_code };

    ghost Has = { IsSchema };

    ghost tells = { schemas_tell };

    fn write(&self, alloc: Global, out: &mut Vec<u8>) -> Result<(), AllocError> {
        put_u16(out, self.tables().len() as u16)?;
        write_parts(alloc, out, self.tables())
    }

    fn read(alloc: Global, bytes: &[u8]) -> Result<Option<(Schema, &[u8])>, AllocError> {
        let Some((count, rest)) = take_u16(bytes) else {
            return Ok(None);
        };
        read_tables(alloc, count as u64, rest)
    }
}
