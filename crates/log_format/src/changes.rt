//! The changes of a commit.
ghost use Rattle.std.specs.Prelude.{◌≡◌, ◌∷◌, ◌++◌, IfOk, OnOk, MatchOption};
ghost use Rattle.frame_code.specs.Codes.{two_bytes, number, stored_row, change_code};
ghost use Rattle.frame_code.specs.Spelled.{IsStoredRow, IsChange};
ghost use Rattle.frame_code.specs.Tells.{Lacks, Begins};

use crate::parts::{Part, read_many, write_many};
use byte_words::{put_u16, put_u64};
use cdb_values::{Change, List, Row};
use std::alloc::{AllocError, Global};

/// The table, the genid and the row of an insert or of a delete.
type OneRow = (u16, (u64, Row));

/// The table, the old genid, the old row, the genid and the row of an update.
type TwoRows = (u16, (u64, (Row, (u64, Row))));

/// Adds a genid and a row.
fn write_version(alloc: Global, out: &mut Vec<u8>, genid: u64, row: &Row) -> Result<(), AllocError>
    requires { IsStoredRow row.now }
    ensures { OnOk result (out.new.items ≡ out.old.items ++ (number genid ++ stored_row row.now)) }
{
    put_u64(out, genid)?;
    row.write(alloc, out)
}

/// Adds a table, a genid and a row.
fn write_row(
    alloc: Global,
    out: &mut Vec<u8>,
    table: u16,
    genid: u64,
    row: &Row,
) -> Result<(), AllocError>
    requires { IsStoredRow row.now }
    ensures { OnOk result (out.new.items ≡ out.old.items ++ (two_bytes table ++ (number genid ++ stored_row row.now))) }
{
    put_u16(out, table)?;
    write_version(alloc, out, genid, row)
}

impl Part for Change {
    ghost use Rattle.frame_code.specs.Codes.{change_code};
    ghost use Rattle.frame_code.specs.Spelled.{IsChange};
    ghost use Rattle.frame_code.proofs.PartLaws.{changes_tell};

    ghost code = { change_code };

    ghost Has = { IsChange };

    ghost tells = { changes_tell };

    fn write(&self, alloc: Global, out: &mut Vec<u8>) -> Result<(), AllocError> {
        match self {
            Change::Insert { table, genid, row } => {
                out.push(1)?;
                write_row(alloc, out, *table, *genid, row)
            }
            Change::Update {
                table,
                old_genid,
                old,
                genid,
                row,
            } => {
                out.push(2)?;
                write_row(alloc, out, *table, *old_genid, old)?;
                write_version(alloc, out, *genid, row)
            }
            Change::Delete {
                table,
                old_genid,
                old,
            } => {
                out.push(3)?;
                write_row(alloc, out, *table, *old_genid, old)
            }
        }
    }

    fn read(alloc: Global, bytes: &[u8]) -> Result<Option<(Change, &[u8])>, AllocError> {
        let Some((tag, rest)) = bytes.split_first() else {
            return Ok(None);
        };
        match *tag {
            1 => read_insert(alloc, rest),
            2 => read_update(alloc, rest),
            3 => read_delete(alloc, rest),
            _ => Ok(None),
        }
    }
}

/// The change whose bytes are the tag of an insert and the front of these.
fn read_insert(alloc: Global, rest: &[u8]) -> Result<Option<(Change, &[u8])>, AllocError>
    ensures { IfOk result (λ found. MatchOption found (Lacks change_code IsChange (1 ∷ rest.now))
        (λ p. Begins change_code IsChange p.0 p.1.now (1 ∷ rest.now))) }
{
    let Some((parts, behind)) = OneRow::read(alloc, rest)? else {
        return Ok(None);
    };
    let (table, (genid, row)) = parts;
    Ok(Some((Change::Insert { table, genid, row }, behind)))
}

/// The change whose bytes are the tag of an update and the front of these.
fn read_update(alloc: Global, rest: &[u8]) -> Result<Option<(Change, &[u8])>, AllocError>
    ensures { IfOk result (λ found. MatchOption found (Lacks change_code IsChange (2 ∷ rest.now))
        (λ p. Begins change_code IsChange p.0 p.1.now (2 ∷ rest.now))) }
{
    let Some((parts, behind)) = TwoRows::read(alloc, rest)? else {
        return Ok(None);
    };
    let (table, (old_genid, (old, (genid, row)))) = parts;
    let found = Change::Update {
        table,
        old_genid,
        old,
        genid,
        row,
    };
    Ok(Some((found, behind)))
}

/// The change whose bytes are the tag of a delete and the front of these.
fn read_delete(alloc: Global, rest: &[u8]) -> Result<Option<(Change, &[u8])>, AllocError>
    ensures { IfOk result (λ found. MatchOption found (Lacks change_code IsChange (3 ∷ rest.now))
        (λ p. Begins change_code IsChange p.0 p.1.now (3 ∷ rest.now))) }
{
    let Some((parts, behind)) = OneRow::read(alloc, rest)? else {
        return Ok(None);
    };
    let (table, (old_genid, old)) = parts;
    let found = Change::Delete {
        table,
        old_genid,
        old,
    };
    Ok(Some((found, behind)))
}

impl Part for List<Change> {
    ghost use Rattle.frame_code.specs.Codes.{many, change_code};
    ghost use Rattle.frame_code.specs.Spelled.{AreMany, IsChange};
    ghost use Rattle.frame_code.proofs.FormLaws.{many_tell};
    ghost use Rattle.frame_code.proofs.PartLaws.{changes_tell};

    ghost code = { many change_code };

    ghost Has = { λ cs. AreMany IsChange cs };

    ghost tells = { many_tell change_code IsChange changes_tell };

    fn write(&self, alloc: Global, out: &mut Vec<u8>) -> Result<(), AllocError> {
        write_many(alloc, out, self)
    }

    fn read(alloc: Global, bytes: &[u8]) -> Result<Option<(List<Change>, &[u8])>, AllocError> {
        read_many::<Change>(alloc, bytes)
    }
}
