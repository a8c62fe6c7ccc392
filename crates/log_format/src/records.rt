//! Records, their edits, and the heads of pages.
ghost use Rattle.std.specs.Prelude.{◌≡◌, ◌∷◌, ◌++◌, IfOk, OnOk, MatchOption};
ghost use Rattle.frame_code.specs.Codes.{two_bytes, cell_code, head_code, edit_code};
ghost use Rattle.frame_code.specs.Spelled.{IsCellBytes, IsHead, IsEdit};
ghost use Rattle.frame_code.specs.Tells.{Lacks, Begins};

use crate::parts::{Part, read_many, write_many};
use byte_words::{put_u16, put_u64};
use cdb_values::List;
use page_store::{Cell, Edit, Head, PageKind};
use phys_log::LogRecord;
use std::alloc::{AllocError, Global};

impl Part for PageKind {
    ghost use Rattle.frame_code.specs.Codes.{kind_code};
    ghost use Rattle.frame_code.proofs.FormLaws.{Any};
    ghost use Rattle.frame_code.proofs.PartLaws.{kinds_tell};

    ghost code = { kind_code };

    ghost Has = { λ k. Any k };

    ghost tells = { kinds_tell };

    fn write(&self, _alloc: Global, out: &mut Vec<u8>) -> Result<(), AllocError> {
        let kind = match self {
            PageKind::Free => 0,
            PageKind::Leaf => 1,
            PageKind::Inner => 2,
            PageKind::Meta => 3,
        };
        out.push(kind)?;
        Ok(())
    }

    fn read(_alloc: Global, bytes: &[u8]) -> Result<Option<(PageKind, &[u8])>, AllocError> {
        match bytes.split_first() {
            Some((0, rest)) => Ok(Some((PageKind::Free, rest))),
            Some((1, rest)) => Ok(Some((PageKind::Leaf, rest))),
            Some((2, rest)) => Ok(Some((PageKind::Inner, rest))),
            Some((3, rest)) => Ok(Some((PageKind::Meta, rest))),
            _ => Ok(None),
        }
    }
}

/// A head's kind, level and right link.
type HeadParts = (PageKind, (u8, u64));

impl Part for Head {
    ghost use Rattle.frame_code.specs.Codes.{head_code};
    ghost use Rattle.frame_code.specs.Spelled.{IsHead};
    ghost use Rattle.frame_code.proofs.PartLaws.{heads_tell};

    ghost code = { head_code };

    ghost Has = { IsHead };

    ghost tells = { heads_tell };

    fn write(&self, alloc: Global, out: &mut Vec<u8>) -> Result<(), AllocError> {
        self.kind.write(alloc, out)?;
        out.push(self.level)?;
        put_u64(out, self.right)
    }

    fn read(alloc: Global, bytes: &[u8]) -> Result<Option<(Head, &[u8])>, AllocError> {
        let Some((parts, rest)) = HeadParts::read(alloc, bytes)? else {
            return Ok(None);
        };
        let (kind, (level, right)) = parts;
        Ok(Some((Head { kind, level, right }, rest)))
    }
}

/// Adds a place and a cell.
fn write_placed(alloc: Global, out: &mut Vec<u8>, at: u16, cell: &Cell) -> Result<(), AllocError>
    requires { IsCellBytes cell.now }
    ensures { OnOk result (out.new.items ≡ out.old.items ++ (two_bytes at ++ cell_code cell.now)) }
{
    put_u16(out, at)?;
    cell.write(alloc, out)
}

/// Adds two heads.
fn write_heads(
    alloc: Global,
    out: &mut Vec<u8>,
    before: &Head,
    after: &Head,
) -> Result<(), AllocError>
    requires before { IsHead before.now }
    requires after { IsHead after.now }
    ensures { OnOk result (out.new.items ≡ out.old.items ++ (head_code before.now ++ head_code after.now)) }
{
    before.write(alloc, out)?;
    after.write(alloc, out)
}

impl Part for Edit {
    ghost use Rattle.frame_code.specs.Codes.{edit_code};
    ghost use Rattle.frame_code.specs.Spelled.{IsEdit};
    ghost use Rattle.frame_code.proofs.PartLaws.{edits_tell};

    ghost code = { edit_code };

    ghost Has = { IsEdit };

    ghost tells = { edits_tell };

    fn write(&self, alloc: Global, out: &mut Vec<u8>) -> Result<(), AllocError> {
        match self {
            Edit::PutCell { at, cell } => {
                out.push(1)?;
                write_placed(alloc, out, *at, cell)
            }
            Edit::TakeCell { at, cell } => {
                out.push(2)?;
                write_placed(alloc, out, *at, cell)
            }
            Edit::SwapCell { at, before, after } => {
                out.push(3)?;
                write_placed(alloc, out, *at, before)?;
                after.write(alloc, out)
            }
            Edit::SetHead { before, after } => {
                out.push(4)?;
                write_heads(alloc, out, before, after)
            }
        }
    }

    fn read(alloc: Global, bytes: &[u8]) -> Result<Option<(Edit, &[u8])>, AllocError> {
        let Some((tag, rest)) = bytes.split_first() else {
            return Ok(None);
        };
        match *tag {
            1 => read_put(alloc, rest),
            2 => read_take(alloc, rest),
            3 => read_swap(alloc, rest),
            4 => read_heads(alloc, rest),
            _ => Ok(None),
        }
    }
}

/// The edit whose bytes are the tag of a put and the front of these.
fn read_put(alloc: Global, rest: &[u8]) -> Result<Option<(Edit, &[u8])>, AllocError>
    ensures { IfOk result (λ found. MatchOption found (Lacks edit_code IsEdit (1 ∷ rest.now))
        (λ p. Begins edit_code IsEdit p.0 p.1.now (1 ∷ rest.now))) }
{
    let Some((parts, behind)) = <(u16, Cell)>::read(alloc, rest)? else {
        return Ok(None);
    };
    let (at, cell) = parts;
    Ok(Some((Edit::PutCell { at, cell }, behind)))
}

/// The edit whose bytes are the tag of a take and the front of these.
fn read_take(alloc: Global, rest: &[u8]) -> Result<Option<(Edit, &[u8])>, AllocError>
    ensures { IfOk result (λ found. MatchOption found (Lacks edit_code IsEdit (2 ∷ rest.now))
        (λ p. Begins edit_code IsEdit p.0 p.1.now (2 ∷ rest.now))) }
{
    let Some((parts, behind)) = <(u16, Cell)>::read(alloc, rest)? else {
        return Ok(None);
    };
    let (at, cell) = parts;
    Ok(Some((Edit::TakeCell { at, cell }, behind)))
}

/// A swap's place, the cell before and the cell after.
type SwapParts = (u16, (Cell, Cell));

/// The edit whose bytes are the tag of a swap and the front of these.
fn read_swap(alloc: Global, rest: &[u8]) -> Result<Option<(Edit, &[u8])>, AllocError>
    ensures { IfOk result (λ found. MatchOption found (Lacks edit_code IsEdit (3 ∷ rest.now))
        (λ p. Begins edit_code IsEdit p.0 p.1.now (3 ∷ rest.now))) }
{
    let Some((parts, behind)) = SwapParts::read(alloc, rest)? else {
        return Ok(None);
    };
    let (at, (before, after)) = parts;
    Ok(Some((Edit::SwapCell { at, before, after }, behind)))
}

/// The edit whose bytes are the tag of heads and the front of these.
fn read_heads(alloc: Global, rest: &[u8]) -> Result<Option<(Edit, &[u8])>, AllocError>
    ensures { IfOk result (λ found. MatchOption found (Lacks edit_code IsEdit (4 ∷ rest.now))
        (λ p. Begins edit_code IsEdit p.0 p.1.now (4 ∷ rest.now))) }
{
    let Some((parts, behind)) = <(Head, Head)>::read(alloc, rest)? else {
        return Ok(None);
    };
    let (before, after) = parts;
    Ok(Some((Edit::SetHead { before, after }, behind)))
}

/// A record's LSN, LSN before, page and edit.
type RecordParts = (u64, (u64, (u64, Edit)));

impl Part for LogRecord {
    ghost use Rattle.frame_code.specs.Codes.{record_code};
    ghost use Rattle.frame_code.specs.Spelled.{IsRecord};
    ghost use Rattle.frame_code.proofs.PartLaws.{records_tell};

    ghost code = { record_code };

    ghost Has = { IsRecord };

    ghost tells = { records_tell };

    fn write(&self, alloc: Global, out: &mut Vec<u8>) -> Result<(), AllocError> {
        put_u64(out, self.lsn)?;
        put_u64(out, self.prev)?;
        put_u64(out, self.page)?;
        self.edit.write(alloc, out)
    }

    fn read(alloc: Global, bytes: &[u8]) -> Result<Option<(LogRecord, &[u8])>, AllocError> {
        let Some((parts, rest)) = RecordParts::read(alloc, bytes)? else {
            return Ok(None);
        };
        let (lsn, (prev, (page, edit))) = parts;
        let found = LogRecord {
            lsn,
            prev,
            page,
            edit,
        };
        Ok(Some((found, rest)))
    }
}

impl Part for List<LogRecord> {
    ghost use Rattle.frame_code.specs.Codes.{many, record_code};
    ghost use Rattle.frame_code.specs.Spelled.{AreMany, IsRecord};
    ghost use Rattle.frame_code.proofs.FormLaws.{many_tell};
    ghost use Rattle.frame_code.proofs.PartLaws.{records_tell};

    ghost code = { many record_code };

    ghost Has = { λ rs. AreMany IsRecord rs };

    ghost tells = { many_tell record_code IsRecord records_tell };

    fn write(&self, alloc: Global, out: &mut Vec<u8>) -> Result<(), AllocError> {
        write_many(alloc, out, self)
    }

    fn read(alloc: Global, bytes: &[u8]) -> Result<Option<(List<LogRecord>, &[u8])>, AllocError> {
        read_many::<LogRecord>(alloc, bytes)
    }
}
