//! Bytes behind their length: names, cells and rows.
ghost use Rattle.std.specs.Prelude.{◌≡◌, ◌++◌, ◌+◌, ◌<◌, length, MatchOption};

use crate::numbers::take_u16;
use crate::parts::Part;
use byte_words::{put_u16, put_u32, take_u32};
use cdb_values::{Name, Row};
use key_code::{decode_row, encode_row};
use page_store::Cell;
use std::alloc::{AllocError, Global};

/// So many bytes from the front, and the bytes behind them; `None` exactly where there are fewer.
fn take_bytes(size: u64, bytes: &[u8]) -> Option<(&[u8], &[u8])>
    ensures { MatchOption result (length bytes.now < size)
        (λ p. (length p.0.now ≡ size) × (p.0.now ++ p.1.now ≡ bytes.now)) }
{
    if (bytes.len() as u64) < size {
        return None;
    }
    Some(bytes.split_at(size as usize))
}

impl Part for Name {
    ghost use Rattle.frame_code.specs.Codes.{name_code};
    ghost use Rattle.frame_code.specs.Spelled.{IsNameBytes};
    ghost use Rattle.frame_code.proofs.PartLaws.{names_tell};

    ghost code = { name_code };

    ghost Has = { IsNameBytes };

    ghost tells = { names_tell };

    fn write(&self, _alloc: Global, out: &mut Vec<u8>) -> Result<(), AllocError> {
        out.push(self.as_bytes().len() as u8)?;
        out.extend_from_slice(self.as_bytes())
    }

    fn read(alloc: Global, bytes: &[u8]) -> Result<Option<(Name, &[u8])>, AllocError> {
        let Some((size, rest)) = bytes.split_first() else {
            return Ok(None);
        };
        let Some((name, rest)) = take_bytes(*size as u64, rest) else {
            return Ok(None);
        };
        let name = Name::copied(alloc, name)?;
        Ok(Some((name, rest)))
    }
}

impl Part for Cell {
    ghost use Rattle.frame_code.specs.Codes.{cell_code};
    ghost use Rattle.frame_code.specs.Spelled.{IsCellBytes};
    ghost use Rattle.frame_code.proofs.PartLaws.{cells_tell};

    ghost code = { cell_code };

    ghost Has = { IsCellBytes };

    ghost tells = { cells_tell };

    fn write(&self, _alloc: Global, out: &mut Vec<u8>) -> Result<(), AllocError> {
        put_u16(out, self.len() as u16)?;
        out.extend_from_slice(self.as_slice())
    }

    fn read(alloc: Global, bytes: &[u8]) -> Result<Option<(Cell, &[u8])>, AllocError> {
        let Some((size, rest)) = take_u16(bytes) else {
            return Ok(None);
        };
        let Some((cell, rest)) = take_bytes(size as u64, rest) else {
            return Ok(None);
        };
        let cell = Cell::from_slice(alloc, cell)?;
        Ok(Some((cell, rest)))
    }
}

impl Part for Row {
    ghost use Rattle.frame_code.specs.Codes.{stored_row};
    ghost use Rattle.frame_code.specs.Spelled.{IsStoredRow};
    ghost use Rattle.frame_code.proofs.PartLaws.{rows_tell};

    ghost code = { stored_row };

    ghost Has = { IsStoredRow };

    ghost tells = { rows_tell };

    fn write(&self, alloc: Global, out: &mut Vec<u8>) -> Result<(), AllocError> {
        let code = encode_row(alloc, self)?;
        put_u32(out, code.as_bytes().len() as u32)?;
        out.extend_from_slice(code.as_bytes())
    }

    fn read(alloc: Global, bytes: &[u8]) -> Result<Option<(Row, &[u8])>, AllocError> {
        let Some((size, rest)) = take_u32(bytes) else {
            return Ok(None);
        };
        let Some((code, rest)) = take_bytes(size as u64, rest) else {
            return Ok(None);
        };
        let Some(row) = decode_row(alloc, code)? else {
            return Ok(None);
        };
        Ok(Some((row, rest)))
    }
}
