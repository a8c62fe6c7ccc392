//! Numbers of 1, 2, 8 and 16 bytes, and yes or no.
ghost use Rattle.std.specs.Prelude.{◌≡◌, ◌<◌, ◌++◌, OnOk, MatchOption};
ghost use Rattle.frame_code.specs.Codes.{number, two_bytes, sixteen_bytes};
ghost use Rattle.frame_code.specs.Spelled.{IsNumber, IsTwoBytes, IsSixteenBytes};
ghost use Rattle.frame_code.specs.Tells.{Lacks, Begins};

use crate::parts::Part;
use byte_words::{put_u16, put_u64, take_u64};
use byteorder::{BigEndian, ByteOrder};
use cdb_values::limits::POSITION_LIMIT;
use std::alloc::{AllocError, Global};

/// The number below 2^62 in the first 8 bytes, and the bytes behind it; `None` exactly where none stands there.
#[tactic(auto, using(crate::proofs::CountLemmas::no_number, crate::proofs::CountLemmas::great_number))]
pub(crate) fn take_number(bytes: &[u8]) -> Option<(u64, &[u8])>
    ensures { MatchOption result (Lacks number IsNumber bytes.now) (λ p. Begins number IsNumber p.0 p.1.now bytes.now) }
{
    let (found, rest) = take_u64(bytes)?;
    if found >= POSITION_LIMIT {
        return None;
    }
    Some((found, rest))
}

/// The number in the first 2 bytes, and the bytes behind it; `None` exactly where there are fewer.
#[tactic(auto, using(crate::proofs::CountLemmas::no_two_bytes))]
pub(crate) fn take_u16(bytes: &[u8]) -> Option<(u16, &[u8])>
    ensures { MatchOption result (Lacks two_bytes IsTwoBytes bytes.now)
        (λ p. Begins two_bytes IsTwoBytes p.0 p.1.now bytes.now) }
{
    if bytes.len() < 2 {
        return None;
    }
    let (digits, rest) = bytes.split_at(2);
    Some((BigEndian::read_u16(digits), rest))
}

/// The number in the first 16 bytes, and the bytes behind it; `None` exactly where there are fewer.
#[tactic(auto, using(crate::proofs::CountLemmas::no_sixteen_bytes))]
fn take_u128(bytes: &[u8]) -> Option<(u128, &[u8])>
    ensures { MatchOption result (Lacks sixteen_bytes IsSixteenBytes bytes.now)
        (λ p. Begins sixteen_bytes IsSixteenBytes p.0 p.1.now bytes.now) }
{
    if bytes.len() < 16 {
        return None;
    }
    let (digits, rest) = bytes.split_at(16);
    Some((BigEndian::read_u128(digits), rest))
}

/// Adds the 16 bytes of a number, the highest first.
fn put_u128(out: &mut Vec<u8>, n: u128) -> Result<(), AllocError>
    ensures { OnOk result (out.new.items ≡ out.old.items ++ sixteen_bytes n) }
{
    let mut digits = [0u8; 16];
    BigEndian::write_u128(&mut digits, n);
    out.extend_from_slice(&digits)
}

impl Part for u8 {
    ghost use Rattle.frame_code.specs.Codes.{byte};
    ghost use Rattle.frame_code.specs.Spelled.{IsByte};
    ghost use Rattle.frame_code.proofs.FormLaws.{bytes_tell};

    ghost code = { byte };

    ghost Has = { IsByte };

    ghost tells = { bytes_tell };

    fn write(&self, _alloc: Global, out: &mut Vec<u8>) -> Result<(), AllocError> {
        out.push(*self)?;
        Ok(())
    }

    fn read(_alloc: Global, bytes: &[u8]) -> Result<Option<(u8, &[u8])>, AllocError> {
        match bytes.split_first() {
            None => Ok(None),
            Some((first, rest)) => Ok(Some((*first, rest))),
        }
    }
}

impl Part for u16 {
    ghost use Rattle.frame_code.specs.Codes.{two_bytes};
    ghost use Rattle.frame_code.specs.Spelled.{IsTwoBytes};
    ghost use Rattle.frame_code.proofs.FormLaws.{two_bytes_tell};

    ghost code = { two_bytes };

    ghost Has = { IsTwoBytes };

    ghost tells = { two_bytes_tell };

    fn write(&self, _alloc: Global, out: &mut Vec<u8>) -> Result<(), AllocError> {
        put_u16(out, *self)
    }

    fn read(_alloc: Global, bytes: &[u8]) -> Result<Option<(u16, &[u8])>, AllocError> {
        Ok(take_u16(bytes))
    }
}

impl Part for u64 {
    ghost use Rattle.frame_code.specs.Codes.{number};
    ghost use Rattle.frame_code.specs.Spelled.{IsNumber};
    ghost use Rattle.frame_code.proofs.FormLaws.{numbers_tell};

    ghost code = { number };

    ghost Has = { IsNumber };

    ghost tells = { numbers_tell };

    fn write(&self, _alloc: Global, out: &mut Vec<u8>) -> Result<(), AllocError> {
        put_u64(out, *self)
    }

    fn read(_alloc: Global, bytes: &[u8]) -> Result<Option<(u64, &[u8])>, AllocError> {
        Ok(take_number(bytes))
    }
}

impl Part for u128 {
    ghost use Rattle.frame_code.specs.Codes.{sixteen_bytes};
    ghost use Rattle.frame_code.specs.Spelled.{IsSixteenBytes};
    ghost use Rattle.frame_code.proofs.FormLaws.{sixteen_bytes_tell};

    ghost code = { sixteen_bytes };

    ghost Has = { IsSixteenBytes };

    ghost tells = { sixteen_bytes_tell };

    fn write(&self, _alloc: Global, out: &mut Vec<u8>) -> Result<(), AllocError> {
        put_u128(out, *self)
    }

    fn read(_alloc: Global, bytes: &[u8]) -> Result<Option<(u128, &[u8])>, AllocError> {
        Ok(take_u128(bytes))
    }
}

impl Part for bool {
    ghost use Rattle.frame_code.specs.Codes.{flag};
    ghost use Rattle.frame_code.proofs.FormLaws.{Any, flags_tell};

    ghost code = { flag };

    ghost Has = { λ b. Any b };

    ghost tells = { flags_tell };

    fn write(&self, _alloc: Global, out: &mut Vec<u8>) -> Result<(), AllocError> {
        out.push(if *self { 1 } else { 0 })?;
        Ok(())
    }

    fn read(_alloc: Global, bytes: &[u8]) -> Result<Option<(bool, &[u8])>, AllocError> {
        match bytes.split_first() {
            Some((0, rest)) => Ok(Some((false, rest))),
            Some((1, rest)) => Ok(Some((true, rest))),
            _ => Ok(None),
        }
    }
}
