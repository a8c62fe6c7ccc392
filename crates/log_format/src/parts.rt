//! The parts of a frame: each is written as its bytes, and read from the front of bytes.
ghost use Rattle.std.specs.Prelude.{ℕ, ◌≡◌, ◌++◌, List, IfOk, OnOk, MatchOption};
ghost use Rattle.std.specs.List.{flat_map, AllByRecursion};
ghost use Rattle.frame_code.specs.Codes.{few, many};
ghost use Rattle.frame_code.specs.Spelled.{AreFew, AreMany};
ghost use Rattle.frame_code.specs.Tells.{Tells, Lacks, Begins};
ghost use Rattle.log_format.specs.Lists.{AreParts};

use crate::numbers::take_number;
use byte_words::put_u64;
use cdb_values::List;
use std::alloc::{AllocError, Global};

/// What has a spelling.
pub(crate) trait Part: Drop + Sized {
    ghost code: { Self → List ℕ };

    ghost Has: { Self → Type 0 };

    /// Adds the bytes that stand for it.
    fn write(&self, alloc: Global, out: &mut Vec<u8>) -> Result<(), AllocError>
        requires { Has self.now }
        ensures { OnOk result (out.new.items ≡ out.old.items ++ code self.now) };

    /// The value whose bytes stand at the front, and the bytes behind them; `None` exactly where none stands there.
    fn read(alloc: Global, bytes: &[u8]) -> Result<Option<(Self, &[u8])>, AllocError>
        ensures { IfOk result (λ found. MatchOption found (Lacks code Has bytes.now)
            (λ p. Begins code Has p.0 p.1.now bytes.now)) };

    ghost tells: { Tells code Has };
}

impl<A: Part, B: Part> Part for (A, B) {
    ghost use Rattle.frame_code.proofs.FormLaws.{both, Both, both_tell};

    ghost code = { both A.code B.code };

    ghost Has = { Both A.Has B.Has };

    ghost tells = { both_tell A.code A.Has B.code B.Has A.tells B.tells };

    fn write(&self, alloc: Global, out: &mut Vec<u8>) -> Result<(), AllocError> {
        self.0.write(alloc, out)?;
        self.1.write(alloc, out)
    }

    fn read(alloc: Global, bytes: &[u8]) -> Result<Option<((A, B), &[u8])>, AllocError> {
        let Some((first, rest)) = A::read(alloc, bytes)? else {
            return Ok(None);
        };
        let Some((second, rest)) = B::read(alloc, rest)? else {
            return Ok(None);
        };
        Ok(Some(((first, second), rest)))
    }
}

/// Adds the bytes of these parts, one behind the other.
pub(crate) fn write_parts<T: Part>(
    alloc: Global,
    out: &mut Vec<u8>,
    parts: &[T],
) -> Result<(), AllocError>
    requires { AllByRecursion T.Has parts.now }
    ensures { OnOk result (out.new.items ≡ out.old.items ++ flat_map T.code parts.now) }
{
    let mut rest = parts;
    'parts: while let Some((part, others)) = rest.split_first() {
        part.write(alloc, out)?;
        rest = others;
    }
    Ok(())
}

/// As many parts as `count` says from the front of the bytes; `None` exactly where there are fewer.
fn read_parts<T: Part>(
    alloc: Global,
    count: u64,
    bytes: &[u8],
) -> Result<Option<(List<T>, &[u8])>, AllocError>
    ensures { IfOk result (λ found. MatchOption found (Lacks (flat_map T.code) (AreParts T.Has count) bytes.now)
        (λ p. Begins (flat_map T.code) (AreParts T.Has count) p.0 p.1.now bytes.now)) }
{
    let mut parts = List::new(alloc);
    let mut rest = bytes;
    'parts: while (parts.len() as u64) < count {
        match T::read(alloc, rest)? {
            None => return Ok(None),
            Some((part, others)) => {
                parts.push(part)?;
                rest = others;
            }
        }
    }
    Ok(Some((parts, rest)))
}

/// Adds parts behind their number in one byte.
pub(crate) fn write_few<T: Part>(
    alloc: Global,
    out: &mut Vec<u8>,
    parts: &List<T>,
) -> Result<(), AllocError>
    requires { AreFew T.Has parts.now }
    ensures { OnOk result (out.new.items ≡ out.old.items ++ few T.code parts.now) }
{
    out.push(parts.len() as u8)?;
    write_parts(alloc, out, parts.as_slice())
}

/// Reads parts behind their number in one byte; `None` exactly where none stand at the front.
pub(crate) fn read_few<T: Part>(
    alloc: Global,
    bytes: &[u8],
) -> Result<Option<(List<T>, &[u8])>, AllocError>
    ensures { IfOk result (λ found. MatchOption found (Lacks (few T.code) (AreFew T.Has) bytes.now)
        (λ p. Begins (few T.code) (AreFew T.Has) p.0 p.1.now bytes.now)) }
{
    let Some((count, rest)) = bytes.split_first() else {
        return Ok(None);
    };
    read_parts(alloc, *count as u64, rest)
}

/// Adds parts behind their number in eight bytes.
pub(crate) fn write_many<T: Part>(
    alloc: Global,
    out: &mut Vec<u8>,
    parts: &List<T>,
) -> Result<(), AllocError>
    requires { AreMany T.Has parts.now }
    ensures { OnOk result (out.new.items ≡ out.old.items ++ many T.code parts.now) }
{
    put_u64(out, parts.len() as u64)?;
    write_parts(alloc, out, parts.as_slice())
}

/// Reads parts behind their number in eight bytes; `None` exactly where none stand at the front.
pub(crate) fn read_many<T: Part>(
    alloc: Global,
    bytes: &[u8],
) -> Result<Option<(List<T>, &[u8])>, AllocError>
    ensures { IfOk result (λ found. MatchOption found (Lacks (many T.code) (AreMany T.Has) bytes.now)
        (λ p. Begins (many T.code) (AreMany T.Has) p.0 p.1.now bytes.now)) }
{
    let Some((count, rest)) = take_number(bytes) else {
        return Ok(None);
    };
    read_parts(alloc, count, rest)
}
