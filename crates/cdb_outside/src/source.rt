//! Where bytes come from, and reading them to their end or to a limit.
ghost use Rattle.std.specs.Prelude.{◌≡◌, ◌+◌, ◌<◌, ◌≤◌, ℕ, List, Option, length, IfOk, OnOk, OnErr, IsErrOf};
ghost use Rattle.std.specs.Io.{ReadsAtMost};
ghost use Rattle.std.specs.Io.KnownBytes.{ReadConsumes, Consumes, IsAtEnd};
ghost use Rattle.cdb_outside.specs.Faults.{HasCause, Rose};
ghost use Rattle.cdb_outside.specs.Parts.{ConsumesSome};

use crate::Failed;
use std::alloc::Global;
use thiserror::Error;

/// Bytes that are read once, from first to last.
pub trait Source {
    /// The bytes that it has left to give. `None`: it does not tell.
    ghost left: { Self → Option (List ℕ) };

    /// How many of its calls have failed. It rises exactly in a call that fails.
    ghost faults: { Self → ℕ };

    /// Reads at least one byte into the front of the buffer and says how many, or none at the end, where
    /// none is left. `Failed` takes no byte.
    fn read(&mut self, buf: &mut [u8]) -> Result<usize, Failed>
        requires { 0 < length buf.old }
        ensures bound { ReadsAtMost result buf.new }
        ensures bytes { ReadConsumes (left self.old) (left self.new) result buf.new }
        ensures cause { HasCause (faults self.old) (faults self.new) result };
}

/// Why a source was not read to its end or to the limit.
#[derive(Clone, Copy, Debug, PartialEq, Eq, Error)]
pub enum SourceStop {
    /// A read of the source failed.
    #[error("a read of the source failed")]
    Fault,
    /// No memory was found for the bytes.
    #[error("out of memory")]
    NoMemory,
}

/// How many bytes one read asks at most.
const PIECE: usize = 4096;

/// Reads the source to its end, or up to one byte more than `limit`, so that an answer of at most
/// `limit` bytes is all that the source had. `Fault` where a read failed.
pub fn read_up_to<S: Source>(
    alloc: Global,
    source: &mut S,
    limit: usize,
) -> Result<Vec<u8>, SourceStop>
    ensures bytes { IfOk result (λ v. Consumes (S.left source.old) (S.left source.new) v.items) }
    ensures whole { IfOk result (λ v. length v.items ≤ limit → IsAtEnd (S.left source.new)) }
    ensures within { IfOk result (λ v. length v.items ≤ limit + 1) }

    ensures lost { OnErr result (ConsumesSome (S.left source.old) (S.left source.new)) }
    ensures calm { OnOk result (S.faults source.new ≡ S.faults source.old) }
    ensures memory { IsErrOf result SourceStop.NoMemory → S.faults source.new ≡ S.faults source.old }
    ensures later { S.faults source.old ≤ S.faults source.new }
    ensures fault { IsErrOf result SourceStop.Fault → Rose (S.faults source.old) (S.faults source.new) }
{
    let mut bytes = Vec::new(alloc);
    let mut piece = [0u8; PIECE];
    while bytes.len() <= limit {
        let room = (limit - bytes.len()).min(PIECE - 1) + 1;
        let Ok(count) = source.read(&mut piece[..room]) else {
            return Err(SourceStop::Fault);
        };
        if count == 0 {
            return Ok(bytes);
        }
        if bytes.extend_from_slice(&piece[..count]).is_err() {
            return Err(SourceStop::NoMemory);
        }
    }
    Ok(bytes)
}
