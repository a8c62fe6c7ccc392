//! Where bytes go to, and writing all of a text there.
ghost use Rattle.std.specs.Prelude.{◌≡◌, ◌<◌, ◌≤◌, ℕ, List, Option, length, IfOk, OnOk, OnErr};
ghost use Rattle.std.specs.Io.{WritesAtMost};
ghost use Rattle.std.specs.Io.KnownBytes.{WriteAppends, Appends};
ghost use Rattle.cdb_outside.specs.Faults.{HasCause};
ghost use Rattle.cdb_outside.specs.Parts.{AppendsFront};

use crate::Failed;

/// Bytes that are written once, from first to last.
pub trait Sink {
    /// The bytes that it took. `None`: it does not tell.
    ghost taken: { Self → Option (List ℕ) };

    /// How many of its calls have failed. It rises exactly in a call that fails.
    ghost faults: { Self → ℕ };

    /// Takes a front of the bytes, at least one byte where there is one, and says how many. `Failed`
    /// takes none.
    fn write(&mut self, bytes: &[u8]) -> Result<usize, Failed>
        ensures bound { WritesAtMost result bytes.now }
        ensures some { 0 < length bytes.now → IfOk result (λ n. 0 < n) }
        ensures bytes { WriteAppends (taken self.old) (taken self.new) result bytes.now }
        ensures cause { HasCause (faults self.old) (faults self.new) result };
}

/// Writes all of the bytes. `Failed` where a write failed; then the sink took a front of them.
pub fn write_whole<K: Sink>(sink: &mut K, bytes: &[u8]) -> Result<(), Failed>
    ensures whole { OnOk result (Appends (K.taken sink.old) (K.taken sink.new) bytes.now) }
    ensures part { OnErr result (AppendsFront (K.taken sink.old) (K.taken sink.new) bytes.now) }
    ensures cause { HasCause (K.faults sink.old) (K.faults sink.new) result }
{
    let mut written = 0;
    while written < bytes.len() {
        written += sink.write(&bytes[written..])?;
    }
    Ok(())
}
