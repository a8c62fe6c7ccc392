//! A sink that fails by itself.
ghost use Rattle.std.specs.Prelude.{◌≡◌, ◌<◌, [], Some, length, IfOk};
ghost use Rattle.std.specs.Io.{WritesAtMost};
ghost use Rattle.std.specs.Io.KnownBytes.{WriteAppends};
ghost use Rattle.cdb_outside.specs.Faults.{HasCause};

use cdb_outside::{Failed, Sink};
use std::alloc::Global;

/// A sink that takes at most four bytes a call and so many in all, and then fails.
#[derive(Drop)]
pub(crate) struct NarrowSink {
    pub(crate) bytes: Vec<u8>,
    most: usize,
    faults: u64,
}

impl NarrowSink {
    /// A sink that took nothing yet.
    pub(crate) fn new(alloc: Global, most: usize) -> NarrowSink {
        NarrowSink {
            bytes: Vec::new(alloc),
            most,
            faults: 0,
        }
    }
}

impl Sink for NarrowSink {
    ghost taken = { λ s. Some s.bytes.items };

    ghost faults = { λ s. s.faults };

    fn write(&mut self, bytes: &[u8]) -> Result<usize, Failed>
        ensures bound { WritesAtMost result bytes.now }
        ensures some { 0 < length bytes.now → IfOk result (λ n. 0 < n) }
        ensures bytes { WriteAppends (Some self.old.bytes.items) (Some self.new.bytes.items) result bytes.now }
        ensures cause { HasCause self.old.faults self.new.faults result }
    {
        let room = self.most.saturating_sub(self.bytes.len()).min(4);
        let count = room.min(bytes.len());
        let refused = count == 0 && !bytes.is_empty();
        if refused || self.bytes.extend_from_slice(&bytes[..count]).is_err() {
            self.faults = self.faults.saturating_add(1);
            return Err(Failed);
        }
        Ok(count)
    }
}
