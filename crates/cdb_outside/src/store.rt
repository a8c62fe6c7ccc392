//! Where a node keeps its log.
ghost use Rattle.std.specs.Prelude.{◌≡◌, ◌<◌, ◌≤◌, ℕ, List, [], ◌++◌, length, take, IfOk, OnOk, OnErr};
ghost use Rattle.std.specs.Io.{ReadsAtMost};
ghost use Rattle.cdb_outside.specs.Faults.{HasCause, Rose};
ghost use Rattle.cdb_outside.specs.Parts.{IsFront, IsFrontFrom};
ghost use Rattle.cdb_outside.specs.Stores.{GivesFrom, JoinsFront};

use crate::Failed;

/// Bytes that outlive a stop once they are synced.
pub trait LogStore {
    /// The bytes whose sync was acknowledged, and those that a stop kept.
    ghost synced: { Self → List ℕ };

    /// The bytes that were appended since, of which a stop keeps some front.
    ghost pending: { Self → List ℕ };

    /// How many of its calls have failed. It rises exactly in a call that fails.
    ghost faults: { Self → ℕ };

    /// How many calls of `append`, `sync` and `cut` were made, failed or not. Whoever finds it as it was knows that nobody
    /// wrote to the store since.
    ghost writes: { Self → ℕ };

    /// Reads synced bytes from the offset `at` on into the front of the buffer and says how many: at
    /// least one where there is one and the buffer has room, and none past the end.
    fn read(&mut self, at: u64, buf: &mut [u8]) -> Result<usize, Failed>
        ensures bound { ReadsAtMost result buf.new }
        ensures given { GivesFrom (synced self.old) at result buf.new }
        ensures some { at < length (synced self.old) → 0 < length buf.old → IfOk result (λ n. 0 < n) }
        ensures synced { synced self.new ≡ synced self.old }
        ensures pending { pending self.new ≡ pending self.old }
        ensures unwritten { writes self.new ≡ writes self.old }
        ensures cause { HasCause (faults self.old) (faults self.new) result };

    /// Adds the bytes to the pending ones. After `Failed` a front of the old pending bytes and these is
    /// pending.
    fn append(&mut self, bytes: &[u8]) -> Result<(), Failed>
        ensures appended { OnOk result (pending self.new ≡ pending self.old ++ bytes.now) }
        ensures part { OnErr result (IsFront (pending self.new) (pending self.old ++ bytes.now)) }
        ensures synced { synced self.new ≡ synced self.old }
        ensures wrote { Rose (writes self.old) (writes self.new) }
        ensures cause { HasCause (faults self.old) (faults self.new) result };

    /// Makes the pending bytes synced. After `Failed` the synced bytes are as before, and a front of the
    /// pending ones is pending.
    fn sync(&mut self) -> Result<(), Failed>
        ensures joined { OnOk result (synced self.new ≡ synced self.old ++ pending self.old) }
        ensures settled { OnOk result (pending self.new ≡ []) }
        ensures synced { OnErr result (synced self.new ≡ synced self.old) }
        ensures part { OnErr result (IsFront (pending self.new) (pending self.old)) }
        ensures wrote { Rose (writes self.old) (writes self.new) }
        ensures cause { HasCause (faults self.old) (faults self.new) result };

    /// Leaves the first `at` synced bytes, synced. After `Failed` more of their front may be left.
    fn cut(&mut self, at: u64) -> Result<(), Failed>
        requires settled { pending self.old ≡ [] }
        requires within { at ≤ length (synced self.old) }
        ensures cut { OnOk result (synced self.new ≡ take at (synced self.old)) }
        ensures part { OnErr result (IsFrontFrom at (synced self.new) (synced self.old)) }
        ensures settled { pending self.new ≡ [] }
        ensures wrote { Rose (writes self.old) (writes self.new) }
        ensures cause { HasCause (faults self.old) (faults self.new) result };

    /// Stops the node that the store belongs to: a front of the pending bytes becomes synced, and the
    /// rest is gone.
    fn halt(&mut self)
        ensures joined { JoinsFront (synced self.old) (pending self.old) (synced self.new) }
        ensures settled { pending self.new ≡ [] }
        ensures calm { faults self.new ≡ faults self.old }
        ensures unwritten { writes self.new ≡ writes self.old };
}
