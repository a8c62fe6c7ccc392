//! A source over bytes in memory, which fails as planned.
ghost use Rattle.std.specs.Prelude.{◌≡◌, ◌<◌, ◌≤◌, ◌↔◌, Some, min, length, drop, IsErr, IfOk, OnOk, OnErr};
ghost use Rattle.std.specs.Io.{ReadsAtMost};
ghost use Rattle.std.specs.Io.KnownBytes.{ReadConsumes};
ghost use Rattle.cdb_outside.specs.Faults.{HasCause};
ghost use Rattle.cdb_outside.specs.Plans.{FailsNext, fresh, after_success, after_failure};
ghost use Rattle.cdb_outside.specs.Objects.{HeldSource};

use crate::faults::FaultPlan;
use crate::fronts::copy_front;
use crate::{Failed, Source};
use std::marker::Model;

/// A source of bytes in memory. Its reads are numbered from 1, and those of the plan fail.
#[derive(Drop)]
pub struct MemSource {
    bytes: Vec<u8>,
    given: usize,
    plan: FaultPlan,
}

impl Model for MemSource {
    ghost Value = { HeldSource };

    ghost view = { λ s. record { unread = drop s.given s.bytes.items; plan = s.plan } };

    ghost invariant = { λ s. s.given ≤ length s.bytes.items };
}

impl MemSource {
    /// A source of these bytes, whose reads with the numbers of `fails` fail.
    pub fn new(bytes: Vec<u8>, fails: Vec<u64>) -> MemSource
        ensures { result ≡ record { unread = bytes.items; plan = fresh fails.items } }
    {
        MemSource {
            bytes,
            given: 0,
            plan: FaultPlan::new(fails),
        }
    }
}

impl Source for MemSource {
    ghost left = { λ s. Some s.unread };

    ghost faults = { λ s. s.plan.failures };

    /// Gives as many bytes as the buffer has room for and are left.
    fn read(&mut self, buf: &mut [u8]) -> Result<usize, Failed>
        requires { 0 < length buf.old }
        ensures bound { ReadsAtMost result buf.new }
        ensures bytes { ReadConsumes (Some self.old.unread) (Some self.new.unread) result buf.new }
        ensures cause { HasCause self.old.plan.failures self.new.plan.failures result }

        ensures fails { IsErr result ↔ FailsNext self.old.plan }
        ensures count { IfOk result (λ n. n ≡ min (length buf.old) (length self.old.unread)) }
        ensures success { OnOk result (self.new.plan ≡ after_success self.old.plan) }
        ensures failure { OnErr result (self.new.plan ≡ after_failure self.old.plan) }
    {
        if self.plan.fails_next() {
            self.plan.count_failure();
            return Err(Failed);
        }
        self.plan.count_success();
        let count = copy_front(&self.bytes[self.given..], buf);
        self.given += count;
        Ok(count)
    }
}
