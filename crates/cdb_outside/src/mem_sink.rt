//! A sink in memory, which fails as planned.
ghost use Rattle.std.specs.Prelude.{◌≡◌, ◌<◌, Some, [], ◌++◌, length, IsErr, IfOk, OnOk, OnErr};
ghost use Rattle.std.specs.Io.{WritesAtMost};
ghost use Rattle.std.specs.Io.KnownBytes.{WriteAppends};
ghost use Rattle.cdb_outside.specs.Faults.{HasCause};
ghost use Rattle.cdb_outside.specs.Plans.{FailsNext, fresh, after_success, after_failure};
ghost use Rattle.cdb_outside.specs.Objects.{HeldSink};

use crate::faults::FaultPlan;
use crate::{Failed, Sink};
use std::alloc::Global;
use std::marker::Model;

/// A sink that keeps what it took in memory. Its writes are numbered from 1, and those of the plan
/// fail.
#[derive(Drop)]
pub struct MemSink {
    bytes: Vec<u8>,
    plan: FaultPlan,
}

impl Model for MemSink {
    ghost Value = { HeldSink };

    ghost view = { λ s. record { written = s.bytes.items; plan = s.plan } };
}

impl MemSink {
    /// A sink that took nothing yet, whose writes with the numbers of `fails` fail.
    pub fn new(alloc: Global, fails: Vec<u64>) -> MemSink
        ensures { result ≡ record { written = []; plan = fresh fails.items } }
    {
        MemSink {
            bytes: Vec::new(alloc),
            plan: FaultPlan::new(fails),
        }
    }

    /// The bytes that it took.
    pub fn taken(&self) -> &[u8]
        ensures { result.now ≡ self.now.written }
    {
        self.bytes.as_slice()
    }
}

impl Sink for MemSink {
    ghost taken = { λ s. Some s.written };

    ghost faults = { λ s. s.plan.failures };

    /// Takes all of the bytes. `Failed` where the plan says so, or where no memory is found for them.
    fn write(&mut self, bytes: &[u8]) -> Result<usize, Failed>
        ensures bound { WritesAtMost result bytes.now }
        ensures some { 0 < length bytes.now → IfOk result (λ n. 0 < n) }
        ensures bytes { WriteAppends (Some self.old.written) (Some self.new.written) result bytes.now }
        ensures cause { HasCause self.old.plan.failures self.new.plan.failures result }

        ensures fails { FailsNext self.old.plan → IsErr result }
        ensures all { IfOk result (λ n. n ≡ length bytes.now) }
        ensures success { OnOk result (self.new.plan ≡ after_success self.old.plan) }
        ensures failure { OnErr result (self.new.plan ≡ after_failure self.old.plan) }
    {
        if self.plan.fails_next() || self.bytes.extend_from_slice(bytes).is_err() {
            self.plan.count_failure();
            return Err(Failed);
        }
        self.plan.count_success();
        Ok(bytes.len())
    }
}
