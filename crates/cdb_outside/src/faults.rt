//! A call that failed, and the plan by which an object in memory fails.
ghost use Rattle.std.specs.Prelude.{◌≡◌, ◌≤◌, ◌↔◌, ℕ, List, IsTrue};
ghost use Rattle.cdb_outside.specs.Plans.{Planned, FailsNext, fresh, after_success, after_failure};

use std::marker::Model;
use thiserror::Error;

/// A call of the outside failed. It comes only where the object's count of faults rose in that call.
#[derive(Clone, Copy, Debug, PartialEq, Eq, Error)]
#[error("the call failed")]
pub struct Failed;

/// Which calls of an object in memory fail, and how many were made and failed.
#[derive(Drop)]
pub(crate) struct FaultPlan {
    fails: Vec<u64>,
    made: u64,
    faults: u64,
}

impl Model for FaultPlan {
    ghost Value = { Planned };

    ghost view = { λ p. record { failing = p.fails.items; calls = p.made; failures = p.faults } };
}

impl FaultPlan {
    /// A plan by which the calls with these numbers fail. The first call has the number 1.
    pub(crate) fn new(fails: Vec<u64>) -> Self
        ensures { result ≡ fresh fails.items }
    {
        FaultPlan {
            fails,
            made: 0,
            faults: 0,
        }
    }

    /// Whether the next call is to fail.
    pub(crate) fn fails_next(&self) -> bool
        ensures { IsTrue result ↔ FailsNext self.now }
    {
        match self.made.checked_add(1) {
            Some(number) => self.fails.contains(&number),
            None => false,
        }
    }

    /// Counts a call that did not fail.
    pub(crate) fn count_success(&mut self)
        ensures { self.new ≡ after_success self.old }
    {
        self.made = self.made.saturating_add(1);
    }

    /// Counts a call that failed.
    pub(crate) fn count_failure(&mut self)
        ensures after { self.new ≡ after_failure self.old }
        ensures later { self.old.failures ≤ self.new.failures }
    {
        self.made = self.made.saturating_add(1);
        self.faults = self.faults.saturating_add(1);
    }
}
