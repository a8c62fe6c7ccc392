//! What actors write into the ledger.
ghost use Rattle.std.specs.Prelude.{◌≡◌};
ghost use Rattle.actor_trace_tests.specs.Entries.{is_below};

/// What an actor does in one step.
#[derive(Clone, Copy, Debug, PartialEq, Eq)]
pub enum Entry {
    /// Adds one to a counter that stands at `value`, and gives the turn to the actor `next`.
    Add { value: u64, next: u32 },
    /// Says that the counter came to `value`.
    Read { value: u64 },
}

impl Entry {
    /// Whether it adds to a counter that stands below that, or does not add.
    pub fn is_below(&self, count: u64) -> bool
        ensures { result ≡ is_below count self.now }
    {
        match self {
            Entry::Add { value, .. } => *value < count,
            Entry::Read { .. } => true,
        }
    }
}
