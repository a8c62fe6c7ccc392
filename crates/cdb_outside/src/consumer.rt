//! Who is told of changed rows.
ghost use Rattle.std.specs.Prelude.{◌≤◌, ℕ, List, Option};

use cdb_values::Change;

/// One changed row of a committed transaction.
#[derive(Clone, Drop)]
pub struct RowEvent {
    /// The place of the transaction's entry in the log, from 1.
    pub position: u64,
    /// What was changed.
    pub change: Change,
}

/// What a consumer made of an event.
#[derive(Clone, Copy, Debug, PartialEq, Eq)]
pub enum Taken {
    /// It took the event.
    Took,
    /// It failed and did not take it. This comes only where its count of faults rose in that call.
    Failed,
}

/// One who is told of changed rows, in order. A boxed one is dropped when it is replaced, or at the end
/// by its owner.
pub trait Consumer: Drop {
    ghost use Rattle.cdb_outside.specs.declared.consumer.RowEvent.{RowEvent};
    ghost use Rattle.cdb_outside.specs.Consumers.{Offers, FailsByCount};

    /// The events that it took, in order. `None`: it does not tell.
    ghost taken: { Self → Option (List RowEvent) };

    /// How many of its calls have failed. It rises exactly in a call that fails.
    ghost faults: { Self → ℕ };

    /// Offers one event.
    fn offer(&mut self, event: &RowEvent) -> Taken
        ensures events { Offers (taken self.old) (taken self.new) event.now result }
        ensures later { faults self.old ≤ faults self.new }
        ensures failed { FailsByCount (faults self.old) (faults self.new) result };
}
