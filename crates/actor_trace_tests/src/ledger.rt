//! A counter with a ledger of who may add next, as a machine.
ghost use Rattle.std.specs.Prelude.{ℕ, ◌≡◌, ◌++◌, ◌∷◌, [], List};
ghost use Rattle.std.specs.List.{range_with_len};
ghost use Rattle.actor_trace.specs.History.{IsLegal};
ghost use Rattle.actor_trace_tests.specs.declared.entries.Entry.{Entry};
ghost use Rattle.actor_trace_tests.specs.Ledger.{count_of, turn_of, values_of, adders_of, named_of, MayWrite};

use crate::entries::Entry;
use actor_trace::Machine;

/// The machine: who has the turn may add one, and names who has it next. Each actor may read what the counter came to.
pub struct Ledger;

impl Machine for Ledger {
    ghost use Rattle.actor_trace_tests.specs.Ledger.{MayWrite};
    ghost use Rattle.actor_trace_tests.specs.Still.{stays};

    type Event = Entry;

    ghost enabled = { λ h i e. MayWrite h i e };

    ghost known = { λ later h i e legal own may. stays later h i e legal own may };
}

/// In each legal history the numbers to which one was added are 0, 1, 2 and on. Actor 0 added first, and each other add is by
/// whom the add before it named.
pub fn each_adds_in_turn()
    ensures values { (h : List (ℕ × Entry)) → IsLegal (λ g i e. MayWrite g i e) h
        → values_of h ≡ range_with_len 0 (count_of h) }
    ensures turns { (h : List (ℕ × Entry)) → IsLegal (λ g i e. MayWrite g i e) h
        → adders_of h ++ turn_of h ∷ [] ≡ 0 ∷ named_of h }
{}
