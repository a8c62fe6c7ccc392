ghost use Rattle.std.specs.Prelude.{ℕ, ◌≡◌, ◌+◌, ◌<◌, ◌++◌, ◌∷◌, [], List, length, map};
ghost use Rattle.std.specs.List.{range_with_len};
ghost use Rattle.actor_trace.specs.History.{IsLegal, entries_of};
ghost use Rattle.actor_trace_tests.specs.Counts.{IsNext};

use actor_trace::{Actor, Machine, Naming, Trace};

/// A machine whose actors each count from 0 on.
pub struct Counters;

impl Machine for Counters {
    ghost use Rattle.actor_trace_tests.specs.Counts.{IsNext, next_stays};

    type Event = u64;

    ghost enabled = { λ h i n. IsNext h i n };

    ghost known = { λ later h i n legal own next. next_stays later h i n own next };
}

/// In each legal history an actor's events are 0, 1, 2 and on, in this order.
pub fn each_counts()
    ensures { (h : List (ℕ × ℕ)) (i : ℕ) → IsLegal (λ g j n. IsNext g j n) h
        → map (λ x. x.1) (entries_of i h) ≡ range_with_len 0 (length (entries_of i h)) }
{}

/// Counts one further, and answers the ticket.
pub fn count<N: Naming>(actor: &mut Actor<Counters, N>, trace: &Trace<Counters, N>) -> u64
    requires { 0 < actor.old.room }
    ensures same { (actor.new.number ≡ actor.old.number) × (actor.new.room + 1 ≡ actor.old.room) }
    ensures counted { actor.new.made ≡ actor.old.made ++ (result, length actor.old.made) ∷ [] }
{
    actor.knows();
    let next = actor.steps().len() as u64;
    actor.step(trace, next)
}
