//! Turns, which pass from actor to actor with a note of what gave them.
ghost use Rattle.std.specs.Prelude.{ℕ, ◌≡◌, ◌+◌, ◌<◌, ◌^◌, ◌∷◌, ◌++◌, ◌↔◌, [], IsTrue, true};
ghost use Rattle.std.specs.Bool.{OnTrue, OnFalse};
ghost use Rattle.std.specs.List.{AllPass};
ghost use Rattle.actor_trace_tests.specs.declared.entries.Entry.TheVariants.{Add, Read};
ghost use Rattle.actor_trace_tests.specs.Entries.{is_below};
ghost use Rattle.actor_trace_tests.specs.Ledger.{gives};

use crate::entries::Entry;
use crate::ledger::Ledger;
use actor_trace::{Actor, Naming, Note, Trace};

/// A turn: its note tells that the counter came to `value`, and that the actor `to` got the turn then.
#[derive(Drop)]
pub struct Turn<N: Naming> {
    pub to: u32,
    pub value: u64,
    pub note: Note<Ledger, N>,
    pub ghost given: { gives value to note ≡ true },
}

/// The turn of actor 0 before anything is added.
pub fn first<N: Naming>(actor: &mut Actor<Ledger, N>, trace: &Trace<Ledger, N>) -> Turn<N>
    ensures same { (actor.new.number ≡ actor.old.number) × (actor.new.made ≡ actor.old.made) × (actor.new.room ≡ actor.old.room) }
    ensures turn { (result.to ≡ 0) × (result.value ≡ 0) }
{
    let note = actor.note(trace);
    Turn {
        to: 0,
        value: 0,
        note,
    }
}

/// The turn that the actor knows to be given, with a note of its own.
pub fn give<N: Naming>(
    actor: &mut Actor<Ledger, N>,
    trace: &Trace<Ledger, N>,
    value: u64,
    to: u32,
) -> Turn<N>
    requires { gives value to actor.old.seen ≡ true }
    ensures same { (actor.new.number ≡ actor.old.number) × (actor.new.made ≡ actor.old.made) × (actor.new.room ≡ actor.old.room) }
    ensures turn { (result.to ≡ to) × (result.value ≡ value) }
    ensures known { gives value to actor.new.seen ≡ true }
{
    let note = actor.note(trace);
    Turn { to, value, note }
}

/// Whether all adds are to a counter below that.
fn are_below(steps: &[(u64, Entry)], value: u64) -> bool
    ensures { IsTrue result ↔ AllPass (λ x. is_below value x.1) steps.now }
{
    steps.iter().all(|(_, entry)| entry.is_below(value))
}

/// Adds one, and gives the turn to `next`. `false`, with nothing done, exactly where the actor used this turn before, or the
/// counter is at its end.
pub fn add<N: Naming>(
    actor: &mut Actor<Ledger, N>,
    trace: &Trace<Ledger, N>,
    turn: Turn<N>,
    next: u32,
) -> bool
    requires room { 0 < actor.old.room }
    requires turn { turn.to ≡ actor.old.number }
    ensures when { IsTrue result ↔ ((turn.value + 1 < 2 ^ 64) × AllPass (λ x. is_below turn.value x.1) actor.old.made) }
    ensures number { actor.new.number ≡ actor.old.number }
    ensures added { OnTrue result ((k : ℕ) × (actor.new.made ≡ actor.old.made ++ (k, Add turn.value next) ∷ [])) }
    ensures room { OnTrue result (actor.new.room + 1 ≡ actor.old.room) }
    ensures given { OnTrue result (gives (turn.value + 1) next actor.new.seen ≡ true) }
    ensures same { OnFalse result ((actor.new.made ≡ actor.old.made) × (actor.new.room ≡ actor.old.room)) }
{
    if turn.value == u64::MAX || !are_below(actor.steps(), turn.value) {
        return false;
    }
    write(actor, trace, turn, next);
    true
}

/// Adds one in a turn that was not used.
fn write<N: Naming>(
    actor: &mut Actor<Ledger, N>,
    trace: &Trace<Ledger, N>,
    turn: Turn<N>,
    next: u32,
)
    requires room { 0 < actor.old.room }
    requires turn { turn.to ≡ actor.old.number }
    requires unused { AllPass (λ x. is_below turn.value x.1) actor.old.made }
    ensures same { (actor.new.number ≡ actor.old.number) × (actor.new.room + 1 ≡ actor.old.room) }
    ensures added { (k : ℕ) × (actor.new.made ≡ actor.old.made ++ (k, Add turn.value next) ∷ []) }
    ensures given { gives (turn.value + 1) next actor.new.seen ≡ true }
{
    let Turn { value, note, .. } = turn;
    actor.meet(trace, note);
    actor.knows();
    actor.step(trace, Entry::Add { value, next });
}

/// Says what the counter came to, by a turn that anybody got.
pub fn read<N: Naming>(actor: &mut Actor<Ledger, N>, trace: &Trace<Ledger, N>, turn: Turn<N>)
    requires { 0 < actor.old.room }
    ensures same { (actor.new.number ≡ actor.old.number) × (actor.new.room + 1 ≡ actor.old.room) }
    ensures read { (k : ℕ) × (actor.new.made ≡ actor.old.made ++ (k, Read turn.value) ∷ []) }
{
    let Turn { value, note, .. } = turn;
    actor.meet(trace, note);
    actor.step(trace, Entry::Read { value });
}
