ghost use Rattle.std.specs.Prelude.{◌≡◌};

use crate::actor::Actor;
use crate::machine::Machine;
use crate::naming::Naming;
use crate::trace::Trace;
use std::marker::Model;

/// A closed history. Contracts see it as a list of each event with its actor, the oldest first: the place of an event is its
/// ticket.
#[derive(Drop)]
pub struct History<M: Machine> {
    pub(crate) events: Vec<(u32, M::Event)>,
}

impl<M: Machine> Model for History<M> {
    ghost use Rattle.std.specs.Prelude.{ℕ, List};

    ghost Value = { List (ℕ × M.Event) };

    ghost view = { λ h. h.events.items };
}

impl<M: Machine> History<M> {
    /// The events, the oldest first.
    pub fn events(&self) -> &[(u32, M::Event)]
        ensures { result.now ≡ self.now }
    {
        self.events.as_slice()
    }

    /// The events, the oldest first.
    pub fn into_events(self) -> Vec<(u32, M::Event)>
        ensures { result.items ≡ self }
    {
        self.events
    }
}

/// What a close for which there was no memory hands back.
#[derive(Drop)]
pub struct Closed<M: Machine, J: Naming> {
    pub trace: Trace<M, J>,
    pub actors: Vec<Actor<M, J>>,
}
