ghost use Rattle.std.specs.Prelude.{ℕ, ◌≡◌, ◌+◌, IfOk, []};
ghost use Rattle.actor_trace.specs.Actors.{fresh, IsBlank};
ghost use Rattle.actor_trace.specs.Views.{a_view};
ghost use Rattle.actor_trace.specs.Lists.{deal};

use crate::actor::Actor;
use crate::machine::Machine;
use crate::naming::Naming;
use crate::rule::{Deal, OneHistory};
use crate::trace::{Board, Trace};
use crate::view::View;
use atomic_table::{Seat, Shared, Table};
use std::alloc::{AllocError, Global};
use std::marker::{Model, PhantomData};

/// An empty history that has no name yet. A name is picked for its table, at the call of a function that calls `named`.
#[derive(Drop)]
pub struct OpenedTrace<M: Machine> {
    table: Board<M>,
    seat: Seat<(), View<M::Event>>,
    actors: u32,
}

impl<M: Machine> Model for OpenedTrace<M> {
    ghost use Rattle.actor_trace.specs.Opening.{Opening, IsOpened};

    ghost Value = { Opening };

    ghost view = { λ o. record { table = o.table.shared.table_id; actors = o.actors } };

    ghost invariant = { λ o. IsOpened o.table.shared.table_id o.table.shared.key o.actors o.seat.table_id o.seat.me };
}

impl<M: Machine> OpenedTrace<M> {
    /// An empty history for that many actors.
    pub fn new(alloc: Global, actors: u32) -> Result<OpenedTrace<M>, AllocError>
        ensures { IfOk result (λ o. o.actors ≡ actors) }
    {
        let (table, seat) = Table::of_words(alloc, &[0], &actors)?;
        Ok(OpenedTrace {
            table,
            seat,
            actors,
        })
    }

    /// The trace under a name, and its actors, in the order of their numbers.
    pub fn named<J: Naming>(
        self,
        alloc: Global,
    ) -> Result<(Trace<M, J>, Vec<Actor<M, J>>), AllocError>
        requires name { (self.table ≡ J.table) × (self.actors ≡ J.actors) }
        ensures actors { IfOk result (λ r. r.1.items ≡ fresh J.actors) }
        ensures blank { IfOk result (λ r. IsBlank r.1.items) }
    {
        let OpenedTrace {
            table,
            mut seat,
            actors: count,
        } = self;
        let mut actors = Vec::new(alloc);
        for number in 0..count {
            let actor = first_actor(&table.shared, &mut seat, number, alloc);
            actors.push(actor)?;
        }
        Ok((
            Trace {
                table,
                actors: count,
                of: PhantomData,
            },
            actors,
        ))
    }
}

fn first_actor<M: Machine, J: Naming>(
    shared: &Shared<(), View<M::Event>, u32, OneHistory<M>>,
    seat: &mut Seat<(), View<M::Event>>,
    number: u32,
    alloc: Global,
) -> Actor<M, J>
    requires table { (seat.old.table_id ≡ shared.now.table_id) × (shared.now.table_id.words ≡ 1) × (shared.now.table_id ≡ J.table) }
    requires seat { (n : ℕ) × (seat.old.me ≡ (a_view (deal number (n + 1)) [] [], [])) }
    ensures same { (seat.new.table_id ≡ seat.old.table_id) × (seat.new.id ≡ seat.old.id) }
    ensures rest { (n : ℕ) → seat.old.me ≡ (a_view (deal number (n + 1)) [] [], []) → seat.new.me ≡ (a_view (deal (number + 1) n) [] [], []) }
    ensures actor { result ≡ record { number = number; made = []; seen = []; room = 0 } }
{
    Actor {
        number,
        made: Vec::new(alloc),
        room: 0,
        seat: shared.split_seat::<Deal>(seat),
        of: PhantomData,
    }
}
