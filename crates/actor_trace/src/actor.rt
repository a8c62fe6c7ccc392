ghost use Rattle.std.specs.Prelude.{ℕ, ◌≡◌, ◌+◌, ◌<◌, ◌≤◌, ◌++◌, ◌∷◌, [], List, length, IfOk, OnErr};
ghost use Rattle.actor_trace.specs.Lists.{Begins};
ghost use Rattle.actor_trace.specs.History.{IsLegal, entries_of};
ghost use Rattle.actor_trace.specs.Steps.{Adds, Rests};
ghost use Rattle.actor_trace.specs.Plays.{Told};

use crate::machine::Machine;
use crate::naming::Naming;
use crate::note::Note;
use crate::rule::{Hear, Jot, Look, OneHistory, Tell, Telling};
use crate::trace::Trace;
use crate::view::View;
use atomic_table::{Seat, Shared};
use std::alloc::AllocError;
use std::marker::{Brand, Model, PhantomData};

const MOST: usize = 1 << 31;

/// One actor's seat, with its steps. Contracts see what it knows, and never what others did since.
#[derive(Drop)]
pub struct Actor<M: Machine, J: Naming> {
    pub(crate) number: u32,
    pub(crate) made: Vec<(u64, M::Event)>,
    pub(crate) room: u32,
    pub(crate) seat: Seat<(), View<M::Event>>,
    pub(crate) of: PhantomData<J>,
}

impl<M: Machine, J: Naming> Model for Actor<M, J> {
    ghost use Rattle.std.specs.Prelude.{◌≡◌, ◌-◌, ◌+◌, ◌≤◌, [], ◌∷◌, length, vec_capacity};
    ghost use Rattle.actor_trace.specs.Actors.{Knows};
    ghost use Rattle.actor_trace.specs.Seats.{IsActor};

    ghost Value = { Knows M.Event };

    ghost view = { λ a. record { number = a.number; made = a.made.items; seen = a.seat.me.0.seen; room = a.room } };

    ghost invariant = { λ a. IsActor M.enabled J.table a.seat.table_id a.seat.me a.number a.made.items a.room (vec_capacity a.made) };
}

fn say<M: Machine, T: Telling<M::Event>>(
    shared: &Shared<(), View<M::Event>, u32, OneHistory<M>>,
    seat: &mut Seat<(), View<M::Event>>,
    number: u32,
    event: &M::Event,
) -> u64
    requires picked { (T.by ≡ number) × (T.events ≡ event.now ∷ []) }
    requires table { (seat.old.table_id ≡ shared.now.table_id) × (shared.now.table_id.words ≡ 1) }
    requires seat { (xs : List (ℕ × M.Event)) × (seat.old.me.0.made ≡ (number, xs) ∷ []) × (length xs < 2147483648) × (xs ≡ entries_of number seat.old.me.0.seen) }
    requires enabled { M.enabled seat.old.me.0.seen number event.now }
    ensures same { (seat.new.table_id ≡ seat.old.table_id) × (seat.new.id ≡ seat.old.id) × (seat.new.me.1 ≡ seat.old.me.1) }
    ensures told { Told M.enabled number event.now seat.old.me.0 result seat.new.me.0 }
{
    shared.fetch_add::<Tell<M, T>>(seat, 0, 1)
}

impl<M: Machine, J: Naming> Actor<M, J> {
    /// What it knows is a legal history, in which it did just its steps.
    pub fn knows(&self)
        ensures legal { IsLegal M.enabled self.now.seen }
        ensures own { self.now.made ≡ entries_of self.now.number self.now.seen }
    {
        let _number = self.number;
    }

    /// Its number.
    pub fn number(&self) -> u32
        ensures { result ≡ self.now.number }
    {
        self.number
    }

    /// Its steps, the oldest first, each with its ticket.
    pub fn steps(&self) -> &[(u64, M::Event)]
        ensures { result.now ≡ self.now.made }
    {
        self.made.as_slice()
    }

    /// Room for at least `n` further steps. More than 2^31 steps, made and to come, count as want of memory.
    pub fn reserve(&mut self, n: u32) -> Result<(), AllocError>
        ensures same { (self.new.number ≡ self.old.number) × (self.new.made ≡ self.old.made) × (self.new.seen ≡ self.old.seen) }
        ensures kept { self.old.room ≤ self.new.room }
        ensures room { IfOk result (λ _. n ≤ self.new.room) }
        ensures limit { length self.new.made + self.new.room ≤ 2147483648 }
    {
        if self.made.len() > MOST || n > MOST as u32 - self.made.len() as u32 {
            return Err(AllocError);
        }
        self.made.reserve(n as usize)?;
        if self.room < n {
            self.room = n;
        }
        Ok(())
    }

    /// Does an event, in one atomic step that takes no memory, and answers its ticket.
    pub fn step(&mut self, trace: &Trace<M, J>, event: M::Event) -> u64
        requires room { 0 < self.old.room }
        requires enabled { M.enabled self.old.seen self.old.number event }
        ensures same { (self.new.number ≡ self.old.number) × (self.new.room + 1 ≡ self.old.room) }
        ensures made { self.new.made ≡ self.old.made ++ (result, event) ∷ [] }
        ensures adds { Adds self.old.number event self.old.seen self.new.seen }
        ensures ticket { result + 1 ≡ length self.new.seen }
        ensures legal { IsLegal M.enabled self.new.seen }
    {
        let ticket = say::<M, Brand>(&trace.table.shared, &mut self.seat, self.number, &event);
        self.room -= 1;
        if self.made.push((ticket, event)).is_err() {
            unreachable!();
        }
        ticket
    }

    /// Looks at all that was done so far, which the actor knows from now on, and answers how many events that is: the ticket
    /// that comes next.
    pub fn look(&mut self, trace: &Trace<M, J>) -> u64
        ensures same { (self.new.number ≡ self.old.number) × (self.new.made ≡ self.old.made) × (self.new.room ≡ self.old.room) }
        ensures more { Rests self.old.number self.old.seen self.new.seen }
        ensures legal { IsLegal M.enabled self.new.seen }
        ensures length { result ≡ length self.new.seen }
    {
        trace.table.shared.load::<Look<M>>(&mut self.seat, 0)
    }

    /// A note of all that was done so far, which the actor knows from now on.
    pub fn note(&mut self, trace: &Trace<M, J>) -> Note<M, J>
        ensures same { (self.new.number ≡ self.old.number) × (self.new.made ≡ self.old.made) × (self.new.room ≡ self.old.room) }
        ensures more { Rests self.old.number self.old.seen self.new.seen }
        ensures legal { IsLegal M.enabled self.new.seen }
        ensures note { result ≡ self.new.seen }
        ensures own { entries_of self.old.number result ≡ self.old.made }
    {
        let count = trace.table.shared.load::<Look<M>>(&mut self.seat, 0);
        Note {
            seat: trace.table.shared.split_seat::<Jot>(&mut self.seat),
            count,
            of: PhantomData,
        }
    }

    /// Knows what the note knows, too.
    pub fn meet(&mut self, trace: &Trace<M, J>, note: Note<M, J>)
        ensures same { (self.new.number ≡ self.old.number) × (self.new.made ≡ self.old.made) × (self.new.room ≡ self.old.room) }
        ensures more { Rests self.old.number self.old.seen self.new.seen }
        ensures note { Begins note self.new.seen }
        ensures legal { IsLegal M.enabled self.new.seen }
    {
        let heard = note.seat;
        trace.table.shared.join_seat::<Hear>(&mut self.seat, heard);
        trace.table.shared.load::<Look<M>>(&mut self.seat, 0);
    }
}
