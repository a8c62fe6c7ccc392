ghost use Rattle.std.specs.Prelude.{◌≡◌, length};

use crate::machine::Machine;
use crate::naming::Naming;
use crate::view::View;
use atomic_table::Seat;
use std::marker::{Model, PhantomData};

/// A beginning of the history, which may go to another thread. Contracts see it as that list, the newest event first.
#[derive(Drop)]
pub struct Note<M: Machine, J: Naming> {
    pub(crate) seat: Seat<(), View<M::Event>>,
    pub(crate) count: u64,
    pub(crate) of: PhantomData<J>,
}

impl<M: Machine, J: Naming> Model for Note<M, J> {
    ghost use Rattle.std.specs.Prelude.{ℕ, List};
    ghost use Rattle.actor_trace.specs.Seats.{IsNote};

    ghost Value = { List (ℕ × M.Event) };

    ghost view = { λ n. n.seat.me.0.seen };

    ghost invariant = { λ n. IsNote M.enabled J.table n.seat.table_id n.seat.me n.count };
}

impl<M: Machine, J: Naming> Note<M, J> {
    /// How many events it tells. Each event with a smaller ticket stands in it.
    pub fn length(&self) -> u64
        ensures { result ≡ length self.now }
    {
        self.count
    }
}
