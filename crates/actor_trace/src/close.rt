ghost use Rattle.std.specs.Prelude.{ℕ, List, ◌≡◌, ◌↔◌, ◌++◌, ◌∷◌, [], IfOk, IfErr, IfSome, IsTrue, length, map, reverse, replicate, None, vec_capacity};
ghost use Rattle.actor_trace.specs.Lists.{total};
ghost use Rattle.actor_trace.specs.Actors.{IsHistory, tag_of};
ghost use Rattle.actor_trace.specs.Views.{has, has_too};

use crate::actor::Actor;
use crate::history::{Closed, History};
use crate::machine::Machine;
use crate::merge::{Share, blanks, merge};
use crate::naming::Naming;
use crate::rule::{Enter, Gather};
use crate::trace::Trace;
use crate::view::View;
use atomic_table::Seat;
use std::alloc::{AllocError, Global};

/// The memory that a close takes, all of it before it ends anything.
#[derive(Drop)]
struct Space<E> {
    shares: Vec<Share<E>>,
    cells: Vec<Option<(u32, E)>>,
    events: Vec<(u32, E)>,
}

fn count_steps<M: Machine, J: Naming>(actors: &[Actor<M, J>]) -> Option<usize>
    ensures { IfSome result (λ n. n ≡ total (λ a. length a.made) actors.now) }
{
    let mut count: usize = 0;
    let mut rest = actors;
    'counting: while let Some((actor, after)) = rest.split_first() {
        let Some(more) = count.checked_add(actor.steps().len()) else {
            return None;
        };
        count = more;
        rest = after;
    }
    Some(count)
}

fn space_for<M: Machine, J: Naming>(
    alloc: Global,
    actors: &[Actor<M, J>],
) -> Result<Space<M::Event>, AllocError>
    ensures shares { IfOk result (λ s. (s.shares.items ≡ []) × (vec_capacity s.shares ≡ length actors.now)) }
    ensures cells { IfOk result (λ s. s.cells.items ≡ replicate (total (λ a. length a.made) actors.now) None) }
    ensures events { IfOk result (λ s. (s.events.items ≡ []) × (vec_capacity s.events ≡ total (λ a. length a.made) actors.now)) }
{
    let Some(count) = count_steps(actors) else {
        return Err(AllocError);
    };
    Ok(Space {
        shares: Vec::with_capacity(alloc, actors.len())?,
        cells: blanks(alloc, count)?,
        events: Vec::with_capacity(alloc, count)?,
    })
}

impl<M: Machine, J: Naming> Trace<M, J> {
    fn take_in(&self, seat: &mut Seat<(), View<M::Event>>, actor: Actor<M, J>) -> Share<M::Event>
        requires { seat.old.table_id ≡ self.now.table.shared.table_id }
        ensures same { seat.new.table_id ≡ seat.old.table_id }
        ensures me { seat.new.me ≡ has_too seat.old.me actor }
        ensures share { result ≡ tag_of actor }
    {
        self.table.shared.join_seat::<Gather>(seat, actor.seat);
        Share {
            number: actor.number,
            steps: actor.made,
        }
    }

    fn gather(&self, actors: Vec<Actor<M, J>>) -> Seat<(), View<M::Event>>
        ensures table { result.table_id ≡ self.now.table.shared.table_id }
        ensures me { result.me ≡ has (reverse actors.items) }
    {
        let mut actors = actors;
        let (_, mut seat) = self.table.shared.load_new_seat::<Enter>(0);
        'gathering: while let Some(actor) = actors.pop() {
            self.take_in(&mut seat, actor);
        }
        seat
    }

    fn gather_shares(
        &self,
        actors: Vec<Actor<M, J>>,
        shares: &mut Vec<Share<M::Event>>,
    ) -> Seat<(), View<M::Event>>
        requires empty { shares.old.items ≡ [] }
        requires room { vec_capacity shares.old ≡ length actors.items }
        ensures table { result.table_id ≡ self.now.table.shared.table_id }
        ensures me { result.me ≡ has (reverse actors.items) }
        ensures shares { shares.new.items ≡ map tag_of (reverse actors.items) }
    {
        let mut actors = actors;
        let (_, mut seat) = self.table.shared.load_new_seat::<Enter>(0);
        'gathering: while let Some(actor) = actors.pop() {
            let share = self.take_in(&mut seat, actor);
            shares.push_reserved(share);
        }
        seat
    }

    fn merged(self, actors: Vec<Actor<M, J>>, space: Space<M::Event>) -> History<M>
        requires all { length actors.items ≡ J.actors }
        requires shares { (space.shares.items ≡ []) × (vec_capacity space.shares ≡ length actors.items) }
        requires cells { space.cells.items ≡ replicate (total (λ a. length a.made) actors.items) None }
        requires events { (space.events.items ≡ []) × (vec_capacity space.events ≡ total (λ a. length a.made) actors.items) }
        ensures { IsHistory M.enabled J.actors actors.items (reverse result) }
    {
        let Space {
            mut shares,
            cells,
            events,
        } = space;
        let seat = self.gather_shares(actors, &mut shares);
        self.table.close_with(seat).free();
        History {
            events: merge(shares, cells, events),
        }
    }

    /// Whether these are all actors of the trace: as many as it has.
    pub fn has_all(&self, actors: &[Actor<M, J>]) -> bool
        ensures { IsTrue result ↔ (length actors.now ≡ J.actors) }
    {
        actors.len() == self.actors as usize
    }

    /// Ends the run, where these are all actors, in any order, and answers the history of what all actors did. For want of memory all comes back as it was.
    pub fn close(self, alloc: Global, actors: Vec<Actor<M, J>>) -> Result<History<M>, Closed<M, J>>
        requires all { length actors.items ≡ J.actors }
        ensures history { IfOk result (λ h. IsHistory M.enabled J.actors actors.items (reverse h)) }
        ensures back { IfErr result (λ c. (c.trace ≡ self) × (c.actors.items ≡ actors.items)) }
    {
        match space_for(alloc, actors.as_slice()) {
            Ok(space) => Ok(self.merged(actors, space)),
            Err(_) => Err(Closed {
                trace: self,
                actors,
            }),
        }
    }

    /// Ends the run without memory, where these are all actors, in any order. There is the history of what all actors did.
    pub fn abandon(self, actors: Vec<Actor<M, J>>)
        requires all { length actors.items ≡ J.actors }
        ensures history { (log : List (ℕ × M.Event)) × IsHistory M.enabled J.actors actors.items log }
    {
        let seat = self.gather(actors);
        self.table.close_with(seat).free();
    }
}
