//! A counter with a ledger, whose turns pass by channels.
ghost use Rattle.std.specs.Prelude.{◌≡◌, ◌+◌, ◌<◌, ◌≤◌, true};
ghost use Rattle.actor_trace_tests.specs.Ledger.{gives};

use super::all_of;
use crate::entries::Entry;
use crate::ledger::Ledger;
use crate::turns::{Turn, add, first, give, read};
use actor_trace::{Actor, Naming, OpenedTrace, Trace};
use crossbeam_channel::{Receiver, Sender, unbounded};
use std::alloc::{Alloc, AllocError, Global};
use std::marker::Brand;
use std::process::Abort;
use std::sync::Wait;
use std::test::*;
use std::thread;
use std::thread::Threads;

/// An actor, with the turns that come to it.
#[derive(Drop)]
struct Desk<N: Naming> {
    actor: Actor<Ledger, N>,
    turns: Receiver<Turn<N>>,
}

#[test]
fn turns_pass_by_channels(rt: HostRuntime) -> Result<(), Fail> {
    opened(&rt, rt.alloc(), 2, 64)?;
    opened(&rt, rt.alloc(), 8, 16)?;
    opened(&rt, rt.alloc(), 64, 4)
}

fn opened<R: Threads + Wait + Abort + Sync>(
    rt: &R,
    alloc: Global,
    actors: u32,
    rounds: u32,
) -> Result<(), Fail> {
    let opened = OpenedTrace::<Ledger>::new(alloc, actors)?;
    run::<Brand, R>(rt, alloc, opened, rounds)
}

fn run<N: Naming + Send + Sync, R: Threads + Wait + Abort + Sync>(
    rt: &R,
    alloc: Global,
    opened: OpenedTrace<Ledger>,
    rounds: u32,
) -> Result<(), Fail>
    requires table { opened.table ≡ N.table }
    requires actors { opened.actors ≡ N.actors }
{
    let (trace, actors) = opened.named::<N>(alloc)?;
    let size = actors.len();
    let mut doors = Vec::new(alloc);
    let desks = desks_of(rt, alloc, &trace, actors, &mut doors)?;
    let shared = &trace;
    let senders = &doors;
    let done = thread::map_vec(rt, desks, &|desk| work(rt, shared, senders, desk, rounds))?;
    let actors = all_of(alloc, done)?;
    assert!(rt; trace.has_all(actors.as_slice()));
    let Ok(history) = trace.close(alloc, actors) else {
        return Err("memory".into());
    };
    assert!(rt; is_in_turn(history.events()));
    assert!(rt; history.events().len() == size.wrapping_mul(rounds as usize).wrapping_mul(2));
    Ok(())
}

/// Each actor at its desk, with the first turn at the first one's.
fn desks_of<N: Naming, R: Wait>(
    rt: &R,
    alloc: Global,
    trace: &Trace<Ledger, N>,
    actors: Vec<Actor<Ledger, N>>,
    doors: &mut Vec<Sender<Turn<N>>>,
) -> Result<Vec<Desk<N>>, AllocError> {
    let mut desks = Vec::new(alloc);
    for actor in actors {
        let mut actor = actor;
        let (to, turns) = unbounded(alloc)?;
        if actor.number() == 0 {
            let _ = to.send(rt, first(&mut actor, trace));
        }
        doors.push(to)?;
        desks.push(Desk { actor, turns })?;
    }
    Ok(desks)
}

/// Two steps in each round: an add in its own turn, and a read of another's, as they come.
fn work<N: Naming, R: Wait>(
    rt: &R,
    trace: &Trace<Ledger, N>,
    doors: &Vec<Sender<Turn<N>>>,
    desk: Desk<N>,
    rounds: u32,
) -> Result<Actor<Ledger, N>, AllocError> {
    let Desk { mut actor, turns } = desk;
    let mut left = rounds.saturating_mul(2);
    actor.reserve(left)?;
    'working: while left > 0 {
        let Ok(turn) = turns.recv(rt) else {
            break;
        };
        take(rt, trace, doors, &mut actor, turn);
        left -= 1;
    }
    Ok(actor)
}

/// Adds in its own turn, and reads another's.
fn take<N: Naming, R: Wait>(
    rt: &R,
    trace: &Trace<Ledger, N>,
    doors: &Vec<Sender<Turn<N>>>,
    actor: &mut Actor<Ledger, N>,
    turn: Turn<N>,
)
    requires { 0 < actor.old.room }
    ensures { actor.old.room ≤ actor.new.room + 1 }
{
    if turn.to != actor.number() {
        read(actor, trace, turn);
        return;
    }
    let value = turn.value;
    let next = seat_after(actor.number(), doors.len());
    if value < u64::MAX && add(actor, trace, turn, next) {
        pass(rt, trace, doors, actor, value + 1, next);
    }
}

/// Passes a turn to whom it is for, and a copy to the one behind.
fn pass<N: Naming, R: Wait>(
    rt: &R,
    trace: &Trace<Ledger, N>,
    doors: &Vec<Sender<Turn<N>>>,
    actor: &mut Actor<Ledger, N>,
    value: u64,
    next: u32,
)
    requires { gives value next actor.old.seen ≡ true }
    ensures { actor.new.room ≡ actor.old.room }
{
    let after = seat_after(next, doors.len());
    let copy = give(actor, trace, value, next);
    let turn = give(actor, trace, value, next);
    if let Some(door) = doors.get(after as usize) {
        let _ = door.send(rt, copy);
    }
    if let Some(door) = doors.get(next as usize) {
        let _ = door.send(rt, turn);
    }
}

/// The next one round a table of so many seats.
fn seat_after(number: u32, seats: usize) -> u32 {
    let next = number.saturating_add(1);
    if (next as usize) < seats { next } else { 0 }
}

/// Whether each add is in its actor's turn and to the counter as it stands, and each read is of what it came to.
fn is_in_turn(events: &[(u32, Entry)]) -> bool {
    let mut turn = 0u32;
    let mut count = 0u64;
    for (actor, entry) in events {
        match entry {
            Entry::Add { value, next } => {
                if *actor != turn || *value != count {
                    return false;
                }
                turn = *next;
                count = count.wrapping_add(1);
            }
            Entry::Read { value } => {
                if *value > count {
                    return false;
                }
            }
        }
    }
    true
}
