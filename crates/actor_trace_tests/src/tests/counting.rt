//! Actors that count, each by itself.
ghost use Rattle.std.specs.Prelude.{◌≡◌, ◌≤◌, IfOk};

use super::all_of;
use crate::counters::{Counters, count};
use actor_trace::{Actor, Naming, Note, OpenedTrace, Trace};
use crossbeam_channel::{Receiver, Sender, unbounded};
use std::alloc::{Alloc, AllocError, Global};
use std::marker::Brand;
use std::process::Abort;
use std::sync::Wait;
use std::test::*;
use std::thread;
use std::thread::Threads;

/// Where notes lie that anybody may take.
#[derive(Drop)]
struct Board<N: Naming> {
    to: Sender<Note<Counters, N>>,
    from: Receiver<Note<Counters, N>>,
}

#[test]
fn threads_make_one_history(rt: HostRuntime) -> Result<(), Fail> {
    counted(&rt, rt.alloc(), 2, 64)?;
    counted(&rt, rt.alloc(), 8, 16)?;
    counted(&rt, rt.alloc(), 64, 4)
}

#[test]
fn an_early_note_is_met_late(rt: HostRuntime) -> Result<(), Fail> {
    let opened = OpenedTrace::<Counters>::new(rt.alloc(), 3)?;
    late::<Brand, HostRuntime>(&rt, rt.alloc(), opened)
}

fn counted<R: Threads + Wait + Abort + Sync>(
    rt: &R,
    alloc: Global,
    actors: u32,
    steps: u32,
) -> Result<(), Fail> {
    let opened = OpenedTrace::<Counters>::new(alloc, actors)?;
    run::<Brand, R>(rt, alloc, opened, steps)
}

fn run<N: Naming + Send + Sync, R: Threads + Wait + Abort + Sync>(
    rt: &R,
    alloc: Global,
    opened: OpenedTrace<Counters>,
    steps: u32,
) -> Result<(), Fail>
    requires table { opened.table ≡ N.table }
    requires actors { opened.actors ≡ N.actors }
{
    let (trace, actors) = opened.named::<N>(alloc)?;
    let size = actors.len();
    let (to, from) = unbounded(alloc)?;
    let board = Board { to, from };
    let shared = &trace;
    let notes = &board;
    let done = thread::map_vec(rt, actors, &|actor| work(rt, shared, notes, actor, steps))?;
    let actors = all_of(alloc, done)?;
    assert!(rt; trace.has_all(actors.as_slice()));
    let Ok(history) = trace.close(alloc, actors) else {
        return Err("memory".into());
    };
    assert!(rt; is_counted(alloc, history.events(), size, steps)?);
    Ok(())
}

fn work<N: Naming, R: Wait>(
    rt: &R,
    trace: &Trace<Counters, N>,
    board: &Board<N>,
    actor: Actor<Counters, N>,
    steps: u32,
) -> Result<Actor<Counters, N>, AllocError> {
    let mut actor = actor;
    actor.reserve(steps)?;
    let mut left = steps;
    'counting: while left > 0 {
        hear(rt, trace, board, &mut actor);
        count(&mut actor, trace);
        tell(rt, trace, board, &mut actor);
        left -= 1;
    }
    Ok(actor)
}

fn hear<N: Naming, R: Wait>(
    rt: &R,
    trace: &Trace<Counters, N>,
    board: &Board<N>,
    actor: &mut Actor<Counters, N>,
)
    ensures { actor.new.room ≡ actor.old.room }
{
    if let Ok(note) = board.from.try_recv(rt) {
        actor.meet(trace, note);
    }
}

fn tell<N: Naming, R: Wait>(
    rt: &R,
    trace: &Trace<Counters, N>,
    board: &Board<N>,
    actor: &mut Actor<Counters, N>,
)
    ensures { actor.new.room ≡ actor.old.room }
{
    let note = actor.note(trace);
    let _ = board.to.send(rt, note);
}

fn is_counted(
    alloc: Global,
    events: &[(u32, u64)],
    actors: usize,
    steps: u32,
) -> Result<bool, AllocError> {
    let mut next = Vec::new(alloc);
    for _ in 0..actors {
        next.push(0u64)?;
    }
    for (actor, value) in events {
        let index = *actor as usize;
        if index >= next.len() || next[index] != *value {
            return Ok(false);
        }
        next[index] = value.wrapping_add(1);
    }
    Ok(next.iter().all(|value| *value == u64::from(steps)))
}

fn late<N: Naming, R: Abort>(
    rt: &R,
    alloc: Global,
    opened: OpenedTrace<Counters>,
) -> Result<(), Fail>
    requires table { opened.table ≡ N.table }
    requires actors { opened.actors ≡ N.actors }
{
    let (trace, mut actors) = opened.named::<N>(alloc)?;
    let mut last = actors.pop().ok_or("an actor")?;
    let mut middle = actors.pop().ok_or("an actor")?;
    last.reserve(2)?;
    middle.reserve(1)?;
    let early = last.note(&trace);
    count(&mut last, &trace);
    count(&mut middle, &trace);
    assert!(rt; early.length() == 0);
    middle.meet(&trace, early);
    count(&mut last, &trace);
    let whole = middle.note(&trace).length();
    assert!(rt; whole == 3);
    let place = middle.look(&trace);
    assert!(rt; place == 3);
    assert!(rt; last.reserve(u32::MAX).is_err());
    actors.push(last)?;
    assert!(rt; !trace.has_all(actors.as_slice()));
    actors.push(middle)?;
    assert!(rt; trace.has_all(actors.as_slice()));
    let Ok(history) = trace.close(alloc, actors) else {
        return Err("memory".into());
    };
    assert!(rt; history.into_events().as_slice() == [(2, 0), (1, 0), (2, 1)].as_slice());
    Ok(())
}
