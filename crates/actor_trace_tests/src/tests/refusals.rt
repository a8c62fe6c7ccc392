//! Want of memory hands everything back: the test passes with any one allocation refused.
ghost use Rattle.std.specs.Prelude.{◌≡◌, ◌<◌, IfOk};

use crate::counters::{Counters, count};
use actor_trace::{Actor, Closed, History, Naming, OpenedTrace, Trace};
use std::alloc::{Alloc, AllocError, Global};
use std::marker::Brand;
use std::process::Abort;
use std::test::*;

#[test]
fn want_of_memory_hands_all_back(rt: HostRuntime) -> Result<(), Fail> {
    let opened = opened(rt.alloc())?;
    handed_back::<Brand, HostRuntime>(&rt, rt.alloc(), opened)
}

/// Opens for two actors, and once more where memory was refused.
fn opened(alloc: Global) -> Result<OpenedTrace<Counters>, AllocError> {
    match OpenedTrace::<Counters>::new(alloc, 2) {
        Ok(opened) => Ok(opened),
        Err(_) => OpenedTrace::<Counters>::new(alloc, 2),
    }
}

fn handed_back<N: Naming, R: Abort>(
    rt: &R,
    alloc: Global,
    opened: OpenedTrace<Counters>,
) -> Result<(), Fail>
    requires table { opened.table ≡ N.table }
    requires actors { opened.actors ≡ N.actors }
{
    // Without its actors a trace is gone: nothing was done in it.
    let Ok((trace, mut actors)) = opened.named::<N>(alloc) else {
        return Ok(());
    };
    let mut last = actors.pop().ok_or("an actor")?;
    let mut one = actors.pop().ok_or("an actor")?;
    grown(rt, &mut last)?;
    count(&mut last, &trace);
    one.meet(&trace, last.note(&trace));
    actors.push(one)?;
    actors.push(last)?;
    let history = closed(rt, alloc, trace, actors)?;
    assert!(rt; history.events() == [(1, 0)].as_slice());
    Ok(())
}

/// Takes room for a step, and tries once more where memory was refused.
fn grown<N: Naming, R: Abort>(rt: &R, actor: &mut Actor<Counters, N>) -> Result<(), AllocError>
    ensures { IfOk result (λ _. 0 < actor.new.room) }
{
    if actor.reserve(1).is_ok() {
        return Ok(());
    }
    assert!(rt; actor.number() == 1 && actor.steps().is_empty());
    actor.reserve(1)
}

/// Closes, and once more what came back where memory was refused.
fn closed<N: Naming, R: Abort>(
    rt: &R,
    alloc: Global,
    trace: Trace<Counters, N>,
    actors: Vec<Actor<Counters, N>>,
) -> Result<History<Counters>, Fail> {
    assert!(rt; trace.has_all(actors.as_slice()));
    let Closed { trace, actors } = match trace.close(alloc, actors) {
        Ok(history) => return Ok(history),
        Err(closed) => closed,
    };
    assert!(rt;
        actors
            .iter()
            .all(|actor| actor.steps().len() == actor.number() as usize)
    );
    assert!(rt; trace.has_all(actors.as_slice()));
    match trace.close(alloc, actors) {
        Ok(history) => Ok(history),
        Err(_) => Err("memory".into()),
    }
}
