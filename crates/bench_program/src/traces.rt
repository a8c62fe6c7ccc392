//! Many actors in one trace.
ghost use Rattle.std.specs.Prelude.{◌≡◌};

use actor_trace::{Actor, Machine, Naming, OpenedTrace, Trace};
use std::alloc::{AllocError, Global};
use std::marker::Brand;
use std::thread;
use std::thread::Threads;

/// A machine that allows every event.
struct Free;

impl Machine for Free {
    type Event = u64;

    ghost enabled = { λ h i e. Unit {0} };

    ghost known = { λ later h i e legal own free. free };
}

/// How many events the history has of so many threads that do so many steps each.
pub(crate) fn trace<R: Threads + Sync>(
    rt: &R,
    alloc: Global,
    threads: u64,
    steps: u64,
) -> Result<u64, AllocError> {
    let threads = u32::try_from(threads).unwrap_or(0);
    let steps = u32::try_from(steps).unwrap_or(0);
    let opened = OpenedTrace::<Free>::new(alloc, threads)?;
    run::<Brand, R>(rt, alloc, opened, steps)
}

fn run<N: Naming + Send + Sync, R: Threads + Sync>(
    rt: &R,
    alloc: Global,
    opened: OpenedTrace<Free>,
    steps: u32,
) -> Result<u64, AllocError>
    requires table { opened.table ≡ N.table }
    requires actors { opened.actors ≡ N.actors }
{
    let (trace, actors) = opened.named::<N>(alloc)?;
    let shared = &trace;
    let done = thread::map_vec(rt, actors, &|actor| work(shared, actor, steps))?;
    let actors = all_of(alloc, done)?;
    if !trace.has_all(actors.as_slice()) {
        return Ok(0);
    }
    match trace.close(alloc, actors) {
        Ok(history) => Ok(history.events().len() as u64),
        Err(_) => Err(AllocError),
    }
}

fn all_of<N: Naming>(
    alloc: Global,
    done: Vec<Result<Actor<Free, N>, AllocError>>,
) -> Result<Vec<Actor<Free, N>>, AllocError> {
    let mut actors = Vec::new(alloc);
    for actor in done {
        actors.push(actor?)?;
    }
    Ok(actors)
}

fn work<N: Naming>(
    trace: &Trace<Free, N>,
    actor: Actor<Free, N>,
    steps: u32,
) -> Result<Actor<Free, N>, AllocError> {
    let mut actor = actor;
    actor.reserve(steps)?;
    let mut left = steps;
    'stepping: while left > 0 {
        actor.step(trace, u64::from(left));
        left -= 1;
    }
    Ok(actor)
}
