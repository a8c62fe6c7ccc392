//! Tests of traces, by machine.
use actor_trace::{Actor, Machine, Naming};
use std::alloc::{AllocError, Global};

mod counting;
mod refusals;
mod turning;

/// What all threads gave back.
fn all_of<M: Machine, N: Naming>(
    alloc: Global,
    done: Vec<Result<Actor<M, N>, AllocError>>,
) -> Result<Vec<Actor<M, N>>, AllocError> {
    let mut actors = Vec::new(alloc);
    for actor in done {
        actors.push(actor?)?;
    }
    Ok(actors)
}
