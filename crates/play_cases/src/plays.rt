//! One run of a case.
ghost use Rattle.std.specs.Prelude.{◌≡◌, [], IfOk};
ghost use Rattle.std.specs.List.{AllByRecursion};

use crate::cases::{Case, Fault};
use crate::sinks::NarrowSink;
use cdb_outside::{MemSource, MemStore};
use script_main::{Outside, exit_status, run};
use std::alloc::{AllocError, Global};

/// What a run tells: what its sink took, its exit status, and the synced bytes of its store behind it.
#[derive(Drop)]
pub(crate) struct Outcome {
    pub(crate) text: Vec<u8>,
    pub(crate) exit: u8,
    pub(crate) store: Vec<u8>,
}

/// This store alone.
fn alone(alloc: Global, store: MemStore) -> Result<Vec<MemStore>, AllocError>
    requires { store.waiting ≡ [] }
    ensures { IfOk result (λ stores. AllByRecursion (λ s. s.waiting ≡ []) stores.items) }
{
    let mut stores = Vec::new(alloc);
    stores.push(store)?;
    Ok(stores)
}

/// A source of the case's script.
fn source(alloc: Global, case: &Case) -> Result<MemSource, AllocError> {
    let mut fails = Vec::new(alloc);
    if let Some(call) = case.source_fails {
        fails.push(call)?;
    }
    Ok(MemSource::new(Vec::from_slice(alloc, case.script.as_slice())?, fails))
}

/// A run of a case over a store.
fn ran_over(alloc: Global, case: &Case, store: MemStore) -> Result<Outcome, AllocError>
    requires { store.waiting ≡ [] }
{
    let mut outside: Outside<MemSource, NarrowSink, MemStore> = Outside {
        source: source(alloc, case)?,
        sink: NarrowSink::new(alloc, case.sink_takes),
        stores: alone(alloc, store)?,
        consumers: Vec::new(alloc),
    };
    let status = run(alloc, case.words.as_slice(), &mut outside);
    let store = match outside.stores.first() {
        Some(store) => Vec::from_slice(alloc, store.synced())?,
        None => Vec::new(alloc),
    };
    Ok(Outcome {
        text: Vec::from_slice(alloc, outside.sink.bytes.as_slice())?,
        exit: exit_status(status),
        store,
    })
}

/// A run of a case over a store with these bytes, which fails as the case says, at this number.
pub(crate) fn ran(
    alloc: Global,
    case: &Case,
    bytes: &[u8],
    at: u64,
) -> Result<Outcome, AllocError> {
    let mut fails = Vec::new(alloc);
    let mut stop_after = None;
    match case.fault {
        Fault::Never => {}
        Fault::AtCall => fails.push(at)?,
        Fault::AfterBytes => stop_after = Some(at),
    }
    let bytes = Vec::from_slice(alloc, bytes)?;
    ran_over(
        alloc,
        case,
        MemStore::new(bytes, fails, stop_after, case.keeps),
    )
}

/// A run of a case over a store with these bytes, which does not fail.
pub(crate) fn ran_again(alloc: Global, case: &Case, bytes: &[u8]) -> Result<Outcome, AllocError> {
    let bytes = Vec::from_slice(alloc, bytes)?;
    ran_over(alloc, case, MemStore::new(bytes, Vec::new(alloc), None, 0))
}
