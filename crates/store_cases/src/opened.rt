//! What stores stand for, and what opening them comes to.
ghost use Rattle.std.specs.Prelude.{◌≡◌, [], IfOk};

use cdb_outside::MemStore;
use log_replay::PagedLog;
use std::alloc::{AllocError, Global};
use store_log::{OpenFault, OpenedLog, Standing, open_log, standing_of};

/// Each store is one of this node and cluster.
pub(crate) const NODE: u8 = 2;

pub(crate) const CLUSTER: u128 = 7;

/// What a store stands for, with no call.
pub(crate) fn stand_told(alloc: Global, bytes: &[u8]) -> Result<String, AllocError> {
    match standing_of(alloc, bytes, NODE, CLUSTER)? {
        Standing::Log {
            promised,
            accepted,
            entries,
        } => {
            let length = length_of(entries);
            format!(in alloc; "  log {promised} {accepted} {length}\n")
        }
        Standing::Bad { at } => format!(in alloc; "  bad {at}\n"),
        Standing::Foreign => String::from_str(alloc, "  foreign\n"),
    }
}

/// How many entries a log has.
fn length_of(log: PagedLog) -> usize {
    log.entries().len()
}

/// Why a store was not opened.
pub(crate) fn fault_told(alloc: Global, why: OpenFault) -> Result<String, AllocError> {
    match why {
        OpenFault::Foreign => String::from_str(alloc, "foreign"),
        OpenFault::Corrupt { at } => format!(in alloc; "bad {at}"),
        OpenFault::StoreFault { .. } => String::from_str(alloc, "fault"),
        OpenFault::NoMemory => Err(AllocError),
    }
}

/// What opening a store with these bytes comes to, and how many it has then.
pub(crate) fn opened_told(alloc: Global, bytes: &[u8]) -> Result<String, AllocError> {
    let synced = Vec::from_slice(alloc, bytes)?;
    let store = MemStore::new(synced, Vec::new(alloc), None, 0);
    match open_log(alloc, store, NODE, CLUSTER) {
        Ok(log) => log_told(alloc, log),
        Err(unopened) => fault_told(alloc, unopened.why),
    }
}

/// What an opened store stands for, and how many bytes it has.
fn log_told(alloc: Global, opened: OpenedLog<MemStore>) -> Result<String, AllocError> {
    let OpenedLog {
        held,
        promised,
        accepted,
        entries,
    } = opened;
    let length = length_of(entries);
    let left = size_of(held.give_back());
    format!(in alloc; "log {promised} {accepted} {length} left {left}")
}

/// How many bytes a store has.
fn size_of(store: MemStore) -> usize {
    store.synced().len()
}
