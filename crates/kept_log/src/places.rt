//! Where a node's log is: open, or stopped.
ghost use Rattle.std.specs.Prelude.{◌≡◌, true, false, List, [], ◌∷◌, OnOk, IsErrOf};
ghost use Rattle.cdb_outside.specs.Faults.{Rose};
ghost use Rattle.frame_code.specs.Spelled.{IsSpelled};
ghost use Rattle.frame_code.specs.declared.frames.Frame.TheVariants as frame;
ghost use Rattle.phys_log.specs.Logs.{Fits};
ghost use Rattle.store_log.specs.Held.{generation_of};
ghost use Rattle.node_log.specs.Logged.{Leaves, Logged, Stand, StandForOne, with_entry};
ghost use Rattle.kept_log.specs.Kept.{HoldsAny, IsPlaced, kept_by, OverStore, over_of, opened_over, stopped_from, stopped_over};

use cdb_outside::LogStore;
use log_replay::PagedLog;
use node_log::{KeepFault, NodeLog};
use phys_log::Entry;
use std::alloc::Global;
use std::mem::replace;
use stopped_log::StoppedLog;

/// A log that is stopped: what it had, and its store.
#[derive(Drop)]
pub(crate) struct Stayed<D: LogStore> {
    pub promised: u64,
    pub accepted: u64,
    pub log: PagedLog,
    pub store: StoppedLog<D>,
}

/// Where it is. `Moved` is no place: it stands there only as long as a call has the log in its hands.
#[derive(Drop)]
pub(crate) enum Place<D: LogStore> {
    Open(NodeLog<D>),
    Stopped(Stayed<D>),
    Moved,
}

/// Takes the log that is open there.
pub(crate) fn take_open<D: LogStore + Drop>(place: &mut Place<D>) -> NodeLog<D>
    requires placed { IsPlaced place.old }
    requires running { (over_of place.old).is_open ≡ true }
    ensures is { over_of place.old ≡ opened_over result }
    ensures running { result.failed ≡ false }
{
    match replace(place, Place::Moved) {
        Place::Open(log) => log,
        Place::Stopped(_) => unreachable!(),
        Place::Moved => unreachable!(),
    }
}

/// Takes the log that is stopped there.
pub(crate) fn take_stopped<D: LogStore + Drop>(place: &mut Place<D>) -> Stayed<D>
    requires placed { IsPlaced place.old }
    requires stopped { (over_of place.old).is_open ≡ false }
    ensures { over_of place.old ≡ stopped_over result.promised result.accepted result.log result.store }
{
    match replace(place, Place::Moved) {
        Place::Open(_) => unreachable!(),
        Place::Stopped(stayed) => stayed,
        Place::Moved => unreachable!(),
    }
}

/// A log that is stopped.
pub(crate) fn stopped<D: LogStore>(log: NodeLog<D>) -> Place<D>
    ensures is { over_of result ≡ stopped_from (opened_over log) (over_of result).synced log.store.faults }
    ensures holds { log.failed ≡ false → ∥ Stand (over_of result).synced log ∥₁ }
    ensures left { (logs : List Logged) → Leaves log.store logs → ∥ StandForOne (over_of result).synced logs ∥₁ }
    ensures placed { IsPlaced result }
{
    let promised = log.promised();
    let accepted = log.accepted();
    let (log, store) = StoppedLog::stop(log);
    Place::Stopped(Stayed {
        promised,
        accepted,
        log,
        store,
    })
}

/// The store of an open log.
pub(crate) fn shut<D: LogStore>(log: NodeLog<D>) -> D
    requires running { log.failed ≡ false }
    ensures synced { D.synced result ≡ log.store.synced }
    ensures settled { D.pending result ≡ [] }
    ensures calm { D.faults result ≡ log.store.faults }
    ensures holds { HoldsAny (opened_over log) (kept_by (opened_over log) ∷ []) }
{
    log.give_back()
}

/// A log after a call: it is stopped where its store failed.
pub(crate) fn placed<D: LogStore>(log: NodeLog<D>) -> Place<D>
    ensures running { log.failed ≡ false → over_of result ≡ opened_over log }
    ensures stopped { log.failed ≡ true →
        over_of result ≡ stopped_from (opened_over log) (over_of result).synced log.store.faults }
    ensures left { log.failed ≡ true → (logs : List Logged) → Leaves log.store logs →
        ∥ StandForOne (over_of result).synced logs ∥₁ }
    ensures placed { IsPlaced result }
{
    if log.has_failed() {
        return stopped(log);
    }
    Place::Open(log)
}

/// Appends an entry to an open log. Where the store fails there, the log has it no more.
pub(crate) fn append_to<D: LogStore>(
    alloc: Global,
    log: &mut NodeLog<D>,
    entry: Entry,
) -> Result<(), KeepFault>
    requires running { log.old.failed ≡ false }
    requires accepted { generation_of entry ≡ log.old.accepted }
    requires fits { Fits log.old.entries entry }
    requires spelled { IsSpelled (frame.Entry entry) }
    ensures added { OnOk result (log.new ≡ record (with_entry log.old entry) { store = log.new.store }) }
    ensures unchanged { IsErrOf result KeepFault.NoMemory → log.new ≡ log.old }
    ensures failed { IsErrOf result KeepFault.StoreFault →
        log.new ≡ record log.old { store = log.new.store; failed = true } }
    ensures rose { IsErrOf result KeepFault.StoreFault → Rose log.old.store.faults log.new.store.faults }
    ensures left { IsErrOf result KeepFault.StoreFault →
        Leaves log.new.store (log.old ∷ with_entry log.old entry ∷ []) }
    ensures calm { OnOk result (log.new.store.faults ≡ log.old.store.faults) }
{
    let had = log.log().entries().len() as u64;
    match log.append(alloc, entry) {
        Ok(()) => Ok(()),
        Err(KeepFault::NoMemory) => Err(KeepFault::NoMemory),
        Err(KeepFault::StoreFault) => {
            log.drop_tail(alloc, had);
            Err(KeepFault::StoreFault)
        }
    }
}
