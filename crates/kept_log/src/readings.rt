//! What a stopped store holds, read off.
ghost use Rattle.std.specs.Prelude.{◌≡◌, ◌<◌, ◌^◌, false, IfOk, IfErr, OnOk};
ghost use Rattle.node_log.specs.Logged.{Stand};
ghost use Rattle.kept_log.specs.Kept.{StandsStill};
ghost use Rattle.store_log.specs.declared.standings.Standing.TheVariants.{Log};
ghost use Rattle.store_log.specs.Held.{StandsFor};
ghost use Rattle.store_log.specs.Opens.{IsLater, IsOpenFault};

use cdb_outside::LogStore;
use log_replay::PagedLog;
use node_log::{NodeLog, OpenFault};
use std::alloc::Global;
use stopped_log::{StillStopped, StoppedLog};

/// What a store holds: a promise, an acceptance and a log, with its pages.
#[derive(Drop)]
pub struct Reading {
    pub promised: u64,
    pub accepted: u64,
    pub entries: PagedLog,
}

/// What a stopped store holds, or why it was not read. It is stopped still, and stands for what it stood for.
pub(crate) fn read_off<D: LogStore + Drop>(
    alloc: Global,
    store: StoppedLog<D>,
) -> (Result<Reading, OpenFault>, StoppedLog<D>)
    ensures node { result.1.node ≡ store.node }
    ensures cluster { result.1.cluster ≡ store.cluster }
    ensures stood { IfOk result.0 (λ r.
        StandsFor store.node store.cluster store.synced (Log r.promised r.accepted r.entries)) }
    ensures still { StandsStill store.node store.cluster store.synced result.1.synced }
    ensures calm { OnOk result.0 (result.1.faults ≡ store.faults) }
    ensures why { IfErr result.0 (λ w.
        IsOpenFault w store.node store.cluster store.synced store.faults result.1.faults) }
    ensures later { IfErr result.0 (λ w. IsLater w store.faults result.1.faults) }
{
    match store.open(alloc) {
        Ok(log) => {
            let (reading, store) = close(log);
            (Ok(reading), store)
        }
        Err(still) => {
            let StillStopped { log: store, why } = still;
            (Err(why), store)
        }
    }
}

/// What an open log has, and its store, stopped.
fn close<D: LogStore>(log: NodeLog<D>) -> (Reading, StoppedLog<D>)
    requires running { log.failed ≡ false }
    ensures promised { result.0.promised ≡ log.promised }
    ensures accepted { result.0.accepted ≡ log.accepted }
    ensures entries { result.0.entries ≡ log.entries }
    ensures node { result.1.node ≡ log.node }
    ensures cluster { result.1.cluster ≡ log.cluster }
    ensures calm { result.1.faults ≡ log.store.faults }
    ensures holds { ∥ Stand result.1.synced log ∥₁ }
    ensures numbered { log.node < 256 }
    ensures named { log.cluster < 2 ^ 128 }
{
    tell_types(log.node(), log.cluster());
    let promised = log.promised();
    let accepted = log.accepted();
    let (entries, store) = StoppedLog::stop(log);
    let reading = Reading {
        promised,
        accepted,
        entries,
    };
    (reading, store)
}

/// Tells what a node's number and the id of a cluster are by their types.
fn tell_types(node: u8, cluster: u128)
    ensures node { node < 256 }
    ensures cluster { cluster < 2 ^ 128 }
{
    let _ = (node, cluster);
}
