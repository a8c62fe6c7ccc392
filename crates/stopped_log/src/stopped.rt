//! A node's store, between a stop and the next opening.
ghost use Rattle.std.specs.Prelude.{◌≡◌, ◌<◌, ◌^◌, false, [], List, IfOk, IfErr};
ghost use Rattle.node_log.specs.Logged.{Leaves, Logged, Stand, StandForOne};
ghost use Rattle.node_log.specs.Same.{IsOneOf};
ghost use Rattle.stopped_log.specs.Stopped.{Excuses, HoldsOne};
ghost use Rattle.store_log.specs.declared.standings.Standing.TheVariants.{Log};
ghost use Rattle.store_log.specs.Held.{StandsFor};
ghost use Rattle.store_log.specs.Opens.{IsLater, IsOpenFault, StandsAlike};

use cdb_outside::LogStore;
use log_replay::PagedLog;
use node_log::{NodeLog, OpenFault, Unopened};
use std::alloc::Global;
use std::marker::Model;

/// The store of a node that stopped. Its type says that nothing is pending in it.
#[derive(Drop)]
pub struct StoppedLog<D: LogStore> {
    node: u8,
    cluster: u128,
    store: D,
}

impl<D: LogStore> Model for StoppedLog<D> {
    ghost use Rattle.std.specs.Prelude.{◌≡◌, []};
    ghost use Rattle.stopped_log.specs.Stopped.{Stopped};

    ghost Value = { Stopped };

    ghost view = { λ s. record { node = s.node; cluster = s.cluster; synced = D.synced s.store; faults = D.faults s.store } };

    ghost invariant = { λ s. D.pending s.store ≡ [] };
}

/// A store whose log was not opened, and why.
#[derive(Drop)]
pub struct StillStopped<D: LogStore> {
    pub log: StoppedLog<D>,
    pub why: OpenFault,
}

impl<D: LogStore> StoppedLog<D> {
    /// The store of a node that was not opened yet. Takes no memory.
    pub fn new(node: u8, cluster: u128, store: D) -> StoppedLog<D>
        requires settled { D.pending store ≡ [] }
        ensures { result ≡ record {
          node = node;
          cluster = cluster;
          synced = D.synced store;
          faults = D.faults store;
        } }
    {
        StoppedLog {
            node,
            cluster,
            store,
        }
    }

    /// Stops a node's log, also one whose store failed; its entries are given back with their pages. Takes no memory.
    pub fn stop(log: NodeLog<D>) -> (PagedLog, StoppedLog<D>)
        ensures entries { result.0 ≡ log.entries }
        ensures node { result.1.node ≡ log.node }
        ensures cluster { result.1.cluster ≡ log.cluster }
        ensures calm { result.1.faults ≡ log.store.faults }
        ensures holds { log.failed ≡ false → ∥ Stand result.1.synced log ∥₁ }
        ensures left { (logs : List Logged) → Leaves log.store logs → ∥ StandForOne result.1.synced logs ∥₁ }
    {
        let node = log.node();
        let cluster = log.cluster();
        let (entries, store) = log.into_parts();
        (entries, StoppedLog::new(node, cluster, store))
    }

    /// The store. Takes no memory.
    pub fn give_back(self) -> D
        ensures synced { D.synced result ≡ self.synced }
        ensures settled { D.pending result ≡ [] }
        ensures calm { D.faults result ≡ self.faults }
    {
        let StoppedLog { store, .. } = self;
        store
    }
}

impl<D: LogStore + Drop> StoppedLog<D> {
    /// Opens the log that the store holds. One that fails there holds what it held.
    pub fn open(self, alloc: Global) -> Result<NodeLog<D>, StillStopped<D>>
        ensures stood { IfOk result (λ n.
            StandsFor self.node self.cluster self.synced (Log n.promised n.accepted n.entries)) }
        ensures found { IfOk result (λ n. (logs : List Logged) → HoldsOne self logs → ∥ IsOneOf n logs ∥₁) }
        ensures node { IfOk result (λ n. n.node ≡ self.node) }
        ensures cluster { IfOk result (λ n. n.cluster ≡ self.cluster) }
        ensures running { IfOk result (λ n. n.failed ≡ false) }
        ensures settled { IfOk result (λ n. n.store.pending ≡ []) }
        ensures calm { IfOk result (λ n. n.store.faults ≡ self.faults) }
        ensures same_node { IfErr result (λ u. u.log.node ≡ self.node) }
        ensures same_cluster { IfErr result (λ u. u.log.cluster ≡ self.cluster) }
        ensures still { IfErr result (λ u. (logs : List Logged) → HoldsOne self logs → HoldsOne u.log logs) }
        ensures why { IfErr result (λ u. (logs : List Logged) → HoldsOne self logs → Excuses u.why self.faults u.log.faults) }
        ensures refused { IfErr result (λ u.
            IsOpenFault u.why self.node self.cluster self.synced self.faults u.log.faults) }
        ensures later { IfErr result (λ u. IsLater u.why self.faults u.log.faults) }
        ensures alike { IfErr result (λ u. StandsAlike self.node self.cluster self.synced u.log.synced) }
    {
        let StoppedLog {
            node,
            cluster,
            store,
        } = self;
        fits(node, cluster);
        match NodeLog::open(alloc, store, node, cluster) {
            Ok(log) => Ok(log),
            Err(unopened) => Err(still(node, cluster, unopened)),
        }
    }
}

/// Tells what a node's number and the id of a cluster are by their types.
fn fits(node: u8, cluster: u128)
    ensures node { node < 256 }
    ensures cluster { cluster < 2 ^ 128 }
{
    let _ = (node, cluster);
}

/// The store that was not opened.
fn still<D: LogStore>(node: u8, cluster: u128, unopened: Unopened<D>) -> StillStopped<D>
    requires settled { D.pending unopened.store ≡ [] }
    ensures log { result.log ≡ record {
      node = node;
      cluster = cluster;
      synced = D.synced unopened.store;
      faults = D.faults unopened.store;
    } }
    ensures why { result.why ≡ unopened.why }
{
    let Unopened { store, why } = unopened;
    StillStopped {
        log: StoppedLog::new(node, cluster, store),
        why,
    }
}
