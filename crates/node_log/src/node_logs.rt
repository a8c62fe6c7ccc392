ghost use Rattle.std.specs.Prelude.{◌≡◌, ◌+◌, ◌≤◌, ◌<◌, ◌^◌, true, false, [], ◌∷◌, ◌++◌, length, take, IfOk, IfErr, OnOk, IsErrOf, MatchResult};
ghost use Rattle.cdb_outside.specs.Faults.{Rose};
ghost use Rattle.cdb_outside.specs.Stores.{JoinsFront};
ghost use Rattle.frame_code.specs.Codes.{frame_code};
ghost use Rattle.frame_code.specs.Spelled.{IsSpelled};
ghost use Rattle.frame_code.specs.declared.frames.Frame.TheVariants as frame;
ghost use Rattle.phys_log.specs.Logs.{Fits};
ghost use Rattle.store_log.specs.declared.standings.Standing.TheVariants.{Log};
ghost use Rattle.store_log.specs.Held.{StandsFor, generation_of};
ghost use Rattle.store_log.specs.Opens.{IsOpened, StandsAlike, IsOpenFault, IsLater, IsUnchanged, TellsRead};
ghost use Rattle.node_log.specs.Logged.{AreSpelled, Stand, Leaves, with_entry, with_promise, with_stand};

use crate::keeps::{keep_entry, keep_stand};
use cdb_outside::LogStore;
use cdb_values::limits::GENERATION_LIMIT;
use log_replay::PagedLog;
use phys_log::Entry;
use std::alloc::Global;
use std::marker::Model;
use store_log::{Held, KeepFault, Unopened, open_log};

/// The log of one node of a cluster, and the store that it is kept in. As long as no call of the store failed, the
/// store holds exactly this log and its generations, synced.
#[derive(Drop)]
pub struct NodeLog<D: LogStore> {
    pub(crate) node: u8,
    pub(crate) cluster: u128,
    pub(crate) promised: u64,
    pub(crate) accepted: u64,
    pub(crate) log: PagedLog,
    pub(crate) held: Held<D>,
    pub(crate) failed: bool,
}

impl<D: LogStore> Model for NodeLog<D> {
    ghost use Rattle.std.specs.Prelude.{◌≡◌, false};
    ghost use Rattle.node_log.specs.Logged.{Logged, IsInStep};

    ghost Value = { Logged };

    ghost view = { λ n. record {
      node = n.node;
      cluster = n.cluster;
      promised = n.promised;
      accepted = n.accepted;
      entries = n.log;
      store = n.held;
      failed = n.failed;
    } };

    ghost invariant = { λ n. n.failed ≡ false → IsInStep n.node n.cluster n.held n.promised n.accepted n.log };
}

impl<D: LogStore + Drop> NodeLog<D> {
    /// Opens the log that a store stands for, as `open_log` does. A store that was not opened is given back.
    pub fn open(alloc: Global, store: D, node: u8, cluster: u128) -> Result<NodeLog<D>, Unopened<D>>
        requires settled { D.pending store ≡ [] }
        ensures stands { IfOk result (λ n.
            StandsFor node cluster (D.synced store) (Log n.promised n.accepted n.entries)) }
        ensures opened { IfOk result (λ n. IsOpened node cluster (D.synced store) n.store.synced) }
        ensures node { IfOk result (λ n. n.node ≡ node) }
        ensures cluster { IfOk result (λ n. n.cluster ≡ cluster) }
        ensures running { IfOk result (λ n. n.failed ≡ false) }
        ensures settled { MatchResult result (λ n. n.store.pending ≡ []) (λ u. D.pending u.store ≡ []) }
        ensures calm { IfOk result (λ n. n.store.faults ≡ D.faults store) }
        ensures later { IfErr result (λ u. IsLater u.why (D.faults store) (D.faults u.store)) }
        ensures why { IfErr result (λ u.
            IsOpenFault u.why node cluster (D.synced store) (D.faults store) (D.faults u.store)) }
        ensures read { IfErr result (λ u.
            TellsRead u.why node cluster (D.synced store) (D.writes store) (D.writes u.store)) }
        ensures unchanged { IfErr result (λ u. IsUnchanged u.why (D.synced store) (D.synced u.store)) }
        ensures alike { IfErr result (λ u. StandsAlike node cluster (D.synced store) (D.synced u.store)) }
    {
        match open_log(alloc, store, node, cluster) {
            Ok(opened) => Ok(NodeLog {
                node,
                cluster,
                promised: opened.promised,
                accepted: opened.accepted,
                log: opened.entries,
                held: opened.held,
                failed: false,
            }),
            Err(unopened) => Err(unopened),
        }
    }
}

impl<D: LogStore> NodeLog<D> {
    /// Stands in the generation above the promised one, and tells it: the node promises it and accepts its log in it.
    /// Both are kept in the store, synced. `NoMemory` comes also where that generation is not below 2^62. After
    /// `StoreFault` the log can only be given back.
    pub fn stand(&mut self, alloc: Global) -> Result<u64, KeepFault>
        requires running { self.old.failed ≡ false }
        ensures generation { IfOk result (λ g. g ≡ self.old.promised + 1) }
        ensures below { IfOk result (λ g. g < 2 ^ 62) }
        ensures stood { IfOk result (λ g. self.new ≡ record (with_stand self.old g) { store = self.new.store }) }
        ensures kept { IfOk result (λ g. self.new.store.synced
            ≡ self.old.store.synced ++ (frame_code (frame.Promise g) ++ frame_code (frame.Accept g))) }
        ensures unchanged { IsErrOf result KeepFault.NoMemory → self.new ≡ self.old }
        ensures failed { IsErrOf result KeepFault.StoreFault →
            self.new ≡ record self.old { store = self.new.store; failed = true } }
        ensures rose { IsErrOf result KeepFault.StoreFault → Rose self.old.store.faults self.new.store.faults }
        ensures left { IsErrOf result KeepFault.StoreFault → Leaves self.new.store
            (self.old ∷ with_promise self.old (self.old.promised + 1)
            ∷ with_stand self.old (self.old.promised + 1) ∷ []) }
        ensures calm { OnOk result (self.new.store.faults ≡ self.old.store.faults) }
    {
        if self.promised >= GENERATION_LIMIT - 1 {
            return Err(KeepFault::NoMemory);
        }
        let generation = self.promised + 1;
        match keep_stand(alloc, &mut self.held, generation) {
            Ok(()) => {
                self.promised = generation;
                self.accepted = generation;
                Ok(generation)
            }
            Err(KeepFault::StoreFault) => {
                self.failed = true;
                Err(KeepFault::StoreFault)
            }
            Err(KeepFault::NoMemory) => Err(KeepFault::NoMemory),
        }
    }

    /// Appends the next entry of the log, which is kept in the store, synced, before this is answered. After
    /// `StoreFault` the log can only be given back: it has the entry, and its store may stand for it or not.
    pub fn append(&mut self, alloc: Global, entry: Entry) -> Result<(), KeepFault>
        requires running { self.old.failed ≡ false }
        requires accepted { generation_of entry ≡ self.old.accepted }
        requires fits { Fits self.old.entries entry }
        requires spelled { IsSpelled (frame.Entry entry) }
        ensures added { OnOk result (self.new ≡ record (with_entry self.old entry) { store = self.new.store }) }
        ensures kept { OnOk result (self.new.store.synced ≡ self.old.store.synced ++ frame_code (frame.Entry entry)) }
        ensures unchanged { IsErrOf result KeepFault.NoMemory → self.new ≡ self.old }
        ensures failed { IsErrOf result KeepFault.StoreFault →
            self.new ≡ record (with_entry self.old entry) { store = self.new.store; failed = true } }
        ensures rose { IsErrOf result KeepFault.StoreFault → Rose self.old.store.faults self.new.store.faults }
        ensures left { IsErrOf result KeepFault.StoreFault →
            Leaves self.new.store (self.old ∷ with_entry self.old entry ∷ []) }
        ensures calm { OnOk result (self.new.store.faults ≡ self.old.store.faults) }
    {
        match keep_entry(alloc, &mut self.log, &mut self.held, entry) {
            Ok(()) => Ok(()),
            Err(KeepFault::StoreFault) => {
                self.failed = true;
                Err(KeepFault::StoreFault)
            }
            Err(KeepFault::NoMemory) => Err(KeepFault::NoMemory),
        }
    }

    /// Drops the entries behind the first ones, so many, of a log whose store failed. Takes no memory.
    pub fn drop_tail(&mut self, alloc: Global, kept: u64)
        requires failed { self.old.failed ≡ true }
        requires within { kept ≤ length self.old.entries }
        ensures { self.new ≡ record self.old { entries = take kept self.old.entries } }
    {
        match self.log.drop_tail(alloc, kept) {
            Ok(()) => {}
            Err(_) => unreachable!(),
        }
    }

    /// The log, with its pages. Takes no memory.
    pub fn log(&self) -> &PagedLog
        ensures entries { result.now ≡ self.now.entries }
        ensures stands { self.now.failed ≡ false → ∥ Stand self.now.store.synced self.now ∥₁ }
        ensures settled { self.now.failed ≡ false → self.now.store.pending ≡ [] }
        ensures spelled { self.now.failed ≡ false → ∥ AreSpelled self.now.entries ∥₁ }
    {
        &self.log
    }

    /// The promised generation. Takes no memory.
    pub fn promised(&self) -> u64
        ensures promised { result ≡ self.now.promised }
        ensures below { self.now.failed ≡ false → result < 2 ^ 62 }
    {
        self.promised
    }

    /// The generation in which the node accepted its log. Takes no memory.
    pub fn accepted(&self) -> u64
        ensures accepted { result ≡ self.now.accepted }
        ensures below { self.now.failed ≡ false → result < 2 ^ 62 }
    {
        self.accepted
    }

    /// The node's number. Takes no memory.
    pub fn node(&self) -> u8
        ensures { result ≡ self.now.node }
    {
        self.node
    }

    /// The id of the node's cluster. Takes no memory.
    pub fn cluster(&self) -> u128
        ensures { result ≡ self.now.cluster }
    {
        self.cluster
    }

    /// Whether a call of the store failed, so that the log can only be given back. Takes no memory.
    pub fn has_failed(&self) -> bool
        ensures { result ≡ self.now.failed }
    {
        self.failed
    }

    /// Stops the node, and gives its log and its store back. Takes no memory.
    pub fn into_parts(self) -> (PagedLog, D)
        ensures log { result.0 ≡ self.entries }
        ensures joined { JoinsFront self.store.synced self.store.pending (D.synced result.1) }
        ensures settled { D.pending result.1 ≡ [] }
        ensures calm { D.faults result.1 ≡ self.store.faults }
        ensures same { self.failed ≡ false → D.synced result.1 ≡ self.store.synced }
        ensures stands { self.failed ≡ false → ∥ Stand (D.synced result.1) self ∥₁ }
    {
        let store = self.held.give_back();
        (self.log, store)
    }

    /// Stops the node, and gives its store back. Takes no memory.
    pub fn give_back(self) -> D
        ensures joined { JoinsFront self.store.synced self.store.pending (D.synced result) }
        ensures settled { D.pending result ≡ [] }
        ensures calm { D.faults result ≡ self.store.faults }
        ensures same { self.failed ≡ false → D.synced result ≡ self.store.synced }
        ensures stands { self.failed ≡ false → ∥ Stand (D.synced result) self ∥₁ }
    {
        let (_, store) = self.into_parts();
        store
    }
}
