//! A log over its store.
ghost use Rattle.std.specs.Prelude.{◌≡◌, ◌≤◌, ◌<◌, ◌^◌, true, false, List, [], ◌∷◌, ◌++◌, length, take, IfOk, OnOk, OnErr, IfErr, IsErrOf};
ghost use Rattle.node_log.specs.Logged.{AreSpelled};
ghost use Rattle.frame_code.specs.Spelled.{IsSpelled};
ghost use Rattle.frame_code.specs.declared.frames.Frame.TheVariants as frame;
ghost use Rattle.kept_log.specs.Kept.{Fails, HoldsAny, IsAny, Kept, StandsStill, kept, kept_by, stopped_from, unread_over};
ghost use Rattle.phys_log.specs.Logs.{Fits, IsLog};
ghost use Rattle.stopped_log.specs.Stopped.{Excuses};
ghost use Rattle.store_log.specs.declared.standings.Standing.TheVariants.{Log};
ghost use Rattle.store_log.specs.Held.{StandsFor, generation_of};
ghost use Rattle.store_log.specs.Opens.{IsLater, IsOpenFault};

use crate::places::{Place, Stayed, append_to, placed, shut, stopped, take_open, take_stopped};
use crate::readings::{Reading, read_off};
use cdb_outside::LogStore;
use log_replay::PagedLog;
use node_log::{KeepFault, NodeLog, OpenFault};
use phys_log::Entry;
use std::alloc::Global;
use std::marker::Model;
use std::snapshot::Snapshot;
use stopped_log::{StillStopped, StoppedLog};

/// A node's log over its store, open or stopped.
#[derive(Drop)]
pub struct KeptLog<D: LogStore> {
    place: Place<D>,
}

impl<D: LogStore> Model for KeptLog<D> {
    ghost use Rattle.kept_log.specs.Kept.{IsPlaced, OverStore, over_of};

    ghost Value = { OverStore };

    ghost view = { λ k. over_of k.place };

    ghost invariant = { λ k. IsPlaced k.place };
}

impl<D: LogStore + Drop> KeptLog<D> {
    /// An open log. Takes no memory.
    pub fn new(log: NodeLog<D>) -> KeptLog<D>
        requires running { log.failed ≡ false }
        ensures kept { kept_by result ≡ kept log.promised log.accepted log.entries }
        ensures node { result.node ≡ log.node }
        ensures cluster { result.cluster ≡ log.cluster }
        ensures running { result.is_open ≡ true }
        ensures synced { result.synced ≡ log.store.synced }
        ensures calm { result.faults ≡ log.store.faults }
    {
        KeptLog {
            place: Place::Open(log),
        }
    }

    /// A log over a store that was not read yet. It is stopped, and has no entry. Takes no memory.
    pub fn unread(alloc: Global, node: u8, cluster: u128, store: D) -> KeptLog<D>
        requires settled { D.pending store ≡ [] }
        ensures { result ≡ unread_over node cluster (D.synced store) (D.faults store) }
    {
        KeptLog {
            place: Place::Stopped(Stayed {
                promised: 0,
                accepted: 0,
                log: PagedLog::new(alloc),
                store: StoppedLog::new(node, cluster, store),
            }),
        }
    }

    /// The entries, open or stopped. Takes no memory.
    pub fn entries(&self) -> &[Entry]
        ensures entries { result.now ≡ self.now.entries }
        ensures spelled { self.now.is_open ≡ true → ∥ AreSpelled self.now.entries ∥₁ }
    {
        match &self.place {
            Place::Open(log) => log.log().entries(),
            Place::Stopped(stayed) => stayed.log.entries(),
            Place::Moved => unreachable!(),
        }
    }

    /// The log with its pages, open or stopped. Takes no memory.
    pub fn log(&self) -> &PagedLog
        ensures { result.now ≡ self.now.entries }
    {
        match &self.place {
            Place::Open(log) => log.log(),
            Place::Stopped(stayed) => &stayed.log,
            Place::Moved => unreachable!(),
        }
    }

    /// The promised generation, open or stopped. Takes no memory.
    pub fn promised(&self) -> u64
        ensures { result ≡ self.now.promised }
    {
        match &self.place {
            Place::Open(log) => log.promised(),
            Place::Stopped(stayed) => stayed.promised,
            Place::Moved => unreachable!(),
        }
    }

    /// The accepted generation, open or stopped. Takes no memory.
    pub fn accepted(&self) -> u64
        ensures { result ≡ self.now.accepted }
    {
        match &self.place {
            Place::Open(log) => log.accepted(),
            Place::Stopped(stayed) => stayed.accepted,
            Place::Moved => unreachable!(),
        }
    }

    /// The log as clauses see it, open or stopped. Takes no memory.
    pub fn told(&self) -> Snapshot<PagedLog>
        ensures { result.value ≡ self.now.entries }
    {
        match &self.place {
            Place::Open(log) => Snapshot::of(log.log()),
            Place::Stopped(stayed) => Snapshot::of(&stayed.log),
            Place::Moved => unreachable!(),
        }
    }

    /// Its store, which is stopped. Takes no memory.
    pub fn give_back(self) -> D
        ensures synced { D.synced result ≡ self.synced }
        ensures settled { D.pending result ≡ [] }
        ensures calm { D.faults result ≡ self.faults }
        ensures holds { self.is_open ≡ true → HoldsAny self (kept_by self ∷ []) }
    {
        match self.place {
            Place::Open(log) => shut(log),
            Place::Stopped(stayed) => stayed.store.give_back(),
            Place::Moved => unreachable!(),
        }
    }

    /// Stops it. Takes no memory.
    pub fn stop(&mut self)
        requires running { self.old.is_open ≡ true }
        ensures stopped { self.new ≡ stopped_from self.old self.new.synced self.old.faults }
        ensures holds { HoldsAny self.new (kept_by self.old ∷ []) }
    {
        let log = take_open(&mut self.place);
        self.place = stopped(log);
    }

    /// Promises a generation above the promised one. Where the store fails there, it stops.
    pub fn promise(&mut self, alloc: Global, generation: u64) -> Result<(), KeepFault>
        requires running { self.old.is_open ≡ true }
        requires above { self.old.promised < generation }
        requires number { generation < 2 ^ 62 }
        ensures promised { OnOk result (self.new ≡ record self.old { promised = generation; synced = self.new.synced }) }
        ensures unchanged { IsErrOf result KeepFault.NoMemory → self.new ≡ self.old }
        ensures fails { IsErrOf result KeepFault.StoreFault → Fails self.old self.new
            (kept_by self.old ∷ kept generation self.old.accepted self.old.entries ∷ []) }
    {
        let mut log = take_open(&mut self.place);
        let told = log.promise(alloc, generation);
        self.place = placed(log);
        told
    }

    /// Accepts the log in the promised generation, which is above the accepted one. Where the store fails there, it stops.
    pub fn accept(&mut self, alloc: Global) -> Result<(), KeepFault>
        requires running { self.old.is_open ≡ true }
        requires above { self.old.accepted < self.old.promised }
        ensures accepted { OnOk result (self.new
            ≡ record self.old { accepted = self.old.promised; synced = self.new.synced }) }
        ensures unchanged { IsErrOf result KeepFault.NoMemory → self.new ≡ self.old }
        ensures fails { IsErrOf result KeepFault.StoreFault → Fails self.old self.new
            (kept_by self.old ∷ kept self.old.promised self.old.promised self.old.entries ∷ []) }
    {
        let mut log = take_open(&mut self.place);
        let told = log.accept(alloc);
        self.place = placed(log);
        told
    }

    /// Appends the next entry, which is of the accepted generation. Where the store fails there, it stops.
    pub fn append(&mut self, alloc: Global, entry: Entry) -> Result<(), KeepFault>
        requires running { self.old.is_open ≡ true }
        requires accepted { generation_of entry ≡ self.old.accepted }
        requires fits { Fits self.old.entries entry }
        requires spelled { IsSpelled (frame.Entry entry) }
        ensures added { OnOk result (self.new
            ≡ record self.old { entries = self.old.entries ++ entry ∷ []; synced = self.new.synced }) }
        ensures unchanged { IsErrOf result KeepFault.NoMemory → self.new ≡ self.old }
        ensures fails { IsErrOf result KeepFault.StoreFault → Fails self.old self.new
            (kept_by self.old ∷ kept self.old.promised self.old.accepted (self.old.entries ++ entry ∷ []) ∷ []) }
    {
        let mut log = take_open(&mut self.place);
        let told = append_to(alloc, &mut log, entry);
        self.place = placed(log);
        told
    }

    /// Takes a log over in a generation, which is promised and accepted then: the first entries of its own, so many, and these
    /// behind them. Where the store fails there, it stops.
    pub fn take_over(
        &mut self,
        alloc: Global,
        generation: u64,
        front: u64,
        entries: Vec<Entry>,
    ) -> Result<(), KeepFault>
        requires running { self.old.is_open ≡ true }
        requires promised { self.old.promised ≤ generation }
        requires accepted { self.old.accepted < generation }
        requires number { generation < 2 ^ 62 }
        requires within { front ≤ length self.old.entries }
        requires fits { IsLog (take front self.old.entries ++ entries.items) }
        requires spelled { AreSpelled entries.items }
        ensures taken { OnOk result (self.new ≡ record self.old {
          promised = generation;
          accepted = generation;
          entries = take front self.old.entries ++ entries.items;
          synced = self.new.synced;
        }) }
        ensures unchanged { IsErrOf result KeepFault.NoMemory → self.new ≡ self.old }
        ensures fails { IsErrOf result KeepFault.StoreFault → Fails self.old self.new
            (kept_by self.old ∷ kept generation self.old.accepted self.old.entries
            ∷ kept generation generation (take front self.old.entries ++ entries.items) ∷ []) }
    {
        let mut log = take_open(&mut self.place);
        let told = log.take_over(alloc, generation, front, entries);
        self.place = placed(log);
        told
    }

    /// Reads what its store holds. It is stopped still, as it was.
    pub fn read(&mut self, alloc: Global) -> Result<Reading, OpenFault>
        requires stopped { self.old.is_open ≡ false }
        ensures same { self.new ≡ stopped_from self.old self.new.synced self.new.faults }
        ensures stood { IfOk result (λ r. StandsFor self.old.node self.old.cluster self.old.synced
            (Log r.promised r.accepted r.entries)) }
        ensures still { StandsStill self.old.node self.old.cluster self.old.synced self.new.synced }
        ensures calm { OnOk result (self.new.faults ≡ self.old.faults) }
        ensures why { IfErr result (λ w.
            IsOpenFault w self.old.node self.old.cluster self.old.synced self.old.faults self.new.faults) }
        ensures later { IfErr result (λ w. IsLater w self.old.faults self.new.faults) }
    {
        let Stayed {
            promised,
            accepted,
            log,
            store,
        } = take_stopped(&mut self.place);
        let (told, store) = read_off(alloc, store);
        self.place = Place::Stopped(Stayed {
            promised,
            accepted,
            log,
            store,
        });
        told
    }

    /// Opens it again: it has what its store holds then. Where it is not opened, it is stopped still.
    pub fn open(&mut self, alloc: Global) -> Result<(), OpenFault>
        requires stopped { self.old.is_open ≡ false }
        ensures running { OnOk result (self.new.is_open ≡ true) }
        ensures found { OnOk result ((ks : List Kept) → HoldsAny self.old ks → ∥ IsAny (kept_by self.new) ks ∥₁) }
        ensures node { self.new.node ≡ self.old.node }
        ensures cluster { self.new.cluster ≡ self.old.cluster }
        ensures calm { OnOk result (self.new.faults ≡ self.old.faults) }
        ensures kept { OnErr result (self.new ≡ stopped_from self.old self.new.synced self.new.faults) }
        ensures still { OnErr result ((ks : List Kept) → HoldsAny self.old ks → HoldsAny self.new ks) }
        ensures why { IfErr result (λ w. (ks : List Kept) → HoldsAny self.old ks →
            Excuses w self.old.faults self.new.faults) }
    {
        let Stayed {
            promised,
            accepted,
            log,
            store,
        } = take_stopped(&mut self.place);
        match store.open(alloc) {
            Ok(opened) => {
                drop(log);
                self.place = Place::Open(opened);
                Ok(())
            }
            Err(still) => {
                let StillStopped { log: store, why } = still;
                self.place = Place::Stopped(Stayed {
                    promised,
                    accepted,
                    log,
                    store,
                });
                Err(why)
            }
        }
    }
}
