//! The log of a node, and which entry of it has which identity: a transaction that asks again is found without a walk over the
//! log.
ghost use Rattle.std.specs.Prelude.{◌≡◌, ◌+◌, ◌++◌, ◌∷◌, [], false, true, Some, OnOk, OnErr, IsErrOf};
ghost use Rattle.blkseq_table.specs.Known.{AreBelow, IsAbsent};
ghost use Rattle.blkseq_table.specs.OfLogs.{id_of, identities_of, known_of};
ghost use Rattle.cdb_outside.specs.Faults.{Rose};
ghost use Rattle.frame_code.specs.Spelled.{IsSpelled};
ghost use Rattle.frame_code.specs.declared.frames.Frame.TheVariants as frame;
ghost use Rattle.node_log.specs.Logged.{with_entry, Leaves};
ghost use Rattle.phys_log.specs.Logs.{Fits};
ghost use Rattle.phys_log.specs.declared.entries.CommitId.{CommitId};
ghost use Rattle.script_play.specs.Effects.{IsFreshIn};
ghost use Rattle.store_log.specs.Held.{generation_of};
ghost use Rattle.undo_snapshot.specs.Positions.{AreOfLog};

use super::holding::beside;
use blkseq_table::BlkSeq;
use cdb_outside::LogStore;
use log_replay::PagedLog;
use node_log::{KeepFault, NodeLog};
use phys_log::Entry;
use std::alloc::{AllocError, Global};
use std::marker::Model;
use std::mem;
use undo_snapshot::KeptPositions;

/// The log of a node, with the identities of its entries, and pages of it that were undone for open transactions. As long as
/// no call of the store failed, the identities are those of all its entries. Contracts see the log.
#[derive(Drop)]
pub(crate) struct IndexedLog<D: LogStore> {
    log: NodeLog<D>,
    known: BlkSeq,
    undone: KeptPositions,
}

impl<D: LogStore> Model for IndexedLog<D> {
    ghost use Rattle.std.specs.Prelude.{◌≡◌, false};
    ghost use Rattle.blkseq_table.specs.OfLogs.{identities_of};
    ghost use Rattle.node_log.specs.Logged.{Logged};
    ghost use Rattle.undo_snapshot.specs.Positions.{AreOfLog};

    ghost Value = { Logged };

    ghost view = { λ i. i.log };

    ghost invariant = { λ i. (i.log.failed ≡ false → i.known ≡ identities_of i.log.entries) × AreOfLog i.log.entries i.undone };
}

impl<D: LogStore> IndexedLog<D> {
    /// A log with the identities of its entries. Takes no memory.
    pub(crate) fn over(log: NodeLog<D>, known: BlkSeq) -> IndexedLog<D>
        requires { known ≡ identities_of log.entries }
        ensures { result ≡ log }
    {
        IndexedLog {
            log,
            known,
            undone: KeptPositions::none(),
        }
    }

    /// The log, with its pages. Takes no memory.
    pub(crate) fn log(&self) -> &PagedLog
        ensures { result.now ≡ self.now.entries }
    {
        self.log.log()
    }

    /// The identities of its entries, as long as no call of the store failed. Takes no memory.
    pub(crate) fn known(&self) -> &BlkSeq
        requires { self.now.failed ≡ false }
        ensures { result.now ≡ identities_of self.now.entries }
    {
        &self.known
    }

    /// The generation in which the node accepted its log. Takes no memory.
    pub(crate) fn accepted(&self) -> u64
        ensures { result ≡ self.now.accepted }
    {
        self.log.accepted()
    }

    /// Whether a call of the store failed, so that the log can only be given back. Takes no memory.
    pub(crate) fn has_failed(&self) -> bool
        ensures { result ≡ self.now.failed }
    {
        self.log.has_failed()
    }

    /// Takes out the pages that were undone. Takes no memory.
    pub(crate) fn take_undone(&mut self) -> KeptPositions
        ensures pages { AreOfLog self.old.entries result }
        ensures same { self.new ≡ self.old }
    {
        mem::replace(&mut self.undone, KeptPositions::none())
    }

    /// Puts pages back that were undone. Takes no memory.
    pub(crate) fn put_undone(&mut self, undone: KeptPositions)
        requires { AreOfLog self.old.entries undone }
        ensures { self.new ≡ self.old }
    {
        self.undone = undone;
    }

    /// Appends the next entry of the log, whose identity no entry has, as `NodeLog` does. The identity is put in before the
    /// log is called, and taken out again where memory was wanting, so that this leaves both as they were.
    pub(crate) fn append(&mut self, alloc: Global, entry: Entry) -> Result<(), KeepFault>
        requires running { self.old.failed ≡ false }
        requires accepted { generation_of entry ≡ self.old.accepted }
        requires fits { Fits self.old.entries entry }
        requires spelled { IsSpelled (frame.Entry entry) }
        requires fresh { IsFreshIn self.old.entries entry }
        ensures added { OnOk result (self.new ≡ record (with_entry self.old entry) { store = self.new.store }) }
        ensures unchanged { IsErrOf result KeepFault.NoMemory → self.new ≡ self.old }
        ensures failed { IsErrOf result KeepFault.StoreFault →
            self.new ≡ record (with_entry self.old entry) { store = self.new.store; failed = true } }
        ensures rose { IsErrOf result KeepFault.StoreFault → Rose self.old.store.faults self.new.store.faults }
        ensures left { IsErrOf result KeepFault.StoreFault →
            Leaves self.new.store (self.old ∷ with_entry self.old entry ∷ []) }
        ensures calm { OnOk result (self.new.store.faults ≡ self.old.store.faults) }
    {
        let last = self.log.log().entries().len() as u64;
        let told = tell(&mut self.known, &entry, last + 1);
        let Ok((entry, ())) = beside(entry, told) else {
            return Err(KeepFault::NoMemory);
        };
        match self.log.append(alloc, entry) {
            Ok(()) => Ok(()),
            Err(KeepFault::StoreFault) => Err(KeepFault::StoreFault),
            Err(KeepFault::NoMemory) => {
                self.known.drop_above(last);
                Err(KeepFault::NoMemory)
            }
        }
    }

    /// The log of the node. Takes no memory.
    pub(crate) fn into_log(self) -> NodeLog<D>
        ensures { result ≡ self }
    {
        self.log
    }
}

/// Puts the identity of an entry, where it has one, behind the others. The error is want of memory; all is as before then.
fn tell(known: &mut BlkSeq, entry: &Entry, position: u64) -> Result<(), AllocError>
    requires absent { (id : CommitId) → id_of entry.now ≡ Some id → IsAbsent known.old id }
    requires above { AreBelow known.old position }
    ensures last { OnOk result (known.new ≡ known.old ++ known_of position entry.now) }
    ensures unchanged { OnErr result (known.new ≡ known.old) }
{
    match entry {
        Entry::Setup { .. } => Ok(()),
        Entry::Commit { id, .. } => known.insert(id.clone()?, position),
    }
}
