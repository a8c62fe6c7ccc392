//! A node's store: frames are kept in it.
ghost use Rattle.std.specs.Prelude.{◌≡◌, [], ◌++◌, IfOk, OnOk, OnErr};
ghost use Rattle.std.specs.List.{flat_map, AllByRecursion};
ghost use Rattle.cdb_outside.specs.Faults.{HasCause};
ghost use Rattle.cdb_outside.specs.Parts.{IsFront};
ghost use Rattle.cdb_outside.specs.Stores.{JoinsFront};
ghost use Rattle.frame_code.specs.Codes.{frame_code};
ghost use Rattle.frame_code.specs.Spelled.{IsSpelled};
ghost use Rattle.store_log.specs.Follows.{AreNextFrames, IsOfLog, MayFollow, StandForLog};
ghost use Rattle.store_log.specs.Keeps.{AreKept, AreLeft, IsKept};

use cdb_outside::{Failed, LogStore};
use frame_code::Frame;
use log_format::write_frame;
use std::alloc::{AllocError, Global};
use std::marker::Model;

/// Why frames were not kept.
#[derive(Drop)]
pub enum KeepFault {
    /// A call of the store failed: some front of the frames' bytes may be synced by a stop.
    StoreFault,
    /// Want of memory: the store is as before.
    NoMemory,
}

/// A store of frames: its synced bytes hold a log, and what waits for a sync is a front of frames that may follow. So however
/// it is stopped, it stands for a log. Contracts see its synced bytes, those that wait, and its counts.
#[derive(Drop)]
pub struct Held<D: LogStore> {
    store: D,
}

impl<D: LogStore> Model for Held<D> {
    ghost use Rattle.store_log.specs.Follows.{IsOfLog};
    ghost use Rattle.store_log.specs.Keeps.{Stored};

    ghost Value = { Stored };

    ghost view = { λ h. record {
      synced = D.synced h.store;
      pending = D.pending h.store;
      faults = D.faults h.store;
      writes = D.writes h.store;
    } };

    ghost invariant = { λ h. ∥ IsOfLog (record {
      synced = D.synced h.store;
      pending = D.pending h.store;
      faults = D.faults h.store;
      writes = D.writes h.store;
    }) ∥₁ };
}

impl<D: LogStore> Held<D> {
    /// A store that has the frames of a log.
    pub(crate) fn of(store: D) -> Held<D>
        requires { ∥ IsOfLog (record {
          synced = D.synced store;
          pending = D.pending store;
          faults = D.faults store;
          writes = D.writes store;
        }) ∥₁ }
        ensures { result ≡ record {
          synced = D.synced store;
          pending = D.pending store;
          faults = D.faults store;
          writes = D.writes store;
        } }
    {
        Held { store }
    }

    /// Keeps frames that may stand there behind those that stand in the store, synced, in order. All memory is taken before
    /// the store is called. After `StoreFault` the store can only be given back.
    pub fn keep(&mut self, alloc: Global, frames: &[Frame]) -> Result<(), KeepFault>
        requires settled { self.old.pending ≡ [] }
        requires spelled { AllByRecursion IsSpelled frames.now }
        requires follow { ∥ MayFollow self.old.synced frames.now ∥₁ }
        ensures { IsKept result self.old self.new (flat_map frame_code frames.now) }
    {
        let bytes = match bytes_of(alloc, frames) {
            Ok(bytes) => bytes,
            Err(_) => return Err(KeepFault::NoMemory),
        };
        match self.keep_bytes(bytes.as_slice()) {
            Ok(()) => Ok(()),
            Err(_) => Err(KeepFault::StoreFault),
        }
    }

    /// Keeps bytes of frames that may stand there, which `write_frame` wrote, behind those that stand in the store, synced.
    /// Takes no memory. After `Failed` the store can only be given back.
    pub fn keep_bytes(&mut self, bytes: &[u8]) -> Result<(), Failed>
        requires settled { self.old.pending ≡ [] }
        requires next { ∥ AreNextFrames self.old.synced bytes.now ∥₁ }
        ensures kept { OnOk result (AreKept self.old self.new bytes.now) }
        ensures left { OnErr result (AreLeft self.old self.new bytes.now) }
    {
        write_synced(&mut self.store, bytes)
    }

    /// Stops the store and gives it back; it stands for a log. Takes no memory.
    pub fn give_back(self) -> D
        ensures joined { JoinsFront self.synced self.pending (D.synced result) }
        ensures log { ∥ StandForLog (D.synced result) ∥₁ }
        ensures settled { D.pending result ≡ [] }
        ensures calm { D.faults result ≡ self.faults }
    {
        let mut store = self.store;
        store.halt();
        store
    }
}

/// Appends bytes to a store in which none is pending, and syncs them.
#[tactic(auto, using(crate::proofs::KeepLemmas::causes_join, crate::proofs::KeepLemmas::rose_from))]
pub(crate) fn write_synced<D: LogStore>(store: &mut D, bytes: &[u8]) -> Result<(), Failed>
    requires { D.pending store.old ≡ [] }
    ensures synced { OnOk result (D.synced store.new ≡ D.synced store.old ++ bytes.now) }
    ensures settled { OnOk result (D.pending store.new ≡ []) }
    ensures same { OnErr result (D.synced store.new ≡ D.synced store.old) }
    ensures part { OnErr result (IsFront (D.pending store.new) bytes.now) }
    ensures cause { HasCause (D.faults store.old) (D.faults store.new) result }
{
    store.append(bytes)?;
    store.sync()
}

/// The bytes of frames, one behind the other.
fn bytes_of(alloc: Global, frames: &[Frame]) -> Result<Vec<u8>, AllocError>
    requires { AllByRecursion IsSpelled frames.now }
    ensures { IfOk result (λ v. v.items ≡ flat_map frame_code frames.now) }
{
    let mut out = Vec::new(alloc);
    let mut rest = frames;
    'frames: while let Some((frame, behind)) = rest.split_first() {
        let bytes = write_frame(alloc, frame)?;
        out.extend_from_slice(bytes.as_bytes())?;
        rest = behind;
    }
    Ok(out)
}
