//! A node promises a generation, and accepts its log in the promised one.
ghost use Rattle.std.specs.Prelude.{◌≡◌, ◌<◌, ◌^◌, false, true, [], ◌∷◌, ◌++◌, OnOk, IsErrOf};
ghost use Rattle.cdb_outside.specs.Faults.{Rose};
ghost use Rattle.frame_code.specs.Codes.{frame_code};
ghost use Rattle.frame_code.specs.Spelled.{IsSpelled};
ghost use Rattle.frame_code.specs.declared.frames.Frame.TheVariants as frame;
ghost use Rattle.store_log.specs.Follows.{MayFollow};
ghost use Rattle.store_log.specs.Keeps.{IsKept};
ghost use Rattle.node_log.specs.Logged.{Leaves, with_acceptance, with_promise};

use crate::node_logs::NodeLog;
use cdb_outside::LogStore;
use frame_code::Frame;
use std::alloc::Global;
use store_log::{Held, KeepFault};

/// Keeps one frame in the store.
#[tactic(auto, using(store_log::proofs::StepLemmas::one_code))]
fn keep_one<D: LogStore>(alloc: Global, held: &mut Held<D>, frame: Frame) -> Result<(), KeepFault>
    requires settled { held.old.pending ≡ [] }
    requires spelled { IsSpelled frame }
    requires follow { ∥ MayFollow held.old.synced (frame ∷ []) ∥₁ }
    ensures { IsKept result held.old held.new (frame_code frame) }
{
    let frames = [frame];
    held.keep(alloc, &frames)
}

impl<D: LogStore> NodeLog<D> {
    /// Promises a generation above the promised one, which is kept in the store, synced, before this is answered. After
    /// `StoreFault` the log can only be given back.
    pub fn promise(&mut self, alloc: Global, generation: u64) -> Result<(), KeepFault>
        requires running { self.old.failed ≡ false }
        requires above { self.old.promised < generation }
        requires number { generation < 2 ^ 62 }
        ensures promised { OnOk result (self.new ≡ record (with_promise self.old generation) { store = self.new.store }) }
        ensures kept { OnOk result (self.new.store.synced
            ≡ self.old.store.synced ++ frame_code (frame.Promise generation)) }
        ensures unchanged { IsErrOf result KeepFault.NoMemory → self.new ≡ self.old }
        ensures failed { IsErrOf result KeepFault.StoreFault →
            self.new ≡ record self.old { store = self.new.store; failed = true } }
        ensures rose { IsErrOf result KeepFault.StoreFault → Rose self.old.store.faults self.new.store.faults }
        ensures left { IsErrOf result KeepFault.StoreFault →
            Leaves self.new.store (self.old ∷ with_promise self.old generation ∷ []) }
        ensures calm { OnOk result (self.new.store.faults ≡ self.old.store.faults) }
    {
        match keep_one(alloc, &mut self.held, Frame::Promise(generation)) {
            Ok(()) => {
                self.promised = generation;
                Ok(())
            }
            Err(KeepFault::StoreFault) => {
                self.failed = true;
                Err(KeepFault::StoreFault)
            }
            Err(KeepFault::NoMemory) => Err(KeepFault::NoMemory),
        }
    }

    /// Accepts the log as it is in the promised generation, which is above the accepted one. It is kept in the store,
    /// synced, before this is answered. After `StoreFault` the log can only be given back.
    pub fn accept(&mut self, alloc: Global) -> Result<(), KeepFault>
        requires running { self.old.failed ≡ false }
        requires above { self.old.accepted < self.old.promised }
        ensures accepted { OnOk result (self.new ≡ record (with_acceptance self.old) { store = self.new.store }) }
        ensures kept { OnOk result (self.new.store.synced
            ≡ self.old.store.synced ++ frame_code (frame.Accept self.old.promised)) }
        ensures unchanged { IsErrOf result KeepFault.NoMemory → self.new ≡ self.old }
        ensures failed { IsErrOf result KeepFault.StoreFault →
            self.new ≡ record self.old { store = self.new.store; failed = true } }
        ensures rose { IsErrOf result KeepFault.StoreFault → Rose self.old.store.faults self.new.store.faults }
        ensures left { IsErrOf result KeepFault.StoreFault →
            Leaves self.new.store (self.old ∷ with_acceptance self.old ∷ []) }
        ensures calm { OnOk result (self.new.store.faults ≡ self.old.store.faults) }
    {
        match keep_one(alloc, &mut self.held, Frame::Accept(self.promised)) {
            Ok(()) => {
                self.accepted = self.promised;
                Ok(())
            }
            Err(KeepFault::StoreFault) => {
                self.failed = true;
                Err(KeepFault::StoreFault)
            }
            Err(KeepFault::NoMemory) => Err(KeepFault::NoMemory),
        }
    }
}
