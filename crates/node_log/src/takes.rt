//! A node takes over a log in a generation: it keeps the first entries of its own, and gets others behind them.
ghost use Rattle.std.specs.Prelude.{◌≡◌, ◌≤◌, ◌<◌, ◌^◌, false, true, [], ◌∷◌, ◌++◌, IfOk, OnOk, OnErr, IsErrOf, length, map, take};
ghost use Rattle.std.specs.List.{flat_map, AllByRecursion};
ghost use Rattle.cdb_outside.specs.Faults.{Rose};
ghost use Rattle.frame_code.specs.Codes.{frame_code};
ghost use Rattle.frame_code.specs.Spelled.{IsSpelled};
ghost use Rattle.frame_code.specs.declared.frames.Frame.TheVariants as frame;
ghost use Rattle.phys_log.specs.Logs.{IsLog};
ghost use Rattle.store_log.specs.Follows.{AreNextFrames};
ghost use Rattle.store_log.specs.Keeps.{IsKept};
ghost use Rattle.node_log.specs.Logged.{AreSpelled, Leaves, with_promise};
ghost use Rattle.node_log.specs.Taken.{promise_frames, take_frames, with_taken};

use crate::node_logs::NodeLog;
use cdb_outside::LogStore;
use cdb_values::limits::GENERATION_LIMIT;
use frame_code::Frame;
use log_format::{write_entry, write_frame};
use log_replay::PagedLog;
use phys_log::Entry;
use std::alloc::{AllocError, Global};
use store_log::{Held, KeepFault};

/// Adds the bytes of a frame.
fn put_frame(alloc: Global, out: &mut Vec<u8>, frame: &Frame) -> Result<(), AllocError>
    requires { IsSpelled frame.now }
    ensures { OnOk result (out.new.items ≡ out.old.items ++ frame_code frame.now) }
{
    let bytes = write_frame(alloc, frame)?;
    out.extend_from_slice(bytes.as_bytes())
}

/// Adds the bytes of a promise, where the generation is not the promised one.
#[tactic(auto, using(crate::proofs::TakeLemmas::promise_same, crate::proofs::TakeLemmas::promise_above, crate::proofs::PromiseLemmas::promise_spelled))]
fn put_promise(
    alloc: Global,
    out: &mut Vec<u8>,
    promised: u64,
    generation: u64,
) -> Result<(), AllocError>
    requires { generation < 2 ^ 62 }
    ensures { OnOk result (out.new.items
        ≡ out.old.items ++ flat_map frame_code (promise_frames promised generation)) }
{
    if promised == generation {
        return Ok(());
    }
    put_frame(alloc, out, &Frame::Promise(generation))
}

/// Adds the bytes of the frames of entries, in order.
fn put_entries(alloc: Global, out: &mut Vec<u8>, entries: &[Entry]) -> Result<(), AllocError>
    requires { AreSpelled entries.now }
    ensures { OnOk result (out.new.items ≡ out.old.items ++ flat_map frame_code (map frame.Entry entries.now)) }
{
    let mut rest = entries;
    'entries: while let Some((entry, behind)) = rest.split_first() {
        let bytes = write_entry(alloc, entry)?;
        out.extend_from_slice(bytes.as_bytes())?;
        rest = behind;
    }
    Ok(())
}

/// The bytes of the frames that take a log over.
#[tactic(auto, using(crate::proofs::TakeLemmas::take_code, crate::proofs::TakeLemmas::cut_spelled, crate::proofs::PromiseLemmas::accept_spelled))]
fn taken_bytes(
    alloc: Global,
    promised: u64,
    generation: u64,
    kept: u64,
    entries: &[Entry],
) -> Result<Vec<u8>, AllocError>
    requires generation { generation < 2 ^ 62 }
    requires kept { kept < 2 ^ 62 }
    requires spelled { AreSpelled entries.now }
    ensures { IfOk result (λ v. v.items
        ≡ flat_map frame_code (take_frames promised generation kept entries.now)) }
{
    let mut out = Vec::new(alloc);
    put_promise(alloc, &mut out, promised, generation)?;
    put_frame(alloc, &mut out, &Frame::Cut(kept))?;
    put_entries(alloc, &mut out, entries)?;
    put_frame(alloc, &mut out, &Frame::Accept(generation))?;
    Ok(out)
}

/// Puts entries in the place of those behind the first ones of the log, so many, and keeps the frames that take them over
/// in the store. All memory is taken before the store is called, so that want of it leaves both as they were. Where the store
/// fails the other entries are put back, without memory.
fn keep_taken<D: LogStore>(
    alloc: Global,
    log: &mut PagedLog,
    held: &mut Held<D>,
    promised: u64,
    generation: u64,
    kept: u64,
    entries: Vec<Entry>,
) -> Result<(), KeepFault>
    requires settled { held.old.pending ≡ [] }
    requires generation { generation < 2 ^ 62 }
    requires cut { kept < 2 ^ 62 }
    requires within { kept ≤ length log.old }
    requires spelled { AreSpelled entries.items }
    requires next { ∥ AreNextFrames held.old.synced
        (flat_map frame_code (take_frames promised generation kept entries.items)) ∥₁ }
    ensures kept { IsKept result held.old held.new
        (flat_map frame_code (take_frames promised generation kept entries.items)) }
    ensures taken { OnOk result (log.new ≡ take kept log.old ++ entries.items) }
    ensures unchanged { OnErr result (log.new ≡ log.old) }
{
    let Ok(bytes) = taken_bytes(alloc, promised, generation, kept, entries.as_slice()) else {
        return Err(KeepFault::NoMemory);
    };
    let Ok(exchange) = log.exchange_tail(alloc, kept, entries) else {
        return Err(KeepFault::NoMemory);
    };
    match held.keep_bytes(bytes.as_slice()) {
        Ok(()) => {
            *log = exchange.settle();
            Ok(())
        }
        Err(_) => {
            *log = exchange.take_back();
            Err(KeepFault::StoreFault)
        }
    }
}

impl<D: LogStore> NodeLog<D> {
    /// Takes a log over in a generation, which is promised and accepted then: the first entries of the node's log, so
    /// many, and these behind them. The node's other entries are dropped, in memory and in the store. All is kept in the
    /// store, synced, before this is answered. `NoMemory` comes also where so many is not below 2^62. After `StoreFault`
    /// the log can only be given back: it is as it was, and its store may stand for the one with the entries or not.
    pub fn take_over(
        &mut self,
        alloc: Global,
        generation: u64,
        kept: u64,
        entries: Vec<Entry>,
    ) -> Result<(), KeepFault>
        requires running { self.old.failed ≡ false }
        requires promised { self.old.promised ≤ generation }
        requires accepted { self.old.accepted < generation }
        requires number { generation < 2 ^ 62 }
        requires within { kept ≤ length self.old.entries }
        requires fits { IsLog (take kept self.old.entries ++ entries.items) }
        requires spelled { AreSpelled entries.items }
        ensures taken { OnOk result (self.new
            ≡ record (with_taken self.old generation kept entries.items) { store = self.new.store }) }
        ensures kept { OnOk result (self.new.store.synced ≡ self.old.store.synced
            ++ flat_map frame_code (take_frames self.old.promised generation kept entries.items)) }
        ensures unchanged { IsErrOf result KeepFault.NoMemory → self.new ≡ self.old }
        ensures failed { IsErrOf result KeepFault.StoreFault →
            self.new ≡ record self.old { store = self.new.store; failed = true } }
        ensures rose { IsErrOf result KeepFault.StoreFault → Rose self.old.store.faults self.new.store.faults }
        ensures left { IsErrOf result KeepFault.StoreFault → Leaves self.new.store
            (self.old ∷ with_promise self.old generation
            ∷ with_taken self.old generation kept entries.items ∷ []) }
        ensures calm { OnOk result (self.new.store.faults ≡ self.old.store.faults) }
    {
        if kept >= GENERATION_LIMIT {
            return Err(KeepFault::NoMemory);
        }
        let promised = self.promised;
        let log = &mut self.log;
        match keep_taken(
            alloc,
            log,
            &mut self.held,
            promised,
            generation,
            kept,
            entries,
        ) {
            Ok(()) => {
                self.promised = generation;
                self.accepted = generation;
                Ok(())
            }
            Err(KeepFault::StoreFault) => {
                self.failed = true;
                Err(KeepFault::StoreFault)
            }
            Err(KeepFault::NoMemory) => Err(KeepFault::NoMemory),
        }
    }
}
