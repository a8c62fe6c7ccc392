//! One step of a node's log over its store.
ghost use Rattle.std.specs.Prelude.{◌≡◌, ◌≤◌, ◌<◌, ◌^◌, [], ◌∷◌, IfOk, IfSome, true, false};
ghost use Rattle.kept_cases.specs.Placed.{IsPlaced, IsPlain};

use crate::told::Told;
use cdb_outside::MemStore;
use cdb_values::limits::GENERATION_LIMIT;
use cdb_values::{List, Schema};
use entry_spelling::has_spelling;
use kept_log::{KeepFault, KeptLog};
use node_reading::read_store;
use phys_log::Entry;
use std::alloc::{AllocError, Global};

/// Each store is one of this node and cluster.
const NODE: u8 = 2;

const CLUSTER: u128 = 7;

/// Where a log is.
#[derive(Drop)]
pub(crate) enum Place {
    Open(KeptLog<MemStore>),
    Stopped(KeptLog<MemStore>),
}

/// A log behind a step, and what the step came to.
#[derive(Drop)]
pub(crate) struct Stepped {
    pub place: Place,
    pub told: Told,
}

/// A log over a store that was not read yet.
pub(crate) fn begin(alloc: Global, store: MemStore) -> Place
    requires { store.waiting ≡ [] }
    ensures { IsPlaced result }
{
    Place::Stopped(KeptLog::unread(alloc, NODE, CLUSTER, store))
}

/// Does a step, where it can be done.
pub(crate) fn step(alloc: Global, place: Place, word: &str) -> Stepped
    requires { IsPlaced place }
    ensures { IsPlaced result.place }
{
    match place {
        Place::Open(log) => open_step(alloc, log, word),
        Place::Stopped(log) => stopped_step(alloc, log, word),
    }
}

/// A step of an open log.
fn open_step(alloc: Global, log: KeptLog<MemStore>, word: &str) -> Stepped
    requires { log.is_open ≡ true }
    ensures { IsPlaced result.place }
{
    match word {
        "promise" => promise(alloc, log),
        "accept" => accept(alloc, log),
        "setup" => setup(alloc, log),
        "take" => take(alloc, log),
        "stop" => stop(log),
        _ => open(log, Told::Nothing),
    }
}

/// A step of a log that is stopped.
fn stopped_step(alloc: Global, log: KeptLog<MemStore>, word: &str) -> Stepped
    requires { log.is_open ≡ false }
    ensures { IsPlaced result.place }
{
    match word {
        "read" => read(alloc, log),
        "open" => come_up(alloc, log),
        _ => stopped(log, Told::Nothing),
    }
}

/// A log that is open.
fn open(log: KeptLog<MemStore>, told: Told) -> Stepped
    requires { log.is_open ≡ true }
    ensures { IsPlaced result.place }
{
    Stepped {
        place: Place::Open(log),
        told,
    }
}

/// A log that is stopped.
fn stopped(log: KeptLog<MemStore>, told: Told) -> Stepped
    requires { log.is_open ≡ false }
    ensures { IsPlaced result.place }
{
    Stepped {
        place: Place::Stopped(log),
        told,
    }
}

/// What a log has.
fn seen(log: &KeptLog<MemStore>) -> Told {
    Told::Seen {
        promised: log.promised(),
        accepted: log.accepted(),
        length: log.entries().len(),
    }
}

/// Reads what the store holds.
fn read(alloc: Global, mut log: KeptLog<MemStore>) -> Stepped
    requires { log.is_open ≡ false }
    ensures { IsPlaced result.place }
{
    match read_store(alloc, &mut log) {
        Ok(found) => {
            let told = Told::Read {
                promised: found.promised,
                accepted: found.accepted,
                next: found.state.next,
            };
            stopped(log, told)
        }
        Err(why) => stopped(log, Told::Unread(why)),
    }
}

/// Opens the log.
fn come_up(alloc: Global, mut log: KeptLog<MemStore>) -> Stepped
    requires { log.is_open ≡ false }
    ensures { IsPlaced result.place }
{
    match log.open(alloc) {
        Ok(()) => {
            let told = seen(&log);
            open(log, told)
        }
        Err(why) => stopped(log, Told::Unopened(why)),
    }
}

/// Stops the log.
fn stop(mut log: KeptLog<MemStore>) -> Stepped
    requires { log.is_open ≡ true }
    ensures { IsPlaced result.place }
{
    log.stop();
    let told = seen(&log);
    stopped(log, told)
}

/// Promises the next generation.
fn promise(alloc: Global, mut log: KeptLog<MemStore>) -> Stepped
    requires { log.is_open ≡ true }
    ensures { IsPlaced result.place }
{
    if log.promised() >= GENERATION_LIMIT - 1 {
        return open(log, Told::Nothing);
    }
    let generation = log.promised() + 1;
    match log.promise(alloc, generation) {
        Ok(()) => done(log),
        Err(KeepFault::NoMemory) => open(log, Told::NoMemory),
        Err(KeepFault::StoreFault) => failed(log),
    }
}

/// Accepts the log in the promised generation.
fn accept(alloc: Global, mut log: KeptLog<MemStore>) -> Stepped
    requires { log.is_open ≡ true }
    ensures { IsPlaced result.place }
{
    if log.accepted() >= log.promised() {
        return open(log, Told::Nothing);
    }
    match log.accept(alloc) {
        Ok(()) => done(log),
        Err(KeepFault::NoMemory) => open(log, Told::NoMemory),
        Err(KeepFault::StoreFault) => failed(log),
    }
}

/// Appends a setup without tables.
fn setup(alloc: Global, log: KeptLog<MemStore>) -> Stepped
    requires { log.is_open ≡ true }
    ensures { IsPlaced result.place }
{
    match plain_setup(alloc, log.accepted()) {
        Some(entry) => append(alloc, log, entry),
        None => open(log, Told::Nothing),
    }
}

/// Appends an entry.
#[tactic(auto, using(crate::proofs::PlainLemmas::plain_fits, crate::proofs::PlainLemmas::plain_spelled))]
fn append(alloc: Global, mut log: KeptLog<MemStore>, entry: Entry) -> Stepped
    requires running { log.is_open ≡ true }
    requires plain { IsPlain log.accepted entry }
    ensures { IsPlaced result.place }
{
    match log.append(alloc, entry) {
        Ok(()) => done(log),
        Err(KeepFault::NoMemory) => open(log, Told::NoMemory),
        Err(KeepFault::StoreFault) => failed(log),
    }
}

/// An open log of which a call was done.
fn done(log: KeptLog<MemStore>) -> Stepped
    requires { log.is_open ≡ true }
    ensures { IsPlaced result.place }
{
    let told = seen(&log);
    open(log, told)
}

/// A log whose store failed.
fn failed(log: KeptLog<MemStore>) -> Stepped
    requires { log.is_open ≡ false }
    ensures { IsPlaced result.place }
{
    stopped(log, Told::Fault)
}

/// Takes over a setup without tables in the next generation, in the place of all entries.
fn take(alloc: Global, log: KeptLog<MemStore>) -> Stepped
    requires { log.is_open ≡ true }
    ensures { IsPlaced result.place }
{
    if log.promised() >= GENERATION_LIMIT - 1 || log.accepted() > log.promised() {
        return open(log, Told::Nothing);
    }
    let generation = log.promised() + 1;
    match plain_setup(alloc, generation) {
        Some(entry) => take_entry(alloc, log, generation, entry),
        None => open(log, Told::Nothing),
    }
}

/// Takes over an entry in a generation, in the place of all entries.
#[tactic(auto, using(crate::proofs::PlainLemmas::plain_log, crate::proofs::PlainLemmas::plain_spelled))]
fn take_entry(alloc: Global, mut log: KeptLog<MemStore>, generation: u64, entry: Entry) -> Stepped
    requires running { log.is_open ≡ true }
    requires promised { log.promised ≤ generation }
    requires accepted { log.accepted < generation }
    requires number { generation < 2 ^ 62 }
    requires plain { IsPlain generation entry }
    ensures { IsPlaced result.place }
{
    let Ok(entries) = one(alloc, entry) else {
        return open(log, Told::NoMemory);
    };
    match log.take_over(alloc, generation, 0, entries) {
        Ok(()) => done(log),
        Err(KeepFault::NoMemory) => open(log, Told::NoMemory),
        Err(KeepFault::StoreFault) => failed(log),
    }
}

/// One entry.
fn one(alloc: Global, entry: Entry) -> Result<Vec<Entry>, AllocError>
    ensures { IfOk result (λ v. v.items ≡ entry ∷ []) }
{
    let mut entries = Vec::new(alloc);
    entries.push(entry)?;
    Ok(entries)
}

/// A setup without tables in a generation; none where it has no spelling.
#[tactic(auto, using(crate::proofs::PlainLemmas::is_plain))]
fn plain_setup(alloc: Global, generation: u64) -> Option<Entry>
    ensures { IfSome result (IsPlain generation) }
{
    let entry = Entry::Setup {
        generation,
        schema: Schema::new(alloc),
        records: List::new(alloc),
    };
    if has_spelling(&entry) {
        return Some(entry);
    }
    None
}
