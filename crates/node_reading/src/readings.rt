//! A node's store is read for the first time.
ghost use Rattle.std.specs.Prelude.{◌≡◌, false, length, IfOk, IfErr, OnOk};
ghost use Rattle.kept_log.specs.Kept.{StandsStill, stopped_from};
ghost use Rattle.log_replay.specs.Answers.{schema_of};
ghost use Rattle.node_reading.specs.Reading.{HasSoundRows, IsJudged, IsWhyUnread, WasFound, WasRead, unread_for};

use cdb_outside::LogStore;
use cdb_values::Schema;
use kept_log::{KeptLog, OpenFault, Reading};
use log_replay::PagedLog;
use sound_log::sound_state;
use std::alloc::{AllocError, Global};
use table_state::State;

/// What a store holds.
#[derive(Drop)]
pub struct Found {
    /// The promised generation.
    pub promised: u64,
    /// The accepted generation.
    pub accepted: u64,
    /// How many entries its log has.
    pub length: u64,
    /// Its tables, where it has entries.
    pub tables: Option<Schema>,
    /// The rows for which the pages of its log stand.
    pub state: State,
}

/// Why a store does not hold what a node may come up with, in the order in which the causes are looked for.
#[derive(Clone, Copy, PartialEq, Eq, Debug)]
pub enum WhyUnread {
    /// A call of the store failed: its count of faults rose.
    StoreFault,
    /// A frame is bad, or the header is another's.
    Corrupt {
        /// The offset of the bad frame, 0 for the header.
        at: u64,
    },
    /// The log is not sound.
    Unsound,
    /// Want of memory.
    NoMemory,
}

/// Reads the store of a log that is stopped: what it holds, where a node may come up with it. The log is stopped still, as it
/// was, and its store stands for what it stood for.
pub fn read_store<D: LogStore + Drop>(
    alloc: Global,
    log: &mut KeptLog<D>,
) -> Result<Found, WhyUnread>
    requires stopped { log.old.is_open ≡ false }
    ensures same { log.new ≡ stopped_from log.old log.new.synced log.new.faults }
    ensures found { IfOk result (λ f. WasRead log.old log.new f.promised f.accepted f.state) }
    ensures log { IfOk result (λ f. WasFound log.old log.new f.promised f.accepted f.length f.tables f.state) }
    ensures still { StandsStill log.old.node log.old.cluster log.old.synced log.new.synced }
    ensures calm { OnOk result (log.new.faults ≡ log.old.faults) }
    ensures why { IfErr result (λ w.
        IsWhyUnread w log.old.node log.old.cluster log.old.synced log.old.faults log.new.faults) }
{
    match log.read(alloc) {
        Ok(reading) => judge(alloc, reading),
        Err(why) => Err(unread(why)),
    }
}

/// Whether a log that was read is sound, and its rows then.
fn judge(alloc: Global, reading: Reading) -> Result<Found, WhyUnread>
    ensures promised { IfOk result (λ f. f.promised ≡ reading.promised) }
    ensures accepted { IfOk result (λ f. f.accepted ≡ reading.accepted) }
    ensures length { IfOk result (λ f. f.length ≡ length reading.entries) }
    ensures tables { IfOk result (λ f. f.tables ≡ schema_of reading.entries) }
    ensures good { IfOk result (λ f. HasSoundRows reading.accepted reading.entries f.state) }
    ensures why { IfErr result (λ w. IsJudged w reading.accepted reading.entries) }
{
    let Reading {
        promised,
        accepted,
        entries,
    } = reading;
    match sound_state(alloc, accepted, &entries) {
        Ok(Some(state)) => found_of(promised, accepted, &entries, state),
        Ok(None) => Err(WhyUnread::Unsound),
        Err(_) => Err(WhyUnread::NoMemory),
    }
}

/// What is told of a log that is sound.
fn found_of(promised: u64, accepted: u64, log: &PagedLog, state: State) -> Result<Found, WhyUnread>
    ensures promised { IfOk result (λ f. f.promised ≡ promised) }
    ensures accepted { IfOk result (λ f. f.accepted ≡ accepted) }
    ensures length { IfOk result (λ f. f.length ≡ length log.now) }
    ensures tables { IfOk result (λ f. f.tables ≡ schema_of log.now) }
    ensures state { IfOk result (λ f. f.state ≡ state) }
    ensures memory { IfErr result (λ w. w ≡ WhyUnread.NoMemory) }
{
    match tables_in(log) {
        Ok(tables) => Ok(Found {
            promised,
            accepted,
            length: log.entries().len() as u64,
            tables,
            state,
        }),
        Err(_) => Err(WhyUnread::NoMemory),
    }
}

/// The tables of a log, where it has entries.
fn tables_in(log: &PagedLog) -> Result<Option<Schema>, AllocError>
    ensures { IfOk result (λ tables. tables ≡ schema_of log.now) }
{
    match log.schema() {
        Some(schema) => Ok(Some(schema.clone()?)),
        None => Ok(None),
    }
}

/// Why a store was not read.
fn unread(why: OpenFault) -> WhyUnread
    ensures { result ≡ unread_for why }
{
    match why {
        OpenFault::StoreFault { .. } => WhyUnread::StoreFault,
        OpenFault::Foreign => WhyUnread::Corrupt { at: 0 },
        OpenFault::Corrupt { at } => WhyUnread::Corrupt { at },
        OpenFault::NoMemory => WhyUnread::NoMemory,
    }
}
