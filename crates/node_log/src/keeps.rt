//! What a node log does to its parts: a log, and the store that it is kept in.
ghost use Rattle.std.specs.Prelude.{◌≡◌, ◌<◌, ◌^◌, [], ◌∷◌, ◌++◌, IfOk, OnOk, IsErrOf};
ghost use Rattle.frame_code.specs.Codes.{frame_code};
ghost use Rattle.frame_code.specs.Spelled.{IsSpelled};
ghost use Rattle.frame_code.specs.declared.frames.Frame.TheVariants as frame;
ghost use Rattle.phys_log.specs.Logs.{Fits};
ghost use Rattle.store_log.specs.Follows.{AreNextFrames, MayFollow};
ghost use Rattle.store_log.specs.Keeps.{IsKept};

use cdb_outside::LogStore;
use cdb_values::Bytes;
use frame_code::Frame;
use log_format::write_frame;
use log_replay::PagedLog;
use phys_log::Entry;
use std::alloc::{AllocError, Global};
use store_log::{Held, KeepFault};

/// The bytes of an entry's frame, and the entry.
fn spelled_entry(alloc: Global, entry: Entry) -> Result<(Bytes, Entry), AllocError>
    requires { IsSpelled (frame.Entry entry) }
    ensures bytes { IfOk result (λ p. p.0 ≡ frame_code (frame.Entry entry)) }
    ensures entry { IfOk result (λ p. p.1 ≡ entry) }
{
    let whole = Frame::Entry(entry);
    let bytes = write_frame(alloc, &whole)?;
    match whole {
        Frame::Entry(entry) => Ok((bytes, entry)),
        _ => unreachable!(),
    }
}

/// Appends an entry to the log, and keeps its frame in the store. All memory is taken before the store is called, so
/// that want of it leaves both as they were.
pub(crate) fn keep_entry<D: LogStore>(
    alloc: Global,
    log: &mut PagedLog,
    held: &mut Held<D>,
    entry: Entry,
) -> Result<(), KeepFault>
    requires settled { held.old.pending ≡ [] }
    requires fits { Fits log.old entry }
    requires spelled { IsSpelled (frame.Entry entry) }
    requires next { ∥ AreNextFrames held.old.synced (frame_code (frame.Entry entry)) ∥₁ }
    ensures kept { IsKept result held.old held.new (frame_code (frame.Entry entry)) }
    ensures added { OnOk result (log.new ≡ log.old ++ entry ∷ []) }
    ensures under_way { IsErrOf result KeepFault.StoreFault → log.new ≡ log.old ++ entry ∷ [] }
    ensures unchanged { IsErrOf result KeepFault.NoMemory → log.new ≡ log.old }
{
    let Ok((bytes, entry)) = spelled_entry(alloc, entry) else {
        return Err(KeepFault::NoMemory);
    };
    if log.append(alloc, entry).is_err() {
        return Err(KeepFault::NoMemory);
    }
    match held.keep_bytes(bytes.as_bytes()) {
        Ok(()) => Ok(()),
        Err(_) => Err(KeepFault::StoreFault),
    }
}

/// Keeps the promise of a generation and its acceptance in the store.
pub(crate) fn keep_stand<D: LogStore>(
    alloc: Global,
    held: &mut Held<D>,
    generation: u64,
) -> Result<(), KeepFault>
    requires settled { held.old.pending ≡ [] }
    requires number { generation < 2 ^ 62 }
    requires follow { ∥ MayFollow held.old.synced (frame.Promise generation ∷ frame.Accept generation ∷ []) ∥₁ }
    ensures kept { IsKept result held.old held.new
        (frame_code (frame.Promise generation) ++ frame_code (frame.Accept generation)) }
{
    let frames = [Frame::Promise(generation), Frame::Accept(generation)];
    held.keep(alloc, &frames)
}
