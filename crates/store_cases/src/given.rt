//! The entries that steps take, and whether one may be the next of a log.
ghost use Rattle.std.specs.Prelude.{◌≡◌, [], true, IfOk, IfSome};
ghost use Rattle.frame_code.specs.Spelled.{IsSpelled, Grow};
ghost use Rattle.frame_code.specs.declared.frames.Frame.TheVariants as frame;
ghost use Rattle.phys_log.specs.Logs.{Fits};
ghost use Rattle.store_log.specs.Held.{generation_of};

use cdb_values::Schema;
use log_format::{Frame, Reading, read_frame};
use log_replay::PagedLog;
use phys_log::{Entry, copy_entry};
use std::alloc::{AllocError, Global};

/// The entry with this number among the frames of these bytes, from 0.
pub(crate) fn entry_at(
    alloc: Global,
    bytes: &[u8],
    number: usize,
) -> Result<Option<Entry>, AllocError>
    ensures { IfOk result (λ o. IfSome o (λ e. IsSpelled (frame.Entry e))) }
{
    let mut rest = bytes;
    let mut before = number;
    for _ in 0..bytes.len() {
        let Reading::Whole { frame, size } = read_frame(alloc, rest)? else {
            return Ok(None);
        };
        if let Frame::Entry(entry) = frame {
            if before == 0 {
                return Ok(Some(entry));
            }
            before -= 1;
        }
        rest = rest.get(size as usize..).unwrap_or(b"");
    }
    Ok(None)
}

/// The tables of the setup among the frames of these bytes, or none.
pub(crate) fn schema_of(alloc: Global, bytes: &[u8]) -> Result<Schema, AllocError>
    ensures { IfOk result (Grow []) }
{
    match entry_at(alloc, bytes, 0)? {
        Some(Entry::Setup { schema, .. }) => Ok(schema),
        _ => Ok(Schema::new(alloc)),
    }
}

/// Whether an entry may be the next of a log: whether it is of that generation, and can be added to a copy.
pub(crate) fn is_next(
    alloc: Global,
    log: &PagedLog,
    accepted: u64,
    entry: &Entry,
) -> Result<bool, AllocError>
    ensures accepted { IfOk result (λ b. b ≡ true → generation_of entry.now ≡ accepted) }
    ensures fits { IfOk result (λ b. b ≡ true → Fits log.now entry.now) }
{
    if generation_in(entry) != accepted {
        return Ok(false);
    }
    let copy = copy_of(alloc, log)?;
    let next = copy_entry(alloc, entry)?;
    Ok(is_fit(alloc, copy, next))
}

/// The generation of an entry.
fn generation_in(entry: &Entry) -> u64
    ensures { result ≡ generation_of entry.now }
{
    match entry {
        Entry::Setup { generation, .. } => *generation,
        Entry::Commit { generation, .. } => *generation,
    }
}

/// Whether an entry fits a log.
fn is_fit(alloc: Global, mut log: PagedLog, entry: Entry) -> bool
    ensures { result ≡ true → Fits log entry }
{
    match log.append(alloc, entry) {
        Ok(()) => true,
        Err(_) => false,
    }
}

/// A copy of a log.
fn copy_of(alloc: Global, log: &PagedLog) -> Result<PagedLog, AllocError>
    ensures { IfOk result (λ c. c ≡ log.now) }
{
    let mut copy = PagedLog::new(alloc);
    let mut rest = log.entries();
    'entries: while let Some((entry, behind)) = rest.split_first() {
        let next = copy_entry(alloc, entry)?;
        match copy.append(alloc, next) {
            Ok(()) => {}
            Err(_) => return Err(AllocError),
        }
        rest = behind;
    }
    Ok(copy)
}
