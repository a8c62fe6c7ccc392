//! The frames of a store, one behind the other, with their fields.
ghost use Rattle.std.specs.Prelude.{◌≡◌, IfOk};
ghost use Rattle.frame_code.specs.Spelled.{IsSpelled};

use crate::values::{put_bytes, put_change, put_record, put_table};
use cdb_values::{Change, Level, Schema};
use log_format::{Frame, Reading, read_frame, write_frame};
use phys_log::{CommitId, Entry};
use std::alloc::{AllocError, Global};

/// The frames of these bytes, a line for each part of them, and what stands behind the last.
pub(crate) fn frames_told(alloc: Global, bytes: &[u8]) -> Result<String, AllocError> {
    let mut out = String::new(alloc);
    let mut at = 0usize;
    for _ in 0..=bytes.len() {
        write!(out, "  {at}")?;
        let size = put_next(alloc, &mut out, bytes.get(at..).unwrap_or(b""))?;
        if size == 0 {
            break;
        }
        at = at.saturating_add(size);
    }
    Ok(out)
}

/// Adds what stands at the front of bytes, and tells the size of the frame there, or 0 where there is none.
fn put_next(alloc: Global, out: &mut String, bytes: &[u8]) -> Result<usize, AllocError> {
    match read_frame(alloc, bytes)? {
        Reading::Whole { frame, size } => {
            let told = put_whole(alloc, out, &frame, bytes);
            drop(frame);
            told?;
            Ok(size as usize)
        }
        Reading::Short => {
            let size = bytes.len();
            writeln!(out, " short {size}")?;
            Ok(0)
        }
        Reading::Bad => {
            out.push_str(" bad\n")?;
            Ok(0)
        }
    }
}

/// Adds a frame, and tells where it is written as other bytes than those at the front.
fn put_whole(alloc: Global, out: &mut String, frame: &Frame, bytes: &[u8]) -> Result<(), AllocError>
    requires { IsSpelled frame.now }
{
    put_frame(out, frame)?;
    if !is_written_so(alloc, frame, bytes)? {
        out.push_str(" written otherwise")?;
    }
    out.push('\n')
}

/// Whether a frame is written as the bytes at the front.
fn is_written_so(alloc: Global, frame: &Frame, bytes: &[u8]) -> Result<bool, AllocError>
    requires { IsSpelled frame.now }
{
    let written = write_frame(alloc, frame)?;
    Ok(bytes.starts_with(written.as_bytes()))
}

/// Adds a frame's kind and fields.
fn put_frame(out: &mut String, frame: &Frame) -> Result<(), AllocError> {
    match frame {
        Frame::Header {
            version,
            node,
            cluster,
        } => write!(out, " header {version} {node} {cluster}"),
        Frame::Promise(generation) => write!(out, " promise {generation}"),
        Frame::Accept(generation) => write!(out, " accept {generation}"),
        Frame::Cut(length) => write!(out, " cut {length}"),
        Frame::Entry(entry) => put_entry(out, entry),
    }
}

/// Adds an entry's fields.
fn put_entry(out: &mut String, entry: &Entry) -> Result<(), AllocError> {
    put_head(out, entry)?;
    for record in entry.records() {
        put_record(out, record)?;
    }
    Ok(())
}

/// Adds an entry's fields without its records.
fn put_head(out: &mut String, entry: &Entry) -> Result<(), AllocError> {
    match entry {
        Entry::Setup {
            generation,
            schema,
            ..
        } => put_setup(out, *generation, schema),
        Entry::Commit {
            generation,
            id,
            begin,
            level,
            changes,
            ..
        } => {
            let word = level_word(*level);
            write!(out, " commit {generation} {word} ")?;
            put_id(out, id, *begin)?;
            put_changes(out, changes.as_slice())
        }
    }
}

/// Adds a generation and the tables of a schema.
fn put_setup(out: &mut String, generation: u64, schema: &Schema) -> Result<(), AllocError> {
    write!(out, " setup {generation}")?;
    for table in schema.tables() {
        put_table(out, table)?;
    }
    Ok(())
}

/// Adds an identity, and the position at which its transaction began.
fn put_id(out: &mut String, id: &CommitId, begin: u64) -> Result<(), AllocError> {
    let began = id.began;
    let txn = id.txn;
    put_bytes(out, 'b', id.session.as_bytes())?;
    write!(out, " {began} {txn} {begin}")
}

/// Adds changes.
fn put_changes(out: &mut String, changes: &[Change]) -> Result<(), AllocError> {
    for change in changes {
        put_change(out, change)?;
    }
    Ok(())
}

/// The word of a level.
fn level_word(level: Level) -> &'static str {
    match level {
        Level::Snapshot => "snapshot",
        Level::Serializable => "serializable",
    }
}
