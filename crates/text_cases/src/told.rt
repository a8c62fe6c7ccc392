//! What a case tells.

use crate::cases::{Case, Kind};
use crate::{reports, scripts, tables};
use std::alloc::{AllocError, Global};
use std::io::{self, Write};

/// What is told of bytes that are read as a case says; in short, or all that was read.
fn told_of(
    alloc: Global,
    case: &Case,
    bytes: &[u8],
    in_short: bool,
) -> Result<Vec<u8>, AllocError> {
    let mut out = Vec::new(alloc);
    match case.kind {
        Kind::Script { stores, consumers } => {
            scripts::put_read(alloc, &mut out, bytes, (stores, consumers), in_short)?;
        }
        Kind::Report => reports::put_read(alloc, &mut out, bytes, in_short)?,
        Kind::Tables => {
            let text = String::from_utf8_lossy(alloc, bytes)?;
            tables::put_tables(alloc, &mut out, text.as_str())?;
        }
    }
    Ok(out)
}

/// Answers one after the other, of which those that are alike are told once, with their number.
#[derive(Drop)]
struct Together {
    answer: Vec<u8>,
    count: u64,
    told: Vec<u8>,
}

impl Together {
    fn new(alloc: Global) -> Together {
        Together {
            answer: Vec::new(alloc),
            count: 0,
            told: Vec::new(alloc),
        }
    }

    /// An answer more.
    fn add(&mut self, alloc: Global, answer: Vec<u8>) -> Result<(), AllocError> {
        if self.answer.as_slice() != answer.as_slice() {
            self.end(alloc)?;
            self.answer = answer;
        }
        self.count = self.count.saturating_add(1);
        Ok(())
    }

    /// Tells the answers so far.
    fn end(&mut self, alloc: Global) -> Result<(), AllocError> {
        let count = self.count;
        if count > 0 {
            self.told
                .extend_from_slice(format!(in alloc; "{count} x ")?.as_bytes())?;
            self.told.extend_from_slice(self.answer.as_slice())?;
        }
        self.count = 0;
        Ok(())
    }
}

/// What is told of each front of a case's text.
fn told_cut(alloc: Global, case: &Case) -> Result<Together, AllocError> {
    let mut together = Together::new(alloc);
    let text = case.text.as_slice();
    for size in 0..text.len() {
        together.add(alloc, told_of(alloc, case, &text[..size], true)?)?;
    }
    together.end(alloc)?;
    Ok(together)
}

/// Adds what is told of a case's text with each of its other bytes at a place.
fn add_changed(
    alloc: Global,
    case: &Case,
    together: &mut Together,
    at: usize,
) -> Result<(), AllocError> {
    let mut text = Vec::from_slice(alloc, case.text.as_slice())?;
    for byte in case.changes.as_slice() {
        if let Some(place) = text.get_mut(at) {
            *place = *byte;
        }
        together.add(alloc, told_of(alloc, case, text.as_slice(), true)?)?;
    }
    Ok(())
}

/// What is told of a case's text with another byte at each place.
fn told_changed(alloc: Global, case: &Case) -> Result<Together, AllocError> {
    let mut together = Together::new(alloc);
    for at in 0..case.text.len() {
        add_changed(alloc, case, &mut together, at)?;
    }
    together.end(alloc)?;
    Ok(together)
}

/// Writes a text. A byte that no line shows is told by its digits, and so is a backslash.
fn put_text<W: Write>(out: &mut W, text: &[u8]) -> io::Result<()> {
    for byte in text {
        let byte = *byte;
        if byte != b'\n' && (byte < b' ' || byte == b'\\' || byte == 127) {
            write!(out, "\\x{byte:02x}")?;
        } else {
            out.write_all(&[byte])?;
        }
    }
    Ok(())
}

/// Writes what a case tells.
pub(crate) fn put_case<W: Write>(alloc: Global, out: &mut W, case: &Case) -> io::Result<()> {
    let name = case.name.as_str();
    writeln!(out, "case {name}")?;
    if let Some(line) = &case.strange {
        writeln!(out, "a strange line: {line}")?;
    }
    put_text(
        out,
        told_of(alloc, case, case.text.as_slice(), false)?.as_slice(),
    )?;
    if case.is_cut {
        out.write_all(b"cut\n")?;
        out.write_all(told_cut(alloc, case)?.told.as_slice())?;
    }
    if !case.changes.is_empty() {
        out.write_all(b"changed\n")?;
        out.write_all(told_changed(alloc, case)?.told.as_slice())?;
    }
    Ok(())
}
