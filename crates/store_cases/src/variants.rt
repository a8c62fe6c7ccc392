//! The same question of each front of some bytes, and of the bytes with bits of each one turned.

use crate::lines::{Answers, is_asked};
use crate::opened::opened_told;
use log_format::{Reading, read_frame};
use std::alloc::{AllocError, Global};

/// What is asked of bytes.
#[derive(Clone, Copy)]
pub(crate) enum Asked {
    /// What frame stands at their front.
    Frame,
    /// What opening a store with these bytes comes to.
    Opening,
}

/// The answers of each front whose size is asked, and of the whole.
pub(crate) fn cuts_told(
    alloc: Global,
    bytes: &[u8],
    asked: Asked,
    every: u64,
) -> Result<String, AllocError> {
    let mut answers = Answers::new(alloc);
    for size in 0..bytes.len() {
        if is_asked(size as u64, every) {
            answers.add(size as u64, told(alloc, &bytes[..size], asked)?)?;
        }
    }
    answers.add(bytes.len() as u64, told(alloc, bytes, asked)?)?;
    answers.lines()
}

/// The answers with these bits of a byte turned, for each place that is asked.
pub(crate) fn turns_told(
    alloc: Global,
    bytes: &[u8],
    asked: Asked,
    bits: u8,
    every: u64,
) -> Result<String, AllocError> {
    let mut answers = Answers::new(alloc);
    for at in 0..bytes.len() {
        if is_asked(at as u64, every) {
            answers.add(at as u64, turned_told(alloc, bytes, asked, bits, at)?)?;
        }
    }
    answers.lines()
}

/// The answer with these bits of one byte turned.
fn turned_told(
    alloc: Global,
    bytes: &[u8],
    asked: Asked,
    bits: u8,
    at: usize,
) -> Result<String, AllocError> {
    let mut turned = Vec::from_slice(alloc, bytes)?;
    if let Some(byte) = turned.get_mut(at) {
        *byte = *byte ^ bits;
    }
    told(alloc, turned.as_slice(), asked)
}

/// The answer of these bytes.
fn told(alloc: Global, bytes: &[u8], asked: Asked) -> Result<String, AllocError> {
    match asked {
        Asked::Frame => frame_told(alloc, bytes),
        Asked::Opening => opened_told(alloc, bytes),
    }
}

/// What stands at the front of bytes.
fn frame_told(alloc: Global, bytes: &[u8]) -> Result<String, AllocError> {
    match read_frame(alloc, bytes)? {
        Reading::Whole { size, .. } => format!(in alloc; "whole {size}"),
        Reading::Short => String::from_str(alloc, "short"),
        Reading::Bad => String::from_str(alloc, "bad"),
    }
}
