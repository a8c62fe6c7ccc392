//! What a case tells.

use crate::cases::{Case, Tells};
use crate::plays::{Outcome, ran, ran_again};
use std::alloc::{AllocError, Global};
use std::io::{self, Write};

/// Adds the two digits of a byte.
fn put_byte(alloc: Global, out: &mut Vec<u8>, byte: u8) -> Result<(), AllocError> {
    out.extend_from_slice(format!(in alloc; "{byte:02x}")?.as_bytes())
}

/// Adds a text. A byte that no line shows is told by its digits, and so is a backslash.
fn put_text(alloc: Global, out: &mut Vec<u8>, text: &[u8]) -> Result<(), AllocError> {
    for byte in text {
        let byte = *byte;
        if byte != b'\n' && (byte < b' ' || byte == b'\\' || byte == 127) {
            out.extend_from_slice(b"\\x")?;
            put_byte(alloc, out, byte)?;
        } else {
            out.push(byte)?;
        }
    }
    if let Some(last) = text.last()
        && *last != b'\n'
    {
        out.extend_from_slice(b"\nwithout a line end\n")?;
    }
    Ok(())
}

/// Adds what a run tells.
fn put_outcome(alloc: Global, out: &mut Vec<u8>, outcome: &Outcome) -> Result<(), AllocError> {
    put_text(alloc, out, outcome.text.as_slice())?;
    let exit = outcome.exit;
    out.extend_from_slice(format!(in alloc; "exit {exit}\n")?.as_bytes())?;
    Ok(())
}

/// Adds what is told of a store behind a run.
fn put_store(
    alloc: Global,
    out: &mut Vec<u8>,
    tells: Tells,
    store: &[u8],
) -> Result<(), AllocError> {
    match tells {
        Tells::Nothing => {}
        Tells::Length => {
            let length = store.len();
            out.extend_from_slice(format!(in alloc; "store of {length} bytes\n")?.as_bytes())?;
        }
        Tells::Bytes => {
            out.extend_from_slice(b"store")?;
            for byte in store {
                out.push(b' ')?;
                put_byte(alloc, out, *byte)?;
            }
            out.push(b'\n')?;
        }
    }
    Ok(())
}

/// What a case tells over a store with these bytes where its fault is at this number, and what is left of the store.
fn told_at(
    alloc: Global,
    case: &Case,
    bytes: &[u8],
    at: u64,
) -> Result<(Vec<u8>, Vec<u8>), AllocError> {
    let mut told = Vec::new(alloc);
    let mut outcome = ran(alloc, case, bytes, at)?;
    put_outcome(alloc, &mut told, &outcome)?;
    put_store(alloc, &mut told, case.tells, outcome.store.as_slice())?;
    if case.is_again {
        outcome = ran_again(alloc, case, outcome.store.as_slice())?;
        told.extend_from_slice(b"again\n")?;
        put_outcome(alloc, &mut told, &outcome)?;
    }
    Ok((told, outcome.store))
}

/// The bytes of the store of a case, where the case before left these.
fn store_of(alloc: Global, case: &Case, left: Vec<u8>) -> Result<Vec<u8>, AllocError> {
    let mut bytes = if case.is_over { left } else { Vec::new(alloc) };
    bytes.extend_from_slice(case.store.as_slice())?;
    let length = bytes.len().saturating_sub(case.dropped);
    bytes.truncate(length);
    if let Some((at, byte)) = case.change
        && let Some(place) = bytes.get_mut(at)
    {
        *place = byte;
    }
    Ok(bytes)
}

/// Writes what a case tells, where the case before left this store; gives the store that this one leaves. What is told at
/// the numbers of its fault one after the other is written once as long as it is the same.
pub(crate) fn put_case<W: Write>(
    alloc: Global,
    out: &mut W,
    case: &Case,
    left: Vec<u8>,
) -> io::Result<Vec<u8>> {
    let name = case.name.as_str();
    out.write_all(format!(in alloc; "case {name}\n")?.as_bytes())?;
    if let Some(line) = &case.strange {
        out.write_all(format!(in alloc; "a strange line: {line}\n")?.as_bytes())?;
    }
    let bytes = store_of(alloc, case, left)?;
    let mut last = Vec::new(alloc);
    let mut left = Vec::new(alloc);
    for at in case.first..=case.last {
        if case.step > 0 && at.saturating_sub(case.first) % case.step > 0 {
            continue;
        }
        let (told, store) = told_at(alloc, case, bytes.as_slice(), at)?;
        left = store;
        if told.as_slice() == last.as_slice() {
            continue;
        }
        if at != case.first {
            out.write_all(b"later\n")?;
        }
        out.write_all(told.as_slice())?;
        last = told;
    }
    Ok(left)
}
