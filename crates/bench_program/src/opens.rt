//! A store that is opened.

use byte_words::put_u64;
use cdb_outside::MemStore;
use std::alloc::{AllocError, Global};
use std::io;
use std::time::{Clock, Instant};
use store_log::{OpenedLog, open_log};

/// The pages that the records change in turn.
const PAGES: u64 = 1000;

/// The header of node 1 in cluster 7, and the promise and the acceptance of generation 1.
const HEAD: &[u8] =
    b"\x01\0\0\0\0\0\0\0\x12\x01\x01\0\0\0\0\0\0\0\0\0\0\0\0\0\0\0\x07\x02\0\0\0\0\0\0\0\x08\0\0\0\0\0\0\0\x01\x03\0\0\0\0\0\0\0\x08\0\0\0\0\0\0\0\x01";

/// The bytes of a store of so many entries of three records.
fn store_bytes(alloc: Global, count: u64) -> Result<Vec<u8>, AllocError> {
    let mut bytes = Vec::from_slice(alloc, HEAD)?;
    for txn in 0..count {
        put_entry(&mut bytes, txn)?;
    }
    Ok(bytes)
}

/// Puts the frame of a commit of session `s` with three records.
fn put_entry(bytes: &mut Vec<u8>, txn: u64) -> Result<(), AllocError> {
    bytes.extend_from_slice(
        b"\x04\0\0\0\0\0\0\0\xba\0\0\0\0\0\0\0\x01\x01\0\0\0\0\0\0\0\x01\x01s",
    )?;
    put_u64(bytes, txn)?;
    put_u64(bytes, 1)?;
    put_u64(bytes, 0)?;
    put_u64(bytes, 3)?;
    for k in 1..4u64 {
        put_record(bytes, txn.saturating_mul(3).saturating_add(k))?;
    }
    Ok(())
}

/// Puts the record with an LSN, which makes that LSN the right link of its page.
fn put_record(bytes: &mut Vec<u8>, lsn: u64) -> Result<(), AllocError> {
    let prev = lsn.saturating_sub(PAGES);
    put_u64(bytes, lsn)?;
    put_u64(bytes, prev)?;
    put_u64(bytes, lsn % PAGES)?;
    bytes.extend_from_slice(b"\x04\0\0")?;
    put_u64(bytes, prev)?;
    bytes.extend_from_slice(b"\0\0")?;
    put_u64(bytes, lsn)
}

/// How many entries a store with these bytes has; none where it is not opened.
fn entries_in(alloc: Global, bytes: Vec<u8>) -> u64 {
    let store = MemStore::new(bytes, Vec::new(alloc), None, 0);
    match open_log(alloc, store, 1, 7) {
        Ok(opened) => {
            let OpenedLog { held, entries, .. } = opened;
            let _store = held.give_back();
            entries.entries().len() as u64
        }
        Err(_) => 0,
    }
}

/// Opens a store of so many entries, and prints the time. Gives how many it has.
pub(crate) fn measure_opening(rt: &HostRuntime, count: u64) -> io::Result<u64> {
    let bytes = store_bytes(rt.alloc(), count)?;
    let size = bytes.len();
    let started = Instant::now(rt)?;
    let found = entries_in(rt.alloc(), bytes);
    let took = started.elapsed(rt)?.as_millis();
    println!(rt; "{size} bytes opened in {took} ms")?;
    Ok(found)
}
