//! A page at a position far back, loaded from the log that grew since.

use cdb_values::List;
use log_replay::PagedLog;
use page_store::PageSource;
use std::alloc::{AllocError, Global};
use std::io;
use std::time::{Clock, Instant};
use test_cases::{commit_entry, record_over};
use undo_snapshot::{LogGranter, SnapshotPages};

/// Appends a commit of one record.
fn append(alloc: Global, log: &mut PagedLog, lsn: u64, page: u64) -> Result<(), AllocError> {
    let mut records = List::new(alloc);
    records.push(record_over(alloc, log.page(page), page, lsn)?)?;
    match log.append(alloc, commit_entry(alloc, lsn, records)?) {
        Ok(()) => Ok(()),
        Err(_) => Err(AllocError),
    }
}

/// A log whose first entry writes page 0, with so many commits behind it, of the same page or of others in turn.
fn grown(alloc: Global, count: u64, is_same: bool) -> Result<PagedLog, AllocError> {
    let mut log = PagedLog::new(alloc);
    append(alloc, &mut log, 1, 0)?;
    for i in 0..count {
        let page = if is_same { 0 } else { i % 1000 + 1 };
        append(alloc, &mut log, i.saturating_add(2), page)?;
    }
    Ok(log)
}

/// Loads page 0 so often; how often it was loaded.
fn load_often<P: PageSource>(pages: &mut P, loads: u64) -> u64 {
    let mut loaded = 0u64;
    for _ in 0..loads {
        if pages.load(0).is_ok() {
            loaded = loaded.wrapping_add(1);
        }
    }
    loaded
}

/// Loads page 0 at position 1 so often from one source; how often it was loaded.
fn load_page(alloc: Global, log: &PagedLog, loads: u64) -> Result<u64, AllocError> {
    if log.entries().is_empty() {
        return Ok(0);
    }
    let mut source = SnapshotPages::new(alloc, LogGranter::new(log, 1), 1)?;
    Ok(load_often(&mut source, loads))
}

/// Prints what a first load of page 0 takes from each of 20 sources, and 1,000 loads from one, with so many commits since.
pub(crate) fn measure_loads(rt: &HostRuntime, count: u64, is_same: bool) -> io::Result<u64> {
    let log = grown(rt.alloc(), count, is_same)?;
    let started = Instant::now(rt)?;
    first_loads(rt.alloc(), &log)?;
    let first = started.elapsed(rt)?.as_micros();
    let started = Instant::now(rt)?;
    let loaded = load_page(rt.alloc(), &log, 1000)?;
    let again = started.elapsed(rt)?.as_micros();
    println!(rt; "20 first loads in {first} us, 1000 of one source in {again} us")?;
    Ok(loaded)
}

/// Loads page 0 from each of 20 sources.
fn first_loads(alloc: Global, log: &PagedLog) -> Result<(), AllocError> {
    for _ in 0..20u64 {
        load_page(alloc, log, 1)?;
    }
    Ok(())
}
