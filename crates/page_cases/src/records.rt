//! Records of a line, and what a log has.

use crate::words::{bytes_of, number, place, put_bytes, put_number, word};
use log_replay::PagedLog;
use page_store::{Cell, Edit, Head, Page, PageKind};
use phys_log::LogRecord;
use std::alloc::{AllocError, Global};

/// The record of a line.
pub(crate) fn record_of(alloc: Global, words: &[&str]) -> Result<LogRecord, AllocError> {
    Ok(LogRecord {
        lsn: number(word(words, 1)),
        prev: number(word(words, 2)),
        page: number(word(words, 3)),
        edit: edit_of(alloc, words)?,
    })
}

/// The edit of a line.
fn edit_of(alloc: Global, words: &[&str]) -> Result<Edit, AllocError> {
    if word(words, 4) == "head" {
        return Ok(Edit::SetHead {
            before: head_of(words, 5),
            after: head_of(words, 9),
        });
    }
    let at = place(word(words, 5));
    let cell = cell_of(alloc, word(words, 6))?;
    match word(words, 4) {
        "put" => Ok(Edit::PutCell { at, cell }),
        "take" => Ok(Edit::TakeCell { at, cell }),
        _ => Ok(Edit::SwapCell {
            at,
            before: cell,
            after: cell_of(alloc, word(words, 7))?,
        }),
    }
}

/// The cell of a word.
fn cell_of(alloc: Global, word: &str) -> Result<Cell, AllocError> {
    Ok(Cell::new(bytes_of(alloc, word.as_bytes())?))
}

/// The head of the words from a place on.
fn head_of(words: &[&str], from: usize) -> Head {
    let kind = match word(words, from) {
        "leaf" => PageKind::Leaf,
        "inner" => PageKind::Inner,
        "meta" => PageKind::Meta,
        _ => PageKind::Free,
    };
    Head {
        kind,
        level: word(words, from.saturating_add(1))
            .parse::<u8>()
            .unwrap_or(0),
        right: number(word(words, from.saturating_add(2))),
    }
}

/// Adds a page: its head, its LSN and its cells.
pub(crate) fn put_page(alloc: Global, page: &Page, out: &mut String) -> Result<(), AllocError> {
    let Head { kind, level, right } = page.head();
    let kind = match kind {
        PageKind::Free => "free",
        PageKind::Leaf => "leaf",
        PageKind::Inner => "inner",
        PageKind::Meta => "meta",
    };
    let lsn = page.lsn();
    out.push_str(format!(in alloc; "{kind} {level} {right}, lsn {lsn}:")?.as_str())?;
    for at in 0..page.count() {
        out.push(' ')?;
        put_bytes(alloc, out, page.cell(at).unwrap_or(&[]))?;
    }
    Ok(())
}

/// Adds the records of a page, each as `POSITION:LSN`.
pub(crate) fn put_chain(
    alloc: Global,
    log: &PagedLog,
    page: u64,
    out: &mut String,
) -> Result<(), AllocError> {
    let chain = log.chain(page);
    if chain.is_empty() {
        return out.push_str("none");
    }
    let mut sign = "";
    for link in chain {
        let (position, lsn) = (link.position, link.lsn);
        out.push_str(format!(in alloc; "{sign}{position}:{lsn}")?.as_str())?;
        sign = " ";
    }
    Ok(())
}

/// Adds the LSNs of a page's records behind a position, newest first.
pub(crate) fn put_grant(
    alloc: Global,
    log: &PagedLog,
    page: u64,
    position: u64,
    out: &mut String,
) -> Result<(), AllocError> {
    if position > log.entries().len() as u64 {
        return out.push('?');
    }
    let mut lsns = Vec::new(alloc);
    for record in log.grant(alloc, page, position)?.chain.as_slice() {
        lsns.push(record.lsn)?;
    }
    put_numbers(alloc, lsns.as_slice(), out)
}

/// Adds the numbers of the pages that a record edited.
pub(crate) fn put_edited(
    alloc: Global,
    log: &PagedLog,
    out: &mut String,
) -> Result<(), AllocError> {
    let edited = log.edited(alloc)?;
    put_numbers(alloc, edited.as_slice(), out)
}

/// Adds numbers.
fn put_numbers(alloc: Global, numbers: &[u64], out: &mut String) -> Result<(), AllocError> {
    if numbers.is_empty() {
        return out.push_str("none");
    }
    let mut sign = "";
    for number in numbers {
        out.push_str(sign)?;
        put_number(alloc, out, *number)?;
        sign = " ";
    }
    Ok(())
}

/// Adds how many pages a record edited, and the highest level among them.
pub(crate) fn put_pages(alloc: Global, log: &PagedLog, out: &mut String) -> Result<(), AllocError> {
    let edited = log.edited(alloc)?;
    let mut level = 0u8;
    for id in edited.iter() {
        level = level.max(level_of(log, *id));
    }
    let count = edited.len();
    out.push_str(format!(in alloc; "{count} pages, level {level}")?.as_str())
}

/// The level of a page.
fn level_of(log: &PagedLog, page: u64) -> u8 {
    match log.page(page) {
        Some(page) => page.head().level,
        None => 0,
    }
}
