//! Lines of trees, over any source of pages.

use crate::words::{bytes_of, number, put_bytes, word};
use btree_index::{InsertFault, find, insert, remove, scan};
use page_store::{Cell, PageSource};
use page_workspace::Workspace;
use std::alloc::{AllocError, Global};

/// The most bytes of a key, and of a key with its value.
const MOST_KEY: usize = 1630;

const MOST_PAIR: usize = 1638;

/// The answer to a line of a tree in a workspace.
pub(crate) fn change<P: PageSource>(
    alloc: Global,
    space: &mut Workspace<P>,
    words: &[&str],
    out: &mut String,
) -> Result<(), AllocError> {
    let root = number(word(words, 1));
    let key = bytes_of(alloc, word(words, 2).as_bytes())?;
    match word(words, 0) {
        "insert" => {
            let value = bytes_of(alloc, word(words, 3).as_bytes())?;
            out.push_str(put(alloc, space, root, key.as_slice(), value.as_slice())?)
        }
        "remove" => out.push_str(take(alloc, space, root, key.as_slice())?),
        _ => read(alloc, space, words, out),
    }
}

/// Puts a pair.
fn put<P: PageSource>(
    alloc: Global,
    space: &mut Workspace<P>,
    root: u64,
    key: &[u8],
    value: &[u8],
) -> Result<&'static str, AllocError> {
    if key.len() > MOST_KEY || value.len() > MOST_PAIR - key.len() {
        return Ok("long");
    }
    match insert(alloc, space, root, key, value) {
        Ok(()) => Ok("done"),
        Err(InsertFault::Duplicate) => Ok("duplicate"),
        Err(_) => Err(AllocError),
    }
}

/// Takes a pair away.
fn take<P: PageSource>(
    alloc: Global,
    space: &mut Workspace<P>,
    root: u64,
    key: &[u8],
) -> Result<&'static str, AllocError> {
    match remove(alloc, space, root, key) {
        Ok(true) => Ok("done"),
        Ok(false) => Ok("absent"),
        Err(_) => Err(AllocError),
    }
}

/// The answer to a read of a tree.
pub(crate) fn read<P: PageSource>(
    alloc: Global,
    pages: &mut P,
    words: &[&str],
    out: &mut String,
) -> Result<(), AllocError> {
    let root = number(word(words, 1));
    let low = bytes_of(alloc, word(words, 2).as_bytes())?;
    match word(words, 0) {
        "find" => put_found(alloc, pages, root, low.as_slice(), out),
        "scan" => {
            let high = bytes_of(alloc, word(words, 3).as_bytes())?;
            put_pairs(alloc, pages, root, low.as_slice(), high.as_slice(), out)
        }
        _ => out.push('?'),
    }
}

/// Adds the value of a key.
fn put_found<P: PageSource>(
    alloc: Global,
    pages: &mut P,
    root: u64,
    key: &[u8],
    out: &mut String,
) -> Result<(), AllocError> {
    match find(alloc, pages, root, key) {
        Ok(Some(cell)) => put_bytes(alloc, out, cell.as_slice()),
        Ok(None) => out.push_str("absent"),
        Err(_) => Err(AllocError),
    }
}

/// Adds the pairs from a key on, up to one where it has bytes.
fn put_pairs<P: PageSource>(
    alloc: Global,
    pages: &mut P,
    root: u64,
    low: &[u8],
    high: &[u8],
    out: &mut String,
) -> Result<(), AllocError> {
    let end = if high.is_empty() { None } else { Some(high) };
    match scan(alloc, pages, root, low, end) {
        Ok(pairs) => put_all(alloc, pairs.as_slice(), out),
        Err(_) => Err(AllocError),
    }
}

/// Adds pairs, each as `KEY=VALUE`.
fn put_all(alloc: Global, pairs: &[(Cell, Cell)], out: &mut String) -> Result<(), AllocError> {
    if pairs.is_empty() {
        return out.push_str("none");
    }
    let mut sign = "";
    for pair in pairs {
        out.push_str(sign)?;
        put_bytes(alloc, out, pair.0.as_slice())?;
        out.push('=')?;
        put_bytes(alloc, out, pair.1.as_slice())?;
        sign = " ";
    }
    Ok(())
}
