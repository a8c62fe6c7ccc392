//! The pages that are written down as pages in memory, and the state for which they stand.

use super::faults::Fault;
use super::found::state_on;
use super::written::{PAGES, PageText, TABLES};
use cdb_values::Schema;
use page_store::{ApplyFault, Cell, Edit, Head, Page, apply};
use std::alloc::Global;
use std::test::Fail;
use table_read::read_table;
use table_state::State;

/// No text of a table is longer.
const LONGEST: usize = 1000;

/// The schema of the two tables.
fn schema(alloc: Global) -> Result<Schema, Fail> {
    let mut schema = Schema::new(alloc);
    for text in TABLES {
        add(alloc, *text, &mut schema)?;
    }
    Ok(schema)
}

/// Adds a table to a schema.
fn add(alloc: Global, text: &str, schema: &mut Schema) -> Result<(), Fail> {
    if text.len() > LONGEST {
        return Err("a text that is too long".into());
    }
    read_table(alloc, text, schema)?;
    Ok(())
}

/// A page as it is written down.
fn page_of(alloc: Global, text: &PageText) -> Result<Page, Fail> {
    let mut page = Page::blank(alloc)?;
    set_head(&mut page, text)?;
    for cell in text.cells {
        put_last(alloc, &mut page, *cell)?;
    }
    Ok(page)
}

/// Gives a page the head that is written down.
fn set_head(page: &mut Page, text: &PageText) -> Result<(), ApplyFault> {
    let before = page.head();
    let after = Head {
        kind: text.kind,
        level: text.level,
        right: text.right,
    };
    apply(page, &Edit::SetHead { before, after }, 1)
}

/// Puts a cell behind those of a page.
fn put_last(alloc: Global, page: &mut Page, cell: &[u8]) -> Result<(), Fail> {
    let cell = Cell::from_slice(alloc, cell)?;
    let at = page.count();
    apply(page, &Edit::PutCell { at, cell }, 1)?;
    Ok(())
}

/// The pages of the store. A proof that calls this does not carry them.
fn written_pages() -> &'static [PageText] {
    PAGES
}

/// The pages of the store, where this one stands at a place instead.
fn pages_with(alloc: Global, at: usize, instead: &PageText) -> Result<Vec<Page>, Fail> {
    let written = written_pages();
    let mut pages = Vec::new(alloc);
    for (place, text) in written.iter().enumerate() {
        let text = if place == at { instead } else { text };
        pages.push(page_of(alloc, text)?)?;
    }
    if at >= written.len() {
        pages.push(page_of(alloc, instead)?)?;
    }
    Ok(pages)
}

/// The state of the store, where this page stands at a place instead.
fn state_with(alloc: Global, at: usize, instead: &PageText) -> Result<Option<State>, Fail> {
    let schema = schema(alloc)?;
    let pages = pages_with(alloc, at, instead)?;
    Ok(state_on(alloc, pages, &schema)?)
}

/// The state of the whole store.
pub(crate) fn whole_state(alloc: Global) -> Result<State, Fail> {
    let state = match written_pages().first() {
        Some(first) => state_with(alloc, 0, first)?,
        None => None,
    };
    match state {
        Some(state) => Ok(state),
        None => Err("no state is found".into()),
    }
}

/// The faults with which the store has a state still.
pub(crate) fn passed_over(alloc: Global, faults: &[Fault]) -> Result<String, Fail> {
    let mut passed = String::new(alloc);
    for fault in faults {
        if state_with(alloc, fault.page, &fault.instead)?.is_some() {
            passed.push_str(fault.what)?;
            passed.push('\n')?;
        }
    }
    Ok(passed)
}
