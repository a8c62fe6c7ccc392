ghost use Rattle.std.specs.Prelude.{ℕ, ◌≡◌, ◌++◌, IfOk, OnOk, OnErr, option_to_list};
ghost use Rattle.std.specs.Option.{option_copied};
ghost use Rattle.phys_log.specs.Undone.{undone};
ghost use Rattle.log_replay.specs.Chains.{record_by, granted, CanUndo};
ghost use Rattle.log_replay.specs.Answers.{Rises};

use crate::chains::ChainLink;
use cdb_values::List;
use page_store::{Page, undo};
use phys_log::{Entry, LogRecord, copy_record};
use std::alloc::{AllocError, Global};

/// What a reader needs of a page at an earlier position: the page as it is now, and its records after the position,
/// newest first. Undone one after the other, they leave the page at the position.
#[derive(Drop)]
pub struct Grant {
    pub copy: Page,
    pub chain: List<LogRecord>,
}

/// The record of a link, where it is there.
fn linked_record(entries: &[Entry], link: ChainLink) -> Option<&LogRecord>
    ensures { option_copied result ≡ record_by entries.now link }
{
    let place = link.position.saturating_sub(1);
    let entry = entries.get(place as usize)?;
    let records = entry.records();
    let first = records.first()?;
    let behind = link.lsn.saturating_sub(first.lsn);
    records.get(behind as usize)
}

/// Adds a copy of the record of a link to a list.
fn add_linked(
    records: &mut List<LogRecord>,
    entries: &[Entry],
    link: ChainLink,
) -> Result<(), AllocError>
    ensures added { OnOk result (records.new ≡ records.old ++ option_to_list (record_by entries.now link)) }
{
    match linked_record(entries, link) {
        Some(original) => records.push(copy_record(original)?),
        None => Ok(()),
    }
}

/// Copies of the records of the links after a position, newest first.
pub(crate) fn later(
    alloc: Global,
    entries: &[Entry],
    links: &[ChainLink],
    position: u64,
) -> Result<List<LogRecord>, AllocError>
    requires { Rises links.now }
    ensures { IfOk result (λ r. r ≡ granted entries.now position links.now) }
{
    let mut records = List::new(alloc);
    let mut rest = links;
    'back: while let Some((link, before)) = rest.split_last() {
        if link.position <= position {
            break;
        }
        add_linked(&mut records, entries, *link)?;
        rest = before;
    }
    Ok(records)
}

/// Undoes the record of a link on a page, where it is there.
fn undo_linked(page: &mut Page, entries: &[Entry], link: ChainLink)
    requires { CanUndo page.old (option_to_list (record_by entries.now link)) }
    ensures { page.new ≡ undone page.old (option_to_list (record_by entries.now link)) }
{
    match linked_record(entries, link) {
        Some(newest) => {
            let _ = undo(page, &newest.edit, newest.prev);
        }
        None => {}
    }
}

/// Undoes the records of the links after a position on a page, where they lie, the newest first.
pub(crate) fn undo_later(page: &mut Page, entries: &[Entry], links: &[ChainLink], position: u64)
    requires rising { Rises links.now }
    requires can { CanUndo page.old (granted entries.now position links.now) }
    ensures { page.new ≡ undone page.old (granted entries.now position links.now) }
{
    let mut rest = links;
    'back: while let Some((link, before)) = rest.split_last() {
        if link.position <= position {
            break;
        }
        undo_linked(page, entries, *link);
        rest = before;
    }
}
