//! The tail of a report.
ghost use Rattle.std.specs.Prelude.{◌≡◌, ◌+◌, ◌≤◌, IfOk, drop, length};
ghost use Rattle.report_laws.specs.Lawful.{base_line};
ghost use Rattle.history_report.specs.Tail.{entry_line as line_of, entry_lines as lines_of, report_with};

use cdb_values::List;
use phys_log::Entry;
use report_text::{EntryLine, Line, Report};
use std::alloc::{AllocError, Global};

/// The report of these lines, with what of this log stands behind the base. Its feeds are none.
pub fn report_of(
    alloc: Global,
    lines: Vec<Line>,
    base: usize,
    log: &[Entry],
) -> Result<Report, AllocError>
    requires within { base ≤ length log.now }
    ensures { IfOk result (λ report. report ≡ report_with lines.items base log.now) }
{
    let entries = entry_lines(alloc, base as u64, &log[base..])?;
    Ok(Report {
        lines: List::from_vec(lines),
        base: base_told(base as u64),
        entries: List::from_vec(entries),
        feeds: List::new(alloc),
        end: log.len() as u64,
    })
}

/// The base as a report tells it: none where the history begins with the run.
fn base_told(base: u64) -> Option<u64>
    ensures { result ≡ base_line base }
{
    if base == 0 { None } else { Some(base) }
}

/// Entries behind a position.
fn entry_lines(alloc: Global, base: u64, entries: &[Entry]) -> Result<Vec<EntryLine>, AllocError>
    ensures { IfOk result (λ lines. lines.items ≡ lines_of (base + 1) entries.now) }
{
    let mut lines = Vec::with_capacity(alloc, entries.len())?;
    let mut position = base;
    let mut rest = entries;
    'entries: while let Some((entry, after)) = rest.split_first() {
        let Some(next) = position.checked_add(1) else {
            return Err(AllocError);
        };
        lines.push(entry_line(next, entry)?)?;
        position = next;
        rest = after;
    }
    Ok(lines)
}

/// An entry at its position.
fn entry_line(position: u64, entry: &Entry) -> Result<EntryLine, AllocError>
    ensures { IfOk result (λ line. line ≡ line_of position entry.now) }
{
    match entry {
        Entry::Setup { .. } => Ok(EntryLine::Setup { position }),
        Entry::Commit {
            id,
            begin,
            level,
            ..
        } => Ok(EntryLine::Commit {
            position,
            session: id.session.clone()?,
            txn: id.txn,
            begin: *begin,
            level: *level,
        }),
    }
}
