//! Logs, entries and lines.

use crate::words::{number, word};
use cdb_values::{Level, List, Name, Reply, Schema};
use log_replay::PagedLog;
use phys_log::{CommitId, Entry};
use report_text::Line;
use script_form::SessionLine;
use std::alloc::{AllocError, Global};
use std::snapshot::Snapshot;
use table_state::State;

/// A log and rows that nobody looks at.
pub(crate) fn no_log(alloc: Global) -> Snapshot<PagedLog> {
    Snapshot::of(&PagedLog::new(alloc))
}

pub(crate) fn no_rows(alloc: Global) -> Snapshot<State> {
    Snapshot::of(&State {
        tables: List::new(alloc),
        next: 1,
    })
}

/// An entry that nobody looks at.
pub(crate) fn no_entry(alloc: Global) -> Snapshot<Entry> {
    Snapshot::of(&setup(alloc))
}

/// A setup without tables.
fn setup(alloc: Global) -> Entry {
    Entry::Setup {
        generation: 1,
        schema: Schema::new(alloc),
        records: List::new(alloc),
    }
}

/// A session.
pub(crate) fn session(alloc: Global, name: &str) -> Result<SessionLine, AllocError> {
    Ok(SessionLine {
        line: 1,
        name: Name::copied(alloc, name.as_bytes())?,
        node: 1,
        hasql: false,
    })
}

/// The entry that a word tells: the setup, or a commit by its session, the number of its transaction, and its begin.
pub(crate) fn entry_of(alloc: Global, text: &str) -> Result<Entry, AllocError> {
    let Some((session, rest)) = text.split_once(':') else {
        return Ok(setup(alloc));
    };
    let (txn, begin) = rest.split_once(':').unwrap_or((rest, ""));
    Ok(Entry::Commit {
        generation: 1,
        id: CommitId {
            began: 1,
            session: Name::copied(alloc, session.as_bytes())?,
            txn: txn.parse::<u64>().unwrap_or(0),
        },
        begin: begin.parse::<u64>().unwrap_or(0),
        level: Level::Snapshot,
        changes: List::new(alloc),
        records: List::new(alloc),
    })
}

/// The line that words tell: a session, the number of its transaction, and what it is told.
pub(crate) fn line_of(alloc: Global, words: &[&str]) -> Result<Line, AllocError> {
    Ok(Line::Session {
        name: Name::copied(alloc, word(words, 2).as_bytes())?,
        txn: number(words, 3),
        reply: reply_of(word(words, 4), number(words, 5), number(words, 6)),
    })
}

/// What a session is told, by a word and numbers.
fn reply_of(word: &str, one: u64, two: u64) -> Reply {
    match word {
        "changed" => Reply::Changed(one),
        "done" => Reply::Done(one),
        "committed" => Reply::Committed(one),
        "lost" => Reply::Lost {
            node: one,
            down: two,
        },
        "nomajority" => Reply::NoMajority {
            up: one,
            nodes: two,
        },
        "rolledback" => Reply::RolledBack,
        _ => Reply::NoMemory,
    }
}
