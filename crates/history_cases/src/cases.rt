//! Cases: histories, one event a line, with the log that is reported.

use crate::events::event_of;
use crate::values::{entry_of, session};
use crate::words::{number, word, words_of};
use cdb_values::List;
use cluster_steps::Event;
use history_base::{Tail, tail_of};
use history_report::{lines_told, report_of};
use phys_log::Entry;
use report_text::{Line, print};
use script_form::SessionLine;
use std::alloc::{AllocError, Global};
use std::mem::replace;

/// A history so far, of so many nodes.
#[derive(Drop)]
struct Case {
    nodes: u8,
    /// With how long a log each node came up each time.
    lengths: Vec<List<u64>>,
    events: Vec<(u32, Event)>,
}

/// What all cases tell.
pub(crate) fn all_told(alloc: Global, text: &str) -> Result<Vec<u8>, AllocError> {
    let sessions = vec![in alloc; session(alloc, "a")?, session(alloc, "b")?]?;
    let mut out = Vec::new(alloc);
    let mut case = Case::new(alloc, 0)?;
    for line in text.lines() {
        case.take(alloc, sessions.as_slice(), line, &mut out)?;
    }
    Ok(out)
}

impl Case {
    /// Nothing happened.
    fn new(alloc: Global, nodes: u8) -> Result<Case, AllocError> {
        let mut lengths = Vec::new(alloc);
        for _ in 0..nodes {
            lengths.push(List::new(alloc))?;
        }
        Ok(Case {
            nodes,
            lengths,
            events: Vec::new(alloc),
        })
    }

    /// A line more.
    fn take(
        &mut self,
        alloc: Global,
        sessions: &[SessionLine],
        line: &str,
        out: &mut Vec<u8>,
    ) -> Result<(), AllocError> {
        let words = words_of(alloc, line)?;
        match word(words.as_slice(), 0) {
            "case" => {
                *self = Case::new(alloc, number(words.as_slice(), 1).min(7) as u8)?;
                put_line(out, line)
            }
            "log" => self.tell(alloc, sessions, words.as_slice(), out),
            _ => self.add(alloc, words.as_slice()),
        }
    }

    /// An event more.
    fn add(&mut self, alloc: Global, words: &[&str]) -> Result<(), AllocError> {
        let Some(event) = event_of(alloc, words)? else {
            return Ok(());
        };
        let actor = number(words, 0).min(100) as u32;
        if let Event::Up { .. } = &event {
            self.note(actor, number(words, 3))?;
        }
        self.events.push((actor, event))?;
        Ok(())
    }

    /// A node came up with a log of that length.
    fn note(&mut self, node: u32, length: u64) -> Result<(), AllocError> {
        if node == 0 || node as usize > self.lengths.len() {
            return Ok(());
        }
        self.lengths[node as usize - 1].push(length)
    }

    /// The history is told, with the log that is reported.
    fn tell(
        &mut self,
        alloc: Global,
        sessions: &[SessionLine],
        words: &[&str],
        out: &mut Vec<u8>,
    ) -> Result<(), AllocError> {
        let tail = tail_of(
            alloc,
            self.nodes,
            self.lengths.as_slice(),
            self.events.as_slice(),
        )?;
        let events = replace(&mut self.events, Vec::new(alloc));
        let lines = lines_told(alloc, self.nodes, sessions, events)?;
        put_report(alloc, out, tail, lines, words)
    }
}

/// Adds a line.
fn put_line(out: &mut Vec<u8>, line: &str) -> Result<(), AllocError> {
    out.extend_from_slice(line.as_bytes())?;
    out.push(b'\n')?;
    Ok(())
}

/// The entries that words tell, from the second on.
fn log_of(alloc: Global, words: &[&str]) -> Result<Vec<Entry>, AllocError> {
    let mut log = Vec::new(alloc);
    for text in words.iter().skip(1) {
        log.push(entry_of(alloc, *text)?)?;
    }
    Ok(log)
}

/// Adds whose log is reported, behind which base, and the report.
fn put_report(
    alloc: Global,
    out: &mut Vec<u8>,
    tail: Tail,
    lines: Vec<Line>,
    words: &[&str],
) -> Result<(), AllocError> {
    let Tail { reported, base } = tail;
    let told = format!(in alloc; "reported {reported} behind {base}")?;
    put_line(out, told.as_str())?;
    let log = log_of(alloc, words)?;
    let behind = (base as usize).min(log.len());
    let report = report_of(alloc, lines, behind, log.as_slice())?;
    out.extend_from_slice(print(alloc, &report)?.as_bytes())
}
