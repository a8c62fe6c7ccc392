//! The event that a line tells.

use crate::values::{line_of, no_entry, no_log, no_rows};
use crate::words::{number, word};
use cluster_steps::{Event, Woken};
use std::alloc::{AllocError, Global};

/// The event behind an actor's number; none where the words tell none.
pub(crate) fn event_of(alloc: Global, words: &[&str]) -> Result<Option<Event>, AllocError> {
    let event = match word(words, 1) {
        "told" => Event::Reply {
            line: line_of(alloc, words)?,
        },
        "ends" => Event::Outcome {
            line: line_of(alloc, words)?,
        },
        _ => return Ok(plain_event(alloc, words)),
    };
    Ok(Some(event))
}

/// An event of numbers.
fn plain_event(alloc: Global, words: &[&str]) -> Option<Event> {
    let one = number(words, 2);
    let event = match word(words, 1) {
        "stand" => Event::Stand { generation: one },
        "lead" => Event::Lead { generation: one },
        "take" => Event::Take {
            generation: one,
            length: number(words, 3),
        },
        "append" => Event::Append {
            entry: no_entry(alloc),
        },
        "learn" => Event::Learn { length: one },
        "stop" => Event::Down { fault: false },
        "fault" => Event::Down { fault: true },
        "begin" => Event::Begun {
            position: one,
            generation: 0,
        },
        "barrier" => Event::Barrier,
        "feed" => Event::Fed {
            position: one,
            generation: 0,
        },
        "again" => Event::FedAgain { position: one },
        _ => return up_event(alloc, words),
    };
    Some(event)
}

/// A node comes up; with how long a log, is noted beside.
fn up_event(alloc: Global, words: &[&str]) -> Option<Event> {
    let how = match word(words, 1) {
        "first" => Woken::First {
            rows: no_rows(alloc),
        },
        "left" => Woken::AsLeft,
        "led" => Woken::Led,
        "took" => Woken::Took,
        "appended" => Woken::Appended,
        _ => return None,
    };
    let accepted = number(words, 2);
    Some(Event::Up {
        how,
        promised: accepted,
        accepted,
        entries: no_log(alloc),
    })
}
