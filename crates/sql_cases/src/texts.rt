//! Texts that are read alone: whole, cut, and with other words in them.

use crate::output::Output;
use crate::shown::put_counted;
use sql_reader::{ReadStop, read, read_create};
use std::alloc::{AllocError, Global};

/// No text is longer.
pub(crate) const LONGEST: usize = 10_000_000;

/// What a text is read as.
#[derive(Clone, Copy)]
pub(crate) enum Rule {
    Statement,
    Table,
}

/// The text in which `{3 abc}` is written out.
pub(crate) fn expanded(alloc: Global, text: &str) -> Result<String, AllocError> {
    let mut parts = text.split('{');
    let mut out = String::from_str(alloc, parts.next().unwrap_or(""))?;
    for part in parts {
        let (times, behind) = part.split_once('}').unwrap_or((part, ""));
        put_times(&mut out, times)?;
        out.push_str(behind)?;
    }
    Ok(out)
}

/// Adds what `3 abc` stands for.
fn put_times(out: &mut String, times: &str) -> Result<(), AllocError> {
    let (count, unit) = times.split_once(' ').unwrap_or((times, ""));
    for _ in 0..count.parse::<u16>().unwrap_or(0) {
        out.push_str(unit)?;
    }
    Ok(())
}

/// Where a text is refused, if it is.
fn refusal(alloc: Global, rule: Rule, text: &str) -> Result<Option<u32>, AllocError> {
    if text.len() > LONGEST {
        return Err(AllocError);
    }
    let stop = match rule {
        Rule::Statement => read(alloc, text).err(),
        Rule::Table => read_create(alloc, text).err(),
    };
    match stop {
        None => Ok(None),
        Some(ReadStop::Syntax { at }) => Ok(Some(at)),
        Some(ReadStop::NoMemory) => Err(AllocError),
    }
}

/// The answer that came last, and how often it came without another between.
#[derive(Clone, Copy)]
struct Turn {
    answer: Option<u32>,
    times: u64,
}

const NO_TURN: Turn = Turn {
    answer: None,
    times: 0,
};

/// The turn behind one more answer. Where this is another one, the turn before is told.
fn next(turn: Turn, answer: Option<u32>, out: &mut Output) -> Turn {
    if turn.answer == answer {
        let times = turn.times.saturating_add(1);
        return Turn { answer, times };
    }
    put_turn(out, turn);
    Turn { answer, times: 1 }
}

/// Adds an answer that came some times.
fn put_turn(out: &mut Output, turn: Turn) {
    match turn.times {
        0 => return,
        1 => {}
        times => {
            put_counted(out, " ", times);
            out.put("x");
        }
    }
    match turn.answer {
        None => out.put(" ok"),
        Some(at) => put_counted(out, " ", u64::from(at)),
    }
}

/// Adds the last answer, and ends the line.
fn put_last(out: &mut Output, turn: Turn) {
    put_turn(out, turn);
    out.put("\n");
}

/// Adds whether a text is read, or where it is refused.
pub(crate) fn put_read(
    alloc: Global,
    rule: Rule,
    text: &str,
    out: &mut Output,
) -> Result<(), AllocError> {
    let turn = next(NO_TURN, refusal(alloc, rule, text)?, out);
    out.put(" ");
    put_last(out, turn);
    Ok(())
}

/// Adds the same of the text cut before each of its characters.
pub(crate) fn put_cut(
    alloc: Global,
    rule: Rule,
    text: &str,
    out: &mut Output,
) -> Result<(), AllocError> {
    let mut turn = NO_TURN;
    out.put(" ");
    for size in 0..text.len() {
        if let Some(cut) = text.get(..size) {
            turn = next(turn, refusal(alloc, rule, cut)?, out);
        }
    }
    put_last(out, turn);
    Ok(())
}

/// Adds, in a line for each word of the text, the same of the text with each of these tokens in place of this word.
pub(crate) fn put_changed(
    alloc: Global,
    rule: Rule,
    text: &str,
    tokens: &str,
    out: &mut Output,
) -> Result<(), AllocError> {
    for (number, word) in text.split(' ').enumerate() {
        out.put("  ");
        out.put(word);
        out.put(":");
        put_tokens(alloc, rule, text, number, tokens, out)?;
    }
    Ok(())
}

/// Adds the answers to the text with each token in place of the word with this number.
fn put_tokens(
    alloc: Global,
    rule: Rule,
    text: &str,
    number: usize,
    tokens: &str,
    out: &mut Output,
) -> Result<(), AllocError> {
    let mut turn = NO_TURN;
    for token in tokens.split(' ') {
        let changed = with_token(alloc, text, number, token)?;
        turn = next(turn, refusal(alloc, rule, changed.as_str())?, out);
    }
    put_last(out, turn);
    Ok(())
}

/// The text with another token in place of the word with this number.
fn with_token(alloc: Global, text: &str, number: usize, token: &str) -> Result<String, AllocError> {
    let mut changed = String::new(alloc);
    for (at, word) in text.split(' ').enumerate() {
        changed.push_str(if at > 0 { " " } else { "" })?;
        changed.push_str(if at == number { token } else { word })?;
    }
    Ok(changed)
}
