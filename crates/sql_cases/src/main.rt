//! Cases of SQL. Each line of standard input is written again, and behind it, indented, what is answered to it. The README
//! has the lines.
#![tactic(auto)]

mod cases;
mod means;
mod output;
mod rows;
mod shown;
mod texts;

use cases::Case;
use output::Output;
use std::alloc::{AllocError, Global};
use std::io;
use std::io::Write;
use texts::{Rule, expanded, put_changed, put_cut, put_read};

fn main(rt: HostRuntime) -> io::Result<()> {
    let alloc = rt.alloc();
    let text = io::read_to_string(alloc, rt.stdin())?;
    let mut out = Output::new(alloc);
    let mut case = Case::new(alloc)?;
    for line in text.lines() {
        out.put(line);
        out.put("\n");
        answer_line(alloc, &mut case, line, &mut out)?;
    }
    io::writer(&rt).write_all(out.finished()?.as_slice())
}

/// Adds what is answered to a line.
fn answer_line(
    alloc: Global,
    case: &mut Case,
    line: &str,
    out: &mut Output,
) -> Result<(), AllocError> {
    if line.is_empty() || line.starts_with('#') {
        return Ok(());
    }
    match line.split_once(':') {
        Some((kind, text)) => {
            let text = expanded(alloc, text.strip_prefix(' ').unwrap_or(text))?;
            answer_text(alloc, case, kind, text.as_str(), out)
        }
        None => {
            let (kind, words) = line.split_once(' ').unwrap_or((line, ""));
            answer_words(alloc, case, kind, words, out)
        }
    }
}

/// Adds what is answered to a line with a text.
fn answer_text(
    alloc: Global,
    case: &mut Case,
    kind: &str,
    text: &str,
    out: &mut Output,
) -> Result<(), AllocError> {
    match kind {
        "table" => case.add_table(alloc, text, out),
        "base" => case.add_rows(alloc, text, out),
        "a" => case.tell(alloc, text, out),
        "read" => put_read(alloc, Rule::Statement, text, out),
        "define" => put_read(alloc, Rule::Table, text, out),
        "cut read" => put_cut(alloc, Rule::Statement, text, out),
        "cut define" => put_cut(alloc, Rule::Table, text, out),
        "change read" => put_changed(alloc, Rule::Statement, text, case.tokens.as_str(), out),
        "change define" => put_changed(alloc, Rule::Table, text, case.tokens.as_str(), out),
        _ => {
            out.put("  no such line\n");
            Ok(())
        }
    }
}

/// Adds what is answered to a line without one.
fn answer_words(
    alloc: Global,
    case: &mut Case,
    kind: &str,
    words: &str,
    out: &mut Output,
) -> Result<(), AllocError> {
    match kind {
        "case" => *case = Case::new(alloc)?,
        "genid" => case.next = words.parse::<u64>().unwrap_or(0),
        "gone" => case.gone = words.parse::<u64>().unwrap_or(0),
        "tokens" => case.tokens = String::from_str(alloc, words)?,
        "begins" => case.begin(alloc, words)?,
        "request" => case.put_request(alloc, out)?,
        _ => out.put("  no such line\n"),
    }
    Ok(())
}
