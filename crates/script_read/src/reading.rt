ghost use Rattle.std.specs.Prelude.{◌≡◌, ◌+◌, length, take, List, ℕ, [], ◌∷◌, ◌≤◌, ◌<◌};
ghost use Rattle.script_read.specs.Answers.{AnswersReading};
ghost use Rattle.byte_words.specs.Lines.{lines_of_bytes, but_last};
ghost use Rattle.script_read.specs.ScriptText.{script_of, read_lines, no_draft, most_bytes, past_limit, whole_script};

use super::drafts::{Draft, finish, line_after};
use super::reasons::LIMIT;
use super::scripts::ScriptStop;
use byte_words::{before_last_line, next_line};
use script_form::Script;
use std::alloc::Global;

/// The most bytes of a script.
pub const MOST_BYTES: usize = 67_108_864;

/// The script of these bytes, for a run with that many stores and consumers.
///
/// Answers `Refused` for the first line that has a reason against it, with the smallest of its
/// reasons, and `NoMemory` for want of memory alone. No byte behind the 67,108,865th matters.
pub fn read_script(
    alloc: Global,
    bytes: &[u8],
    stores: u64,
    consumers: u64,
) -> Result<Script, ScriptStop>
    ensures { AnswersReading (λ s. s) result (script_of stores consumers bytes.now) }
{
    if MOST_BYTES < bytes.len() {
        return past_end(alloc, bytes, stores, consumers);
    }
    let (draft, line) = lines_read(alloc, bytes, stores, consumers)?;
    finish(alloc, draft, line)
}

/// The refusal of more bytes than a script has, at the line of the first one past them.
fn past_end(alloc: Global, bytes: &[u8], stores: u64, consumers: u64) -> Result<Script, ScriptStop>
    requires { most_bytes < length bytes.now }
    ensures { AnswersReading (λ s. s) result (past_limit (no_draft stores consumers) (but_last (lines_of_bytes (take (most_bytes + 1) bytes.now)))) }
{
    let (held, _) = bytes.split_at(MOST_BYTES + 1);
    match lines_read(alloc, before_last_line(held), stores, consumers) {
        Ok((draft, line)) => {
            drop(draft);
            Err(ScriptStop::Refused { line, why: LIMIT })
        }
        Err(stop) => Err(stop),
    }
}

/// All lines of these bytes read one after the other, and the number of the line after them.
fn lines_read(
    alloc: Global,
    bytes: &[u8],
    stores: u64,
    consumers: u64,
) -> Result<(Draft, u64), ScriptStop>
    ensures { AnswersReading (λ x. x) result (read_lines (no_draft stores consumers) 1 (lines_of_bytes bytes.now)) }
{
    let mut draft = Draft::new(alloc, stores, consumers);
    let mut line = 1u64;
    let mut rest = bytes;
    'lines: while let Some((text, after)) = next_line(rest) {
        draft = line_after(alloc, draft, line, text)?;
        line += 1;
        rest = after;
    }
    Ok((draft, line))
}
