ghost use Rattle.std.specs.Prelude.{◌≡◌, codes};
ghost use Rattle.byte_words.specs.Answers.{Finds};
ghost use Rattle.script_read.specs.Answers.{AnswersReading};
ghost use Rattle.script_read.specs.Heads.{only_number, alone};
ghost use Rattle.script_read.specs.Bodies.{said_of, say_said, stop_said, start_said, row_of, moment_of, arm_of, arm_said, barrier_said, feed_said};

use super::drafts::Draft;
use super::heads::{is_among_sessions, is_number_of_node, lone_number, take_fitting};
use super::reasons::{NO_LINE, WRONG_NODE, WRONG_SESSION};
use super::said::Said;
use super::scripts::ScriptStop;
use byte_words::{WordByte, fits_name_rule, is_at_end, next_piece, split_while, take_byte, trim};
use cdb_values::{Name, Text};
use script_form::{Act, Moment};
use std::alloc::Global;

/// A statement of a session.
pub fn say_line(alloc: Global, draft: &Draft, line: u64, text: &[u8]) -> Result<Said, ScriptStop>
    ensures { AnswersReading (λ said. said) result (say_said draft.now line (said_of text.now)) }
{
    let Some((name, text)) = name_and_text(text) else {
        return Err(ScriptStop::Refused { line, why: NO_LINE });
    };
    if !is_among_sessions(name, draft.sessions.as_slice()) {
        return Err(ScriptStop::Refused {
            line,
            why: WRONG_SESSION,
        });
    }
    let session = Name::copied(alloc, name)?;
    let text = Text::copied(alloc, text)?;
    Ok(Said::Runs(Act::Say { session, text }))
}

/// The name at the front, and the text behind the colon that stands directly behind it.
fn name_and_text(text: &[u8]) -> Option<(&[u8], &[u8])>
    ensures { Finds (λ x. (x.0.now, x.1.now)) result (said_of text.now) }
{
    let (name, after) = split_while::<WordByte>(text);
    if !fits_name_rule(name) {
        return None;
    }
    let after = take_byte(b':', after)?;
    Some((name, trim(after)))
}

/// A node to be stopped, behind the word.
pub fn stop_line(draft: &Draft, line: u64, rest: &[u8]) -> Result<Said, ScriptStop>
    ensures { AnswersReading (λ said. said) result (stop_said draft.now line (only_number rest.now)) }
{
    let Some(node) = lone_number(rest) else {
        return Err(ScriptStop::Refused { line, why: NO_LINE });
    };
    if !is_number_of_node(draft.nodes, node) {
        return Err(ScriptStop::Refused {
            line,
            why: WRONG_NODE,
        });
    }
    Ok(Said::Runs(Act::Stop(node as u8)))
}

/// A node to be started, behind the word.
pub fn start_line(draft: &Draft, line: u64, rest: &[u8]) -> Result<Said, ScriptStop>
    ensures { AnswersReading (λ said. said) result (start_said draft.now line (only_number rest.now)) }
{
    let Some(node) = lone_number(rest) else {
        return Err(ScriptStop::Refused { line, why: NO_LINE });
    };
    if !is_number_of_node(draft.nodes, node) {
        return Err(ScriptStop::Refused {
            line,
            why: WRONG_NODE,
        });
    }
    Ok(Said::Runs(Act::Start(node as u8)))
}

/// An arm, behind the word.
pub fn arm_line(alloc: Global, draft: &Draft, line: u64, rest: &[u8]) -> Result<Said, ScriptStop>
    ensures { AnswersReading (λ said. said) result (arm_said draft.now line (arm_of rest.now)) }
{
    let Some((name, moment)) = name_and_moment(rest) else {
        return Err(ScriptStop::Refused { line, why: NO_LINE });
    };
    if !is_among_sessions(name, draft.sessions.as_slice()) {
        return Err(ScriptStop::Refused {
            line,
            why: WRONG_SESSION,
        });
    }
    let session = Name::copied(alloc, name)?;
    Ok(Said::Runs(Act::Arm { session, moment }))
}

/// The session and the moment of an arm.
fn name_and_moment(bytes: &[u8]) -> Option<(&[u8], Moment)>
    ensures { Finds (λ x. (x.0.now, x.1)) result (arm_of bytes.now) }
{
    let (name, after) = take_fitting(bytes)?;
    let moment = moment_text(after)?;
    Some((name, moment))
}

/// The moment of an arm.
fn moment_text(bytes: &[u8]) -> Option<Moment>
    ensures { Finds (λ x. x) result (moment_of bytes.now) }
{
    let (found, after) = next_piece(bytes);
    if found == b"row".as_slice() {
        let row = lone_number(after)?;
        moment_of_row(row)
    } else if found == b"append".as_slice() && is_at_end(after) {
        Some(Moment::Append)
    } else if found == b"ship".as_slice() && is_at_end(after) {
        Some(Moment::Ship)
    } else {
        None
    }
}

/// The moment of a reply row, from 1.
fn moment_of_row(row: u64) -> Option<Moment>
    ensures { Finds (λ x. x) result (row_of row) }
{
    if row == 0 {
        None
    } else {
        Some(Moment::Row(row))
    }
}

/// A barrier, by what stands behind the word.
pub fn barrier_line(line: u64, rest: &[u8]) -> Result<Said, ScriptStop>
    ensures { AnswersReading (λ said. said) result (barrier_said line rest.now) }
{
    if is_at_end(rest) {
        Ok(Said::Runs(Act::Barrier))
    } else {
        Err(ScriptStop::Refused { line, why: NO_LINE })
    }
}

/// A feed, by what stands behind the word.
pub fn feed_line(line: u64, rest: &[u8]) -> Result<Said, ScriptStop>
    ensures { AnswersReading (λ said. said) result (feed_said line rest.now) }
{
    if is_at_end(rest) {
        Ok(Said::Runs(Act::Feed))
    } else {
        Err(ScriptStop::Refused { line, why: NO_LINE })
    }
}
