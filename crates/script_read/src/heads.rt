ghost use Rattle.std.specs.Prelude.{◌≡◌, ◌≤◌, ◌^◌, ◌<◌, not, bytes_eq, length};
ghost use Rattle.std.specs.List.{list_any};
ghost use Rattle.cdb_values.specs.Tables.{place_of};
ghost use Rattle.byte_words.specs.Answers.{Finds};
ghost use Rattle.byte_words.specs.Words.{is_name};
ghost use Rattle.script_read.specs.Answers.{AnswersReading};
ghost use Rattle.script_read.specs.Heads.{fitting_at, numeral_at, only_number, only_fitting, alone, is_declared, is_node, nodes_said, cluster_said, workers_said, hasql_of, session_of, session_said, watched, watch_said};

use super::drafts::Draft;
use super::reasons::{LIMIT, NO_LINE, NO_NODES, WRONG_NODE, WRONG_SESSION, WRONG_TABLE};
use super::said::Said;
use super::scripts::ScriptStop;
use byte_words::{fits_name_rule, is_at_end, is_name_word, next_piece, piece_number};
use cdb_values::Name;
use script_form::SessionLine;
use std::alloc::Global;

/// The most nodes.
const MOST_NODES: u64 = 7;
/// The most workers.
const MOST_WORKERS: u64 = 64;
/// The most sessions.
const MOST_SESSIONS: usize = 64;
/// The most watches.
const MOST_WATCHES: usize = 8;

/// The piece that comes next, where it fits the rule of names, and what stands behind it.
pub fn take_fitting(bytes: &[u8]) -> Option<(&[u8], &[u8])>
    ensures { Finds (λ x. (x.0.now, x.1.now)) result (fitting_at bytes.now) }
{
    let (found, after) = next_piece(bytes);
    if fits_name_rule(found) {
        Some((found, after))
    } else {
        None
    }
}

/// The number that comes next, and what stands behind it.
pub fn take_numeral(bytes: &[u8]) -> Option<(u64, &[u8])>
    ensures { Finds (λ x. (x.0, x.1.now)) result (numeral_at bytes.now) }
{
    let (found, after) = next_piece(bytes);
    let number = piece_number(found)?;
    Some((number, after))
}

/// The number that bytes are.
pub fn lone_number(bytes: &[u8]) -> Option<u64>
    ensures { Finds (λ n. n) result (only_number bytes.now) }
{
    let (number, after) = take_numeral(bytes)?;
    if is_at_end(after) { Some(number) } else { None }
}

/// The one piece that bytes are, where it fits the rule of names.
fn lone_fitting(bytes: &[u8]) -> Option<&[u8]>
    ensures { Finds (λ x. x.now) result (only_fitting bytes.now) }
{
    let (name, after) = take_fitting(bytes)?;
    if is_at_end(after) { Some(name) } else { None }
}

/// Whether a session of that name is among these.
pub fn is_among_sessions(name: &[u8], sessions: &[SessionLine]) -> bool
    ensures { result ≡ is_declared name.now sessions.now }
{
    sessions.iter().any(|session| has_name(session, name))
}

/// Whether a session has that name.
fn has_name(session: &SessionLine, name: &[u8]) -> bool
    ensures { result ≡ bytes_eq session.now.name name.now }
{
    session.name.as_bytes() == name
}

/// Whether a number is that of a node.
pub fn is_number_of_node(nodes: u8, node: u64) -> bool
    ensures { result ≡ is_node nodes node }
{
    1 <= node && node <= nodes as u64
}

/// The number of nodes, behind the word.
pub fn nodes_line(draft: &Draft, line: u64, rest: &[u8]) -> Result<Said, ScriptStop>
    ensures { AnswersReading (λ said. said) result (nodes_said draft.now line (only_number rest.now)) }
{
    let Some(nodes) = lone_number(rest) else {
        return Err(ScriptStop::Refused { line, why: NO_LINE });
    };
    if nodes == 0 || MOST_NODES < nodes {
        return Err(ScriptStop::Refused {
            line,
            why: NO_NODES,
        });
    }
    if draft.stores < nodes {
        return Err(ScriptStop::Refused { line, why: LIMIT });
    }
    Ok(Said::Nodes(nodes as u8))
}

/// The name of the cluster, behind the word.
pub fn cluster_line(alloc: Global, line: u64, rest: &[u8]) -> Result<Said, ScriptStop>
    ensures { AnswersReading (λ said. said) result (cluster_said line (only_fitting rest.now)) }
{
    let Some(name) = lone_fitting(rest) else {
        return Err(ScriptStop::Refused { line, why: NO_LINE });
    };
    if !is_name_word(name) {
        return Err(ScriptStop::Refused { line, why: NO_LINE });
    }
    Ok(Said::Cluster(Name::copied(alloc, name)?))
}

/// The number of workers, behind the word.
pub fn workers_line(line: u64, rest: &[u8]) -> Result<Said, ScriptStop>
    ensures { AnswersReading (λ said. said) result (workers_said line (only_number rest.now)) }
{
    let Some(workers) = lone_number(rest) else {
        return Err(ScriptStop::Refused { line, why: NO_LINE });
    };
    if workers == 0 || MOST_WORKERS < workers {
        return Err(ScriptStop::Refused { line, why: LIMIT });
    }
    Ok(Said::Workers(workers as u8))
}

/// A session, behind the word.
pub fn session_line(
    alloc: Global,
    draft: &Draft,
    line: u64,
    rest: &[u8],
) -> Result<Said, ScriptStop>
    ensures { AnswersReading (λ said. said) result (session_said draft.now line (session_of rest.now)) }
{
    let Some(((name, node), hasql)) = session_parts(rest) else {
        return Err(ScriptStop::Refused { line, why: NO_LINE });
    };
    if !is_name_word(name) || is_among_sessions(name, draft.sessions.as_slice()) {
        return Err(ScriptStop::Refused {
            line,
            why: WRONG_SESSION,
        });
    }
    if !is_number_of_node(draft.nodes, node) {
        return Err(ScriptStop::Refused {
            line,
            why: WRONG_NODE,
        });
    }
    if MOST_SESSIONS <= draft.sessions.len() {
        return Err(ScriptStop::Refused { line, why: LIMIT });
    }
    Ok(Said::Session(SessionLine {
        line,
        name: Name::copied(alloc, name)?,
        node: node as u8,
        hasql,
    }))
}

/// The name, the node and the mark of a session line.
#[tactic(auto, unfolding(crate::specs::Heads::session_of))]
fn session_parts(bytes: &[u8]) -> Option<((&[u8], u64), bool)>
    ensures { Finds (λ x. ((x.0.0.now, x.0.1), x.1)) result (session_of bytes.now) }
{
    let (name, after) = take_fitting(bytes)?;
    let (node, after) = take_numeral(after)?;
    let hasql = survival(after)?;
    Some(((name, node), hasql))
}

/// Whether a session survives its node: the last piece of its line says so.
fn survival(bytes: &[u8]) -> Option<bool>
    ensures { Finds (λ x. x) result (hasql_of bytes.now) }
{
    if is_at_end(bytes) {
        return Some(false);
    }
    let (found, after) = next_piece(bytes);
    if found == b"hasql".as_slice() && is_at_end(after) {
        Some(true)
    } else {
        None
    }
}

/// A watch, behind the word.
pub fn watch_line(alloc: Global, draft: &Draft, line: u64, rest: &[u8]) -> Result<Said, ScriptStop>
    ensures { AnswersReading (λ said. said) result (watch_said draft.now line (only_fitting rest.now)) }
{
    let Some(name) = lone_fitting(rest) else {
        return Err(ScriptStop::Refused { line, why: NO_LINE });
    };
    if !is_name_word(name) {
        return Err(ScriptStop::Refused {
            line,
            why: WRONG_TABLE,
        });
    }
    let name = Name::copied(alloc, name)?;
    watch_at(draft, line, draft.schema.table(&name))
}

/// A watch of the table at a place.
fn watch_at(draft: &Draft, line: u64, place: Option<u16>) -> Result<Said, ScriptStop>
    ensures { AnswersReading (λ said. said) result (watched draft.now line place) }
{
    let Some(place) = place else {
        return Err(ScriptStop::Refused {
            line,
            why: WRONG_TABLE,
        });
    };
    let watches = draft.watches.len();
    if MOST_WATCHES <= watches || draft.consumers <= watches as u64 {
        return Err(ScriptStop::Refused { line, why: LIMIT });
    }
    Ok(Said::Watch(place))
}
