//! What is looked up while a history is told.
ghost use Rattle.std.specs.Option.{option_copied};
ghost use Rattle.std.specs.Prelude.{◌≡◌, OnOk, IfOk};
ghost use Rattle.report_laws.specs.Nodes.{is_up as is_node_up};
ghost use Rattle.history_report.specs.Told.{ended_in, name_of, number_in, session_at as session_of};

use cdb_values::Name;
use report_text::Line;
use script_form::SessionLine;
use std::alloc::{AllocError, Global};

/// Whether a node is up behind these lines.
pub(crate) fn is_up(node: u64, lines: &[Line]) -> bool
    ensures { result ≡ is_node_up node lines.now }
{
    let mut up = true;
    let mut rest = lines;
    'lines: while let Some((line, after)) = rest.split_first() {
        up = match line {
            Line::Down { node: other, .. } if *other == node => false,
            Line::Up { node: other } if *other == node => true,
            _ => up,
        };
        rest = after;
    }
    up
}

/// The session that is an actor, of so many nodes.
pub(crate) fn session_at(nodes: u8, sessions: &[SessionLine], actor: u32) -> Option<&SessionLine>
    ensures { option_copied result ≡ session_of nodes sessions.now actor }
{
    if actor > u32::from(nodes) {
        return sessions.get((actor - u32::from(nodes) - 1) as usize);
    }
    None
}

/// A copy of what a session is called.
pub(crate) fn called(alloc: Global, session: Option<&SessionLine>) -> Result<Name, AllocError>
    ensures { IfOk result (λ name. name ≡ name_of (option_copied session.entry)) }
{
    match session {
        Some(session) => session.name.clone(),
        None => Ok(Name::from_vec(Vec::new(alloc))),
    }
}

/// The number of an actor's next transaction.
pub(crate) fn next_number(ended: &[u64], actor: u32) -> Result<u64, AllocError>
    ensures { IfOk result (λ number. number ≡ number_in ended.now actor) }
{
    match ended.get(actor as usize) {
        Some(count) => count.checked_add(1).ok_or(AllocError),
        None => Ok(1),
    }
}

/// One more of an actor's transactions ended.
pub(crate) fn end_one(ended: &mut Vec<u64>, actor: u32) -> Result<(), AllocError>
    ensures { OnOk result (ended.new.items ≡ ended_in ended.old.items actor) }
{
    let number = next_number(ended.as_slice(), actor)?;
    if (actor as usize) < ended.len() {
        ended[actor as usize] = number;
    }
    Ok(())
}
