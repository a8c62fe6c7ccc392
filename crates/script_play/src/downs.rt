//! What a line is told on a node that is down: nothing is read and nothing is appended.
ghost use Rattle.std.specs.Prelude.{◌≡◌, IfOk};
ghost use Rattle.sql_run.specs.Views.{kind_in};
ghost use Rattle.script_play.specs.Down.{node_down as node_is_down, turn_down, IsToldDown};
ghost use Rattle.session_turns.specs.Views.{doing_in, state_in};

use super::run::add_reply;
use cdb_values::Name;
use report_text::Line;
use session_turns::{Away, AwayEffect, SessionState, away_effect};
use sql_run::TextKind;
use std::alloc::AllocError;

/// Does a line of a session on a node that is down, and gives where the session is then. The error comes where that can't be
/// told for want of memory.
pub(crate) fn run_down(
    name: &Name,
    state: SessionState,
    kind: TextKind,
    lines: &mut Vec<Line>,
) -> Result<SessionState, AllocError>
    ensures { IfOk result (λ after. IsToldDown name.now
        (turn_down state.number state.level (kind_in kind) (doing_in state.doing))
        (state_in after) lines.old.items lines.new.items) }
{
    let AwayEffect {
        number,
        reply,
        after,
    } = away_effect(node_down(), state, kind)?;
    match reply {
        None => {}
        Some(reply) => add_reply(lines, name, number, reply)?,
    }
    Ok(after)
}

/// The one node as its sessions find it then: it went down by its first line, and none of one is up.
fn node_down() -> Away
    ensures { result ≡ node_is_down }
{
    Away {
        node: 1,
        down: 1,
        up: 0,
        nodes: 1,
    }
}
