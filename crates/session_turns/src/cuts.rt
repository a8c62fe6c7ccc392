//! Where a session is behind a line that want of memory cuts short.
ghost use Rattle.std.specs.Prelude.{◌≡◌, ℕ, List, IfSome};
ghost use Rattle.cdb_values.specs.declared.items.GenidItem.{GenidItem};
ghost use Rattle.cdb_values.specs.declared.items.Interval.{Interval};
ghost use Rattle.cdb_values.specs.declared.rows.RowOp.{RowOp};
ghost use Rattle.sql_run.specs.Views.{kind_in};
ghost use Rattle.session_turns.specs.Cuts.{cut_in};
ghost use Rattle.session_turns.specs.Doing as doing;
ghost use Rattle.session_turns.specs.Step.{cut_by};
ghost use Rattle.session_turns.specs.Views.{doing_in, IsShut};

use super::states::{InTransaction, SessionState};
use cdb_values::Level;
use sql_run::TextKind;

/// Where the session is if want of memory cuts the line short; `None` where the line is in no
/// transaction, or its number can't be counted.
pub fn cut_state(state: &SessionState, kind: TextKind) -> Option<SessionState>
    ensures cut { IfSome result (λ after.
        cut_by state.now.number state.now.level (kind_in kind) (doing_in state.now.doing) ≡ cut_in after) }
    ensures shut { IfSome result (λ after. IsShut after.doing) }
{
    match state.doing {
        InTransaction::No => cut_outside(state.number, state.level, kind),
        InTransaction::Open(_) => Some(cut_inside(state.number, state.level, kind)),
        InTransaction::Aborted => None,
    }
}

/// Where a session is behind a line outside a transaction that was cut short.
fn cut_outside(number: u64, level: Level, kind: TextKind) -> Option<SessionState>
    ensures cut { IfSome result (λ after. cut_by number level (kind_in kind) doing.No ≡ cut_in after) }
    ensures shut { IfSome result (λ after. IsShut after.doing) }
{
    let next = number.checked_add(1)?;
    match kind {
        TextKind::Begin => Some(SessionState {
            number: next,
            level,
            doing: InTransaction::Aborted,
        }),
        TextKind::Other => Some(SessionState {
            number: next,
            level,
            doing: InTransaction::No,
        }),
        TextKind::Commit => None,
        TextKind::Rollback => None,
        TextKind::SetLevel(_) => None,
    }
}

/// Where a session is behind a line in its transaction that was cut short.
fn cut_inside(number: u64, level: Level, kind: TextKind) -> SessionState
    ensures cut { (begin : ℕ) (ops : List RowOp) (uses : List GenidItem) (ranges : List Interval)
        → cut_by number level (kind_in kind) (doing.Open begin ops uses ranges) ≡ cut_in result }
    ensures shut { IsShut result.doing }
{
    let doing = match kind {
        TextKind::Commit => InTransaction::No,
        TextKind::Rollback => InTransaction::No,
        TextKind::Begin => InTransaction::Aborted,
        TextKind::SetLevel(_) => InTransaction::Aborted,
        TextKind::Other => InTransaction::Aborted,
    };
    SessionState {
        number,
        level,
        doing,
    }
}
