//! Where sessions are in their work.
ghost use Rattle.std.specs.Prelude.{◌≡◌};

use cdb_values::Level;
use osql_session::OsqlSession;

/// What a session is doing.
#[derive(Drop)]
pub enum InTransaction {
    /// It is in no transaction.
    No,
    /// It is in a transaction, which has come so far.
    Open(OsqlSession),
    /// Its transaction was cut short, by want of memory or since the node is down, and the lines up to its
    /// `commit` or `rollback` are skipped.
    Aborted,
}

/// Where a session is: how many transactions it has begun, the level of those that it begins, and what it
/// is doing.
#[derive(Drop)]
pub struct SessionState {
    pub number: u64,
    pub level: Level,
    pub doing: InTransaction,
}

/// A session that is in no transaction.
pub(crate) fn idle(number: u64, level: Level) -> SessionState
    ensures { result ≡ record { number = number; level = level; doing = InTransaction.No } }
{
    SessionState {
        number,
        level,
        doing: InTransaction::No,
    }
}

/// A session whose transaction was cut short.
pub(crate) fn aborted(number: u64, level: Level) -> SessionState
    ensures { result ≡ record { number = number; level = level; doing = InTransaction.Aborted } }
{
    SessionState {
        number,
        level,
        doing: InTransaction::Aborted,
    }
}
