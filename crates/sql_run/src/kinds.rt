//! What a text is to transactions.
ghost use Rattle.std.specs.Prelude.{◌≡◌};
ghost use Rattle.sql_answer.specs.Reading.{kind_of};
ghost use Rattle.sql_grammar.specs.Views.{statement_in};
ghost use Rattle.sql_run.specs.Views.{kind_in};

use cdb_values::Level;
use sql_grammar::Stmt;

/// What a text is to transactions.
#[derive(Clone, Copy, PartialEq, Eq, Debug)]
pub enum TextKind {
    /// It begins a transaction.
    Begin,
    /// It commits the transaction.
    Commit,
    /// It rolls the transaction back.
    Rollback,
    /// It sets how later transactions read.
    SetLevel(Level),
    /// Any other text, and one that is no statement.
    Other,
}

/// What a statement is to transactions. Takes no memory.
pub(crate) fn kind_of_statement(statement: &Stmt) -> TextKind
    ensures { kind_in result ≡ kind_of (statement_in statement.now) }
{
    match statement {
        Stmt::Begin => TextKind::Begin,
        Stmt::Commit => TextKind::Commit,
        Stmt::Rollback => TextKind::Rollback,
        Stmt::SetSnapshot => TextKind::SetLevel(Level::Snapshot),
        Stmt::SetSerializable => TextKind::SetLevel(Level::Serializable),
        Stmt::Insert { .. } | Stmt::Update { .. } | Stmt::Delete { .. } | Stmt::Select(_) => {
            TextKind::Other
        }
    }
}
