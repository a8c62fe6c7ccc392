//! How the outcome of a commit is told.
ghost use Rattle.std.specs.Prelude.{◌≡◌, IfOk, OnErr};
ghost use Rattle.session_turns.specs.Answers.{IfTold, IfUntold, IfWaiting};
ghost use Rattle.session_turns.specs.Decisions.{item_told, key_named, table_name_at};
ghost use Rattle.session_turns.specs.Outcomes.{outcome_told, IsRefusal, IsRightFor};
ghost use Rattle.session_turns.specs.Worlds.{Grows};
ghost use Rattle.session_turns.specs.declared.answers.CommitOutcome.{CommitOutcome};

use super::answers::{CommitOutcome, Told};
use super::nodes::SessionNode;
use cdb_values::{Item, Name, Reply, Schema};
use osql_session::OsqlSession;
use std::alloc::{AllocError, Global};

/// Asks the node what becomes of a transaction at its commit, and tells it. Where nothing is told, since the node can't tell yet
/// or for want of memory, nothing of it is committed.
pub fn settle<N: SessionNode>(
    alloc: Global,
    node: &mut N,
    session: &OsqlSession,
) -> Result<Told<Reply>, AllocError>
    requires takes { N.takes node.old session.now }
    ensures told { IfTold result (λ line. (o : CommitOutcome) × (line ≡ outcome_told (N.history node.new).tables o)
        × IsRightFor (N.history node.old) (N.history node.new) session.now o × N.settles node.old session.now o node.new) }
    ensures unsettled { IfUntold result (N.rests node.old node.new) }
    ensures grows { Grows (N.history node.old) (N.history node.new) }
    ensures waits { IfWaiting result N.waits }
{
    match node.commit(alloc, session)? {
        Told::Now(outcome) => Ok(Told::Now(told(alloc, node.schema(), outcome)?)),
        Told::NotYet => Ok(Told::NotYet),
    }
}

/// How an outcome is told. Only for one that is a refusal can memory be wanting.
pub fn told(alloc: Global, schema: &Schema, outcome: CommitOutcome) -> Result<Reply, AllocError>
    ensures told { IfOk result (λ line. line ≡ outcome_told schema.now outcome) }
    ensures refusal { OnErr result (IsRefusal outcome) }
{
    match outcome {
        CommitOutcome::Committed(position) => Ok(Reply::Committed(position)),
        CommitOutcome::Conflict { position, item } => conflict(alloc, schema, position, item),
        CommitOutcome::Duplicate {
            position,
            table,
            key,
        } => Ok(Reply::Duplicate {
            position,
            table: name_at(alloc, schema, table)?,
            key: key_name_at(alloc, schema, table, Some(key))?,
        }),
        CommitOutcome::Lost { node, down } => Ok(Reply::Lost { node, down }),
        CommitOutcome::NoMajority { up, nodes } => Ok(Reply::NoMajority { up, nodes }),
    }
}

/// How a conflict over an item is told.
fn conflict(alloc: Global, schema: &Schema, position: u64, item: Item) -> Result<Reply, AllocError>
    ensures { IfOk result (λ line. line ≡ item_told schema.now position item) }
{
    match item {
        Item::Genid(item) => Ok(Reply::ConflictGenid {
            position,
            table: name_at(alloc, schema, item.table)?,
            genid: item.genid,
        }),
        Item::Range { table, key } => Ok(Reply::ConflictRange {
            position,
            table: name_at(alloc, schema, table)?,
            key: key_name_at(alloc, schema, table, key)?,
        }),
    }
}

/// The name of the table at a place; the empty one where there is no table.
fn name_at(alloc: Global, schema: &Schema, table: u16) -> Result<Name, AllocError>
    ensures { IfOk result (λ name. name ≡ table_name_at schema.now table) }
{
    match schema.at(table) {
        None => Name::copied(alloc, b""),
        Some(table) => Name::copied(alloc, table.name.as_bytes()),
    }
}

/// The name of a key of the table at a place, `all` where no key is named; the empty one where there is no such key.
fn key_name_at(
    alloc: Global,
    schema: &Schema,
    table: u16,
    key: Option<u8>,
) -> Result<Name, AllocError>
    ensures { IfOk result (λ name. name ≡ key_named schema.now table key) }
{
    let Some(key) = key else {
        return Name::copied(alloc, b"all");
    };
    let Some(table) = schema.at(table) else {
        return Name::copied(alloc, b"");
    };
    match table.keys.as_slice().get(key as usize) {
        None => Name::copied(alloc, b""),
        Some(key) => Name::copied(alloc, key.name.as_bytes()),
    }
}
