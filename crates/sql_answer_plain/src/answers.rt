ghost use Rattle.std.specs.Prelude.{◌≡◌, List as Many, IfOk, Err};
ghost use Rattle.cdb_values.specs.declared.rows.RowOp.{RowOp as OneOp};
ghost use Rattle.sql_answer.specs.Answers.{answer as answer_of, finished, refused as refused_of, tables_of, filter_of};
ghost use Rattle.sql_answer.specs.Combinations.{seen as seen_of, met};
ghost use Rattle.sql_bind.specs.Views.{bound_in};
ghost use Rattle.sql_answer_plain.specs.Views.{combinations_in, meaning_in, outcome_in};

use crate::combinations::{alone, found, rows_met};
use crate::outcomes::Outcome;
use crate::queries::selected;
use crate::seen::Seen;
use crate::writes::{deleted, inserted, one, updated};
use cdb_values::{List, Reply, RowOp, StatementError, TableDef, Version};
use sql_bind::Bound;
use std::alloc::{AllocError, Global};

/// The answer of a statement, as it comes to behind the operations so far (`answered_by`).
///
/// `meaning` is what it means in the schema of these tables, or its error there; `versions` are those of each table at
/// the transaction's begin position, by rising genid; `ops` are the transaction's net operations so far. Nothing is
/// asked of them: a table that is not there has no rows and no columns, and a value that is not there is NULL.
///
/// `Err` is want of memory.
#[tactic(auto, unfolding(sql_answer::specs::Answers::finish))]
pub fn answer(
    alloc: Global,
    tables: &[TableDef],
    versions: &[List<Version>],
    ops: &[RowOp],
    meaning: &Result<Bound, StatementError>,
) -> Result<Outcome, AllocError>
    ensures { IfOk result (λ outcome. outcome_in ops.now outcome
        ≡ answer_of tables.now versions.now ops.now (meaning_in meaning.now)) }
{
    match meaning {
        Ok(statement) => {
            let all = all_found(alloc, versions, ops, statement)?;
            finish(alloc, tables, statement, all)
        }
        Err(cause) => refused(alloc, *cause),
    }
}

/// What a statement makes of the combinations that it finds, however they were found, behind any operations.
///
/// `combinations` are those of the rows of its tables for which its WHERE is true. A statement without tables makes
/// nothing of them.
///
/// `Err` is want of memory.
pub fn finish(
    alloc: Global,
    tables: &[TableDef],
    statement: &Bound,
    combinations: List<List<Seen>>,
) -> Result<Outcome, AllocError>
    ensures { IfOk result (λ outcome. (ops : Many OneOp) → outcome_in ops outcome
        ≡ finished tables.now (bound_in statement.now) ops (combinations_in combinations)) }
{
    match statement {
        Bound::Begin | Bound::Commit | Bound::Rollback | Bound::SetLevel(_) => {
            refused(alloc, StatementError::State)
        }
        Bound::Insert { table, rows } => inserted(alloc, tables, *table, rows.as_slice()),
        Bound::Update { table, assigns, .. } => {
            let rows = rows_met(alloc, combinations)?;
            updated(alloc, tables, *table, assigns.as_slice(), rows)
        }
        Bound::Delete { table, .. } => {
            let rows = rows_met(alloc, combinations)?;
            deleted(alloc, *table, rows)
        }
        Bound::Select(query) => selected(alloc, query, combinations),
    }
}

/// The combinations that a statement finds.
fn all_found(
    alloc: Global,
    versions: &[List<Version>],
    ops: &[RowOp],
    statement: &Bound,
) -> Result<List<List<Seen>>, AllocError>
    ensures { IfOk result (λ all. combinations_in all ≡ met (seen_of versions.now ops.now)
        (tables_of (bound_in statement.now)) (filter_of (bound_in statement.now))) }
{
    match statement {
        Bound::Update { table, filter, .. } | Bound::Delete { table, filter } => {
            found(alloc, versions, ops, &[*table], filter)
        }
        Bound::Select(query) => {
            found(alloc, versions, ops, query.tables.as_slice(), &query.filter)
        }
        _ => alone(alloc),
    }
}

/// What an error comes to that no row is looked at for.
fn refused(alloc: Global, cause: StatementError) -> Result<Outcome, AllocError>
    ensures { IfOk result (λ outcome. (ops : Many OneOp) → outcome_in ops outcome ≡ refused_of cause ops) }
{
    let replies = one(alloc, Reply::Error(cause))?;
    Ok(Outcome::Tells {
        replies,
        uses: List::new(alloc),
    })
}
