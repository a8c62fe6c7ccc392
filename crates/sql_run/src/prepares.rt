//! A text that is read once and bound once.
ghost use Rattle.std.specs.Prelude.{◌≡◌, ◌<◌, ◌^◌, [], true, length, IfOk};
ghost use Rattle.std.specs.Str.{is_utf8};
ghost use Rattle.query_plan.specs.Planned.{plan_of};
ghost use Rattle.session_language.specs.Language.{OtherText};
ghost use Rattle.sql_answer.specs.Language.{meaning as meaning_of, sql_binder};
ghost use Rattle.sql_answer.specs.Reading.{kind_of, kind_of_text};
ghost use Rattle.sql_bind.specs.Views.{bound_in};
ghost use Rattle.sql_grammar.specs.Views.{statement_in};
ghost use Rattle.sql_run.specs.Texts.{plan_by};
ghost use Rattle.sql_run.specs.Views.{kind_in, meaning_in, plan_in, text_in};

use crate::kinds::{TextKind, kind_of_statement};
use cdb_values::{Schema, StatementError};
use query_plan::Plan;
use sql_bind::{BindFault, Bound, bind};
use sql_grammar::Stmt;
use sql_reader::{ReadStop, read};
use std::alloc::{AllocError, Global};

/// What a text means in a schema.
#[derive(Drop)]
pub enum Meaning {
    /// A statement, with the plan by which it reads.
    Runs { statement: Bound, plan: Plan },
    /// It has an error before any row is looked at.
    Fails(StatementError),
}

/// A text that was read once, and bound once in a schema: what it is to transactions, what it means in the schema or its
/// error there, and the plan by which it reads. Contracts see it as `text_in` of `specs/Views`.
#[derive(Drop)]
pub struct Prepared {
    kind: TextKind,
    meaning: Meaning,
}

impl Prepared {
    /// What the text is to transactions. Takes no memory.
    pub fn kind(&self) -> TextKind
        ensures { kind_in result ≡ (text_in self.now).kind }
    {
        self.kind
    }

    /// What the text means. Takes no memory.
    pub fn meaning(&self) -> &Meaning
        ensures meaning { meaning_in result.now ≡ (text_in self.now).meaning }
        ensures plan { plan_in result.now ≡ (text_in self.now).plan }
    {
        &self.meaning
    }
}

/// A text, read once and bound once in a schema.
///
/// A text that is no statement, or has an error in the schema, is prepared too: its answer is that error. `Err` is want
/// of memory alone.
pub fn prepare(alloc: Global, schema: &Schema, text: &[u8]) -> Result<Prepared, AllocError>
    requires utf8 { is_utf8 text.now ≡ true }
    requires short { length text.now < 2 ^ 32 }
    ensures kind { IfOk result (λ p. (text_in p).kind ≡ kind_of_text text.now) }
    ensures meaning { IfOk result (λ p. (text_in p).meaning ≡ meaning_of sql_binder schema.now text.now) }
    ensures plan { IfOk result (λ p. (text_in p).plan ≡ plan_by schema.now (text_in p).meaning) }
{
    // The text is UTF-8, so the last case does not come.
    match std::str::from_utf8(text) {
        Ok(text) => prepare_text(alloc, schema, text),
        Err(_) => Err(AllocError),
    }
}

/// The same of a text that is known to be UTF-8.
#[tactic(auto, using(crate::proofs::ReadLemmas::kind_read, crate::proofs::ReadLemmas::meaning_read, crate::proofs::ReadLemmas::kind_refused, crate::proofs::ReadLemmas::meaning_refused))]
fn prepare_text(alloc: Global, schema: &Schema, text: &str) -> Result<Prepared, AllocError>
    requires { length text.now < 2 ^ 32 }
    ensures kind { IfOk result (λ p. (text_in p).kind ≡ kind_of_text text.now) }
    ensures meaning { IfOk result (λ p. (text_in p).meaning ≡ meaning_of sql_binder schema.now text.now) }
    ensures plan { IfOk result (λ p. (text_in p).plan ≡ plan_by schema.now (text_in p).meaning) }
{
    match read(alloc, text) {
        Ok(statement) => prepare_statement(alloc, schema, &statement),
        Err(ReadStop::Syntax { at }) => Ok(refused(at)),
        Err(ReadStop::NoMemory) => Err(AllocError),
    }
}

/// What a statement comes to.
fn prepare_statement(
    alloc: Global,
    schema: &Schema,
    statement: &Stmt,
) -> Result<Prepared, AllocError>
    ensures kind { IfOk result (λ p. (text_in p).kind ≡ kind_of (statement_in statement.now)) }
    ensures meaning { IfOk result (λ p. (text_in p).meaning ≡ sql_binder schema.now (statement_in statement.now)) }
    ensures plan { IfOk result (λ p. (text_in p).plan ≡ plan_by schema.now (text_in p).meaning) }
{
    let meaning = meaning_in_schema(alloc, schema, statement)?;
    Ok(Prepared {
        kind: kind_of_statement(statement),
        meaning,
    })
}

/// What a text comes to that is refused at an offset. Takes no memory.
fn refused(at: u32) -> Prepared
    ensures kind { (text_in result).kind ≡ OtherText }
    ensures meaning { (text_in result).meaning ≡ Err (StatementError.Syntax at) }
    ensures plan { (text_in result).plan ≡ [] }
{
    Prepared {
        kind: TextKind::Other,
        meaning: Meaning::Fails(StatementError::Syntax { at }),
    }
}

/// What a statement means in a schema, with its plan.
#[tactic(auto, using(crate::proofs::ReadLemmas::bound_means, crate::proofs::ReadLemmas::fault_means))]
fn meaning_in_schema(
    alloc: Global,
    schema: &Schema,
    statement: &Stmt,
) -> Result<Meaning, AllocError>
    ensures meaning { IfOk result (λ m. meaning_in m ≡ sql_binder schema.now (statement_in statement.now)) }
    ensures plan { IfOk result (λ m. plan_in m ≡ plan_by schema.now (meaning_in m)) }
{
    match bind(alloc, statement, schema) {
        Ok(statement) => with_plan(alloc, schema, statement),
        Err(BindFault::Table) => Ok(Meaning::Fails(StatementError::Table)),
        Err(BindFault::Column) => Ok(Meaning::Fails(StatementError::Column)),
        Err(BindFault::Ambiguous) => Ok(Meaning::Fails(StatementError::Ambiguous)),
        Err(BindFault::Type_) => Ok(Meaning::Fails(StatementError::Type_)),
        Err(BindFault::Count) => Ok(Meaning::Fails(StatementError::Count)),
        Err(BindFault::NoMemory) => Err(AllocError),
    }
}

/// A bound statement with its plan.
fn with_plan(alloc: Global, schema: &Schema, statement: Bound) -> Result<Meaning, AllocError>
    ensures meaning { IfOk result (λ m. meaning_in m ≡ Ok (bound_in statement)) }
    ensures plan { IfOk result (λ m. plan_in m ≡ plan_of schema.now (bound_in statement)) }
{
    let plan = Plan::new(alloc, &statement, schema)?;
    Ok(Meaning::Runs { statement, plan })
}
