//! A session, and its statements.
ghost use Rattle.std.specs.Prelude.{◌≡◌, ◌<◌, ◌^◌, ◌++◌, ◌∷◌, [], ℕ, List as Many, true, length, IfOk, OnOk, OnErr, Ok};
ghost use Rattle.std.specs.Str.{is_utf8};
ghost use Rattle.plan_run.specs.PlanWalks.{intervals_in};
ghost use Rattle.plan_run.specs.Sources.{AreRowsExcused};
ghost use Rattle.query_laws.specs.Alone.{replies_of, uses_of};
ghost use Rattle.query_laws.specs.Runs.{ranges_of, used_if};
ghost use Rattle.query_plan.specs.Planned.{plan_of};
ghost use Rattle.cdb_values.specs.declared.replies.Reply.{Reply as OneLine};
ghost use Rattle.sql_answer.specs.Answers.{Meaning as OneMeaning, answer as answer_of, ops_after};
ghost use Rattle.sql_answer.specs.Language.{meaning as meaning_of, sql_binder};
ghost use Rattle.sql_answer_plain.specs.Views.{outcome_in};
ghost use Rattle.sql_bind.specs.Views.{bound_in};
ghost use Rattle.sql_run.specs.Texts.{plan_by, answer_to};
ghost use Rattle.sql_run.specs.Views.{text_in};
ghost use Rattle.osql_session.specs.Courses.{IsAfter, meanings_of};
ghost use Rattle.osql_session.specs.Requests.{request_of};
ghost use Rattle.osql_session.specs.Sessions.{new_session};
ghost use Rattle.osql_session.specs.Used.{used_of};

use crate::laying::{alone, append_both, written};
use crate::requests::asked;
use cdb_values::{GenidItem, Interval, Level, List, Reply, Schema};
use own_writes::OwnWrites;
use phys_log::{CommitId, CommitRequest};
use plan_run::{Executed, RowFault, RowSource, execute};
use query_plan::Plan;
use sql_answer_plain::Outcome;
use sql_bind::Bound;
use sql_run::{Meaning, Prepared, prepare};
use std::alloc::{AllocError, Global};
use std::marker::Model;

/// One transaction: its net operations so far, and what its statements used. Contracts see it as a `Session` of
/// `specs/Sessions`.
#[derive(Drop)]
pub struct OsqlSession {
    id: CommitId,
    begin: u64,
    level: Level,
    ops: OwnWrites,
    /// The versions that SELECTV used, in order.
    genids: Vec<GenidItem>,
    /// The intervals that were read, in order.
    ranges: Vec<Interval>,
}

impl Model for OsqlSession {
    ghost use Rattle.std.specs.Prelude.{◌≡◌, true};
    ghost use Rattle.std.specs.List.{list_all};
    ghost use Rattle.sql_answer_plain.specs.Laid.{is_on_base};
    ghost use Rattle.osql_session.specs.Sessions.{Session};

    ghost Value = { Session };

    ghost view = { λ s. record { id = s.id; begin = s.begin; level = s.level; ops = s.ops; genids = s.genids.items; ranges = s.ranges.items } };

    // The net operations name no own write, so that those of a statement that names none are added behind them.
    ghost invariant = { λ s. list_all is_on_base s.ops ≡ true };
}

/// An answer, after which a value that it came from is let go: the steps of its destructor are no part of who answers.
fn with_no<T: Drop, U>(_value: T, answer: U) -> U
    ensures { result ≡ answer }
{
    answer
}

/// Whether a prepared text reads tables.
fn reads(prepared: &Prepared) -> bool {
    match prepared.meaning() {
        Meaning::Runs { plan, .. } => plan.len() > 0,
        Meaning::Fails(_) => false,
    }
}

impl OsqlSession {
    /// A transaction that began at a position, and has said nothing yet. Takes no memory.
    pub fn new(alloc: Global, id: CommitId, begin: u64, level: Level) -> OsqlSession
        ensures { result ≡ new_session id begin level }
    {
        OsqlSession {
            id,
            begin,
            level,
            ops: OwnWrites::new(alloc),
            genids: Vec::new(alloc),
            ranges: Vec::new(alloc),
        }
    }

    /// What a text is answered, after which the session has its operations, and what it used.
    ///
    /// `source` means the versions at the begin position, of the tables of `schema`. These are the same in all calls of a
    /// session. Errors as of `statement`.
    pub fn statement_text<S: RowSource>(
        &mut self,
        alloc: Global,
        schema: &Schema,
        text: &[u8],
        source: &mut S,
    ) -> Result<List<Reply>, RowFault>
        requires schema { S.tables source.old ≡ schema.now }
        requires utf8 { is_utf8 text.now ≡ true }
        requires short { length text.now < 2 ^ 32 }
        ensures replies { IfOk result (λ lines. lines
            ≡ (answer_to schema.now (S.versions source.old) self.old.ops (meaning_of sql_binder schema.now text.now)).replies) }
        ensures ops { OnOk result (self.new.ops
            ≡ (answer_to schema.now (S.versions source.old) self.old.ops (meaning_of sql_binder schema.now text.now)).ops) }
        ensures genids { OnOk result (self.new.genids ≡ self.old.genids
            ++ (answer_to schema.now (S.versions source.old) self.old.ops (meaning_of sql_binder schema.now text.now)).uses) }
        ensures ranges { OnOk result (intervals_in self.new.ranges ≡ intervals_in self.old.ranges
            ++ used_if (answer_of schema.now (S.versions source.old) self.old.ops (meaning_of sql_binder schema.now text.now))
            (ranges_of schema.now (S.versions source.old) self.old.ops (meaning_of sql_binder schema.now text.now))) }
        ensures so_far { (texts : Many (Many ℕ)) (told : Many OneLine)
            → IsAfter schema.now (S.versions source.old) (meanings_of schema.now texts) told self.old
            → IfOk result (λ lines. IsAfter schema.now (S.versions source.old) (meanings_of schema.now (texts ++ text.now ∷ [])) (told ++ lines) self.new) }
        ensures id { self.new.id ≡ self.old.id }
        ensures begin { self.new.begin ≡ self.old.begin }
        ensures level { self.new.level ≡ self.old.level }
        ensures unchanged { OnErr result (self.new ≡ self.old) }
        ensures tables { S.tables source.new ≡ S.tables source.old }
        ensures versions { S.versions source.new ≡ S.versions source.old }
        ensures excused { AreRowsExcused result (S.losses source.old) (S.losses source.new) }
    {
        let prepared = prepare(alloc, schema, text)?;
        let answer = self.statement(alloc, schema, &prepared, source);
        with_no(prepared, answer)
    }

    /// What a prepared text is answered, after which the session has its operations, and what it used: the versions
    /// that SELECTV used, and the intervals that were read. One that fails by the rows that it met changes nothing.
    ///
    /// `prepared` is of these tables, and `source` means their versions at the begin position. Both are the same in all
    /// calls of a session.
    ///
    /// `Gone` comes only where the source's count of losses rose; the other error is want of memory. After both the
    /// session is as before.
    pub fn statement<S: RowSource>(
        &mut self,
        alloc: Global,
        schema: &Schema,
        prepared: &Prepared,
        source: &mut S,
    ) -> Result<List<Reply>, RowFault>
        requires schema { S.tables source.old ≡ schema.now }
        requires plan { (text_in prepared.now).plan ≡ plan_by schema.now (text_in prepared.now).meaning }
        ensures replies { IfOk result (λ lines. lines
            ≡ (answer_to schema.now (S.versions source.old) self.old.ops (text_in prepared.now).meaning).replies) }
        ensures ops { OnOk result (self.new.ops
            ≡ (answer_to schema.now (S.versions source.old) self.old.ops (text_in prepared.now).meaning).ops) }
        ensures genids { OnOk result (self.new.genids ≡ self.old.genids
            ++ (answer_to schema.now (S.versions source.old) self.old.ops (text_in prepared.now).meaning).uses) }
        ensures ranges { OnOk result (intervals_in self.new.ranges ≡ intervals_in self.old.ranges
            ++ used_if (answer_of schema.now (S.versions source.old) self.old.ops (text_in prepared.now).meaning)
            (ranges_of schema.now (S.versions source.old) self.old.ops (text_in prepared.now).meaning)) }
        ensures so_far { (statements : Many OneMeaning) (told : Many OneLine)
            → IsAfter schema.now (S.versions source.old) statements told self.old
            → IfOk result (λ lines. IsAfter schema.now (S.versions source.old) (statements ++ (text_in prepared.now).meaning ∷ []) (told ++ lines) self.new) }
        ensures id { self.new.id ≡ self.old.id }
        ensures begin { self.new.begin ≡ self.old.begin }
        ensures level { self.new.level ≡ self.old.level }
        ensures unchanged { OnErr result (self.new ≡ self.old) }
        ensures tables { S.tables source.new ≡ S.tables source.old }
        ensures versions { S.versions source.new ≡ S.versions source.old }
        ensures excused { AreRowsExcused result (S.losses source.old) (S.losses source.new) }
    {
        self.mark_before(prepared);
        self.answered(alloc, schema, prepared, source)
    }

    /// Marks the operations before a text that reads tables, so that it finds those that it asks for.
    fn mark_before(&mut self, prepared: &Prepared)
        ensures { self.new ≡ self.old }
    {
        if !reads(prepared) {
            return;
        }
        self.mark();
    }

    /// Marks the operations.
    fn mark(&mut self)
        ensures { self.new ≡ self.old }
    {
        self.ops.mark();
    }

    /// The position that the transaction began at. Takes no memory.
    pub fn begin(&self) -> u64
        ensures { result ≡ self.now.begin }
    {
        self.begin
    }

    /// What is asked at the commit; `None` exactly where the session has no operations. `Err` is want of memory.
    pub fn request(&self, alloc: Global) -> Result<Option<CommitRequest>, AllocError>
        ensures { IfOk result (λ request. request ≡ request_of self.now) }
    {
        let ops = self.ops.as_slice();
        if ops.is_empty() {
            return Ok(None);
        }
        let request = asked(
            alloc,
            &self.id,
            self.begin,
            self.level,
            ops,
            self.genids.as_slice(),
            self.ranges.as_slice(),
        )?;
        Ok(Some(request))
    }

    /// What a prepared text is answered, after which the session has its operations, and what it used.
    #[tactic(auto, unfolding(sql_answer::specs::Answers::finish))]
    fn answered<S: RowSource>(
        &mut self,
        alloc: Global,
        schema: &Schema,
        prepared: &Prepared,
        source: &mut S,
    ) -> Result<List<Reply>, RowFault>
        requires schema { S.tables source.old ≡ schema.now }
        requires plan { (text_in prepared.now).plan ≡ plan_by schema.now (text_in prepared.now).meaning }
        ensures replies { IfOk result (λ lines. lines
            ≡ (answer_to schema.now (S.versions source.old) self.old.ops (text_in prepared.now).meaning).replies) }
        ensures ops { OnOk result (self.new.ops
            ≡ (answer_to schema.now (S.versions source.old) self.old.ops (text_in prepared.now).meaning).ops) }
        ensures genids { OnOk result (self.new.genids ≡ self.old.genids
            ++ (answer_to schema.now (S.versions source.old) self.old.ops (text_in prepared.now).meaning).uses) }
        ensures ranges { OnOk result (intervals_in self.new.ranges ≡ intervals_in self.old.ranges
            ++ used_if (answer_of schema.now (S.versions source.old) self.old.ops (text_in prepared.now).meaning)
            (ranges_of schema.now (S.versions source.old) self.old.ops (text_in prepared.now).meaning)) }
        ensures id { self.new.id ≡ self.old.id }
        ensures begin { self.new.begin ≡ self.old.begin }
        ensures level { self.new.level ≡ self.old.level }
        ensures unchanged { OnErr result (self.new ≡ self.old) }
        ensures tables { S.tables source.new ≡ S.tables source.old }
        ensures versions { S.versions source.new ≡ S.versions source.old }
        ensures excused { AreRowsExcused result (S.losses source.old) (S.losses source.new) }
    {
        match prepared.meaning() {
            Meaning::Runs { statement, plan } => self.run(alloc, schema, statement, plan, source),
            Meaning::Fails(cause) => Ok(alone(alloc, Reply::Error(*cause))?),
        }
    }

    /// What a bound statement is answered by its plan.
    #[tactic(auto, using(query_laws::proofs::AloneLemmas::after_is, crate::proofs::CourseLemmas::answered_replies, crate::proofs::CourseLemmas::answered_uses))]
    fn run<S: RowSource>(
        &mut self,
        alloc: Global,
        schema: &Schema,
        statement: &Bound,
        plan: &Plan,
        source: &mut S,
    ) -> Result<List<Reply>, RowFault>
        requires schema { S.tables source.old ≡ schema.now }
        requires plan { plan.now ≡ plan_of schema.now (bound_in statement.now) }
        ensures replies { IfOk result (λ lines. lines
            ≡ (answer_to schema.now (S.versions source.old) self.old.ops (Ok (bound_in statement.now))).replies) }
        ensures ops { OnOk result (self.new.ops
            ≡ (answer_to schema.now (S.versions source.old) self.old.ops (Ok (bound_in statement.now))).ops) }
        ensures genids { OnOk result (self.new.genids ≡ self.old.genids
            ++ (answer_to schema.now (S.versions source.old) self.old.ops (Ok (bound_in statement.now))).uses) }
        ensures ranges { OnOk result (intervals_in self.new.ranges ≡ intervals_in self.old.ranges
            ++ used_if (answer_of schema.now (S.versions source.old) self.old.ops (Ok (bound_in statement.now)))
            (ranges_of schema.now (S.versions source.old) self.old.ops (Ok (bound_in statement.now)))) }
        ensures id { self.new.id ≡ self.old.id }
        ensures begin { self.new.begin ≡ self.old.begin }
        ensures level { self.new.level ≡ self.old.level }
        ensures unchanged { OnErr result (self.new ≡ self.old) }
        ensures tables { S.tables source.new ≡ S.tables source.old }
        ensures versions { S.versions source.new ≡ S.versions source.old }
        ensures excused { AreRowsExcused result (S.losses source.old) (S.losses source.new) }
    {
        let tables = schema.tables();
        let executed = execute(alloc, tables, statement, plan, source, &self.ops)?;
        Ok(self.met(alloc, executed)?)
    }

    /// What a statement is answered by what it came to.
    fn met(&mut self, alloc: Global, executed: Executed) -> Result<List<Reply>, AllocError>
        ensures replies { IfOk result (λ lines. lines ≡ replies_of (outcome_in self.old.ops executed.outcome)) }
        ensures ops { OnOk result (self.new.ops ≡ ops_after self.old.ops (outcome_in self.old.ops executed.outcome)) }
        ensures genids { OnOk result (self.new.genids ≡ self.old.genids ++ uses_of (outcome_in self.old.ops executed.outcome)) }
        ensures ranges { OnOk result (self.new.ranges ≡ self.old.ranges
            ++ used_of (outcome_in self.old.ops executed.outcome) executed.ranges) }
        ensures id { self.new.id ≡ self.old.id }
        ensures begin { self.new.begin ≡ self.old.begin }
        ensures level { self.new.level ≡ self.old.level }
        ensures unchanged { OnErr result (self.new ≡ self.old) }
    {
        let Executed { outcome, ranges } = executed;
        match outcome {
            Outcome::Fails(cause) => alone(alloc, Reply::Error(cause)),
            Outcome::Tells { replies, uses } => {
                append_both(&mut self.genids, uses, &mut self.ranges, ranges)?;
                Ok(replies)
            }
            Outcome::Writes(writes) => {
                written(alloc, &mut self.ops, writes, &mut self.ranges, ranges)
            }
        }
    }
}
