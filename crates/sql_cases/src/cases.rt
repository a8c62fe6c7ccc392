//! A case: tables, rows of the begin position, and one transaction.

use crate::means::put_meaning;
use crate::output::Output;
use crate::rows::{Fleeting, rows_of};
use crate::shown::{
    put_counted, put_intervals, put_items, put_ops, put_outcome, put_replies, put_table,
};
use crate::texts::LONGEST;
use cdb_values::{Interval, Level, List, Name, Reply, Row, RowOp, Schema, StatementError, Version};
use osql_session::{CommitId, CommitRequest, OsqlSession};
use own_writes::OwnWrites;
use plan_run::{Executed, RowFault, execute};
use query_plan::Plan;
use sql_answer_plain::{Outcome, answer, answered_by};
use sql_bind::{BindFault, Bound, bind};
use sql_grammar::Stmt;
use sql_reader::{ReadStop, read};
use std::alloc::{AllocError, Global};
use std::mem;
use table_read::{TableStop, read_table};

/// The tables with their versions at the begin position, and a transaction.
#[derive(Drop)]
pub(crate) struct Case {
    schema: Schema,
    versions: Vec<List<Version>>,
    /// The genid of the next row of the base.
    pub next: u64,
    /// The call of the rows at each statement at which they are gone, from 1; 0 where they never are.
    pub gone: u64,
    session: OsqlSession,
    /// The net operations of the transaction, as they come over all combinations.
    ops: List<RowOp>,
    pub tokens: String,
}

/// A transaction that has said nothing.
fn begun(alloc: Global, begin: u64, level: Level) -> Result<OsqlSession, AllocError> {
    let id = CommitId {
        began: 1,
        session: Name::copied(alloc, b"a")?,
        txn: 1,
    };
    Ok(OsqlSession::new(alloc, id, begin, level))
}

/// What a text means in a schema, or its error there.
type Meaning = Result<Bound, StatementError>;

/// What a text means in a schema.
fn meaning_of(alloc: Global, schema: &Schema, text: &str) -> Result<Meaning, AllocError> {
    if text.len() > LONGEST {
        return Err(AllocError);
    }
    match read(alloc, text) {
        Ok(statement) => bound_in(alloc, schema, statement),
        Err(ReadStop::Syntax { at }) => Ok(Err(StatementError::Syntax { at })),
        Err(ReadStop::NoMemory) => Err(AllocError),
    }
}

/// What a statement means in a schema.
fn bound_in(alloc: Global, schema: &Schema, statement: Stmt) -> Result<Meaning, AllocError> {
    let bound = bind(alloc, &statement, schema);
    drop(statement);
    match bound {
        Ok(bound) => Ok(Ok(bound)),
        Err(fault) => refused(fault),
    }
}

/// The error of a statement that means nothing.
fn refused(fault: BindFault) -> Result<Meaning, AllocError> {
    let cause = match fault {
        BindFault::Table => StatementError::Table,
        BindFault::Column => StatementError::Column,
        BindFault::Ambiguous => StatementError::Ambiguous,
        BindFault::Type_ => StatementError::Type_,
        BindFault::Count => StatementError::Count,
        BindFault::NoMemory => return Err(AllocError),
    };
    Ok(Err(cause))
}

impl Case {
    pub(crate) fn new(alloc: Global) -> Result<Case, AllocError> {
        Ok(Case {
            schema: Schema::new(alloc),
            versions: Vec::new(alloc),
            next: 1,
            gone: 0,
            session: begun(alloc, 1, Level::Snapshot)?,
            ops: List::new(alloc),
            tokens: String::new(alloc),
        })
    }

    /// The transaction begins at the position and the level that these words say.
    pub(crate) fn begin(&mut self, alloc: Global, words: &str) -> Result<(), AllocError> {
        let (position, level) = words.split_once(' ').unwrap_or((words, ""));
        let level = if level == "serializable" {
            Level::Serializable
        } else {
            Level::Snapshot
        };
        self.session = begun(alloc, position.parse::<u64>().unwrap_or(0), level)?;
        self.ops = List::new(alloc);
        Ok(())
    }

    /// Adds the table of a text to the schema.
    pub(crate) fn add_table(
        &mut self,
        alloc: Global,
        text: &str,
        out: &mut Output,
    ) -> Result<(), AllocError> {
        if text.len() > LONGEST {
            return Err(AllocError);
        }
        match read_table(alloc, text, &mut self.schema) {
            Ok(table) => {
                self.versions.push(List::new(alloc))?;
                put_table(out, &table);
            }
            Err(TableStop::Unlawful) => out.put("  unlawful\n"),
            Err(TableStop::Limit) => out.put("  limit\n"),
            Err(TableStop::NoMemory) => return Err(AllocError),
        }
        Ok(())
    }

    /// Adds what a text inserts to the rows of the base.
    pub(crate) fn add_rows(
        &mut self,
        alloc: Global,
        text: &str,
        out: &mut Output,
    ) -> Result<(), AllocError> {
        let meaning = meaning_of(alloc, &self.schema, text)?;
        let outcome = self.plain(alloc, &meaning);
        drop(meaning);
        let told = answered_by(alloc, List::new(alloc), outcome?)?;
        put_replies(out, told.replies.as_slice());
        let added = self.add_ops(told.ops.as_slice());
        drop(told);
        added
    }

    /// Adds the rows that operations insert to the versions of their tables.
    fn add_ops(&mut self, ops: &[RowOp]) -> Result<(), AllocError> {
        for op in ops {
            if let RowOp::Insert { table, row } = op {
                self.add_row(*table, row.clone()?)?;
            }
        }
        Ok(())
    }

    /// Adds a row to the versions of a table.
    fn add_row(&mut self, table: u16, row: Row) -> Result<(), AllocError> {
        let genid = self.next;
        self.next = genid.saturating_add(1);
        match self.versions.get_mut(table as usize) {
            Some(versions) => versions.push(Version { genid, row }),
            None => Ok(()),
        }
    }

    /// Adds what a text means, and what it is answered.
    pub(crate) fn tell(
        &mut self,
        alloc: Global,
        text: &str,
        out: &mut Output,
    ) -> Result<(), AllocError> {
        let meaning = meaning_of(alloc, &self.schema, text)?;
        let told = self.tell_meaning(alloc, text, &meaning, out);
        drop(meaning);
        told
    }

    fn tell_meaning(
        &mut self,
        alloc: Global,
        text: &str,
        meaning: &Meaning,
        out: &mut Output,
    ) -> Result<(), AllocError> {
        let plain = self.plain(alloc, meaning)?;
        let ranges = self.compared(alloc, meaning, &plain, out);
        self.answered(alloc, text, plain, ranges, out)
    }

    /// What a statement comes to over all combinations.
    fn plain(&self, alloc: Global, meaning: &Meaning) -> Result<Outcome, AllocError> {
        let tables = self.schema.tables();
        let versions = self.versions.as_slice();
        answer(alloc, tables, versions, self.ops.as_slice(), meaning)
    }

    /// Adds what a statement means, and whether it comes to the same by its plan. Gives the intervals that this reads.
    fn compared(
        &self,
        alloc: Global,
        meaning: &Meaning,
        plain: &Outcome,
        out: &mut Output,
    ) -> List<Interval> {
        let Ok(bound) = meaning else {
            return List::new(alloc);
        };
        put_meaning(out, bound);
        match self.planned(alloc, bound) {
            Ok(executed) => self.put_other(plain, executed, out),
            Err(_) => {
                out.fail();
                List::new(alloc)
            }
        }
    }

    /// Adds both outcomes where they differ. Gives the intervals that the plan reads.
    fn put_other(&self, plain: &Outcome, planned: Executed, out: &mut Output) -> List<Interval> {
        let Executed { outcome, ranges } = planned;
        let tables = self.schema.tables();
        let start = out.len();
        put_outcome(out, tables, plain);
        let second = out.len();
        put_outcome(out, tables, &outcome);
        out.settle(start, second, "  DIFFERS by its plan\n");
        drop(outcome);
        ranges
    }

    /// What a statement comes to by its plan.
    fn planned(&self, alloc: Global, bound: &Bound) -> Result<Executed, AllocError> {
        let mut rows = rows_of(alloc, &self.schema, self.versions.as_slice())?;
        let plan = Plan::new(alloc, bound, &self.schema)?;
        let own = self.own(alloc)?;
        let tables = self.schema.tables();
        match execute(alloc, tables, bound, &plan, &mut rows, &own) {
            Ok(executed) => Ok(executed),
            Err(_) => Err(AllocError),
        }
    }

    /// The operations so far, with their marks.
    fn own(&self, alloc: Global) -> Result<OwnWrites, AllocError> {
        let mut own = OwnWrites::from_writes(alloc, self.ops.clone()?);
        own.mark();
        Ok(own)
    }

    /// Adds what a text is answered. Afterwards the transaction has the operations of the plain outcome.
    fn answered(
        &mut self,
        alloc: Global,
        text: &str,
        plain: Outcome,
        ranges: List<Interval>,
        out: &mut Output,
    ) -> Result<(), AllocError> {
        let replies = self.asked(alloc, text)?;
        let ops = mem::replace(&mut self.ops, List::new(alloc));
        let told = answered_by(alloc, ops, plain)?;
        self.ops = told.ops;
        let start = out.len();
        put_replies(out, told.replies.as_slice());
        let second = out.len();
        put_replies(out, replies.as_slice());
        out.settle(start, second, "  DIFFERS over all combinations\n");
        put_replies(out, replies.as_slice());
        put_items(out, self.schema.tables(), told.uses.as_slice());
        put_intervals(out, self.schema.tables(), ranges.as_slice());
        Ok(())
    }

    /// What a text is answered by the session. Where the rows are gone it is asked again.
    fn asked(&mut self, alloc: Global, text: &str) -> Result<List<Reply>, AllocError> {
        match self.ask(alloc, text, self.gone) {
            Ok(replies) => Ok(replies),
            Err(RowFault::Gone) => self.ask_again(alloc, text),
            Err(RowFault::NoMemory) => Err(AllocError),
        }
    }

    fn ask_again(&mut self, alloc: Global, text: &str) -> Result<List<Reply>, AllocError> {
        match self.ask(alloc, text, 0) {
            Ok(replies) => Ok(replies),
            Err(_) => Err(AllocError),
        }
    }

    /// What a text is answered by the session, whose rows are gone at this call.
    fn ask(&mut self, alloc: Global, text: &str, gone: u64) -> Result<List<Reply>, RowFault> {
        if text.len() > LONGEST {
            return Err(RowFault::NoMemory);
        }
        let rows = rows_of(alloc, &self.schema, self.versions.as_slice())?;
        let mut source = Fleeting { rows, gone };
        self.session
            .statement_text(alloc, &self.schema, text.as_bytes(), &mut source)
    }

    /// Adds what the transaction asks at its commit.
    pub(crate) fn put_request(&self, alloc: Global, out: &mut Output) -> Result<(), AllocError> {
        match self.session.request(alloc)? {
            None => {
                put_counted(out, "  nothing, from ", self.session.begin());
                out.put("\n");
            }
            Some(request) => self.put_asked(&request, out),
        }
        Ok(())
    }

    fn put_asked(&self, request: &CommitRequest, out: &mut Output) {
        put_counted(out, "  from ", request.begin);
        out.put(match request.level {
            Level::Snapshot => " snapshot\n",
            Level::Serializable => " serializable\n",
        });
        let tables = self.schema.tables();
        let start = out.len();
        put_ops(out, tables, self.ops.as_slice());
        let second = out.len();
        put_ops(out, tables, request.ops.as_slice());
        out.settle(start, second, "  DIFFERS over all combinations\n");
        put_ops(out, tables, request.ops.as_slice());
        put_items(out, tables, request.genids.as_slice());
        put_intervals(out, tables, request.ranges.as_slice());
    }
}
