//! What a text is answered in a transaction: its rows are read from the pages of the log at its begin position.
ghost use Rattle.std.specs.Prelude.{◌≡◌, ◌≤◌, length, IfOk, OnErr};
ghost use Rattle.cdb_values.specs.Rows.{Rows};
ghost use Rattle.phys_log.specs.Logs.{page_at, pages_of};
ghost use Rattle.session_turns.specs.Answers.{IsTextAnswered};
ghost use Rattle.session_turns.specs.Step.{World};
ghost use Rattle.sql_run.specs.Texts.{plan_by};
ghost use Rattle.sql_run.specs.Views.{text_in};
ghost use Rattle.table_store.specs.Stored.{Stands};
ghost use Rattle.undo_snapshot.specs.Kept.{AreOf, Further};
ghost use Rattle.undo_snapshot.specs.Positions.{AreOfLog, Served};

use cdb_values::{List, Reply, Schema};
use log_replay::{LogPages, PagedLog};
use osql_session::OsqlSession;
use page_rows::PageRows;
use plan_run::RowFault;
use session_turns::answer_over;
use sql_run::Prepared;
use std::alloc::{AllocError, Global};
use std::marker::Brand;
use undo_snapshot::{Front, FrontPages, KeptPages, KeptPositions, LogGranter, SnapshotPages};

/// What a prepared text is answered in a session's transaction, over each history that has at its begin position the rows that
/// the pages of the log stand for there. Where that is the log's last position, its pages are read as they stand, and none is
/// copied. Else pages are taken from the log as it is now, and what came after that position is undone on the copies, which
/// are kept for the transaction's next texts: each of these begins with the pages that are kept. The error is want of memory,
/// after which the session is as before.
pub(crate) fn answer_text(
    alloc: Global,
    schema: &Schema,
    log: &PagedLog,
    undone: &mut KeptPositions,
    session: &mut OsqlSession,
    prepared: &Prepared,
) -> Result<List<Reply>, AllocError>
    requires within { session.old.begin ≤ length log.now }
    requires stands { (rows : Rows) × Stands (page_at log.now session.old.begin) schema.now rows }
    requires plan { (text_in prepared.now).plan ≡ plan_by schema.now (text_in prepared.now).meaning }
    requires undone { AreOfLog log.now undone.old }
    ensures answered { (w : World) → w.tables ≡ schema.now
        → Stands (page_at log.now session.old.begin) schema.now (w.seen.at session.old.begin)
        → IfOk result (λ lines. IsTextAnswered w session.old (text_in prepared.now).meaning lines session.new) }
    ensures unchanged { OnErr result (session.new ≡ session.old) }
    ensures begin { session.new.begin ≡ session.old.begin }
    ensures undone { AreOfLog log.now undone.new }
    ensures served { Served log.now undone.old undone.new }
{
    let begin = session.begin();
    if begin == log.entries().len() as u64 {
        answer_now(alloc, schema, log, session, prepared)
    } else {
        answer_earlier(alloc, schema, log, undone, session, prepared)
    }
}

/// The same where the transaction began at the log's last position.
fn answer_now(
    alloc: Global,
    schema: &Schema,
    log: &PagedLog,
    session: &mut OsqlSession,
    prepared: &Prepared,
) -> Result<List<Reply>, AllocError>
    requires stands { (rows : Rows) × Stands (pages_of log.now) schema.now rows }
    requires plan { (text_in prepared.now).plan ≡ plan_by schema.now (text_in prepared.now).meaning }
    ensures answered { (w : World) → w.tables ≡ schema.now
        → Stands (pages_of log.now) schema.now (w.seen.at session.old.begin)
        → IfOk result (λ lines. IsTextAnswered w session.old (text_in prepared.now).meaning lines session.new) }
    ensures unchanged { OnErr result (session.new ≡ session.old) }
    ensures begin { session.new.begin ≡ session.old.begin }
{
    let pages = LogPages::new(alloc, log)?;
    let mut source = PageRows::new(pages, schema);
    match answer_over(alloc, schema, session, prepared, &mut source) {
        Ok(replies) => Ok(replies),
        // The pages of the log are in memory, and none of them can be gone: this is want of memory.
        Err(_) => Err(AllocError),
    }
}

/// The same where others have committed since, by the pages that are kept of its begin position.
fn answer_earlier(
    alloc: Global,
    schema: &Schema,
    log: &PagedLog,
    undone: &mut KeptPositions,
    session: &mut OsqlSession,
    prepared: &Prepared,
) -> Result<List<Reply>, AllocError>
    requires within { session.old.begin ≤ length log.now }
    requires stands { (rows : Rows) × Stands (page_at log.now session.old.begin) schema.now rows }
    requires plan { (text_in prepared.now).plan ≡ plan_by schema.now (text_in prepared.now).meaning }
    requires undone { AreOfLog log.now undone.old }
    ensures answered { (w : World) → w.tables ≡ schema.now
        → Stands (page_at log.now session.old.begin) schema.now (w.seen.at session.old.begin)
        → IfOk result (λ lines. IsTextAnswered w session.old (text_in prepared.now).meaning lines session.new) }
    ensures unchanged { OnErr result (session.new ≡ session.old) }
    ensures begin { session.new.begin ≡ session.old.begin }
    ensures undone { AreOfLog log.now undone.new }
    ensures served { Served log.now undone.old undone.new }
{
    let begin = session.begin();
    let kept = undone.take(alloc, begin)?;
    let granter = LogGranter::new(log, begin);
    let Undone { answer, kept } = answer_undone::<Brand>(
        alloc, schema, granter, begin, kept, session, prepared,
    );
    undone.put(alloc, begin, kept);
    match answer {
        Ok(replies) => Ok(replies),
        // The log is in memory, and none of its pages can be gone: this is want of memory.
        Err(_) => Err(AllocError),
    }
}

/// What was answered, and the pages that are kept then.
#[derive(Drop)]
struct Undone {
    answer: Result<List<Reply>, RowFault>,
    kept: KeptPages,
}

/// The same over pages that are granted and undone, some of which are kept.
fn answer_undone<F: Front>(
    alloc: Global,
    schema: &Schema,
    granter: LogGranter<'_>,
    position: u64,
    kept: KeptPages,
    session: &mut OsqlSession,
    prepared: &Prepared,
) -> Undone
    requires front { granter ≡ F.front }
    requires position { position ≡ length F.front }
    requires kept { AreOf (pages_of F.front) kept }
    requires begins { kept ≡ F.kept }
    requires stands { (rows : Rows) × Stands (pages_of F.front) schema.now rows }
    requires plan { (text_in prepared.now).plan ≡ plan_by schema.now (text_in prepared.now).meaning }
    ensures answered { (w : World) → w.tables ≡ schema.now
        → Stands (pages_of F.front) schema.now (w.seen.at session.old.begin)
        → IfOk result.answer (λ lines. IsTextAnswered w session.old (text_in prepared.now).meaning lines session.new) }
    ensures unchanged { OnErr result.answer (session.new ≡ session.old) }
    ensures begin { session.new.begin ≡ session.old.begin }
    ensures kept { AreOf (pages_of F.front) result.kept }
    ensures further { Further (pages_of F.front) kept result.kept }
{
    let pages = SnapshotPages::with_kept(alloc, granter, position, kept);
    let pages: FrontPages<F, LogGranter<'_>> = FrontPages::new(pages);
    let mut source = PageRows::new(pages, schema);
    let answer = answer_over(alloc, schema, session, prepared, &mut source);
    let kept = source.pages.into_kept();
    Undone { answer, kept }
}
