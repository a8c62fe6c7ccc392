//! One line of a session on a node that is up, by where the session is.
ghost use Rattle.std.specs.Prelude.{◌≡◌, ◌+◌, ◌∷◌, [], ℕ, List, IfOk};
ghost use Rattle.session_language.specs.Language.{BeginText, OtherText};
ghost use Rattle.sql_run.specs.Texts.{plan_by};
ghost use Rattle.sql_run.specs.Views.{text_in};
ghost use Rattle.session_turns.specs.Answers.{reading_in, IfOpen, IsAnsweredKind, IsBegun, IsOwnTurn, IsTurnBetween};
ghost use Rattle.session_turns.specs.Doing.{open_begin};
ghost use Rattle.session_turns.specs.Views.{doing_in, IsOf, IsOwn};
ghost use Rattle.std.specs.List.{AllByRecursion};
ghost use Rattle.session_turns.specs.Worlds.{Grows};

use super::answers::{Begun, Told};
use super::nodes::SessionReader;
use super::replies::{commits, opened, refused, rolled_back, set_level, skip};
use super::states::{InTransaction, SessionState, idle};
use cdb_values::{Level, Name, Reply};
use osql_session::{CommitId, OsqlSession};
use sql_run::{Prepared, TextKind};
use std::alloc::{AllocError, Global};

/// What a line is told, and what it asks.
#[derive(Drop)]
pub struct LineEffect {
    /// The number that its replies are told under.
    pub number: u64,
    /// Its replies, but for the outcome of its commit.
    pub replies: Vec<Reply>,
    /// Where the session is then.
    pub after: SessionState,
    /// The transaction that comes to its commit by it, if one does: its outcome is one reply more.
    pub commits: Option<OsqlSession>,
}

/// A line that is a transaction of its own: it has begun, under its number and at its level.
#[derive(Drop)]
pub struct OwnLine {
    pub number: u64,
    pub level: Level,
    pub session: OsqlSession,
}

/// What came of a line.
#[derive(Drop)]
pub enum Turn {
    /// It is done, but for the commit that it asks for.
    Done(LineEffect),
    /// Its own transaction has begun, and its text is still to be answered, by `answer_own`.
    Begun(OwnLine),
    /// Nothing came of it yet, and the session is where it was.
    NotYet(SessionState),
}

/// A line as its turn sees it: whose it is, how many transactions the session has begun, the level of those that it begins,
/// and the text.
#[derive(Drop)]
struct Line<'a> {
    name: &'a Name,
    number: u64,
    level: Level,
    prepared: &'a Prepared,
}

/// Does a line of a session of that name, by its prepared text, up to its commit. Where the node can't tell yet, the line goes
/// on later. The error is want of memory, by which the line is cut short (`cut_state`).
pub fn take_turn<N: SessionReader>(
    alloc: Global,
    node: &mut N,
    name: &Name,
    state: SessionState,
    prepared: &Prepared,
) -> Result<Turn, AllocError>
    requires ready { N.ready node.old }
    requires readable { AllByRecursion (N.reads node.old) (open_begin (doing_in state.doing)) }
    requires own { IsOwn (N.generation node.old) name.now state }
    requires plan { (text_in prepared.now).plan ≡ plan_by (N.history node.old).tables (text_in prepared.now).meaning }
    ensures turn { IfOk result (IsTurnBetween (N.history node.old) (N.history node.new) (N.generation node.new) name.now
        state.number state.level state.doing (text_in prepared.now).meaning (text_in prepared.now).kind) }
    ensures readable { IfOk result (λ t. AllByRecursion (N.reads node.new) (reading_in t)) }
    ensures waits { IfOk result (λ t. IfOpen t N.waits) }
    ensures grows { Grows (N.history node.old) (N.history node.new) }
    ensures rests { N.rests node.old node.new }
{
    let SessionState {
        number,
        level,
        doing,
    } = state;
    let line = Line {
        name,
        number,
        level,
        prepared,
    };
    match doing {
        InTransaction::No => outside(alloc, node, &line),
        InTransaction::Open(session) => inside(alloc, node, &line, session),
        InTransaction::Aborted => Ok(Turn::Done(skip(alloc, number, level, prepared.kind()))),
    }
}

/// Does a line outside a transaction.
fn outside<N: SessionReader>(
    alloc: Global,
    node: &mut N,
    line: &Line<'_>,
) -> Result<Turn, AllocError>
    requires ready { N.ready node.old }
    requires plan { (text_in line.now.prepared.now).plan
        ≡ plan_by (N.history node.old).tables (text_in line.now.prepared.now).meaning }
    ensures turn { IfOk result (IsTurnBetween (N.history node.old) (N.history node.new) (N.generation node.new) line.now.name.now
        line.now.number line.now.level InTransaction.No
        (text_in line.now.prepared.now).meaning (text_in line.now.prepared.now).kind) }
    ensures readable { IfOk result (λ t. AllByRecursion (N.reads node.new) (reading_in t)) }
    ensures waits { IfOk result (λ t. IfOpen t N.waits) }
    ensures grows { Grows (N.history node.old) (N.history node.new) }
    ensures rests { N.rests node.old node.new }
{
    match line.prepared.kind() {
        TextKind::Begin => begin(alloc, node, line),
        TextKind::Commit => Ok(Turn::Done(refused(alloc, line.number, line.level)?)),
        TextKind::Rollback => Ok(Turn::Done(refused(alloc, line.number, line.level)?)),
        TextKind::SetLevel(level) => Ok(Turn::Done(set_level(alloc, line.number, level)?)),
        TextKind::Other => own_line(alloc, node, line),
    }
}

/// Does a line in an open transaction.
fn inside<N: SessionReader>(
    alloc: Global,
    node: &mut N,
    line: &Line<'_>,
    session: OsqlSession,
) -> Result<Turn, AllocError>
    requires readable { N.reads node.old session.begin }
    requires own { IsOf (N.generation node.old) line.now.name.now line.now.number line.now.level session }
    requires plan { (text_in line.now.prepared.now).plan
        ≡ plan_by (N.history node.old).tables (text_in line.now.prepared.now).meaning }
    ensures turn { IfOk result (IsTurnBetween (N.history node.old) (N.history node.new) (N.generation node.new) line.now.name.now
        line.now.number line.now.level (InTransaction.Open session)
        (text_in line.now.prepared.now).meaning (text_in line.now.prepared.now).kind) }
    ensures readable { IfOk result (λ t. AllByRecursion (N.reads node.new) (reading_in t)) }
    ensures waits { IfOk result (λ t. IfOpen t N.waits) }
    ensures grows { Grows (N.history node.old) (N.history node.new) }
    ensures rests { N.rests node.old node.new }
{
    match line.prepared.kind() {
        TextKind::Commit => Ok(Turn::Done(commits(alloc, line.number, line.level, session))),
        TextKind::Rollback => Ok(Turn::Done(rolled_back(alloc, line.number, line.level)?)),
        TextKind::Begin => go_on(alloc, node, line, session),
        TextKind::SetLevel(_) => go_on(alloc, node, line, session),
        TextKind::Other => go_on(alloc, node, line, session),
    }
}

/// The number of the next transaction.
fn counted(number: u64) -> Result<u64, AllocError>
    ensures { IfOk result (λ next. next ≡ number + 1) }
{
    match number.checked_add(1) {
        Some(next) => Ok(next),
        None => Err(AllocError),
    }
}

/// The next transaction of a line's session, which began so.
fn next_session(
    alloc: Global,
    line: &Line<'_>,
    number: u64,
    begun: Begun,
) -> Result<OsqlSession, AllocError>
    ensures own { IfOk result (IsOf begun.generation line.now.name.now number line.now.level) }
    ensures begin { IfOk result (λ s. s.begin ≡ begun.position) }
    ensures ops { IfOk result (λ s. s.ops ≡ []) }
    ensures genids { IfOk result (λ s. s.genids ≡ []) }
    ensures ranges { IfOk result (λ s. s.ranges ≡ []) }
{
    let id = CommitId {
        began: begun.generation,
        session: line.name.clone()?,
        txn: number,
    };
    Ok(OsqlSession::new(alloc, id, begun.position, line.level))
}

/// A transaction begins.
fn begin<N: SessionReader>(alloc: Global, node: &mut N, line: &Line<'_>) -> Result<Turn, AllocError>
    requires ready { N.ready node.old }
    requires kind { (text_in line.now.prepared.now).kind ≡ BeginText }
    ensures turn { IfOk result (IsTurnBetween (N.history node.old) (N.history node.new) (N.generation node.new) line.now.name.now
        line.now.number line.now.level InTransaction.No
        (text_in line.now.prepared.now).meaning (text_in line.now.prepared.now).kind) }
    ensures readable { IfOk result (λ t. AllByRecursion (N.reads node.new) (reading_in t)) }
    ensures waits { IfOk result (λ t. IfOpen t N.waits) }
    ensures grows { Grows (N.history node.old) (N.history node.new) }
    ensures rests { N.rests node.old node.new }
{
    let number = counted(line.number)?;
    match node.begin(alloc)? {
        Told::Now(begun) => {
            let session = next_session(alloc, line, number, begun)?;
            Ok(Turn::Done(opened(alloc, number, line.level, session)?))
        }
        Told::NotYet => Ok(Turn::NotYet(idle(line.number, line.level))),
    }
}

/// A line outside a transaction is one of its own: it begins, and is answered.
fn own_line<N: SessionReader>(
    alloc: Global,
    node: &mut N,
    line: &Line<'_>,
) -> Result<Turn, AllocError>
    requires ready { N.ready node.old }
    requires kind { (text_in line.now.prepared.now).kind ≡ OtherText }
    requires plan { (text_in line.now.prepared.now).plan
        ≡ plan_by (N.history node.old).tables (text_in line.now.prepared.now).meaning }
    ensures turn { IfOk result (IsTurnBetween (N.history node.old) (N.history node.new) (N.generation node.new) line.now.name.now
        line.now.number line.now.level InTransaction.No
        (text_in line.now.prepared.now).meaning (text_in line.now.prepared.now).kind) }
    ensures readable { IfOk result (λ t. AllByRecursion (N.reads node.new) (reading_in t)) }
    ensures waits { IfOk result (λ t. IfOpen t N.waits) }
    ensures grows { Grows (N.history node.old) (N.history node.new) }
    ensures rests { N.rests node.old node.new }
{
    let number = counted(line.number)?;
    match node.begin(alloc)? {
        Told::Now(begun) => {
            let own = OwnLine {
                number,
                level: line.level,
                session: next_session(alloc, line, number, begun)?,
            };
            answer_own(alloc, node, own, line.prepared)
        }
        Told::NotYet => Ok(Turn::NotYet(idle(line.number, line.level))),
    }
}

/// Answers the text of a line of its own that has begun, up to its commit. The error is want of memory, by which the line is
/// cut short.
pub fn answer_own<N: SessionReader>(
    alloc: Global,
    node: &mut N,
    own: OwnLine,
    prepared: &Prepared,
) -> Result<Turn, AllocError>
    requires readable { N.reads node.old own.session.begin }
    requires plan { (text_in prepared.now).plan ≡ plan_by (N.history node.old).tables (text_in prepared.now).meaning }
    ensures turn { (name : List ℕ) → IsBegun (N.generation node.old) name own.number own.level own
        → IfOk result (IsOwnTurn (N.history node.new) (N.generation node.new) name (text_in prepared.now).meaning own) }
    ensures readable { IfOk result (λ t. AllByRecursion (N.reads node.new) (reading_in t)) }
    ensures waits { IfOk result (λ t. IfOpen t N.waits) }
    ensures grows { Grows (N.history node.old) (N.history node.new) }
    ensures rests { N.rests node.old node.new }
    ensures generation { N.generation node.new ≡ N.generation node.old }
{
    let OwnLine {
        number,
        level,
        session,
    } = own;
    let mut session = session;
    match node.answer(alloc, &mut session, prepared)? {
        Told::Now(replies) => Ok(Turn::Done(LineEffect {
            number,
            replies: told_whole(alloc, session.begin(), replies.into_vec())?,
            after: idle(number, level),
            commits: Some(session),
        })),
        Told::NotYet => Ok(Turn::Begun(OwnLine {
            number,
            level,
            session,
        })),
    }
}

/// The replies of a line of its own: that it began, and what its text is answered.
fn told_whole(alloc: Global, begin: u64, replies: Vec<Reply>) -> Result<Vec<Reply>, AllocError>
    ensures { IfOk result (λ all. all.items ≡ Reply.Begin begin ∷ replies.items) }
{
    let mut all = Vec::new(alloc);
    all.push(Reply::Begin(begin))?;
    let mut replies = replies;
    all.append(&mut replies)?;
    Ok(all)
}

/// A line is answered in an open transaction.
fn go_on<N: SessionReader>(
    alloc: Global,
    node: &mut N,
    line: &Line<'_>,
    session: OsqlSession,
) -> Result<Turn, AllocError>
    requires readable { N.reads node.old session.begin }
    requires own { IsOf (N.generation node.old) line.now.name.now line.now.number line.now.level session }
    requires kind { IsAnsweredKind (text_in line.now.prepared.now).kind }
    requires plan { (text_in line.now.prepared.now).plan
        ≡ plan_by (N.history node.old).tables (text_in line.now.prepared.now).meaning }
    ensures turn { IfOk result (IsTurnBetween (N.history node.old) (N.history node.new) (N.generation node.new) line.now.name.now
        line.now.number line.now.level (InTransaction.Open session)
        (text_in line.now.prepared.now).meaning (text_in line.now.prepared.now).kind) }
    ensures readable { IfOk result (λ t. AllByRecursion (N.reads node.new) (reading_in t)) }
    ensures waits { IfOk result (λ t. IfOpen t N.waits) }
    ensures grows { Grows (N.history node.old) (N.history node.new) }
    ensures rests { N.rests node.old node.new }
{
    let mut session = session;
    let told = node.answer(alloc, &mut session, line.prepared)?;
    let at = SessionState {
        number: line.number,
        level: line.level,
        doing: InTransaction::Open(session),
    };
    match told {
        Told::Now(replies) => Ok(Turn::Done(LineEffect {
            number: line.number,
            replies: replies.into_vec(),
            after: at,
            commits: None,
        })),
        Told::NotYet => Ok(Turn::NotYet(at)),
    }
}
