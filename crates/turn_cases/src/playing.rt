//! A script played on the plain node, its sessions' lines one after the other.
ghost use Rattle.std.specs.Prelude.{◌≡◌, true, length, IfOk};
ghost use Rattle.session_turns.specs.Views.{doing_in, IsOwn};
ghost use Rattle.sql_run.specs.Texts.{plan_by};
ghost use Rattle.sql_run.specs.Views.{text_in};
ghost use Rattle.turn_cases.specs.Plain.{CanGoOn};

use crate::plain::PlainNode;
use cdb_values::{Level, List, Name, Reply, Schema};
use osql_session::OsqlSession;
use report_text::{EntryLine, Line, Report};
use script_form::{Act, BodyLine, Script, SessionLine, TableLine};
use session_turns::{InTransaction, LineEffect, SessionState, Told, Turn, settle, take_turn};
use sql_run::{Prepared, prepare};
use std::alloc::{AllocError, Global};
use std::marker::Model;

/// More bytes than any line has.
const TEXT_LIMIT: usize = 1 << 32;

/// A session, and where it is: a transaction that it is in is its own.
#[derive(Drop)]
struct Player {
    name: Name,
    state: SessionState,
}

impl Model for Player {
    ghost use Rattle.std.specs.Prelude.{List as Many, ℕ};
    ghost use Rattle.session_turns.specs.Views.{IsOwn};

    ghost Value = { Many ℕ };

    ghost view = { λ p. p.name };

    ghost invariant = { λ p. IsOwn 1 p.name p.state };
}

impl Player {
    /// A session that has done nothing.
    fn new(name: Name) -> Player {
        Player {
            name,
            state: SessionState {
                number: 0,
                level: Level::Snapshot,
                doing: InTransaction::No,
            },
        }
    }

    /// Whether it has that name.
    fn is(&self, name: &Name) -> bool {
        self.name.as_bytes() == name.as_bytes()
    }

    /// Does a line.
    fn says(
        self,
        alloc: Global,
        node: &mut PlainNode,
        prepared: &Prepared,
        report: &mut Report,
    ) -> Result<Player, AllocError>
        requires { (text_in prepared.now).plan ≡ plan_by node.old.schema (text_in prepared.now).meaning }
    {
        let Player { name, state } = self;
        match say(alloc, node, &name, state, prepared, report) {
            Ok(state) => Ok(Player { name, state }),
            Err(stop) => Err(stop),
        }
    }
}

/// Plays a script, and adds what it is told to a report that has told nothing yet.
pub(crate) fn play(alloc: Global, script: &Script, report: &mut Report) -> Result<(), AllocError> {
    let schema = schema_of(alloc, script.tables.as_slice())?;
    let mut node = PlainNode::new(alloc, schema)?;
    let played = play_on(alloc, script, &mut node, report);
    drop(node);
    played
}

/// Plays a script on a node that has its tables.
fn play_on(
    alloc: Global,
    script: &Script,
    node: &mut PlainNode,
    report: &mut Report,
) -> Result<(), AllocError> {
    let mut players = players_of(alloc, script.sessions.as_slice())?;
    let said = say_all(alloc, node, &mut players, script.body.as_slice(), report);
    drop(players);
    said
}

/// The sessions of a script, before their first line.
fn players_of(alloc: Global, sessions: &[SessionLine]) -> Result<Vec<Player>, AllocError> {
    let mut players = Vec::new(alloc);
    for session in sessions {
        players.push(Player::new(session.name.clone()?))?;
    }
    Ok(players)
}

/// Does the lines of a script, one after the other.
fn say_all(
    alloc: Global,
    node: &mut PlainNode,
    players: &mut Vec<Player>,
    lines: &[BodyLine],
    report: &mut Report,
) -> Result<(), AllocError> {
    for line in lines {
        if let Act::Say { session, text } = &line.act {
            say_as(alloc, node, players, session, text.as_bytes(), report)?;
        }
    }
    Ok(())
}

/// The tables of a script.
fn schema_of(alloc: Global, tables: &[TableLine]) -> Result<Schema, AllocError> {
    let mut schema = Schema::new(alloc);
    for line in tables {
        if schema.add(line.table.clone()?).is_err() {
            return Err(AllocError);
        }
    }
    Ok(schema)
}

/// The report of a run that has told nothing yet: its history begins with the tables.
pub(crate) fn begun_report(alloc: Global) -> Result<Report, AllocError> {
    let mut entries = List::new(alloc);
    entries.push(EntryLine::Setup { position: 1 })?;
    Ok(Report {
        lines: List::new(alloc),
        base: None,
        entries,
        feeds: List::new(alloc),
        end: 1,
    })
}

/// The session of that name does a line.
fn say_as(
    alloc: Global,
    node: &mut PlainNode,
    players: &mut Vec<Player>,
    name: &Name,
    text: &[u8],
    report: &mut Report,
) -> Result<(), AllocError> {
    let prepared = read_text(alloc, &node.schema, text)?;
    let said = say_prepared(alloc, node, players, name, &prepared, report);
    drop(prepared);
    said
}

/// The same, by its prepared text.
fn say_prepared(
    alloc: Global,
    node: &mut PlainNode,
    players: &mut Vec<Player>,
    name: &Name,
    prepared: &Prepared,
    report: &mut Report,
) -> Result<(), AllocError>
    requires { (text_in prepared.now).plan ≡ plan_by node.old.schema (text_in prepared.now).meaning }
{
    let Some(place) = players.iter().position(|player| player.is(name)) else {
        return Ok(());
    };
    let player = players.swap_remove(place);
    let player = player.says(alloc, node, prepared, report)?;
    players.push(player)?;
    Ok(())
}

/// A text read and bound.
#[tactic(auto, using(crate::proofs::TextLemmas::is_text))]
fn read_text(alloc: Global, schema: &Schema, text: &[u8]) -> Result<Prepared, AllocError>
    ensures { IfOk result (λ p. (text_in p).plan ≡ plan_by schema.now (text_in p).meaning) }
{
    if TEXT_LIMIT <= text.len() {
        return Err(AllocError);
    }
    match std::str::from_utf8(text) {
        Ok(_) => prepare(alloc, schema, text),
        Err(_) => Err(AllocError),
    }
}

/// Does a line of a session of that name, and gives where it is then.
#[tactic(auto, using(crate::proofs::PlayLemmas::own_after))]
fn say(
    alloc: Global,
    node: &mut PlainNode,
    name: &Name,
    state: SessionState,
    prepared: &Prepared,
    report: &mut Report,
) -> Result<SessionState, AllocError>
    requires own { IsOwn 1 name.now state }
    requires plan { (text_in prepared.now).plan ≡ plan_by node.old.schema (text_in prepared.now).meaning }
    ensures { IfOk result (IsOwn 1 name.now) }
{
    if !can_go_on(node, &state) {
        return Err(AllocError);
    }
    match take_turn(alloc, node, name, state, prepared)? {
        Turn::Done(effect) => tell_effect(alloc, node, name, effect, report),
        // This node can always tell.
        Turn::Begun(_) => unreachable!(),
        Turn::NotYet(_) => unreachable!(),
    }
}

/// Whether the node has the rows that a session reads. It always has: where a transaction began is never above the last position.
fn can_go_on(node: &PlainNode, state: &SessionState) -> bool
    ensures { result ≡ true → CanGoOn (length node.now.entries) (doing_in state.now.doing) }
{
    let last = node.entries.len() as u64;
    match &state.doing {
        InTransaction::Open(session) => 0 < session.begin() && session.begin() <= last,
        InTransaction::No => 0 < last,
        InTransaction::Aborted => 0 < last,
    }
}

/// Tells what a line came to, and what is decided on the transaction that comes to its commit by it, if one does.
fn tell_effect(
    alloc: Global,
    node: &mut PlainNode,
    name: &Name,
    effect: LineEffect,
    report: &mut Report,
) -> Result<SessionState, AllocError>
    ensures { IfOk result (λ after. after ≡ effect.after) }
{
    let LineEffect {
        number,
        replies,
        after,
        commits,
    } = effect;
    match tell_all(
        alloc,
        node,
        name,
        number,
        after.level,
        replies,
        commits,
        report,
    ) {
        Ok(()) => Ok(after),
        Err(stop) => Err(stop),
    }
}

/// Tells a session these replies, and then the outcome of that transaction, if there is one.
fn tell_all(
    alloc: Global,
    node: &mut PlainNode,
    name: &Name,
    number: u64,
    level: Level,
    replies: Vec<Reply>,
    commits: Option<OsqlSession>,
    report: &mut Report,
) -> Result<(), AllocError> {
    let told = tell_each(report, name, number, replies);
    let Some(session) = commits else {
        return told;
    };
    let told = match told {
        Ok(()) => commit(alloc, node, name, number, level, &session, report),
        Err(stop) => Err(stop),
    };
    drop(session);
    told
}

/// Tells a session these replies.
fn tell_each(
    report: &mut Report,
    name: &Name,
    number: u64,
    replies: Vec<Reply>,
) -> Result<(), AllocError> {
    for reply in replies {
        tell(report, name, number, reply)?;
    }
    Ok(())
}

/// Tells a session a reply.
fn tell(report: &mut Report, name: &Name, number: u64, reply: Reply) -> Result<(), AllocError> {
    let name = name.clone()?;
    report.lines.push(Line::Session {
        name,
        txn: number,
        reply,
    })
}

/// Has a transaction decided, and tells the outcome, with the entry that it has become, if it has become one.
fn commit(
    alloc: Global,
    node: &mut PlainNode,
    name: &Name,
    number: u64,
    level: Level,
    session: &OsqlSession,
    report: &mut Report,
) -> Result<(), AllocError> {
    let reply = outcome(alloc, node, session)?;
    tell(report, name, number, reply)?;
    let position = node.entries.len() as u64;
    if position <= report.end {
        return Ok(());
    }
    report.end = position;
    let entry = EntryLine::Commit {
        position,
        session: name.clone()?,
        txn: number,
        begin: session.begin(),
        level,
    };
    report.entries.push(entry)
}

/// The outcome of a transaction.
fn outcome(
    alloc: Global,
    node: &mut PlainNode,
    session: &OsqlSession,
) -> Result<Reply, AllocError> {
    let last = node.entries.len() as u64;
    if last == 0 || last < session.begin() {
        return Err(AllocError);
    }
    match settle(alloc, node, session)? {
        Told::Now(outcome) => Ok(outcome),
        // This node can always tell.
        Told::NotYet => unreachable!(),
    }
}
