ghost use Rattle.std.specs.Prelude.{◌≡◌, ◌<◌, ◌≤◌, ◌^◌, ◌∷◌, ◌++◌, [], IfOk, OnErr, length, nat_lt, MatchOption, true, false};
ghost use Rattle.std.specs.Str.{is_utf8};
ghost use Rattle.byte_words.specs.Lines.{text_of};
ghost use Rattle.byte_words.specs.Words.{after_piece};
ghost use Rattle.table_read.specs.Verdict.{table_of};
ghost use Rattle.script_read.specs.Answers.{AnswersReading};
ghost use Rattle.script_read.specs.Heads.{table_said};
ghost use Rattle.script_read.specs.Kinds.{kind_of, part_of};
ghost use Rattle.script_read.specs.declared.said.Said.TheVariants as says;
ghost use Rattle.script_read.specs.ScriptText.{no_draft, told, with_said, with_table, if_built, tables_with, tables_more, read_placed, read_kind, read_line, finished, cluster_name, and_then, most_line_bytes};

use super::bodies::{arm_line, barrier_line, feed_line, say_line, start_line, stop_line};
use super::built::runs_today;
use super::heads::{cluster_line, nodes_line, session_line, watch_line, workers_line};
use super::kinds::{Keyword, LineKind, line_kind, line_part, may_follow};
use super::reasons::{LIMIT, LONG_LINE, NO_LINE, NO_NODES, NOT_BUILT, NOT_TEXT, WRONG_TABLE};
use super::said::Said;
use super::scripts::ScriptStop;
use byte_words::{is_comment, line_text, next_piece};
use cdb_values::{List, Name, Schema, TableDef};
use script_form::{Act, BodyLine, Script, SessionLine, TableLine};
use std::alloc::{AllocError, Global};
use table_read::{TableStop, read_table};

/// The most bytes of a line.
const MOST_LINE_BYTES: usize = 65_535;

/// What was read of a script so far.
#[derive(Drop)]
pub struct Draft {
    /// The number of stores that there are.
    pub stores: u64,
    /// The number of consumers that there are.
    pub consumers: u64,
    /// The part in which the last line stands, from 1, or 0 before any line.
    pub part: u8,
    /// The number of nodes, or 0 before the line that says it.
    pub nodes: u8,
    /// The name of the cluster, where a line says it.
    pub cluster: Option<Name>,
    pub workers: u8,
    pub sessions: List<SessionLine>,
    /// The tables alone.
    pub schema: Schema,
    pub tables: List<TableLine>,
    pub watches: List<u16>,
    pub body: List<BodyLine>,
}

impl Draft {
    /// Nothing read yet.
    pub fn new(alloc: Global, stores: u64, consumers: u64) -> Draft
        ensures { result ≡ no_draft stores consumers }
    {
        Draft {
            stores,
            consumers,
            part: 0,
            nodes: 0,
            cluster: None,
            workers: 1,
            sessions: List::new(alloc),
            schema: Schema::new(alloc),
            tables: List::new(alloc),
            watches: List::new(alloc),
            body: List::new(alloc),
        }
    }
}

/// One line read behind what was read before it.
#[tactic(auto, unfolding(crate::specs::ScriptText::read_line), using(crate::proofs::TextLemmas::text_is_short))]
pub fn line_after(alloc: Global, draft: Draft, line: u64, bytes: &[u8]) -> Result<Draft, ScriptStop>
    ensures { AnswersReading (λ d. d) result (read_line draft line bytes.now) }
{
    let Some(_) = as_text(bytes) else {
        drop(draft);
        return Err(ScriptStop::Refused {
            line,
            why: NOT_TEXT,
        });
    };
    if MOST_LINE_BYTES < bytes.len() {
        drop(draft);
        return Err(ScriptStop::Refused {
            line,
            why: LONG_LINE,
        });
    }
    let text = line_text(bytes);
    if is_comment(text) {
        return Ok(draft);
    }
    text_after(alloc, draft, line, text)
}

/// Bytes as text; `None` exactly where they are not UTF-8.
#[tactic(auto, using(crate::proofs::TextLemmas::is_text, crate::proofs::TextLemmas::is_no_text))]
pub(super) fn as_text(bytes: &[u8]) -> Option<&str>
    ensures { MatchOption result (is_utf8 bytes.now ≡ false) (λ text. (is_utf8 bytes.now ≡ true) × (text.now ≡ bytes.now)) }
{
    match std::str::from_utf8(bytes) {
        Ok(text) => Some(text),
        Err(_) => None,
    }
}

/// A text read behind what was read before it.
fn text_after(alloc: Global, draft: Draft, line: u64, text: &[u8]) -> Result<Draft, ScriptStop>
    requires { length text.now < 2 ^ 32 }
    ensures { AnswersReading (λ d. d) result (read_kind draft line text.now (kind_of text.now)) }
{
    let Some(kind) = line_kind(text) else {
        drop(draft);
        return Err(ScriptStop::Refused { line, why: NO_LINE });
    };
    if !may_follow(draft.part, line_part(kind)) {
        drop(draft);
        return Err(ScriptStop::Refused { line, why: NO_LINE });
    }
    kind_after(alloc, draft, line, text, kind)
}

/// A line of a kind, where it may come.
fn kind_after(
    alloc: Global,
    draft: Draft,
    line: u64,
    text: &[u8],
    kind: LineKind,
) -> Result<Draft, ScriptStop>
    requires { length text.now < 2 ^ 32 }
    ensures { AnswersReading (λ d. d) result (read_placed draft line text.now kind) }
{
    match kind {
        LineKind::Create => table_after(alloc, draft, line, text),
        LineKind::Say => match say_line(alloc, &draft, line, text) {
            Ok(said) => said_after(draft, line, said),
            Err(stop) => {
                drop(draft);
                Err(stop)
            }
        },
        LineKind::Told(keyword) => told_after(alloc, draft, line, text, keyword),
    }
}

/// A line that a keyword begins, where it may come.
fn told_after(
    alloc: Global,
    draft: Draft,
    line: u64,
    text: &[u8],
    keyword: Keyword,
) -> Result<Draft, ScriptStop>
    ensures { AnswersReading (λ d. d) result (and_then (told draft line (after_piece text.now) keyword) (if_built draft line)) }
{
    match keyword_line(alloc, &draft, line, keyword, next_piece(text).1) {
        Ok(said) => said_after(draft, line, said),
        Err(stop) => {
            drop(draft);
            Err(stop)
        }
    }
}

/// What a line says that a keyword begins, by what stands behind that.
fn keyword_line(
    alloc: Global,
    draft: &Draft,
    line: u64,
    keyword: Keyword,
    rest: &[u8],
) -> Result<Said, ScriptStop>
    ensures { AnswersReading (λ said. said) result (told draft.now line rest.now keyword) }
{
    match keyword {
        Keyword::Nodes => nodes_line(draft, line, rest),
        Keyword::Cluster => cluster_line(alloc, line, rest),
        Keyword::Workers => workers_line(line, rest),
        Keyword::Session => session_line(alloc, draft, line, rest),
        Keyword::Watch => watch_line(alloc, draft, line, rest),
        Keyword::Stop => stop_line(draft, line, rest),
        Keyword::Start => start_line(draft, line, rest),
        Keyword::Arm => arm_line(alloc, draft, line, rest),
        Keyword::Barrier => barrier_line(line, rest),
        Keyword::Feed => feed_line(line, rest),
    }
}

/// What a line says added to what was read, where it runs today.
fn said_after(draft: Draft, line: u64, said: Said) -> Result<Draft, ScriptStop>
    ensures { AnswersReading (λ d. d) result (if_built draft line said) }
{
    if runs_today(&said) {
        added(draft, line, said)
    } else {
        drop(draft);
        drop(said);
        Err(ScriptStop::Refused {
            line,
            why: NOT_BUILT,
        })
    }
}

/// What a line says added to what was read.
fn added(draft: Draft, line: u64, said: Said) -> Result<Draft, ScriptStop>
    ensures { AnswersReading (λ d. d) result (Ok (with_said draft line said)) }
{
    let mut draft = draft;
    match said {
        Said::Nodes(nodes) => {
            draft.part = 1;
            draft.nodes = nodes;
            Ok(draft)
        }
        Said::Cluster(name) => {
            draft.part = 2;
            draft.cluster = Some(name);
            Ok(draft)
        }
        Said::Workers(workers) => {
            draft.part = 3;
            draft.workers = workers;
            Ok(draft)
        }
        Said::Session(session) => with_session(draft, session),
        Said::Watch(place) => with_watch(draft, place),
        Said::Runs(act) => with_act(draft, line, act),
    }
}

/// A session added to what was read.
fn with_session(draft: Draft, session: SessionLine) -> Result<Draft, ScriptStop>
    ensures { AnswersReading (λ d. d) result (Ok (with_said draft 0 (says.Session session))) }
{
    let mut draft = draft;
    draft.part = 4;
    match draft.sessions.push(session) {
        Ok(()) => Ok(draft),
        Err(left) => {
            drop(left);
            drop(draft);
            Err(ScriptStop::NoMemory)
        }
    }
}

/// A watch added to what was read.
fn with_watch(draft: Draft, place: u16) -> Result<Draft, ScriptStop>
    ensures { AnswersReading (λ d. d) result (Ok (with_said draft 0 (says.Watch place))) }
{
    let mut draft = draft;
    draft.part = 6;
    match draft.watches.push(place) {
        Ok(()) => Ok(draft),
        Err(left) => {
            drop(left);
            drop(draft);
            Err(ScriptStop::NoMemory)
        }
    }
}

/// A line to be run added to what was read.
fn with_act(draft: Draft, line: u64, act: Act) -> Result<Draft, ScriptStop>
    ensures { AnswersReading (λ d. d) result (Ok (with_said draft line (says.Runs act))) }
{
    let mut draft = draft;
    draft.part = 7;
    match draft.body.push(BodyLine { line, act }) {
        Ok(()) => Ok(draft),
        Err(left) => {
            drop(left);
            drop(draft);
            Err(ScriptStop::NoMemory)
        }
    }
}

/// A table added to what was read. One without columns may not be, and none is spelled.
fn table_after(alloc: Global, draft: Draft, line: u64, text: &[u8]) -> Result<Draft, ScriptStop>
    requires { length text.now < 2 ^ 32 }
    ensures { AnswersReading (λ d. d) result
        (and_then (table_said draft.schema line text.now) (tables_with draft line)) }
{
    let mut draft = draft;
    match table_line(alloc, &mut draft.schema, line, text) {
        Ok(table) => table_added(draft, line, table),
        Err(stop) => {
            drop(draft);
            Err(stop)
        }
    }
}

/// A table that the schema has added to the tables of what was read.
fn table_added(draft: Draft, line: u64, table: TableDef) -> Result<Draft, ScriptStop>
    ensures { AnswersReading (λ d. d) result (tables_more draft line table) }
{
    if table.columns.is_empty() {
        drop(draft);
        drop(table);
        return Err(ScriptStop::Refused {
            line,
            why: WRONG_TABLE,
        });
    }
    let mut draft = draft;
    draft.part = 5;
    match draft.tables.push(TableLine { line, table }) {
        Ok(()) => Ok(draft),
        Err(left) => {
            drop(left);
            drop(draft);
            Err(ScriptStop::NoMemory)
        }
    }
}

/// The table of a line, which is added to the schema.
fn table_line(
    alloc: Global,
    schema: &mut Schema,
    line: u64,
    text: &[u8],
) -> Result<TableDef, ScriptStop>
    requires { length text.now < 2 ^ 32 }
    ensures gives { AnswersReading (λ table. table) result (table_said schema.old line text.now) }
    ensures added { IfOk result (λ table. schema.new ≡ schema.old ++ table ∷ []) }
{
    let Some(text) = as_text(text) else {
        return Err(ScriptStop::Refused {
            line,
            why: WRONG_TABLE,
        });
    };
    match read_table(alloc, text, schema) {
        Ok(table) => Ok(table),
        Err(TableStop::Unlawful) => Err(ScriptStop::Refused {
            line,
            why: WRONG_TABLE,
        }),
        Err(TableStop::Limit) => Err(ScriptStop::Refused { line, why: LIMIT }),
        Err(TableStop::NoMemory) => Err(ScriptStop::NoMemory),
    }
}

/// The script at the end of the bytes, where `line` is the number of the line after their last.
pub fn finish(alloc: Global, draft: Draft, line: u64) -> Result<Script, ScriptStop>
    ensures { AnswersReading (λ s. s) result (finished draft line) }
{
    if draft.part == 0 {
        drop(draft);
        return Err(ScriptStop::Refused {
            line,
            why: NO_NODES,
        });
    }
    let mut draft = draft;
    match named_cluster(alloc, draft.cluster.take()) {
        Ok(cluster) => Ok(script_in(draft, cluster)),
        Err(_) => {
            drop(draft);
            Err(ScriptStop::NoMemory)
        }
    }
}

/// What was read, for a cluster of this name.
fn script_in(draft: Draft, cluster: Name) -> Script
    ensures { result ≡ record {
      nodes = draft.nodes;
      cluster = cluster;
      workers = draft.workers;
      sessions = draft.sessions;
      tables = draft.tables;
      watches = draft.watches;
      body = draft.body;
    } }
{
    Script {
        nodes: draft.nodes,
        cluster,
        workers: draft.workers,
        sessions: draft.sessions,
        tables: draft.tables,
        watches: draft.watches,
        body: draft.body,
    }
}

/// The name of the cluster: `main` where no line says it.
fn named_cluster(alloc: Global, said: Option<Name>) -> Result<Name, AllocError>
    ensures { IfOk result (λ name. name ≡ cluster_name said) }
{
    match said {
        None => Name::copied(alloc, b"main"),
        Some(name) => Ok(name),
    }
}
