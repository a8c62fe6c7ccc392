ghost use Rattle.std.specs.Prelude.{◌≡◌, ◌+◌, ◌++◌, ◌∷◌, ◌/◌, ◌%◌, ◌<◌, [], OnOk, IfOk, IfSome, codes};
ghost use Rattle.std.specs.Fmt.{decimal, signed_decimal};
ghost use Rattle.std.specs.List.{AllByRecursion};
ghost use Rattle.report_text.specs.Grammar.{IsNumber, IsError};
ghost use Rattle.report_text.specs.Text.{value_text, values_text, more_values, quoted, hexadecimal, hex_digit, level_text, error_text, reply_text, number_then, cause_text, words_of, entry_words, feed_words, ended, base_text, end_text, lines_text, entries_text, feeds_text, report_text};
ghost use Rattle.report_text.specs.Types.{FitsValue, FitsReply, FitsLine, FitsEntry, FitsFeed, FitsTypes};

use super::reports::{EntryLine, FeedLine, Line, Report};
use cdb_values::{Bytes, Level, Name, Reply, StatementError, Value};
use std::alloc::{AllocError, Global};

/// The text of a report, its one spelling.
#[tactic(auto, unfolding(crate::specs::Text::report_text))]
pub fn print(alloc: Global, report: &Report) -> Result<Bytes, AllocError>
    // The bytes are the report's text.
    ensures text { IfOk result (λ text. text ≡ report_text report.now) }
    // Each number of the report is one of its type.
    ensures fits { IfOk result (λ _. FitsTypes report.now) }
{
    let mut out = Vec::new(alloc);
    put_lines(alloc, &mut out, report.lines.as_slice())?;
    put_base(alloc, &mut out, report.base)?;
    put_entries(alloc, &mut out, report.entries.as_slice())?;
    put_feeds(alloc, &mut out, report.feeds.as_slice())?;
    put_end(alloc, &mut out, report.end)?;
    Ok(Bytes::from_vec(out))
}

/// Each line, ended.
fn put_lines(alloc: Global, out: &mut Vec<u8>, lines: &[Line]) -> Result<(), AllocError>
    ensures text { OnOk result (out.new.items ≡ out.old.items ++ lines_text lines.now) }
    ensures fits { OnOk result (AllByRecursion FitsLine lines.now) }
{
    let mut rest = lines;
    'lines: while let Some((line, after)) = rest.split_first() {
        put_words(alloc, out, line)?;
        put_bytes(out, b"\n")?;
        rest = after;
    }
    Ok(())
}

/// A line without its end.
fn put_words(alloc: Global, out: &mut Vec<u8>, line: &Line) -> Result<(), AllocError>
    ensures text { OnOk result (out.new.items ≡ out.old.items ++ words_of line.now) }
    ensures fits { OnOk result (FitsLine line.now) }
{
    match line {
        Line::Session { name, txn, reply } => {
            put_name(out, name)?;
            put_number(alloc, out, *txn)?;
            put_reply(alloc, out, reply)
        }
        Line::Down { count, node, fault } => {
            put_bytes(out, b"down ")?;
            put_number(alloc, out, *count)?;
            put_number(alloc, out, *node)?;
            put_cause(out, *fault)
        }
        Line::Up { node } => put_numbered(alloc, out, b"up ", *node),
        Line::Barrier => put_bytes(out, b"barrier"),
        Line::Fed { position } => put_numbered(alloc, out, b"fed ", *position),
    }
}

/// The cause for which a node went down.
fn put_cause(out: &mut Vec<u8>, fault: bool) -> Result<(), AllocError>
    ensures { OnOk result (out.new.items ≡ out.old.items ++ cause_text fault) }
{
    if fault {
        put_bytes(out, b"fault")
    } else {
        put_bytes(out, b"stop")
    }
}

/// What a session was answered.
fn put_reply(alloc: Global, out: &mut Vec<u8>, reply: &Reply) -> Result<(), AllocError>
    ensures text { OnOk result (out.new.items ≡ out.old.items ++ reply_text reply.now) }
    ensures fits { OnOk result (FitsReply reply.now) }
{
    match reply {
        Reply::Begin(position) => put_numbered(alloc, out, b"begin ", *position),
        Reply::Row(row) => put_row(alloc, out, row.as_slice()),
        Reply::Done(rows) => put_numbered(alloc, out, b"done ", *rows),
        Reply::Changed(rows) => put_numbered(alloc, out, b"changed ", *rows),
        Reply::Error(cause) => put_error(alloc, out, *cause),
        Reply::Level(level) => put_level_line(out, *level),
        Reply::RolledBack => put_bytes(out, b"rolledback"),
        Reply::Committed(position) => put_numbered(alloc, out, b"committed ", *position),
        Reply::ConflictGenid {
            position,
            table,
            genid,
        } => put_genid(alloc, out, *position, table, *genid),
        Reply::ConflictRange {
            position,
            table,
            key,
        } => put_range(alloc, out, *position, table, key),
        Reply::Duplicate {
            position,
            table,
            key,
        } => put_duplicate(alloc, out, *position, table, key),
        Reply::Lost { node, down } => put_pair(alloc, out, b"lost ", *node, *down),
        Reply::NoMajority { up, nodes } => put_pair(alloc, out, b"nomajority ", *up, *nodes),
        Reply::NoMemory => put_bytes(out, b"nomemory"),
    }
}

/// A reply row.
fn put_row(alloc: Global, out: &mut Vec<u8>, row: &[Value]) -> Result<(), AllocError>
    ensures text { OnOk result (out.new.items ≡ out.old.items ++ (codes "row " ++ values_text row.now)) }
    ensures fits { OnOk result (AllByRecursion FitsValue row.now) }
{
    put_bytes(out, b"row ")?;
    put_values(alloc, out, row)
}

/// The values of a row, with bars between them.
fn put_values(alloc: Global, out: &mut Vec<u8>, row: &[Value]) -> Result<(), AllocError>
    ensures text { OnOk result (out.new.items ≡ out.old.items ++ values_text row.now) }
    ensures fits { OnOk result (AllByRecursion FitsValue row.now) }
{
    match row.split_first() {
        None => Ok(()),
        Some((first, more)) => {
            put_value(alloc, out, first)?;
            put_more_values(alloc, out, more)
        }
    }
}

/// Each further value of a row, after a bar.
fn put_more_values(alloc: Global, out: &mut Vec<u8>, values: &[Value]) -> Result<(), AllocError>
    ensures text { OnOk result (out.new.items ≡ out.old.items ++ more_values values.now) }
    ensures fits { OnOk result (AllByRecursion FitsValue values.now) }
{
    let mut rest = values;
    'values: while let Some((value, after)) = rest.split_first() {
        put_bytes(out, b"|")?;
        put_value(alloc, out, value)?;
        rest = after;
    }
    Ok(())
}

/// A value.
fn put_value(alloc: Global, out: &mut Vec<u8>, value: &Value) -> Result<(), AllocError>
    ensures text { OnOk result (out.new.items ≡ out.old.items ++ value_text value.now) }
    ensures fits { OnOk result (FitsValue value.now) }
{
    match value {
        Value::Null => put_bytes(out, b"null"),
        Value::Int(n) => put_integer(alloc, out, *n),
        Value::Text(text) => {
            put_bytes(out, b"'")?;
            put_quoted(out, text.as_bytes())
        }
        Value::Blob(blob) => {
            put_bytes(out, b"x'")?;
            put_hexadecimal(out, blob.as_bytes())
        }
    }
}

/// An integer.
fn put_integer(alloc: Global, out: &mut Vec<u8>, n: i64) -> Result<(), AllocError>
    ensures text { OnOk result (out.new.items ≡ out.old.items ++ value_text (Value.Int n)) }
    ensures fits { OnOk result (FitsValue (Value.Int n)) }
{
    let text = n.to_string(alloc)?;
    put_bytes(out, text.as_bytes())
}

/// A text with each quote twice, and the closing quote.
fn put_quoted(out: &mut Vec<u8>, text: &[u8]) -> Result<(), AllocError>
    ensures { OnOk result (out.new.items ≡ out.old.items ++ quoted text.now) }
{
    let mut rest = text;
    'bytes: while let Some((byte, after)) = rest.split_first() {
        if *byte == b'\'' {
            put_bytes(out, b"''")?;
        } else {
            out.push(*byte)?;
        }
        rest = after;
    }
    put_bytes(out, b"'")
}

/// A digit of sixteen, in lower case.
fn hex(n: u8) -> u8
    requires { n < 16 }
    ensures { result ≡ hex_digit n }
{
    if n < 10 { 48 + n } else { 87 + n }
}

/// Two digits for each byte, and the closing quote.
fn put_hexadecimal(out: &mut Vec<u8>, blob: &[u8]) -> Result<(), AllocError>
    ensures { OnOk result (out.new.items ≡ out.old.items ++ hexadecimal blob.now) }
{
    let mut rest = blob;
    'bytes: while let Some((byte, after)) = rest.split_first() {
        out.push(hex(*byte / 16))?;
        out.push(hex(*byte % 16))?;
        rest = after;
    }
    put_bytes(out, b"'")
}

/// The level of a session's later transactions.
fn put_level_line(out: &mut Vec<u8>, level: Level) -> Result<(), AllocError>
    ensures { OnOk result (out.new.items ≡ out.old.items ++ (codes "level " ++ level_text level)) }
{
    put_bytes(out, b"level ")?;
    put_level(out, level)
}

/// A level.
fn put_level(out: &mut Vec<u8>, level: Level) -> Result<(), AllocError>
    ensures { OnOk result (out.new.items ≡ out.old.items ++ level_text level) }
{
    match level {
        Level::Snapshot => put_bytes(out, b"snapshot"),
        Level::Serializable => put_bytes(out, b"serializable"),
    }
}

/// A statement's error.
fn put_error(alloc: Global, out: &mut Vec<u8>, cause: StatementError) -> Result<(), AllocError>
    ensures text { OnOk result (out.new.items ≡ out.old.items ++ (codes "error " ++ error_text cause)) }
    ensures fits { OnOk result (IsError cause) }
{
    put_bytes(out, b"error ")?;
    put_cause_of_error(alloc, out, cause)
}

/// Why a statement was refused.
fn put_cause_of_error(
    alloc: Global,
    out: &mut Vec<u8>,
    cause: StatementError,
) -> Result<(), AllocError>
    ensures text { OnOk result (out.new.items ≡ out.old.items ++ error_text cause) }
    ensures fits { OnOk result (IsError cause) }
{
    match cause {
        StatementError::Syntax { at } => put_numbered(alloc, out, b"syntax ", u64::from(at)),
        StatementError::Table => put_bytes(out, b"table"),
        StatementError::Column => put_bytes(out, b"column"),
        StatementError::Ambiguous => put_bytes(out, b"ambiguous"),
        StatementError::Type_ => put_bytes(out, b"type"),
        StatementError::Count => put_bytes(out, b"count"),
        StatementError::Overflow => put_bytes(out, b"overflow"),
        StatementError::NotNull => put_bytes(out, b"notnull"),
        StatementError::TooLong => put_bytes(out, b"toolong"),
        StatementError::State => put_bytes(out, b"state"),
    }
}

/// A conflict over a version.
fn put_genid(
    alloc: Global,
    out: &mut Vec<u8>,
    position: u64,
    table: &Name,
    genid: u64,
) -> Result<(), AllocError>
    ensures text { OnOk result (out.new.items ≡ out.old.items ++ reply_text (Reply.ConflictGenid position table.now genid)) }
    ensures fits { OnOk result (IsNumber position × IsNumber genid) }
{
    put_bytes(out, b"conflict ")?;
    put_number(alloc, out, position)?;
    put_bytes(out, b"genid ")?;
    put_name(out, table)?;
    put_digits(alloc, out, genid)
}

/// A conflict over a range.
fn put_range(
    alloc: Global,
    out: &mut Vec<u8>,
    position: u64,
    table: &Name,
    key: &Name,
) -> Result<(), AllocError>
    ensures text { OnOk result (out.new.items ≡ out.old.items ++ reply_text (Reply.ConflictRange position table.now key.now)) }
    ensures fits { OnOk result (IsNumber position) }
{
    put_bytes(out, b"conflict ")?;
    put_number(alloc, out, position)?;
    put_bytes(out, b"range ")?;
    put_name(out, table)?;
    put_bytes(out, key.as_bytes())
}

/// A broken key.
fn put_duplicate(
    alloc: Global,
    out: &mut Vec<u8>,
    position: u64,
    table: &Name,
    key: &Name,
) -> Result<(), AllocError>
    ensures text { OnOk result (out.new.items ≡ out.old.items ++ reply_text (Reply.Duplicate position table.now key.now)) }
    ensures fits { OnOk result (IsNumber position) }
{
    put_bytes(out, b"duplicate ")?;
    put_number(alloc, out, position)?;
    put_name(out, table)?;
    put_bytes(out, key.as_bytes())
}

/// A word and two numbers.
fn put_pair(
    alloc: Global,
    out: &mut Vec<u8>,
    word: &[u8],
    first: u64,
    second: u64,
) -> Result<(), AllocError>
    ensures text { OnOk result (out.new.items ≡ out.old.items ++ (word.now ++ number_then first (decimal second))) }
    ensures fits { OnOk result (IsNumber first × IsNumber second) }
{
    put_bytes(out, word)?;
    put_number(alloc, out, first)?;
    put_digits(alloc, out, second)
}

/// A word and a number.
fn put_numbered(alloc: Global, out: &mut Vec<u8>, word: &[u8], n: u64) -> Result<(), AllocError>
    ensures text { OnOk result (out.new.items ≡ out.old.items ++ (word.now ++ decimal n)) }
    ensures fits { OnOk result (IsNumber n) }
{
    put_bytes(out, word)?;
    put_digits(alloc, out, n)
}

/// A number and a space.
fn put_number(alloc: Global, out: &mut Vec<u8>, n: u64) -> Result<(), AllocError>
    ensures text { OnOk result (out.new.items ≡ out.old.items ++ (decimal n ++ 32 ∷ [])) }
    ensures fits { OnOk result (IsNumber n) }
{
    put_digits(alloc, out, n)?;
    put_bytes(out, b" ")
}

/// A number.
fn put_digits(alloc: Global, out: &mut Vec<u8>, n: u64) -> Result<(), AllocError>
    ensures text { OnOk result (out.new.items ≡ out.old.items ++ decimal n) }
    ensures fits { OnOk result (IsNumber n) }
{
    let text = n.to_string(alloc)?;
    put_bytes(out, text.as_bytes())
}

/// A name and a space.
fn put_name(out: &mut Vec<u8>, name: &Name) -> Result<(), AllocError>
    ensures { OnOk result (out.new.items ≡ out.old.items ++ (name.now ++ 32 ∷ [])) }
{
    put_bytes(out, name.as_bytes())?;
    put_bytes(out, b" ")
}

/// Bytes as they are.
fn put_bytes(out: &mut Vec<u8>, bytes: &[u8]) -> Result<(), AllocError>
    ensures { OnOk result (out.new.items ≡ out.old.items ++ bytes.now) }
{
    out.extend_from_slice(bytes)
}

/// The base, where there is one.
fn put_base(alloc: Global, out: &mut Vec<u8>, base: Option<u64>) -> Result<(), AllocError>
    ensures text { OnOk result (out.new.items ≡ out.old.items ++ base_text base) }
    ensures fits { OnOk result (IfSome base IsNumber) }
{
    match base {
        None => Ok(()),
        Some(position) => {
            put_numbered(alloc, out, b"base ", position)?;
            put_bytes(out, b"\n")
        }
    }
}

/// Each entry, ended.
fn put_entries(alloc: Global, out: &mut Vec<u8>, entries: &[EntryLine]) -> Result<(), AllocError>
    ensures text { OnOk result (out.new.items ≡ out.old.items ++ entries_text entries.now) }
    ensures fits { OnOk result (AllByRecursion FitsEntry entries.now) }
{
    let mut rest = entries;
    'entries: while let Some((entry, after)) = rest.split_first() {
        put_entry(alloc, out, entry)?;
        put_bytes(out, b"\n")?;
        rest = after;
    }
    Ok(())
}

/// An entry without its end.
fn put_entry(alloc: Global, out: &mut Vec<u8>, entry: &EntryLine) -> Result<(), AllocError>
    ensures text { OnOk result (out.new.items ≡ out.old.items ++ entry_words entry.now) }
    ensures fits { OnOk result (FitsEntry entry.now) }
{
    put_bytes(out, b"entry ")?;
    match entry {
        EntryLine::Setup { position } => {
            put_number(alloc, out, *position)?;
            put_bytes(out, b"schema")
        }
        EntryLine::Commit {
            position,
            session,
            txn,
            begin,
            level,
        } => {
            put_number(alloc, out, *position)?;
            put_name(out, session)?;
            put_number(alloc, out, *txn)?;
            put_number(alloc, out, *begin)?;
            put_level(out, *level)
        }
    }
}

/// Each feed, ended.
fn put_feeds(alloc: Global, out: &mut Vec<u8>, feeds: &[FeedLine]) -> Result<(), AllocError>
    ensures text { OnOk result (out.new.items ≡ out.old.items ++ feeds_text feeds.now) }
    ensures fits { OnOk result (AllByRecursion FitsFeed feeds.now) }
{
    let mut rest = feeds;
    'feeds: while let Some((feed, after)) = rest.split_first() {
        put_feed(alloc, out, feed)?;
        put_bytes(out, b"\n")?;
        rest = after;
    }
    Ok(())
}

/// A feed without its end.
fn put_feed(alloc: Global, out: &mut Vec<u8>, feed: &FeedLine) -> Result<(), AllocError>
    ensures text { OnOk result (out.new.items ≡ out.old.items ++ feed_words feed.now) }
    ensures fits { OnOk result (FitsFeed feed.now) }
{
    put_bytes(out, b"feed ")?;
    put_number(alloc, out, feed.place)?;
    put_name(out, &feed.table)?;
    put_number(alloc, out, feed.taken)?;
    put_digits(alloc, out, feed.dropped)
}

/// The length of the history.
fn put_end(alloc: Global, out: &mut Vec<u8>, position: u64) -> Result<(), AllocError>
    ensures text { OnOk result (out.new.items ≡ out.old.items ++ end_text position) }
    ensures fits { OnOk result (IsNumber position) }
{
    put_numbered(alloc, out, b"end ", position)?;
    put_bytes(out, b"\n")
}
