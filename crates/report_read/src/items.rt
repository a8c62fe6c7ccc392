ghost use Rattle.std.specs.Prelude.{◌≡◌, ◌∷◌, []};
ghost use Rattle.report_text.specs.Grammar.{is_ending};
ghost use Rattle.byte_words.specs.Answers.{Finds, Gives};
ghost use Rattle.report_read.specs.Reading.{only, both, before, reply_at, number_then_at, name_then_at, is_table, session_at, cause_at, down_at, barrier_at, node_line_at, setup_at, commit_at, feed_at, mark_at, entry_at, item_at};

use super::drafts::Item;
use super::replies::{read_reply, take_level};
use super::words::{
    ended, take_counted, take_name_then, take_number, take_number_then, take_numbered_line,
    take_word,
};
use cdb_values::{Name, Reply};
use report_text::{EntryLine, FeedLine, Line};
use std::alloc::{AllocError, Global};

/// What a session was told in a transaction of that number, to the end of the line, and what stands
/// behind it.
fn read_reply_line(alloc: Global, bytes: &[u8]) -> Result<Option<((u64, Reply), &[u8])>, AllocError>
    ensures { Gives (λ x. (x.0, x.1.now)) result (both number_then_at (before reply_at (10 ∷ [])) bytes.now) }
{
    let Some((txn, rest)) = take_number_then(bytes) else {
        return Ok(None);
    };
    let Some((reply, rest)) = read_reply(alloc, rest)? else {
        return Ok(None);
    };
    Ok(ended((txn, reply), rest))
}

/// The line of a session, and what stands behind it.
#[tactic(auto, unfolding(crate::specs::Reading::session_at))]
fn read_session(alloc: Global, bytes: &[u8]) -> Result<Option<(Line, &[u8])>, AllocError>
    ensures { Gives (λ x. (x.0, x.1.now)) result (session_at bytes.now) }
{
    let Some((name, rest)) = take_name_then(bytes) else {
        return Ok(None);
    };
    let name = Name::copied(alloc, name)?;
    let Some(((txn, reply), rest)) = read_reply_line(alloc, rest)? else {
        return Ok(None);
    };
    Ok(Some((Line::Session { name, txn, reply }, rest)))
}

/// Whether a node went down by a fault, and what stands behind that word.
#[tactic(auto, unfolding(crate::specs::Reading::cause_at))]
fn take_cause(bytes: &[u8]) -> Option<(bool, &[u8])>
    ensures { Finds (λ x. (x.0, x.1.now)) result (cause_at bytes.now) }
{
    if let Some(rest) = take_word(b"fault", bytes) {
        return Some((true, rest));
    }
    let rest = take_word(b"stop", bytes)?;
    Some((false, rest))
}

/// The line of a node that went down, and what stands behind it.
#[tactic(auto, unfolding(crate::specs::Reading::down_at))]
fn take_down(bytes: &[u8]) -> Option<(Line, &[u8])>
    ensures { Finds (λ x. (x.0, x.1.now)) result (down_at bytes.now) }
{
    let (count, rest) = take_counted(b"down ", bytes)?;
    let (node, rest) = take_number_then(rest)?;
    let (fault, rest) = take_cause(rest)?;
    ended(Line::Down { count, node, fault }, rest)
}

/// The line `barrier`, and what stands behind it.
#[tactic(auto, unfolding(crate::specs::Reading::barrier_at))]
fn take_barrier(bytes: &[u8]) -> Option<&[u8]>
    ensures { Finds (λ x. (Line.Barrier, x.now)) result (barrier_at bytes.now) }
{
    let rest = take_word(b"barrier", bytes)?;
    take_word(b"\n", rest)
}

/// An event that is no session's, and what stands behind it.
#[tactic(auto, unfolding(crate::specs::Reading::node_line_at))]
fn take_node_line(bytes: &[u8]) -> Option<(Line, &[u8])>
    ensures { Finds (λ x. (x.0, x.1.now)) result (node_line_at bytes.now) }
{
    if let Some(found) = take_down(bytes) {
        return Some(found);
    }
    if let Some((node, rest)) = take_numbered_line(b"up ", bytes) {
        return Some((Line::Up { node }, rest));
    }
    if let Some(rest) = take_barrier(bytes) {
        return Some((Line::Barrier, rest));
    }
    let (position, rest) = take_numbered_line(b"fed ", bytes)?;
    Some((Line::Fed { position }, rest))
}

/// The entry of the schema, and what stands behind it.
#[tactic(auto, unfolding(crate::specs::Reading::setup_at))]
fn take_setup(bytes: &[u8]) -> Option<(EntryLine, &[u8])>
    ensures { Finds (λ x. (x.0, x.1.now)) result (setup_at bytes.now) }
{
    let (position, rest) = take_counted(b"entry ", bytes)?;
    let rest = take_word(b"schema", rest)?;
    ended(EntryLine::Setup { position }, rest)
}

/// The entry of a transaction, and what stands behind it.
#[tactic(auto, unfolding(crate::specs::Reading::commit_at))]
fn read_commit(alloc: Global, bytes: &[u8]) -> Result<Option<(EntryLine, &[u8])>, AllocError>
    ensures { Gives (λ x. (x.0, x.1.now)) result (commit_at bytes.now) }
{
    let Some((position, rest)) = take_counted(b"entry ", bytes) else {
        return Ok(None);
    };
    let Some((session, rest)) = take_name_then(rest) else {
        return Ok(None);
    };
    let Some((txn, rest)) = take_number_then(rest) else {
        return Ok(None);
    };
    let Some((begin, rest)) = take_number_then(rest) else {
        return Ok(None);
    };
    let Some((level, rest)) = take_level(rest) else {
        return Ok(None);
    };
    let session = Name::copied(alloc, session)?;
    let commit = EntryLine::Commit {
        position,
        session,
        txn,
        begin,
        level,
    };
    Ok(ended(commit, rest))
}

/// An entry, and what stands behind it.
#[tactic(auto, unfolding(crate::specs::Reading::entry_at))]
fn read_entry(alloc: Global, bytes: &[u8]) -> Result<Option<(EntryLine, &[u8])>, AllocError>
    ensures { Gives (λ x. (x.0, x.1.now)) result (entry_at bytes.now) }
{
    if let Some(found) = take_setup(bytes) {
        return Ok(Some(found));
    }
    read_commit(alloc, bytes)
}

/// Whether two numbers behind this word say how a transaction of a session named `feed` ended.
fn is_of_an_ending(word: &[u8]) -> bool
    ensures { result ≡ is_ending word.now }
{
    b"lost".as_slice() == word || b"nomajority".as_slice() == word || b"tooold".as_slice() == word
}

/// The name of a feed's table and a space, and what stands behind it.
fn take_table(bytes: &[u8]) -> Option<(&[u8], &[u8])>
    ensures { Finds (λ x. (x.0.now, x.1.now)) result (only is_table name_then_at bytes.now) }
{
    let (table, rest) = take_name_then(bytes)?;
    if is_of_an_ending(table) {
        None
    } else {
        Some((table, rest))
    }
}

/// A feed, and what stands behind it.
#[tactic(auto, unfolding(crate::specs::Reading::feed_at))]
fn read_feed(alloc: Global, bytes: &[u8]) -> Result<Option<(FeedLine, &[u8])>, AllocError>
    ensures { Gives (λ x. (x.0, x.1.now)) result (feed_at bytes.now) }
{
    let Some((place, rest)) = take_counted(b"feed ", bytes) else {
        return Ok(None);
    };
    let Some((table, rest)) = take_table(rest) else {
        return Ok(None);
    };
    let Some((taken, rest)) = take_number_then(rest) else {
        return Ok(None);
    };
    let Some((dropped, rest)) = take_number(rest) else {
        return Ok(None);
    };
    let table = Name::copied(alloc, table)?;
    let feed = FeedLine {
        place,
        table,
        taken,
        dropped,
    };
    Ok(ended(feed, rest))
}

/// The base, the end or an event that is no session's, and what stands behind it.
#[tactic(auto, unfolding(crate::specs::Reading::mark_at))]
fn take_mark(bytes: &[u8]) -> Option<(Item, &[u8])>
    ensures { Finds (λ x. (x.0, x.1.now)) result (mark_at bytes.now) }
{
    if let Some((position, rest)) = take_numbered_line(b"base ", bytes) {
        return Some((Item::Base(position), rest));
    }
    if let Some((position, rest)) = take_numbered_line(b"end ", bytes) {
        return Some((Item::End(position), rest));
    }
    let (line, rest) = take_node_line(bytes)?;
    Some((Item::Event(line), rest))
}

/// What the first line says, and what stands behind it; `None` where it is no line of a report. The
/// error is want of memory.
#[tactic(auto, unfolding(crate::specs::Reading::item_at))]
pub fn read_item(alloc: Global, bytes: &[u8]) -> Result<Option<(Item, &[u8])>, AllocError>
    ensures { Gives (λ x. (x.0, x.1.now)) result (item_at bytes.now) }
{
    if let Some(found) = take_mark(bytes) {
        return Ok(Some(found));
    }
    if let Some((entry, rest)) = read_entry(alloc, bytes)? {
        return Ok(Some((Item::Entry(entry), rest)));
    }
    if let Some((feed, rest)) = read_feed(alloc, bytes)? {
        return Ok(Some((Item::Feed(feed), rest)));
    }
    let Some((line, rest)) = read_session(alloc, bytes)? else {
        return Ok(None);
    };
    Ok(Some((Item::Event(line), rest)))
}
