ghost use Rattle.std.specs.Prelude.{◌≡◌, codes};
ghost use Rattle.byte_words.specs.Answers.{Finds, Gives};
ghost use Rattle.report_read.specs.Reading.{after, level_at, bound_error_at, row_error_at, syntax_at, error_at, answer_at, outcome_at, genid_at, range_at, is_one_key, key_at, duplicate_at, row_at, told_at, reply_at};

use super::values::read_values;
use super::words::{
    take_counted, take_name, take_name_then, take_number, take_number_within, take_numbered,
    take_pair, take_word,
};
use cdb_values::{Level, Name, Reply, StatementError};
use std::alloc::{AllocError, Global};

/// A level, and what stands behind it.
#[tactic(auto, unfolding(crate::specs::Reading::level_at))]
pub fn take_level(bytes: &[u8]) -> Option<(Level, &[u8])>
    ensures { Finds (λ x. (x.0, x.1.now)) result (level_at bytes.now) }
{
    if let Some(rest) = take_word(b"snapshot", bytes) {
        return Some((Level::Snapshot, rest));
    }
    let rest = take_word(b"serializable", bytes)?;
    Some((Level::Serializable, rest))
}

/// The error of a text that is no statement, and what stands behind it.
#[tactic(auto, unfolding(crate::specs::Reading::syntax_at))]
fn take_syntax(bytes: &[u8]) -> Option<(StatementError, &[u8])>
    ensures { Finds (λ x. (x.0, x.1.now)) result (syntax_at bytes.now) }
{
    let rest = take_word(b"syntax ", bytes)?;
    let (at, rest) = take_number_within(u64::from(u32::MAX), rest)?;
    Some((StatementError::Syntax { at: at as u32 }, rest))
}

/// The error of a statement that does not fit the schema, and what stands behind it.
#[tactic(auto, unfolding(crate::specs::Reading::bound_error_at))]
fn take_bound_error(bytes: &[u8]) -> Option<(StatementError, &[u8])>
    ensures { Finds (λ x. (x.0, x.1.now)) result (bound_error_at bytes.now) }
{
    if let Some(rest) = take_word(b"table", bytes) {
        return Some((StatementError::Table, rest));
    }
    if let Some(rest) = take_word(b"column", bytes) {
        return Some((StatementError::Column, rest));
    }
    if let Some(rest) = take_word(b"ambiguous", bytes) {
        return Some((StatementError::Ambiguous, rest));
    }
    if let Some(rest) = take_word(b"type", bytes) {
        return Some((StatementError::Type_, rest));
    }
    let rest = take_word(b"count", bytes)?;
    Some((StatementError::Count, rest))
}

/// The error of a statement that cannot run, and what stands behind it.
#[tactic(auto, unfolding(crate::specs::Reading::row_error_at))]
fn take_row_error(bytes: &[u8]) -> Option<(StatementError, &[u8])>
    ensures { Finds (λ x. (x.0, x.1.now)) result (row_error_at bytes.now) }
{
    if let Some(rest) = take_word(b"overflow", bytes) {
        return Some((StatementError::Overflow, rest));
    }
    if let Some(rest) = take_word(b"notnull", bytes) {
        return Some((StatementError::NotNull, rest));
    }
    if let Some(rest) = take_word(b"toolong", bytes) {
        return Some((StatementError::TooLong, rest));
    }
    let rest = take_word(b"state", bytes)?;
    Some((StatementError::State, rest))
}

/// Why a statement was refused, and what stands behind it.
#[tactic(auto, unfolding(crate::specs::Reading::error_at))]
fn take_error(bytes: &[u8]) -> Option<(StatementError, &[u8])>
    ensures { Finds (λ x. (x.0, x.1.now)) result (error_at bytes.now) }
{
    if let Some(found) = take_syntax(bytes) {
        return Some(found);
    }
    if let Some(found) = take_bound_error(bytes) {
        return Some(found);
    }
    take_row_error(bytes)
}

/// The error behind its word, and what stands behind it.
fn take_refusal(bytes: &[u8]) -> Option<(StatementError, &[u8])>
    ensures { Finds (λ x. (x.0, x.1.now)) result (after (codes "error ") error_at bytes.now) }
{
    let rest = take_word(b"error ", bytes)?;
    take_error(rest)
}

/// The level behind its word, and what stands behind it.
fn take_chosen_level(bytes: &[u8]) -> Option<(Level, &[u8])>
    ensures { Finds (λ x. (x.0, x.1.now)) result (after (codes "level ") level_at bytes.now) }
{
    let rest = take_word(b"level ", bytes)?;
    take_level(rest)
}

/// An answer to a statement that is no row, and what stands behind it.
#[tactic(auto, unfolding(crate::specs::Reading::answer_at))]
fn take_answer(bytes: &[u8]) -> Option<(Reply, &[u8])>
    ensures { Finds (λ x. (x.0, x.1.now)) result (answer_at bytes.now) }
{
    if let Some((position, rest)) = take_numbered(b"begin ", bytes) {
        return Some((Reply::Begin(position), rest));
    }
    if let Some((rows, rest)) = take_numbered(b"done ", bytes) {
        return Some((Reply::Done(rows), rest));
    }
    if let Some((rows, rest)) = take_numbered(b"changed ", bytes) {
        return Some((Reply::Changed(rows), rest));
    }
    if let Some((cause, rest)) = take_refusal(bytes) {
        return Some((Reply::Error(cause), rest));
    }
    let (level, rest) = take_chosen_level(bytes)?;
    Some((Reply::Level(level), rest))
}

/// How a transaction ended, where no name is told, and what stands behind it.
#[tactic(auto, unfolding(crate::specs::Reading::outcome_at))]
fn take_outcome(bytes: &[u8]) -> Option<(Reply, &[u8])>
    ensures { Finds (λ x. (x.0, x.1.now)) result (outcome_at bytes.now) }
{
    if let Some((position, rest)) = take_numbered(b"committed ", bytes) {
        return Some((Reply::Committed(position), rest));
    }
    if let Some(rest) = take_word(b"rolledback", bytes) {
        return Some((Reply::RolledBack, rest));
    }
    if let Some(rest) = take_word(b"nomemory", bytes) {
        return Some((Reply::NoMemory, rest));
    }
    if let Some(((node, down), rest)) = take_pair(b"lost ", bytes) {
        return Some((Reply::Lost { node, down }, rest));
    }
    let ((up, nodes), rest) = take_pair(b"nomajority ", bytes)?;
    Some((Reply::NoMajority { up, nodes }, rest))
}

/// A conflict over a version, and what stands behind it.
#[tactic(auto, unfolding(crate::specs::Reading::genid_at))]
fn read_genid(alloc: Global, bytes: &[u8]) -> Result<Option<(Reply, &[u8])>, AllocError>
    ensures { Gives (λ x. (x.0, x.1.now)) result (genid_at bytes.now) }
{
    let Some((position, rest)) = take_counted(b"conflict ", bytes) else {
        return Ok(None);
    };
    let Some(rest) = take_word(b"genid ", rest) else {
        return Ok(None);
    };
    let Some((table, rest)) = take_name_then(rest) else {
        return Ok(None);
    };
    let Some((genid, rest)) = take_number(rest) else {
        return Ok(None);
    };
    let table = Name::copied(alloc, table)?;
    let conflict = Reply::ConflictGenid {
        position,
        table,
        genid,
    };
    Ok(Some((conflict, rest)))
}

/// A conflict over a range, and what stands behind it.
#[tactic(auto, unfolding(crate::specs::Reading::range_at))]
fn read_range(alloc: Global, bytes: &[u8]) -> Result<Option<(Reply, &[u8])>, AllocError>
    ensures { Gives (λ x. (x.0, x.1.now)) result (range_at bytes.now) }
{
    let Some((position, rest)) = take_counted(b"conflict ", bytes) else {
        return Ok(None);
    };
    let Some(rest) = take_word(b"range ", rest) else {
        return Ok(None);
    };
    let Some((table, rest)) = take_name_then(rest) else {
        return Ok(None);
    };
    let Some((key, rest)) = take_name(rest) else {
        return Ok(None);
    };
    let table = Name::copied(alloc, table)?;
    let key = Name::copied(alloc, key)?;
    let conflict = Reply::ConflictRange {
        position,
        table,
        key,
    };
    Ok(Some((conflict, rest)))
}

/// Whether a key is one of a table, and not all of it.
fn is_of_one_key(key: &[u8]) -> bool
    ensures { result ≡ is_one_key key.now }
{
    !(b"all".as_slice() == key)
}

/// The name of one key, and what stands behind it.
#[tactic(auto, unfolding(crate::specs::Reading::key_at))]
fn take_key(bytes: &[u8]) -> Option<(&[u8], &[u8])>
    ensures { Finds (λ x. (x.0.now, x.1.now)) result (key_at bytes.now) }
{
    let (key, rest) = take_name(bytes)?;
    if is_of_one_key(key) {
        Some((key, rest))
    } else {
        None
    }
}

/// A broken key, and what stands behind it.
#[tactic(auto, unfolding(crate::specs::Reading::duplicate_at))]
fn read_duplicate(alloc: Global, bytes: &[u8]) -> Result<Option<(Reply, &[u8])>, AllocError>
    ensures { Gives (λ x. (x.0, x.1.now)) result (duplicate_at bytes.now) }
{
    let Some((position, rest)) = take_counted(b"duplicate ", bytes) else {
        return Ok(None);
    };
    let Some((table, rest)) = take_name_then(rest) else {
        return Ok(None);
    };
    let Some((key, rest)) = take_key(rest) else {
        return Ok(None);
    };
    let table = Name::copied(alloc, table)?;
    let key = Name::copied(alloc, key)?;
    let duplicate = Reply::Duplicate {
        position,
        table,
        key,
    };
    Ok(Some((duplicate, rest)))
}

/// A row, and what stands behind it.
#[tactic(auto, unfolding(crate::specs::Reading::row_at))]
fn read_row(alloc: Global, bytes: &[u8]) -> Result<Option<(Reply, &[u8])>, AllocError>
    ensures { Gives (λ x. (x.0, x.1.now)) result (row_at bytes.now) }
{
    let Some(rest) = take_word(b"row ", bytes) else {
        return Ok(None);
    };
    let Some((row, rest)) = read_values(alloc, rest)? else {
        return Ok(None);
    };
    Ok(Some((Reply::Row(row), rest)))
}

/// A reply that takes memory, and what stands behind it.
#[tactic(auto, unfolding(crate::specs::Reading::told_at))]
fn read_told(alloc: Global, bytes: &[u8]) -> Result<Option<(Reply, &[u8])>, AllocError>
    ensures { Gives (λ x. (x.0, x.1.now)) result (told_at bytes.now) }
{
    if let Some(found) = read_row(alloc, bytes)? {
        return Ok(Some(found));
    }
    if let Some(found) = read_genid(alloc, bytes)? {
        return Ok(Some(found));
    }
    if let Some(found) = read_range(alloc, bytes)? {
        return Ok(Some(found));
    }
    read_duplicate(alloc, bytes)
}

/// A reply, and what stands behind it; `None` where none is. The error is want of memory.
#[tactic(auto, unfolding(crate::specs::Reading::reply_at))]
pub fn read_reply(alloc: Global, bytes: &[u8]) -> Result<Option<(Reply, &[u8])>, AllocError>
    ensures { Gives (λ x. (x.0, x.1.now)) result (reply_at bytes.now) }
{
    if let Some(found) = take_answer(bytes) {
        return Ok(Some(found));
    }
    if let Some(found) = take_outcome(bytes) {
        return Ok(Some(found));
    }
    read_told(alloc, bytes)
}
