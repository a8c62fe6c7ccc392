//! Words: how far one goes, and which keyword or name it is.
ghost use Rattle.std.specs.Prelude.{◌≡◌, IfOk, length, ◌≤◌};
ghost use Rattle.std.specs.List.{prefix_len};
ghost use Rattle.sql_tokens.specs.Letters.{is_word_byte, is_word_start};
ghost use Rattle.sql_tokens.specs.Words.{folded, spelling};
ghost use Rattle.sql_tokens.specs.Reading.{keyword_of, word_found};

use crate::found::Found;
use crate::kinds::{Keyword, Token};
use byte_lists::Bytes;
use std::alloc::{AllocError, Global};

const KEYWORDS: [Keyword; 46] = [
    Keyword::All,
    Keyword::And,
    Keyword::As,
    Keyword::Asc,
    Keyword::Begin,
    Keyword::Blob,
    Keyword::By,
    Keyword::Commit,
    Keyword::Count,
    Keyword::Create,
    Keyword::Delete,
    Keyword::Desc,
    Keyword::From,
    Keyword::Group,
    Keyword::Insert,
    Keyword::Int,
    Keyword::Integer,
    Keyword::Into,
    Keyword::Is,
    Keyword::Key,
    Keyword::Limit,
    Keyword::Lost,
    Keyword::Max,
    Keyword::Min,
    Keyword::NoMajority,
    Keyword::Not,
    Keyword::Null,
    Keyword::Or,
    Keyword::Order,
    Keyword::Pk,
    Keyword::Primary,
    Keyword::Rollback,
    Keyword::Select,
    Keyword::Selectv,
    Keyword::Serializable,
    Keyword::Set,
    Keyword::Snapshot,
    Keyword::Sum,
    Keyword::Table,
    Keyword::Text,
    Keyword::TooOld,
    Keyword::Transaction,
    Keyword::Unique,
    Keyword::Update,
    Keyword::Values,
    Keyword::Where,
];

/// Whether a word may begin with this byte.
pub(crate) fn is_word_start(byte: u8) -> bool
    ensures { result ≡ is_word_start byte }
{
    byte.is_ascii_alphabetic() || byte == b'_'
}

/// Whether a byte may stand in a word.
fn is_word_byte(byte: u8) -> bool
    ensures { result ≡ is_word_byte byte }
{
    is_word_start(byte) || byte.is_ascii_digit()
}

/// How a keyword is written, in lower case.
fn spelling(keyword: Keyword) -> &'static [u8]
    ensures { result.now ≡ spelling keyword }
{
    match keyword {
        Keyword::All => b"all",
        Keyword::And => b"and",
        Keyword::As => b"as",
        Keyword::Asc => b"asc",
        Keyword::Begin => b"begin",
        Keyword::Blob => b"blob",
        Keyword::By => b"by",
        Keyword::Commit => b"commit",
        Keyword::Count => b"count",
        Keyword::Create => b"create",
        Keyword::Delete => b"delete",
        Keyword::Desc => b"desc",
        Keyword::From => b"from",
        Keyword::Group => b"group",
        Keyword::Insert => b"insert",
        Keyword::Int => b"int",
        Keyword::Integer => b"integer",
        Keyword::Into => b"into",
        Keyword::Is => b"is",
        Keyword::Key => b"key",
        Keyword::Limit => b"limit",
        Keyword::Lost => b"lost",
        Keyword::Max => b"max",
        Keyword::Min => b"min",
        Keyword::NoMajority => b"nomajority",
        Keyword::Not => b"not",
        Keyword::Null => b"null",
        Keyword::Or => b"or",
        Keyword::Order => b"order",
        Keyword::Pk => b"pk",
        Keyword::Primary => b"primary",
        Keyword::Rollback => b"rollback",
        Keyword::Select => b"select",
        Keyword::Selectv => b"selectv",
        Keyword::Serializable => b"serializable",
        Keyword::Set => b"set",
        Keyword::Snapshot => b"snapshot",
        Keyword::Sum => b"sum",
        Keyword::Table => b"table",
        Keyword::Text => b"text",
        Keyword::TooOld => b"tooold",
        Keyword::Transaction => b"transaction",
        Keyword::Unique => b"unique",
        Keyword::Update => b"update",
        Keyword::Values => b"values",
        Keyword::Where => b"where",
    }
}

/// The keyword that a word in lower case is.
#[tactic(auto, unfolding(crate::specs::Reading::keyword_of))]
fn keyword(word: &[u8]) -> Option<Keyword>
    ensures { result ≡ keyword_of word.now }
{
    KEYWORDS.iter().copied().find(|k| spelling(*k) == word)
}

/// How many bytes of a word stand at the front.
fn word_len(bytes: &[u8]) -> usize
    ensures { result ≡ prefix_len is_word_byte bytes.now }
{
    bytes.iter().take_while(|b| is_word_byte(**b)).count()
}

/// A word in lower case.
fn folded(alloc: Global, word: &[u8]) -> Result<Vec<u8>, AllocError>
    ensures { IfOk result (λ v. v.items ≡ folded word.now) }
{
    word.iter().map(|b| b.to_ascii_lowercase()).collect(alloc)
}

/// The word at the front: a keyword, a name, or nothing known.
#[tactic(auto, unfolding(crate::specs::Reading::word_found))]
pub(crate) fn word(alloc: Global, bytes: &[u8]) -> Result<Found, AllocError>
    ensures { IfOk result (λ f. f ≡ word_found bytes.now) }
{
    let size = word_len(bytes);
    let word = folded(alloc, &bytes[..size])?;
    let token = match keyword(&word) {
        Some(keyword) => Token::Keyword(keyword),
        None => Token::Name(Bytes::from_vec(word)),
    };
    Ok(Found { token, size })
}
