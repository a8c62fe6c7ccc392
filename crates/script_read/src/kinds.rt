ghost use Rattle.std.specs.Prelude.{◌≡◌, map, codes, bytes_eq};
ghost use Rattle.std.specs.Char.{to_ascii_lowercase};
ghost use Rattle.script_read.specs.Kinds.{head_keyword, keyword_of, begins_with, is_create, kind_of_keyword, kind_of, keyword_part, part_of, may_come};

use byte_words::{WordByte, next_piece, split_while};

/// The words that begin lines of a script, but for `create`.
#[derive(Clone, Copy)]
pub enum Keyword {
    Nodes,
    Cluster,
    Workers,
    Session,
    Watch,
    Stop,
    Start,
    Arm,
    Barrier,
    Feed,
}

/// What kind of line a text is.
#[derive(Clone, Copy)]
pub enum LineKind {
    /// A line that this keyword begins.
    Told(Keyword),
    /// A table.
    Create,
    /// A line of a session.
    Say,
}

/// What kind of line a text is; `None` where it is no line of the grammar.
pub fn line_kind(text: &[u8]) -> Option<LineKind>
    ensures { result ≡ kind_of text.now }
{
    let (word, after) = split_while::<WordByte>(text);
    if begins_with_byte(b':', after) {
        Some(LineKind::Say)
    } else if is_create_word(word) {
        Some(LineKind::Create)
    } else {
        keyword_kind(piece_keyword(next_piece(text).0))
    }
}

/// The part of a script in which lines of a kind stand, from 1.
pub fn line_part(kind: LineKind) -> u8
    ensures { result ≡ part_of kind }
{
    match kind {
        LineKind::Told(Keyword::Nodes) => 1,
        LineKind::Told(Keyword::Cluster) => 2,
        LineKind::Told(Keyword::Workers) => 3,
        LineKind::Told(Keyword::Session) => 4,
        LineKind::Create => 5,
        LineKind::Told(Keyword::Watch) => 6,
        LineKind::Told(Keyword::Stop) => 7,
        LineKind::Told(Keyword::Start) => 7,
        LineKind::Told(Keyword::Arm) => 7,
        LineKind::Told(Keyword::Barrier) => 7,
        LineKind::Told(Keyword::Feed) => 7,
        LineKind::Say => 7,
    }
}

/// Whether a line of a part may come where the line before it stands in another one, 0 where there
/// is none.
pub fn may_follow(before: u8, part: u8) -> bool
    ensures { result ≡ may_come before part }
{
    if before == 0 {
        part == 1
    } else {
        before < part || before == part && 4 <= part
    }
}

/// Whether that byte stands first.
fn begins_with_byte(sign: u8, bytes: &[u8]) -> bool
    ensures { result ≡ begins_with sign bytes.now }
{
    match bytes.split_first() {
        None => false,
        Some((first, _)) => *first == sign,
    }
}

/// Whether a word is `create` in any case.
fn is_create_word(word: &[u8]) -> bool
    ensures { result ≡ is_create word.now }
{
    word.eq_ignore_ascii_case(b"create")
}

/// The kind of a line that begins with this keyword, if it begins with one.
fn keyword_kind(found: Option<Keyword>) -> Option<LineKind>
    ensures { result ≡ kind_of_keyword found }
{
    match found {
        None => None,
        Some(keyword) => Some(LineKind::Told(keyword)),
    }
}

/// The keyword that a piece is.
fn piece_keyword(found: &[u8]) -> Option<Keyword>
    ensures { result ≡ keyword_of found.now }
{
    if found == b"stop".as_slice() {
        Some(Keyword::Stop)
    } else if found == b"start".as_slice() {
        Some(Keyword::Start)
    } else if found == b"arm".as_slice() {
        Some(Keyword::Arm)
    } else if found == b"barrier".as_slice() {
        Some(Keyword::Barrier)
    } else if found == b"feed".as_slice() {
        Some(Keyword::Feed)
    } else {
        keyword_of_head(found)
    }
}

/// The keyword of a line of the head that a piece is.
fn keyword_of_head(found: &[u8]) -> Option<Keyword>
    ensures { result ≡ head_keyword found.now }
{
    if found == b"nodes".as_slice() {
        Some(Keyword::Nodes)
    } else if found == b"cluster".as_slice() {
        Some(Keyword::Cluster)
    } else if found == b"workers".as_slice() {
        Some(Keyword::Workers)
    } else if found == b"session".as_slice() {
        Some(Keyword::Session)
    } else if found == b"watch".as_slice() {
        Some(Keyword::Watch)
    } else {
        None
    }
}
