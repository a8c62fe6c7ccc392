//! What a token is: the keywords, the signs and the tokens.
use byte_lists::Bytes;

/// A reserved word. No name is spelled so, in either case of its letters.
#[derive(Clone, Copy, Debug, PartialEq, Eq)]
pub enum Keyword {
    All,
    And,
    As,
    Asc,
    Begin,
    Blob,
    By,
    Commit,
    Count,
    Create,
    Delete,
    Desc,
    From,
    Group,
    Insert,
    Int,
    Integer,
    Into,
    Is,
    Key,
    Limit,
    Lost,
    Max,
    Min,
    NoMajority,
    Not,
    Null,
    Or,
    Order,
    Pk,
    Primary,
    Rollback,
    Select,
    Selectv,
    Serializable,
    Set,
    Snapshot,
    Sum,
    Table,
    Text,
    TooOld,
    Transaction,
    Unique,
    Update,
    Values,
    Where,
}

/// A sign. `<>` and `!=` are one sign, `NotEqual`.
#[derive(Clone, Copy, Debug, PartialEq, Eq)]
pub enum Sign {
    Open,
    Close,
    Comma,
    Dot,
    Semicolon,
    Star,
    Equal,
    NotEqual,
    Less,
    LessEqual,
    Greater,
    GreaterEqual,
    Plus,
    Minus,
}

/// A token.
#[derive(Clone, Debug, Drop)]
pub enum Token {
    /// A reserved word.
    Keyword(Keyword),
    /// A word that is not reserved, its letters folded to lower case: at least one byte, of any length.
    Name(Bytes),
    /// A whole number, at most 9223372036854775808.
    Number(u64),
    /// What stands between the quotes of a text, each doubled quote as one.
    Text(Bytes),
    /// The bytes that the hexadecimal digits of a blob spell.
    Blob(Bytes),
    /// A sign.
    Sign(Sign),
    /// Here no token begins. It ends the list of tokens.
    Unknown,
}
