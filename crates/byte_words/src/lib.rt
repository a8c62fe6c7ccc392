//! Lines, pieces, names and numbers: what the readers of scripts, statements and reports are made of.
//!
//! Bytes are split into lines at LF. Of a line one CR at its end is dropped, and then the blanks
//! (space and tab) at both ends: what is left is its text. A text is read from its front, behind any
//! blanks there: a piece is bytes without a blank, and a number is digits. What is no blank may be split
//! from the front by its kind, as digits, or letters, digits and underscores.
//!
//! A name fits the rule `(letter | "_") {letter | digit | "_"}`, has no upper-case letter and at most
//! 32 bytes.
//!
//! A number of fixed width is its 2, 4 or 8 bytes, the highest first: `00 00 00 07` is 7 of 4 bytes.
//!
//! The bytes ` 007 bytes` have the piece `007` at their front, which is the number 7 to `take_number`. To
//! `piece_number` and `numeral_value` it is none, since zeros stand in front of its 7.
//!
//! | Notion | Definition |
//! |---|---|
//! | lines, and the text of a line | `specs/Lines.antt` |
//! | pieces, names and numbers | `specs/Words.antt` |
//! | what sessions, tables and keys may be named | `specs/Names.antt` |
//! | what an answer says of a reading | `specs/Answers.antt` |
//! | numbers of fixed width | `big_bytes` of `byteorder` |
#![tactic(auto)]

mod bytes;
mod fixed;
mod lines;
mod words;

pub use bytes::{
    Blank, Digit, Kind, PieceByte, WordByte, is_lower_case, is_of_kind, skip_blanks, split_while,
};
pub use fixed::{put_u16, put_u32, put_u64, take_u32, take_u64};
pub use lines::{before_last_line, is_comment, line_text, next_line, trim};
pub use words::{
    fits_name_rule, is_at_end, is_name_word, next_piece, numeral_value, piece_number, take_byte,
    take_number,
};
