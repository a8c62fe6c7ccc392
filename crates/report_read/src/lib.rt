//! Reads reports: bytes that are the text of a report become that report, and all others nothing.
//!
//! The text of a report and its types stand in `report_text`, with the reports that the grammar has
//! (`IsReport` of its `specs/Grammar.antt`). Each of them has one text, and no text is that of two
//! reports. A line is one of these; `n` is a number.
//!
//! | Line | Part |
//! |---|---|
//! | `NAME n REPLY`, `down n n stop`, `down n n fault`, `up n`, `barrier`, `fed n` | events, any number, first |
//! | `base n` | at most one, behind them |
//! | `entry n schema`, `entry n NAME n n LEVEL` | entries, any number, behind it |
//! | `feed n NAME n n` | feeds, any number, behind them |
//! | `end n` | one, the last line |
//!
//! A session may be named as any word of the grammar. What else stands on the line then tells which
//! line it is, to the last word:
//!
//! | Text | What it is |
//! |---|---|
//! | `down 1 2 stop` and `down 1 begin 2` | a node went down; the session `down` began |
//! | `entry 5 begin 3 2 snapshot` and `entry 5 begin 3` | an entry of the session `begin`; the session `entry` began |
//! | `feed 1 row 2 3` and `feed 1 row 2` | a feed of the table `row`; the session `feed` was given a row |
//! | `feed 1 lost 2 3` | the session `feed` lost its node: no feed's table is `lost`, `nomajority` or `tooold` |
//!
//! Read as no report are a last line without LF, two spaces as one, a number with a leading zero or
//! above 64 bits (32 for the offset of a syntax error), `-0`, a quote in a text that stands once, a text
//! that is no UTF-8, upper-case digits of sixteen and an odd one, a row without values, a name of more
//! than 32 bytes or with an upper-case letter, a broken key named `all`, a line behind a later part,
//! and anything behind the end. A text in a row ends at its quote: an LF in it is one of its bytes.
//!
//! The bytes `65 6e 64 20 32 0a` are the text of the report without lines whose history has length 2.
//!
//! | Notion | Definition |
//! |---|---|
//! | what is read at the front of bytes, and the report of bytes | `specs/Reading.antt` |
//! | the bytes at the front that pass a test, numerals, what a reader's answer says | `specs/Words.antt` and `specs/Answers.antt` of `byte_words` |
//! | the parts in their order | `added` there |
#![tactic(auto)]

mod coded;
mod drafts;
mod items;
mod laws;
mod reading;
mod replies;
mod values;
mod words;

pub use laws::report_texts_tell;
pub use reading::read_report;
