//! Reads tables: the text of a `create table` becomes a table of a schema, or is refused.
//!
//! A text is a definition by the grammar of `sql_grammar`; `[x]` may be left out, and `{x}` comes any
//! number of times:
//!
//! | Rule | Spelled by |
//! |---|---|
//! | definition | `create table` name `(` part {`,` part} `)`, then `[;]` |
//! | part | name type {mark}, `primary key` names, or (`unique` or `key`) name names |
//! | type | `integer`, `int`, `text` or `blob` |
//! | mark | `not null`, `primary key` or `unique` |
//!
//! Columns stand in the order of the text, and NULL may stand in a column that is neither `not null` nor
//! in the primary key. Keys stand in the order of the text too, those of a column's marks at the column:
//!
//! | Written | Key | Unique |
//! |---|---|---|
//! | the mark `primary key`, or the part `primary key (a, b)` | `pk`, over that column, or over these | yes |
//! | the mark `unique` | named as its column, over it | yes |
//! | `unique k (a, b)` | `k`, over these columns | yes |
//! | `key k (a, b)` | `k`, over these columns | no |
//!
//! A key may be over a column that is declared behind it, and over one column twice. For example
//! `create table t (id int primary key, v text, key by_v (v))` is the table `t` of the columns `id`,
//! without NULL, and `v`, with the keys `pk` over place 0 and `by_v`, not unique, over place 1.
//!
//! What is no such text is unlawful, and so is a table that says something that no table may say: a
//! name that is taken or stands twice, a key over an unknown column, a unique key over a column that
//! may hold NULL. Two primary keys have one name, and so have the keys of a mark `unique` that stands
//! twice on a column. Of a lawful table a limit may be passed: 64 tables, 64 columns, 8 keys, 8 columns
//! of a key.
//!
//! | Notion | Definition |
//! |---|---|
//! | the definition that a text spells | `specs/Reading.antt` |
//! | the keys that are written | `specs/Keys.antt` |
//! | the table that a definition says | `specs/Tables.antt` |
//! | the names of a key's columns, by its places and as they are written | `specs/Named.antt` |
//! | the table of a text, or why there is none | `specs/Verdict.antt` |
//! | what an answer of the code says of it | `specs/Answers.antt` |
#![tactic(auto)]

mod columns;
mod keys;
mod laws;
mod places;
mod reading;

pub use laws::{definitions_are_spelled, keys_are_over_their_columns, tables_are_lawful};
pub use reading::{TableStop, read_table};
