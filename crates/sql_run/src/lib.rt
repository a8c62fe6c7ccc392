//! Texts of SQL, read and bound once, before any row is looked at; and what every text of SQL leaves and is answered by.
//!
//! ```text
//! text  -- prepare -->  Prepared: what it is to transactions, what it means in the schema, its plan
//! ```
//!
//! A text that begins, ends or sets up a transaction is told by its kind (`Prepared::kind`), and every other one is
//! answered by its plan (`osql_session`).
//!
//! | Step | Code | Definition |
//! |---|---|---|
//! | what a text is to transactions | `kinds` | `sql_answer`, `Reading` |
//! | a text read and bound once | `prepares` | `specs/Texts` |
//! | rows of the grammar of reports, and sound operations | `laws` | `specs/Spelled`, `specs/Sound` |
//!
//! For example, over t(id, v) with `v` in the key by_v, the text `update t set v = v + 1 where v = 9` is no text of
//! transactions, means an update of the first table, and reads it by the key by_v from 9 to 9. The text
//! `update t set w = 1` means its first error there, that t has no such column.
#![tactic(auto)]

mod kinds;
mod laws;
mod prepares;

pub use kinds::TextKind;
pub use laws::{sql_keeps_rows, sql_leaves_sound_operations};
pub use prepares::{Meaning, Prepared, prepare};
