//! A session: one transaction, its statements one after the other, and what it asks at its commit.
//!
//! ```text
//! new        --> begun:   no operations, nothing used
//! statement  --> replies; net operations so far, versions that SELECTV used, intervals that were read
//! request    --> what the commit is asked, or nothing where there are no operations
//! ```
//!
//! The rows come from any `RowSource` that means those of the begin position, with the transaction's own operations laid
//! over them. A statement that fails by the rows that it met leaves the session as it was, and so does one that is not
//! answered: for want of memory, or because the one who gives the rows is gone. It can be asked again.
//!
//! | Notion | Code | Definition |
//! |---|---|---|
//! | what a session has so far | `sessions` | `specs/Sessions` |
//! | writes laid over the operations so far | `laying` | `net_writes`, `Net`, and `sql_answer`, `Answers` |
//! | one write laid over the operation that it names, in place | `own` | `specs/Own` |
//! | what is asked at the commit | `requests` | `specs/Requests` |
//! | used versions without repeats | `items` | `specs/Items` |
//! | a session stands where a transaction run alone does | `laws` | `specs/Courses` |
//!
//! For example, over t(id, v) with the versions 1: (1, 10) and 2: (2, 20), a session that says
//! `selectv * from t where id = 2`, then `update t set v = v + 1` and then `delete from t where id = 1` is told the row
//! and `done 1`, `changed 2`, and `changed 1`. It asks with the operations that update version 2 to (2, 21) and delete
//! version 1, with the versions 2 and 1, and with the intervals that were read: the row of id 2, all of t, the row of id 1.
#![tactic(auto)]

mod items;
mod laws;
mod laying;
mod own;
mod requests;
mod sessions;

pub use laws::{a_session_is_a_transaction_alone, repeats_are_left_out};
pub use phys_log::{CommitId, CommitRequest};
pub use sessions::OsqlSession;
