//! The rows of all tables in memory, and what an operation makes of them.
//!
//! A `State` holds for each table its row versions by rising genid, and the next genid, which no
//! version has yet. An operation of a transaction names what it takes away by a genid, or by the
//! number of an own earlier write; the caller keeps in `made` the genid that each write gave, and 0
//! for a delete, which gave none.
//!
//! | Notion | Code | Definition |
//! |---|---|---|
//! | the version that an operation takes away | `apply_op` | `specs/Targets.antt` |
//! | what an operation makes of the rows | `apply_op` | `Rows` of `cdb_values` |
//! | the writes of a transaction in turn, and their net operations | `net_is_in_turn` | `specs/InTurn.antt` |
//!
//! For example: with one table, and 1 as the next genid, `insert (7)` and `insert (8)` give the
//! versions `1: (7)`, `2: (8)` and the next genid 3. An update of the first own write to `(9)`,
//! with `made` as `1, 2`, takes version 1 away and adds `3: (9)` at the end: `2: (8)`, `3: (9)`.
#![tactic(auto)]

mod laws;
mod operations;
mod state;

pub use laws::net_is_in_turn;
pub use operations::{OpFault, apply_op};
pub use state::State;
