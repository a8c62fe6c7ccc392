//! The top call: a script is read from a source and played over the store of its node, and its report is written to a sink.
//!
//! The store is the first of those that are handed in. It is opened for node 1 of the script's cluster, and what the opening finds
//! decides what is written:
//!
//! ```text
//! a log with the script's tables, or none    the report
//! a call failed                              the report of a node that is down
//! a bad frame at 27                          store 1 27
//! a log that is not sound                    unsound 1
//! a log with another table, said in line 4   refused 4 9
//! ```
//!
//! | Notion | Code | Definition |
//! |---|---|---|
//! | the words of a command | `store_folder` | `specs/Words.antt` |
//! | what is written at a status | `run` | `specs/Run.antt` |
//! | a run over a store, and one whose store failed first | `opening` | `specs/Runs.antt` |
//! | what the first store stands for | `stores` | `specs/Stores.antt` |
//! | the texts that are no report | `answers` | `specs/Texts.antt` |
//! | the status of the process | `exit_status` | `specs/Exit.antt` |
#![tactic(auto)]

mod answers;
mod begun;
mod commands;
mod opening;
mod running;
mod statuses;
mod stores;

pub use cdb_outside::Status;
pub use commands::store_folder;
pub use running::run;
pub use statuses::{Outside, exit_status};
