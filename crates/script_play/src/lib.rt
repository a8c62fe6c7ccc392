//! Plays scripts on one node: each line of a script is done in its order, and the report tells what came of it.
//!
//! What a line does depends on where its session is:
//!
//! | The session is | `begin` | `commit` | `rollback` | `set transaction ..` | any other line |
//! |---|---|---|---|---|---|
//! | in no transaction | opens one at the last position | `error state` | `error state` | `level ..` | is a transaction of its own |
//! | in one | `error state` | is decided on | `rolledback` | `error state` | is answered |
//! | behind one that was cut short | is skipped | ends it | ends it | is skipped | is skipped |
//!
//! The log is kept in the node's store. Where the store fails at the entry of a commit, the node goes down, and stays down. The
//! transaction at its commit is lost, and so is each other open one, at the next line of its session; and none begins:
//!
//! ```text
//! a: begin                                     a 1 begin 1
//! b: insert into t values(2, 20)               b 1 begin 1, changed 1, then the store fails: down 1 1 fault, b 1 lost 1 1
//! a: commit                                    a 1 lost 1 1
//! a: select * from t                           a 2 nomajority 0 1
//! ```
//!
//! A statement reads its rows from the pages of the log at its transaction's begin position. A commit is decided by
//! `block_processor`, and its entry appended to the log: the log's pages at each position stand for the rows there.
//!
//! A line's text is read and bound once, by `prepare` of `sql_run`, whatever becomes of it. A text that is no statement, or
//! has another error, is answered by that error, and the transaction goes on. Where the text can't be read for want of
//! memory, nothing is known of the line, and the run ends.
//!
//! Two sessions that update one row, the second in a transaction that began before the first one's commit:
//!
//! ```text
//! b: begin                                     b 1 begin 2
//! a: update t set v = 11 where id = 1          a 2 begin 2, changed 1, committed 3
//! b: update t set v = 12 where id = 1          b 1 changed 1
//! b: commit                                    b 1 conflict 3 genid t 1
//! ```
//!
//! | Notion | Code | Definition |
//! |---|---|---|
//! | where a session is, and what a line does | `take_turn` of `session_turns` | `Doing`, `Step` of `session_turns` |
//! | what it leaves | `run` | `specs/Step.antt` |
//! | what it does on a node that is down | `downs` | `specs/Down.antt` |
//! | the node, as its sessions read it | `reader` | `specs/Reading.antt` |
//! | what it leaves, by whether the node is down | `lines` | `specs/Falls.antt` |
//! | what a text is answered | `reads` | `Texts` of `sql_run` |
//! | what is decided at a commit | `verdicts` | `Decisions` of `session_turns` |
//! | what a line is to do with its entry, and what is done of it | `effects`, `run` | `specs/Effects.antt` |
//! | the run so far, as the code keeps it | `run` | `specs/Run.antt`, `specs/RunViews.antt` |
//! | which transactions of a session are over | `verdicts` | `AreOver` in `specs/RunViews.antt` |
//! | the log of the node, with the identities of its entries | `indexed` | `OfLogs` of `blkseq_table` |
//! | where a run begins: the log before it, and the rows there | | `specs/Start.antt` |
//! | the rows at each position | | `SeenRows` of `session_turns` |
//! | what the log and the rows keep from line to line | | `specs/Ready.antt` |
//! | the run so far | `play` | `specs/SoFar.antt` |
//! | the same on a node that is down from the opening on | `play_down` | `specs/SoFarDown.antt` |
//! | the lines of a history, by the entries of a log | `run` | `specs/EntryLines.antt` |
//! | what a report is judged by | | `specs/Basis.antt` |
//! | what a run leaves | `play` | `specs/Played.antt` |
#![tactic(auto)]

mod downs;
mod effects;
mod holding;
mod indexed;
mod lines;
mod playing;
mod reader;
mod reads;
mod run;
mod verdicts;

pub use playing::{Played, play, play_down, script_schema};
