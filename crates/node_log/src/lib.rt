//! The log of one node, kept in the node's store: an entry is in the store, synced, before its append is answered.
//!
//! A `NodeLog` has a log with its pages, the generations that the node promised and accepted, and the store. As long
//! as no call of the store failed, the synced bytes of the store are whole frames that hold exactly this log and
//! these generations, and no byte waits. The log of node 2 in cluster 7, over a store of no byte:
//!
//! ```text
//! call               log             promised  accepted  what the store has more
//! open               no entry        0         0         header: version 1, node 2, cluster 7
//! stand              no entry        1         1         promise 1, accept 1
//! append of a setup  setup           1         1         entry: the setup
//! append of a commit setup, commit   1         1         entry: the commit
//! ```
//!
//! Where the store fails in the last of these calls, the log can only be given back, and a front of the commit's
//! frame may then be synced. Opening the store finds the setup alone, or both entries. Nobody was told of the commit,
//! so either is right. Where it fails in `stand`, the opening finds no promise, the promise alone, or both frames.
//!
//! In a cluster of several nodes a node promises a generation before it stands or votes in it (`promise`), and accepts its
//! log in it before it leads (`accept`): one frame each. An entry that a leader shipped in the accepted generation is
//! appended as the leader's own are. A leader's whole log is taken over (`take_over`): the entries that both have stay,
//! the others of the node are dropped, and the leader's come in their place, as one adoption.
//!
//! An entry is appended in three steps: its frame is written as bytes, the log takes the entry, and the store keeps
//! the bytes. The first two take memory and the third takes none, so that want of memory leaves the log and the store
//! as they were. Where the store fails, the log has the entry, and may drop it (`drop_tail`). A log that is taken over is put
//! back then: the entries that it drops are kept aside until the store has answered.
//!
//! | Notion | Code | Definition |
//! |---|---|---|
//! | a log with its generations and its store | `NodeLog` | `Logged` of `specs/Logged.antt` |
//! | the store holds exactly the log | the invariant of `NodeLog` | `IsInStep` |
//! | bytes stand for the log, for one of some logs | `log`, `into_parts` | `Stand`, `StandForOne` |
//! | what a stop may leave of the store | `stand`, `promise`, `accept`, `append`, `take_over`, where the store fails | `Leaves` |
//! | a log that is taken over, and its frames | `take_over` | `specs/Taken.antt` |
//! | the log that is found is the log that was had | `stores_tell_one_log` | `specs/Same.antt` |
#![tactic(auto)]

mod keeps;
mod laws;
mod node_logs;
mod promises;
mod takes;

pub use laws::stores_tell_one_log;
pub use node_logs::NodeLog;
pub use store_log::{KeepFault, OpenFault, Unopened};
