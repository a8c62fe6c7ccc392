//! Quiet clusters: once no packet is under way and a majority is up, one node leads, and all that are up have its
//! log and know it durable. By numbers alone: no log stands here, and no history.
//!
//! ```text
//! Best      c is the best of those that are up, and will stand above all their promises
//!   | c stands: begins
//! Polled    each node that is up gave c its vote, or will ---- a delivery: elects. Nothing under way: votes_end
//!   | a majority granted
//! LedAlone  c leads, and each node that is up has its log, or will
//!   | a delivery: delivers. Nothing under way, and a majority up: all_know
//! Quiet     c leads, all that are up have its log and know it durable
//!   | an entry more: appends. A node comes up: ships. Another one goes down: falls
//! Led       c leads, and each node that is up and promised no more has its log, or will
//! ```
//!
//! A node is its numbers (`NodeVote` of `election_core`), and nodes are a function from 1, 2, .. to these. A packet
//! is a message to a node, with the number of entries that it carries. `Delivered` says what comes of one packet:
//! the node takes it in by the clauses of `on_message`, or falls. `Run` says that a queue was delivered, the
//! answers behind it, until nothing was left. Each delivery makes the queue lighter (`load`), so a loop that
//! delivers ends.
//!
//! What an election, or a leader, loses is told each time: the claim is kept, or the candidate, or the leader, went
//! down. Then the choice is made anew, and each time fewer nodes are up.
//!
//! The functions here run nothing: each is a law, and its clauses are what is proved.
#![tactic(auto)]

pub mod elections;
pub mod queues;
pub mod shipping;
pub mod worked;
