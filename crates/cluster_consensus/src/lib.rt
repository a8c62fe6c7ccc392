//! How nodes come to agree on one log: elections, shipping and durable fronts, as laws over every legal
//! history, for any number of nodes, any type of entries, and crashes anywhere.
//!
//! ```text
//! History     a list of events with their actors, the newest first
//! after h     what it leaves: each node's part, and every fact that anybody told
//! Legal n h   each event was enabled where it happened, in a cluster of n nodes
//! ```
//!
//! Nodes have the numbers 1 to `n`. A node's part is what it promised and accepted (two generations), its
//! log, how much of the log it knows as durable, and whether it leads and is up. A told fact may reach
//! anybody at any later time, again, or never; so an event reads facts, and no message is ever taken away.
//!
//! | Event | Enabled where the node is up and | It then |
//! |---|---|---|
//! | `Stand g` | it promised less than `g` | promises `g`, tells its vote with its accepted generation and log |
//! | `Grants g to` | it promised less than `g`, and the vote's pair (accepted generation, length) is not below its own | promises `g`, tells its grant |
//! | `Lead` | a majority granted it the generation that it promised, above what it accepted | accepts it with its own log, tells that log |
//! | `Take g l` | it promised no more than `g`, accepted below `g`, and exactly `l` was shipped in `g` | accepts `l` in `g`, whatever log it had |
//! | `Grow l` | it promised no more than it accepted, and `l` is a front of a log shipped in that generation: one entry longer than its own, or as long as the whole message | has `l` |
//! | `Append e` | it leads | has one entry more, ships it |
//! | `LearnLead l` | it leads, and a majority acknowledged `l` entries in its generation | knows them as durable, tells so |
//! | `LearnFollow l` | somebody told `l` entries durable in a generation that it accepted or passed, and its log is so long | knows them as durable |
//! | `Probe t`, `Confirm t g` | it leads and knows all that it adopted as durable; it promised no more than `g` | answers a begin; confirms the answer |
//! | `Down`, `Back..` | anywhere; down | is down; is up as it was left, or as the event under way leaves it, and leads no more |
//!
//! `Admits` and `Boot` open a run over stores of an earlier one: a store is admitted where all admitted
//! ones fit, so that no accepted generation is above what a majority promised.
//!
//! A log is *durable* in a generation where a majority accepted it, or a longer one, in that generation.
//!
//! Why it works, in four steps. Two majorities share a node, so a generation has one leader and all logs
//! of it are fronts of that leader's. A voter compares the generation before the length, so whoever leads
//! next adopted a log of a generation at or above each one in which a log is durable. So by induction over
//! generations a later leader's log begins with every durable log. And what a node knows as durable was
//! durable in a generation that it accepted or passed, so no log that it takes later drops it.
//!
//! The functions here run nothing: each is a law, and its clauses are what is proved.
#![tactic(auto)]

pub mod durable_logs;
pub mod leaders;
pub mod stores;
pub mod written;
