//! A node of a cluster: its numbers, its log with its pages, and its actor. Its type says that it is the history's node.
//!
//! Each call takes its memory first, then does its events, which take none, and sends what they told. A packet carries a note
//! of who told its message, so that whoever takes it in knows what it says.
//!
//! | Call | Events | What is sent |
//! |---|---|---|
//! | `stand` | `Stand` | a `Vote` to each other node, its own `Granted` |
//! | `setup` | `Append` | a `Ship` with the entry to each other node, its own `Ack` |
//! | `append` | `Append` | the same |
//! | `settle` | `Settle` | nothing |
//! | `ship` | none | to one node an `Adopt` with the whole log, and the `Durable` that was told last |
//! | `begin` | `Probe` | a `Ping` to each other node |
//! | `deliver` of a `Vote` | `Grant` | a `Granted` to its sender |
//! | of a `Granted` | `Lead` | an `Adopt` with the whole log to each other node, its own `Ack` |
//! | of an `Adopt`, `Ship` | `Take`, of the whole log, or one an entry | one `Ack` of the last length to its sender |
//! | of an `Ack`, a `Durable` | `Learn` | by a leader a `Durable` to each other node |
//! | of a `Ping` | `Confirm` | a `Pong` to its sender |
//! | `stop`, and where the store fails | `Down` | nothing |
//! | `start` | `Up` | nothing |
//!
//! Of a message that allows nothing by the numbers nothing comes, but that a vote or a length is counted. Here node 1 has two
//! entries that it accepted in generation 3, and takes in what node 2 leads:
//!
//! ```text
//! Ship 3, length 4, with entries 3 and 4    Take 3 3, Take 3 4    Ack 3, length 4
//! Ship 3, length 6, with entry 6            dropped: entry 5 is missing
//! Ship 4, length 5, with entry 5            dropped: not the whole log of a generation that it did not accept
//! Adopt 4, length 1, with entry 1           Take 4 1              Ack 4, length 1: three entries are dropped
//! ```
//!
//! A node goes down with its numbers and its log as they are, and comes up with what its store holds. A store is asked before each
//! event, so where it fails the event is not done, and the store holds what it held, or what the event would have left. The laws
//! say that a node may come up with either: `specs/Restarts.antt` has an example.
#![tactic(auto)]

mod appends;
mod bodies;
mod commits;
mod drafts;
mod faults;
mod keeps;
mod laws;
mod nodes;
mod packets;
mod restarts;
mod ships;
mod spellings;
mod steps;
mod takes;

pub use laws::{
    what_a_call_may_leave_may_come_up, what_a_store_may_hold_may_come_up, what_calls_take_of_room,
    what_may_come_up_stays, what_was_read_may_come_up,
};
pub use nodes::Node;
pub use packets::Packet;
pub use steps::{BeginStep, Started, Step};
