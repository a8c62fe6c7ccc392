//! What a node decides in elections and shipping, as values in and values out: no memory is taken, no clock
//! is read, nothing is sent. Up to seven nodes.
//!
//! ```text
//! stand(vote, generation)    -> Action      the node stands for a generation
//! on_message(vote, message)  -> Action      the node does what the message allows, if anything
//! lowest_unfit(nodes, stores) -> Option<u8> the lowest node whose store does not fit the others
//! ```
//!
//! The caller does the action under its lock, syncs what is to be kept, and then sends. A node tells its
//! own `Granted` and `Ack` too, as messages to itself, so that majorities count it.
//!
//! | Message | Allows, of a node that is up | Where |
//! |---|---|---|
//! | `Vote` | `Promise` of that generation to its sender | it is above the node's promise, and (accepted generation, length) are not less than the node's own |
//! | `Granted` | `Lead` in that generation | it is the one that the node promised, above the one that it accepted, and with this vote a majority granted |
//! | `Adopt`, `Ship` | `Take` of the whole length | the generation is not below the promise, and above the accepted one |
//! | | `Take` of one entry more, or of the same length again | it is the accepted one, and no promise is above it |
//! | `Ack` | `Know` of the greatest length that a majority acknowledged | the node leads in that generation |
//! | `Durable` | `Know` of as much of it as stands in the node's log | the node does not lead, and accepted that generation or a later one |
//! | `Ping` | `Answer` with a `Pong` | nothing above its generation is promised |
//! | `Pong` | nothing | whoever asked counts it |
//!
//! A `Granted` counts in the generation that the node promised, an `Ack` in the one in which it leads. A
//! promise and a taken log clear the votes, and a lead clears the acknowledged lengths. An example of three
//! nodes, seen from node 1:
//!
//! ```text
//! stand 1                  Promise { 1, to 1 }
//! Granted { from 1, .. }   Nothing                 one of three
//! Granted { from 2, .. }   Lead { 1 }              two of three
//! Ack { from 1, length 4 } Nothing
//! Ack { from 2, length 3 } Know { 3 }              two nodes have three entries
//! Vote { from 3, generation 2, accepted 0, length 9 }   Nothing: the generation goes before the length
//! ```
//!
//! `specs/Allowed.antt` says what a message allows, by numbers alone; `specs/Counted.antt` what a message
//! and an action change; `specs/Told.antt` how the numbers stand for the parts, facts and events of a
//! legal history, which `laws` proves.
#![tactic(auto)]

pub mod counts;
pub mod decisions;
pub mod fits;
pub mod laws;
pub mod messages;
pub mod told_laws;
pub mod votes;

pub use decisions::{on_message, stand};
pub use fits::{ReadStore, lowest_unfit};
pub use messages::{Action, Message};
pub use votes::NodeVote;
