//! What the actors of a cluster do in one step, by the names of what they take; what each of it is among the events of whole
//! histories; and when it may be done.
//!
//! ```text
//! code            Take { generation: 3, length: 2 }
//! the history     a log of generation 3 was shipped whose first two entries are [setup, a]
//! whole history   Node (Take 3 [setup, a])
//! ```
//!
//! No log is copied into an event. A log that a node takes is named by the generation that shipped it and its length; an ask
//! by its ticket; what a session sends by its transaction; an entry, and the log of a store, by a snapshot, which has no bytes.
//! `named` finds each in the history before it, and `steps` is the whole history (`cluster_events`) that comes of it.
//!
//! | Event | Is | And says exactly |
//! |---|---|---|
//! | `Admit`, `Stand`, `Grant`, `Probe`, `Confirm` | the node's or operator's event of that name | |
//! | `Up` | by how the node comes up: with a store's log, as it was left, or with what was under way | the numbers and entries that the node has then |
//! | `Down` | a fault, or a stop | |
//! | `Lead` | a lead in the generation that it promised | that generation |
//! | `Take` | a log taken whole, or one entry more in the generation that it accepted | a log that was shipped |
//! | `Append` | the entry with what it makes of the rows before it | |
//! | `Settle` | a refusal as it is told, or the position at which the entry stands | |
//! | `Learn` | a leader's length of a majority, or a follower's | |
//! | `Ask` | an ask, with its ticket | |
//! | `Begun`, `Move`, `Order`, `Obeyed`, `Fire`, `Barrier`, `Fed`, `FedAgain` | the event of that name | |
//! | `Reply` | an answer inside a transaction, or that of a line outside one | its line |
//! | `Send` | the request of the session's transaction, over the rows at its begin | a log that was shipped up to there |
//! | `Outcome` | an end of the transaction | its line |
//!
//! An actor may do an event (`MayTakeStep` of `specs/Guards.antt`) where it says exactly what it does, the whole history allows it,
//! the script does, and a log that it makes has pages that stand for its rows.
#![tactic(auto)]

mod events;
mod laws;

pub use events::{Event, Woken};
pub use laws::{
    named_histories_are_legal, names_stay, what_may_be_done_stays, what_was_told_stays_told,
    who_does_nothing_stays,
};
