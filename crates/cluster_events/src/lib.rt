//! Whole histories of a cluster: what nodes, sessions and the operator do, when each of it may happen, and the lines that
//! it prints.
//!
//! ```text
//! History              a list of events with their actors, the newest first: 0 is the operator, 1 to n are the nodes
//! part G s h           what a session is told, and where it is in its work
//! field h              what the nodes are and were asked (`cluster_requests`)
//! lines G h            the lines of the report
//! IsLegalHistory G h   each event might happen where it happened
//! AllHeed G b h        and was by these lines of the script: stops, starts, arms, barriers, feeds
//! ```
//!
//! | Actor | Event | It may happen where |
//! |---|---|---|
//! | node | `Node e` | consensus and requests allow it, and an entry that it appends is what is decided of a request, or the setup |
//! | node | `Stop` | it is up, and a stop is ordered or an arm has fired since it came up |
//! | node | `Settle`, `Repeat` | it leads, and refuses a request that was sent to it, or tells where its entry stands |
//! | session | `Ask`, `Begun` | its next line begins a transaction; its ask was answered |
//! | session | `Say`, `Note` | these are the replies on the rows at its begin position of a durable log; a line outside a transaction |
//! | session | `Send`, `Finish` | all replies of a transaction that is to be committed are told; what its outcome says is so |
//! | session | `Move` | its node went down, and this is the next node that is up |
//! | session | `Fire` | its line is armed, the barriers before it are told, and the moment has come |
//! | operator | `Order`, `Obeyed` | its next line is a stop or a start; at some place since, the node was so |
//! | operator | `Barrier` | each session has done its lines before it |
//! | operator | `Fed`, `FedAgain` | its ask was answered; or few nodes were up since it asked |
//!
//! A guard reads the history: an actor's own part, facts that were told and stay told, or one earlier place. So what an
//! actor may do it may still do after any events of the others, whatever the order in which threads come.
//!
//! The functions here run nothing: each is a law, and its clauses are what is proved.
#![tactic(auto)]

mod laws;

pub use laws::{
    a_session_knows_its_lines, acts_of_a_history_may_happen, lines_have_their_places,
    nodes_lines_are_charged, the_operators_lines_have_places, what_is_enabled_stays_enabled,
};
