//! What makes a report lawful: what the database promises of every run, over its language, its script and the
//! history before it.
//!
//! | Notion | Definition |
//! |---|---|
//! | the language of the sessions, a transaction run alone, and what the laws ask of a language | `session_language` |
//! | the work of a session: its transactions, and its lines outside one | `specs/Work.antt` |
//! | the history, the rows at its positions, and what its entries take away | `specs/History.antt` |
//! | what the laws see of a history: look-ups by position | `specs/View.antt` |
//! | what a session is told, and what is told of an entry's transaction | `specs/Told.antt` |
//! | the right outcome of a transaction | `specs/Outcome.antt` |
//! | what it is for an entry to be serial | `specs/Serial.antt` |
//! | a lawful report | `specs/Lawful.antt` |
//! | the order of play | `specs/Play.antt` |
//! | the endings that cut a transaction short | `specs/Cut.antt` |
//! | which nodes are up at a place | `specs/Nodes.antt` |
//! | the places of lines: losses, missing majorities, nodes, barriers and feeds | `specs/Places.antt` |
//! | a report without a transaction that is cut short, and without a node that goes down | `specs/One.antt` |
//! | the last position of the history along a piece of lines | `specs/Paced.antt` |
//! | names and rows of the grammar, in a report and in what it is told of | `specs/Spelled.antt` |
#![tactic(auto)]

mod facts;

pub use facts::{
    begins_find_a_majority, begins_reach_what_was_told, entries_are_told, lines_have_their_places,
    losses_are_told_once, nodes_go_down_once, none_begins_behind_a_fault,
    nothing_is_lost_without_a_fault, reports_are_of_the_grammar, reports_are_one,
    serializable_entries_are_serial, the_schema_stands_first, transactions_stand_once,
};
