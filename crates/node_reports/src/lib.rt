//! What makes a report of one to seven nodes lawful, and in the order of play.
//!
//! | Notion | Definition |
//! |---|---|
//! | a lawful report | `specs/Lawful.antt` |
//! | what a session is told, and what is told of an entry's transaction | `specs/Told.antt` |
//! | the places of lines: nodes that go down and come up | `specs/Places.antt` |
//! | the operator's lines, and the arms | `specs/Operator.antt` |
//! | which lines of a session are those of its lines of the script | `specs/Pieces.antt` |
//! | feeds | `specs/Fed.antt` |
//! | a lawful report of a run by workers | `specs/Workers.antt` |
//! | the order of play | `specs/Order.antt` |
//! | the piece of a session's line | `specs/Piece.antt` |
//! | where a session is | `specs/Site.antt` |
//! | the arms that wait | `specs/Arms.antt` |
//! | a script of one node, with lines of sessions alone | `specs/OneNode.antt` |
#![tactic(auto)]

mod facts;

pub use facts::{one_node_goes_down_once, one_node_reports_are_so, reports_of_nodes_keep_the_laws};
