//! A report as `play` writes it over the stores of one to seven nodes: in the order of play, with the nodes beside it.
//!
//! `node_reports` says what a report in the order of play tells. It knows no master: a report alone does not tell who leads, what a
//! store keeps that fails, or how long the log was that the first master took up. Here each line of the script is gone through with
//! the nodes beside the report: what each promised, accepted and has in its log.
//!
//! | Notion | Definition |
//! |---|---|
//! | a node, what it holds, and what its store keeps over a fault | `specs/Peers.antt` |
//! | who is chosen, how it comes to lead, and how its log is shipped | `specs/Elections.antt` |
//! | a stop, a start, a commit that is sent, and its arms | `specs/Deeds.antt` |
//! | the opening of all stores, and what is told in place of a report | `specs/Openings.antt` |
//! | the reported node, the first master, base, entries and length | `specs/Tail.antt` |
//! | a report as `play` writes it | `specs/Played.antt` |
//! | the nodes of a cluster of one | `specs/OneStore.antt` |
//!
//! An example: three empty stores, session a at node 2, and the lines `a: insert ..`, `stop 1`, `a: select ..`.
//!
//! ```text
//!              node 1          node 2          node 3          told
//!   opening    leads in 1      accepted 1      accepted 1      nothing: of equal ones the lowest stands; log: schema
//!   insert     schema, a 1     schema, a 1     schema, a 1     a 1 begin 1, changed 1, committed 2
//!   stop 1     down            leads in 2      accepted 2      down 1 1 stop
//!   select                                                     a 2 begin 2, ..
//!   the tail   reported is node 2: base 0, entries 1 and 2, end 2
//! ```
#![tactic(auto)]

mod facts;

pub use facts::{
    one_store_is_refused_so, played_reports_are_in_order, refused_scripts_are_not_played,
};
