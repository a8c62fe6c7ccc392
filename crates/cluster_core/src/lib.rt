//! The cluster as a machine of `actor_trace`: what a trace of its actors makes is one legal history of the cluster.
//!
//! ```text
//! actor_trace     a legal history of a machine, at whose end each actor's steps stand at their tickets
//! Cluster         its machine: an actor may do what `cluster_steps` says
//! a whole history the events of `cluster_events` that these name: legal, and by the script
//! ```
//!
//! A [`Plan`] says which run it is. It stands in the types of nodes, sessions and packets, so what comes out of a lock is
//! known to be of that run.
//!
//! The laws run nothing: their clauses are what is proved of every history that a run makes, whatever the order in which its
//! actors come.
#![tactic(auto)]

mod laws;
mod machine;

pub use laws::{
    a_runs_history_is_legal, durable_logs_agree, known_positions_stay,
    later_generations_keep_durable_logs, pages_stand, tables_are_the_scripts,
};
pub use machine::{Cluster, Plan};
