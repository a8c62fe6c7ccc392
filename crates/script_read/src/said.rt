use cdb_values::Name;
use script_form::{Act, SessionLine};

/// What a line of a script says, but for tables.
#[derive(Drop)]
pub enum Said {
    /// The number of nodes.
    Nodes(u8),
    /// The name of the cluster.
    Cluster(Name),
    /// The number of workers.
    Workers(u8),
    Session(SessionLine),
    /// The place of a watched table, from 0.
    Watch(u16),
    /// A line to be run.
    Runs(Act),
}
