use cdb_values::{List, Name, TableDef, Text};

/// A script that was read: its head, and the lines to be run in their order.
#[derive(Clone, Drop)]
pub struct Script {
    /// The number of nodes.
    pub nodes: u8,
    /// The name of the cluster: `main` where no line names it.
    pub cluster: Name,
    /// The number of workers: 1 where no line says it.
    pub workers: u8,
    pub sessions: List<SessionLine>,
    pub tables: List<TableLine>,
    /// The places of the watched tables among `tables`, from 0.
    pub watches: List<u16>,
    pub body: List<BodyLine>,
}

/// A session, and the node where it begins. Lines are numbered from 1.
#[derive(Clone, Drop)]
pub struct SessionLine {
    pub line: u64,
    pub name: Name,
    /// The node where it begins, from 1.
    pub node: u8,
    /// Whether it goes on at another node where its own one is lost.
    pub hasql: bool,
}

/// A table of the schema.
#[derive(Clone, Drop)]
pub struct TableLine {
    pub line: u64,
    pub table: TableDef,
}

/// A line to be run.
#[derive(Clone, Drop)]
pub struct BodyLine {
    pub line: u64,
    pub act: Act,
}

/// What a line does when it is run.
#[derive(Clone, Drop)]
pub enum Act {
    /// A session is sent a statement, as its text without blanks at both ends.
    Say { session: Name, text: Text },
    /// The operator stops this node.
    Stop(u8),
    /// The operator starts this node.
    Start(u8),
    /// During that session's next line a node is stopped.
    Arm { session: Name, moment: Moment },
    /// No later line begins before all earlier ones are done.
    Barrier,
    /// Events are offered to the consumers.
    Feed,
}

/// When an armed stop comes.
#[derive(Clone, Copy, PartialEq, Eq, Debug)]
pub enum Moment {
    /// After this reply row, from 1.
    Row(u64),
    /// After the commit's entry is in the master's store.
    Append,
    /// After the commit's entry is durable.
    Ship,
}
