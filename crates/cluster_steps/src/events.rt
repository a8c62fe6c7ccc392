use log_replay::PagedLog;
use phys_log::{CommitId, Decision, Entry};
use report_text::Line;
use std::snapshot::Snapshot;
use table_state::State;

/// What an actor of a cluster does in one step. An entry, a log or a decision that a step speaks of is known to proofs
/// alone, so that a step takes no memory.
#[derive(Drop)]
pub enum Event {
    /// The operator comes to its next line, a stop or a start.
    Order,
    /// It saw that the node is so, at some place since.
    Obeyed,
    /// A session lets the arm at a place of the script stop a node.
    Fire {
        line: u64,
        node: u8,
    },
    /// The operator admits the store of a node, by what it promised and accepted.
    Admit {
        node: u8,
        promised: u64,
        accepted: u64,
    },
    /// A node comes up over its store, which stands for this log.
    Up {
        how: Woken,
        promised: u64,
        accepted: u64,
        entries: Snapshot<PagedLog>,
    },
    /// It goes down: by a fault of its store, or by a stop.
    Down {
        fault: bool,
    },
    /// It stands in that generation.
    Stand {
        generation: u64,
    },
    /// It gives its vote in that generation.
    Grant {
        generation: u64,
        to: u8,
    },
    /// It leads in that generation.
    Lead {
        generation: u64,
    },
    /// It takes the log that was shipped in that generation, up to that length.
    Take {
        generation: u64,
        length: u64,
    },
    /// It appends an entry.
    Append {
        entry: Snapshot<Entry>,
    },
    /// It answers a request otherwise than by its entry.
    Settle {
        id: Snapshot<CommitId>,
        decision: Snapshot<Decision>,
    },
    /// It knows that length as durable.
    Learn {
        length: u64,
    },
    /// As a leader it tells its durable number for a begin that was asked for.
    Probe {
        ask: u64,
    },
    /// It tells that it promised nothing above that generation, for such a begin.
    Confirm {
        ask: u64,
        generation: u64,
    },
    /// A session, or the operator for a feed, asks for a begin. The ask is called by its ticket.
    Ask,
    /// A session is told its begin, which a leader of that generation answered.
    Begun {
        position: u64,
        generation: u64,
    },
    /// It is told an answer.
    Reply {
        line: Line,
    },
    /// It sends its commit to the leader of that generation.
    Send {
        master: u8,
        generation: u64,
    },
    /// It is told how its transaction ended.
    Outcome {
        line: Line,
    },
    /// It moves to another node.
    Move {
        node: u8,
    },
    /// The operator sees that all earlier lines are done.
    Barrier,
    /// It offers the feeds the changes up to a position, which a leader of that generation answered.
    Fed {
        position: u64,
        generation: u64,
    },
    /// It offers them the same once more, for want of a majority.
    FedAgain {
        position: u64,
    },
}

/// How a node comes up.
#[derive(Drop)]
pub enum Woken {
    /// For the first time: its pages stand for these rows.
    First { rows: Snapshot<State> },
    /// With its log as it left it.
    AsLeft,
    /// With the acceptance of the generation that it was about to lead.
    Led,
    /// With the log that it was about to take.
    Took,
    /// With the entry that it was about to append.
    Appended,
}
