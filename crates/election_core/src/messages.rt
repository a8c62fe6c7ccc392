//! What nodes tell each other, and what a node does about it.
ghost use Rattle.std.specs.Prelude.{◌≡◌};
ghost use Rattle.election_core.specs.Senders.{sender_of};

/// A message of a node. It may come late, again, or never.
#[derive(Clone, Copy, Debug)]
pub enum Message {
    /// The sender stands, with its accepted generation and the length of its log.
    Vote {
        from: u8,
        generation: u64,
        accepted: u64,
        length: u64,
    },
    /// The vote is given to that candidate.
    Granted {
        from: u8,
        generation: u64,
        to: u8,
    },
    /// The leader's whole log, accepted by itself.
    Adopt {
        from: u8,
        generation: u64,
        length: u64,
    },
    /// The leader's log up to there.
    Ship {
        from: u8,
        generation: u64,
        length: u64,
    },
    /// The sender accepted that length in that generation.
    Ack {
        from: u8,
        generation: u64,
        length: u64,
    },
    /// A majority accepted that length.
    Durable {
        from: u8,
        generation: u64,
        length: u64,
    },
    /// A begin's round, with the leader's durable number.
    Ping {
        from: u8,
        generation: u64,
        ask: u64,
        durable: u64,
    },
    /// The sender promised nothing above that generation.
    Pong {
        from: u8,
        generation: u64,
        ask: u64,
    },
}

impl Message {
    /// Who sent it.
    pub fn sender(&self) -> u8
        ensures { result ≡ sender_of self.now }
    {
        match self {
            Message::Vote { from, .. }
            | Message::Granted { from, .. }
            | Message::Adopt { from, .. }
            | Message::Ship { from, .. }
            | Message::Ack { from, .. }
            | Message::Durable { from, .. }
            | Message::Ping { from, .. }
            | Message::Pong { from, .. } => *from,
        }
    }
}

/// What a node does. It syncs what is to be kept before it sends anything.
#[derive(Clone, Copy, Debug)]
pub enum Action {
    /// Nothing, but that a vote or a length may be counted.
    Nothing,
    /// Promises that generation, and gives its vote to that node.
    Promise { generation: u64, to: u8 },
    /// Accepts its own log in that generation, and leads.
    Lead { generation: u64 },
    /// Accepts the leader's log up to that length.
    Take { generation: u64, length: u64 },
    /// Knows that length as durable.
    Know { durable: u64 },
    /// Sends that message to that node.
    Answer { message: Message, to: u8 },
}
