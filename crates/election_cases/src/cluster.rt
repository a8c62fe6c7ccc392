//! Nodes, and what they told. It does what a node around `election_core` does: it tells what an action allows to tell,
//! appends where it leads, and comes up with what its store has. Lengths stand for logs.

use crate::shown::{kind_of, put_action, put_numbers};
use election_core::{Action, Message, NodeVote, on_message, stand};
use std::alloc::{AllocError, Global};

/// The nodes of a run, what was told, and the number of the last ask.
#[derive(Drop)]
pub(crate) struct Cluster {
    nodes: Vec<NodeVote>,
    told: Vec<Message>,
    ask: u64,
}

/// What a store has.
#[derive(Clone, Copy)]
pub(crate) struct Store {
    pub(crate) promised: u64,
    pub(crate) accepted: u64,
    pub(crate) length: u64,
}

/// A fact by its kind, who told it and in which generation: the last one, or one so many before it.
#[derive(Clone, Copy)]
pub(crate) struct Named<'a> {
    pub(crate) kind: &'a str,
    pub(crate) sender: u8,
    pub(crate) generation: u64,
    pub(crate) back: u64,
}

/// A node that comes up with what its store has.
fn opened(node: u8, nodes: u8, store: Store) -> NodeVote {
    NodeVote {
        node,
        nodes,
        promised: store.promised,
        accepted: store.accepted,
        length: store.length,
        adopted: 0,
        durable: 0,
        granted: 0,
        acked: [0; 7],
        leading: false,
        up: true,
    }
}

impl Cluster {
    /// No node.
    pub(crate) fn new(alloc: Global) -> Cluster {
        Cluster {
            nodes: Vec::new(alloc),
            told: Vec::new(alloc),
            ask: 0,
        }
    }

    /// So many nodes whose stores are empty, at most 7. Nothing is told.
    pub(crate) fn begin(&mut self, nodes: u8) -> Result<(), AllocError> {
        self.nodes.clear();
        self.told.clear();
        self.ask = 0;
        let empty = Store {
            promised: 0,
            accepted: 0,
            length: 0,
        };
        let nodes = nodes.min(7);
        for node in 0..nodes {
            self.nodes.push(opened(node + 1, nodes, empty))?;
        }
        Ok(())
    }

    /// The node with a number.
    fn at(&self, number: u8) -> Option<NodeVote> {
        self.nodes.get(usize::from(number).wrapping_sub(1)).copied()
    }

    /// Puts a node back, and tells what it did and which numbers it has.
    fn put(&mut self, vote: NodeVote, action: &Action, out: &mut String) -> Result<(), AllocError> {
        if let Some(place) = self.nodes.get_mut(usize::from(vote.node).wrapping_sub(1)) {
            *place = vote;
        }
        let number = vote.node;
        write!(out, "  {number}: ")?;
        put_action(out, action)?;
        put_numbers(out, &vote)
    }

    /// A node comes up with what its store has, by default what it has by its numbers.
    pub(crate) fn restart(
        &mut self,
        number: u8,
        store: Option<Store>,
        out: &mut String,
    ) -> Result<(), AllocError> {
        let Some(vote) = self.at(number) else {
            return out.push_str("  no such node\n");
        };
        let own = Store {
            promised: vote.promised,
            accepted: vote.accepted,
            length: vote.length,
        };
        let next = opened(vote.node, vote.nodes, store.unwrap_or(own));
        self.put(next, &Action::Nothing, out)
    }

    /// A further run over what the stores have: nothing that was told before reaches anybody.
    pub(crate) fn again(&mut self, out: &mut String) -> Result<(), AllocError> {
        self.told.clear();
        for number in 1..=7u8 {
            if usize::from(number) <= self.nodes.len() {
                self.restart(number, None, out)?;
            }
        }
        Ok(())
    }

    /// A node goes down.
    pub(crate) fn down(&mut self, number: u8, out: &mut String) -> Result<(), AllocError> {
        let Some(vote) = self.at(number) else {
            return out.push_str("  no such node\n");
        };
        let mut vote = vote;
        vote.up = false;
        self.put(vote, &Action::Nothing, out)
    }

    /// A node stands for a generation, and tells its vote and its own grant.
    pub(crate) fn stand(
        &mut self,
        number: u8,
        generation: u64,
        out: &mut String,
    ) -> Result<(), AllocError> {
        let Some(vote) = self.at(number) else {
            return out.push_str("  no such node\n");
        };
        let mut vote = vote;
        let action = stand(&mut vote, generation);
        if let Action::Promise { generation, .. } = action {
            self.told.push(Message::Vote {
                from: vote.node,
                generation,
                accepted: vote.accepted,
                length: vote.length,
            })?;
        }
        self.tell(&vote, &action)?;
        self.put(vote, &action, out)
    }

    /// A leader appends an entry, ships its log and acknowledges it.
    pub(crate) fn append(&mut self, number: u8, out: &mut String) -> Result<(), AllocError> {
        let Some(vote) = self.at(number) else {
            return out.push_str("  no such node\n");
        };
        let mut vote = vote;
        if vote.up && vote.leading {
            vote.length = vote.length.saturating_add(1);
            self.told.push(Message::Ship {
                from: vote.node,
                generation: vote.accepted,
                length: vote.length,
            })?;
            self.acknowledge(&vote)?;
        }
        self.put(vote, &Action::Nothing, out)
    }

    /// A node tells how much it accepted.
    fn acknowledge(&mut self, vote: &NodeVote) -> Result<(), AllocError> {
        self.told.push(Message::Ack {
            from: vote.node,
            generation: vote.accepted,
            length: vote.length,
        })?;
        Ok(())
    }

    /// A session asks for a begin.
    pub(crate) fn ask(&mut self) {
        self.ask = self.ask.saturating_add(1);
    }

    /// A leader that knows what it adopted as durable pings for the last ask.
    pub(crate) fn probe(&mut self, number: u8, out: &mut String) -> Result<(), AllocError> {
        let Some(vote) = self.at(number) else {
            return out.push_str("  no such node\n");
        };
        if vote.up && vote.leading && vote.durable > 0 && vote.durable >= vote.adopted {
            self.told.push(Message::Ping {
                from: vote.node,
                generation: vote.accepted,
                ask: self.ask,
                durable: vote.durable,
            })?;
        }
        self.put(vote, &Action::Nothing, out)
    }

    /// A fact reaches a node, which tells what it then does.
    pub(crate) fn hear(
        &mut self,
        number: u8,
        named: Named<'_>,
        out: &mut String,
    ) -> Result<(), AllocError> {
        let (Some(vote), Some(message)) = (self.at(number), self.found(named)) else {
            return out.push_str("  no such fact\n");
        };
        let mut vote = vote;
        let sender = message.sender();
        if sender == 0 || vote.nodes < sender || 7 < vote.nodes {
            return out.push_str("  no such fact\n");
        }
        let action = on_message(&mut vote, &message);
        self.tell(&vote, &action)?;
        self.put(vote, &action, out)
    }

    /// The fact with a name.
    fn found(&self, named: Named<'_>) -> Option<Message> {
        let mut left = named.back;
        for message in self.told.iter().rev() {
            let (kind, generation) = kind_of(message);
            let is_named = kind == named.kind
                && generation == named.generation
                && message.sender() == named.sender;
            if is_named && left == 0 {
                return Some(*message);
            }
            if is_named {
                left = left.saturating_sub(1);
            }
        }
        None
    }

    /// Tells what an action allows to tell.
    fn tell(&mut self, vote: &NodeVote, action: &Action) -> Result<(), AllocError> {
        let from = vote.node;
        match action {
            Action::Nothing => Ok(()),
            Action::Promise { generation, to } => self.add(Message::Granted {
                from,
                generation: *generation,
                to: *to,
            }),
            Action::Lead { generation } => {
                self.add(Message::Adopt {
                    from,
                    generation: *generation,
                    length: vote.length,
                })?;
                self.acknowledge(vote)
            }
            Action::Take { .. } => self.acknowledge(vote),
            Action::Know { durable } => self.tell_durable(vote, *durable),
            Action::Answer { message, .. } => self.add(*message),
        }
    }

    /// A leader tells what it knows as durable.
    fn tell_durable(&mut self, vote: &NodeVote, length: u64) -> Result<(), AllocError> {
        if !vote.leading {
            return Ok(());
        }
        self.add(Message::Durable {
            from: vote.node,
            generation: vote.accepted,
            length,
        })
    }

    /// Tells a fact.
    fn add(&mut self, message: Message) -> Result<(), AllocError> {
        self.told.push(message)?;
        Ok(())
    }
}
