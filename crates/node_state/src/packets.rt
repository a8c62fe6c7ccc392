//! Packets under way.
ghost use Rattle.std.specs.Prelude.{◌≡◌};

use actor_trace::{Naming, Note};
use cluster_core::{Cluster, Plan};
use election_core::Message;
use phys_log::Entry;
use std::marker::Model;

/// A message under way to a node, with the last entries of the log that it tells, and a note of who told it. Its type says
/// that the message was told.
#[derive(Drop)]
pub struct Packet<J: Plan, N: Naming> {
    pub(crate) to: u8,
    pub(crate) message: Message,
    pub(crate) entries: Vec<Entry>,
    pub(crate) note: Note<Cluster<J>, N>,
}

impl<J: Plan, N: Naming> Model for Packet<J, N> {
    ghost use Rattle.node_state.specs.Packets.{SentPacket, IsPacket};

    ghost Value = { SentPacket };

    ghost view = { λ p. record { to = p.to; message = p.message; entries = p.entries.items } };

    ghost invariant = { λ p. IsPacket J.setting p.message p.entries.items p.note };
}

impl<J: Plan, N: Naming> Packet<J, N> {
    ghost use Rattle.node_state.specs.Packets.{IsPacket};

    /// To which node it goes.
    pub fn to(&self) -> u8
        ensures { result ≡ self.now.to }
    {
        self.to
    }

    /// What it tells.
    pub fn message(&self) -> Message
        ensures { result ≡ self.now.message }
    {
        self.message
    }

    /// The last entries of the log that it tells.
    pub fn entries(&self) -> &[Entry]
        ensures { result.now ≡ self.now.entries }
    {
        self.entries.as_slice()
    }

    /// What it tells, and the note of who told it: who knows what the note knows knows that the message was told.
    pub fn open(self) -> (Message, Note<Cluster<J>, N>)
        ensures message { result.0 ≡ self.message }
        ensures told { IsPacket J.setting self.message self.entries result.1 }
    {
        let Packet { message, note, .. } = self;
        (message, note)
    }
}
