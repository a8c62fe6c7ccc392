//! A node takes a log that is shipped: whole, where the generation is a new one; else the entries that it has not, one by one.
ghost use Rattle.std.specs.Prelude.{ℕ, ◌≡◌, ◌+◌, ◌-◌, ◌<◌, ◌≤◌, ◌↔◌, ◌++◌, ◌∷◌, [], List, length, true, IsTrue, IfOk};
ghost use Rattle.std.specs.Prelude.{OnOk, IsErrOf};
ghost use Rattle.cluster_steps.specs.declared.events.Event.TheVariants.{Take};
ghost use Rattle.election_core.specs.Allowed.{Allows, AllowsExactly};
ghost use Rattle.election_core.specs.Counted.{acted, counted};
ghost use Rattle.election_core.specs.Senders.{sender_of};
ghost use Rattle.election_core.specs.declared.messages.Action.TheVariants as deed;
ghost use Rattle.election_core.specs.declared.messages.Message.TheVariants.{Ack};
ghost use Rattle.node_state.specs.Calls.{Acts, Continues, Joins, TakesOne, through};
ghost use Rattle.node_state.specs.Nodes.{IsOwn, held};
ghost use Rattle.node_state.specs.Stores.{FallsAfter, FallsOver, IsCalm, IsKeptBy, StopsShort};
ghost use Rattle.node_state.specs.Packets.{AreSent, IsPacket, packets_of, shipped_in, shipped_length};

use crate::bodies::Body;
use crate::drafts::copies;
use crate::faults::Unkept;
use actor_trace::{Naming, Trace};
use cdb_outside::LogStore;
use cluster_core::{Cluster, Plan};
use cluster_steps::Event;
use election_core::{Action, Message, NodeVote};
use phys_log::{Entry, copy_entry};
use std::alloc::Global;

/// The length of the log that a message ships.
pub(crate) fn length_shipped(message: &Message) -> u64
    ensures { result ≡ shipped_length message.now }
{
    match message {
        Message::Adopt { length, .. } | Message::Ship { length, .. } => *length,
        _ => 0,
    }
}

/// The generation of the log that a message ships.
fn generation_shipped(message: &Message) -> u64
    ensures { result ≡ shipped_in message.now }
{
    match message {
        Message::Adopt { generation, .. } | Message::Ship { generation, .. } => *generation,
        _ => 0,
    }
}

/// Whether the entries of a message join the log.
#[tactic(auto, using(crate::proofs::ShipLaws::joins_where))]
pub(crate) fn joins(vote: &NodeVote, message: &Message, entries: &[Entry]) -> bool
    ensures { IsTrue result ↔ Joins vote.now message.now entries.now }
{
    let count = entries.len() as u64;
    let length = length_shipped(message);
    length.saturating_sub(count) <= vote.length
        && (generation_shipped(message) <= vote.accepted || count == length)
}

/// The numbers with a log of that length, which is taken in that generation.
fn with_taken(vote: &NodeVote, generation: u64, length: u64) -> NodeVote
    ensures { result ≡ acted vote.now (deed.Take generation length) }
{
    let mut taken = *vote;
    taken.leading = vote.leading && vote.accepted == generation;
    taken.promised = generation;
    taken.accepted = generation;
    taken.length = length;
    taken.granted = 0;
    taken
}

impl<D: LogStore + Drop, J: Plan, N: Naming> Body<D, J, N> {
    /// Accepts a log.
    pub(crate) fn accept(
        &mut self,
        alloc: Global,
        trace: &Trace<Cluster<J>, N>,
        vote: NodeVote,
        action: Action,
        generation: u64,
        taken: u64,
        message: &Message,
        entries: &[Entry],
    ) -> Result<(), Unkept>
        requires is { action ≡ deed.Take generation taken }
        requires room { length entries.now + 1 ≤ self.old.actor.room }
        requires own { IsOwn J.setting (held self.old.vote self.old.log.entries self.old.actor) }
        requires kept { IsKeptBy self.old.vote self.old.log }
        requires packet { IsPacket J.setting message.now entries.now self.old.actor.seen }
        requires joins { Joins self.old.vote message.now entries.now }
        requires decided { AllowsExactly self.old.vote message.now action }
        requires vote { vote ≡ acted (counted self.old.vote message.now) action }
        ensures own { IsOwn J.setting (held self.new.vote self.new.log.entries self.new.actor) }
        ensures kept { IsKeptBy self.new.vote self.new.log }
        ensures acts { OnOk result (Acts self.old.vote message.now entries.now action
            (held self.old.vote self.old.log.entries self.old.actor) (held self.new.vote self.new.log.entries self.new.actor)) }
        ensures sends { OnOk result (AreSent J.setting self.new.actor.seen
            (packets_of self.new.vote (through message.now action) self.new.log.entries (sender_of message.now))) }
        ensures calm { OnOk result (IsCalm self.old.log self.new.log) }
        ensures short { IsErrOf result Unkept.NoMemory → StopsShort message.now entries.now
            (held self.old.vote self.old.log.entries self.old.actor) (held self.new.vote self.new.log.entries self.new.actor)
            self.old.log self.new.log }
        ensures falls { IsErrOf result Unkept.Fault → FallsAfter J.setting message.now entries.now
            (held self.old.vote self.old.log.entries self.old.actor) (held self.new.vote self.new.log.entries self.new.actor)
            self.old.log self.new.log self.new.under_way }
    {
        if self.vote.accepted < generation {
            self.take_whole(alloc, trace, vote, generation, taken, message, entries)
        } else if self.vote.length < taken {
            self.take_rest(alloc, trace, generation, taken, message, entries)
        } else {
            self.take_none(trace, vote, generation, taken, message, entries);
            Ok(())
        }
    }

    /// A log of a newer generation, whole: whatever stood in its place is dropped.
    fn take_whole(
        &mut self,
        alloc: Global,
        trace: &Trace<Cluster<J>, N>,
        vote: NodeVote,
        generation: u64,
        taken: u64,
        message: &Message,
        entries: &[Entry],
    ) -> Result<(), Unkept>
        requires newer { self.old.vote.accepted < generation }
        requires room { length entries.now + 1 ≤ self.old.actor.room }
        requires own { IsOwn J.setting (held self.old.vote self.old.log.entries self.old.actor) }
        requires kept { IsKeptBy self.old.vote self.old.log }
        requires packet { IsPacket J.setting message.now entries.now self.old.actor.seen }
        requires joins { Joins self.old.vote message.now entries.now }
        requires allowed { Allows self.old.vote message.now (deed.Take generation taken) }
        requires vote { vote ≡ acted (counted self.old.vote message.now) (deed.Take generation taken) }
        ensures own { IsOwn J.setting (held self.new.vote self.new.log.entries self.new.actor) }
        ensures kept { IsKeptBy self.new.vote self.new.log }
        ensures acts { OnOk result
            (Acts self.old.vote message.now entries.now (deed.Take generation taken)
            (held self.old.vote self.old.log.entries self.old.actor) (held self.new.vote self.new.log.entries self.new.actor)) }
        ensures sends { OnOk result (AreSent J.setting self.new.actor.seen (packets_of self.new.vote
            (through message.now (deed.Take generation taken)) self.new.log.entries (sender_of message.now))) }
        ensures calm { OnOk result (IsCalm self.old.log self.new.log) }
        ensures unchanged { IsErrOf result Unkept.NoMemory → self.new ≡ self.old }
        ensures falls { IsErrOf result Unkept.Fault → FallsOver J.setting
            (held self.old.vote self.old.log.entries self.old.actor) (held self.new.vote self.new.log.entries self.new.actor)
            self.old.log self.new.log self.new.under_way }
    {
        let copies = copies(alloc, entries)?;
        self.takes(alloc, trace, generation, taken, vote, copies)
    }

    /// All of it is there.
    fn take_none(
        &mut self,
        trace: &Trace<Cluster<J>, N>,
        vote: NodeVote,
        generation: u64,
        taken: u64,
        message: &Message,
        entries: &[Entry],
    )
        requires same { self.old.vote.accepted < generation → ⊥ }
        requires whole { self.old.vote.length < taken → ⊥ }
        requires room { length entries.now + 1 ≤ self.old.actor.room }
        requires own { IsOwn J.setting (held self.old.vote self.old.log.entries self.old.actor) }
        requires kept { IsKeptBy self.old.vote self.old.log }
        requires packet { IsPacket J.setting message.now entries.now self.old.actor.seen }
        requires allowed { Allows self.old.vote message.now (deed.Take generation taken) }
        requires vote { vote ≡ acted (counted self.old.vote message.now) (deed.Take generation taken) }
        ensures own { IsOwn J.setting (held self.new.vote self.new.log.entries self.new.actor) }
        ensures kept { IsKeptBy self.new.vote self.new.log }
        ensures acts { Acts self.old.vote message.now entries.now (deed.Take generation taken)
            (held self.old.vote self.old.log.entries self.old.actor) (held self.new.vote self.new.log.entries self.new.actor) }
        ensures sends { AreSent J.setting self.new.actor.seen (packets_of self.new.vote
            (through message.now (deed.Take generation taken)) self.new.log.entries (sender_of message.now)) }
        ensures log { self.new.log ≡ self.old.log }
    {
        self.happens(
            trace,
            vote,
            Event::Take {
                generation,
                length: taken,
            },
        );
    }

    /// The entries that it has not, one by one. After want of memory it has taken the first ones of them.
    fn take_rest(
        &mut self,
        alloc: Global,
        trace: &Trace<Cluster<J>, N>,
        generation: u64,
        taken: u64,
        message: &Message,
        entries: &[Entry],
    ) -> Result<(), Unkept>
        requires same { self.old.vote.accepted < generation → ⊥ }
        requires longer { self.old.vote.length < taken }
        requires room { length entries.now + 1 ≤ self.old.actor.room }
        requires own { IsOwn J.setting (held self.old.vote self.old.log.entries self.old.actor) }
        requires kept { IsKeptBy self.old.vote self.old.log }
        requires packet { IsPacket J.setting message.now entries.now self.old.actor.seen }
        requires joins { Joins self.old.vote message.now entries.now }
        requires allowed { Allows self.old.vote message.now (deed.Take generation taken) }
        ensures own { IsOwn J.setting (held self.new.vote self.new.log.entries self.new.actor) }
        ensures kept { IsKeptBy self.new.vote self.new.log }
        ensures acts { OnOk result
            (Acts self.old.vote message.now entries.now (deed.Take generation taken)
            (held self.old.vote self.old.log.entries self.old.actor) (held self.new.vote self.new.log.entries self.new.actor)) }
        ensures sends { OnOk result (AreSent J.setting self.new.actor.seen (packets_of self.new.vote
            (through message.now (deed.Take generation taken)) self.new.log.entries (sender_of message.now))) }
        ensures calm { OnOk result (IsCalm self.old.log self.new.log) }
        ensures short { IsErrOf result Unkept.NoMemory → StopsShort message.now entries.now
            (held self.old.vote self.old.log.entries self.old.actor) (held self.new.vote self.new.log.entries self.new.actor)
            self.old.log self.new.log }
        ensures falls { IsErrOf result Unkept.Fault → FallsAfter J.setting message.now entries.now
            (held self.old.vote self.old.log.entries self.old.actor) (held self.new.vote self.new.log.entries self.new.actor)
            self.old.log self.new.log self.new.under_way }
    {
        self.take_one(alloc, trace, message, entries)?;
        'taking: while self.vote.length < length_shipped(message) {
            self.take_one(alloc, trace, message, entries)?;
        }
        Ok(())
    }

    /// One entry more.
    fn take_one(
        &mut self,
        alloc: Global,
        trace: &Trace<Cluster<J>, N>,
        message: &Message,
        entries: &[Entry],
    ) -> Result<(), Unkept>
        requires continues { Continues self.old.vote message.now }
        requires room { 0 < self.old.actor.room }
        requires own { IsOwn J.setting (held self.old.vote self.old.log.entries self.old.actor) }
        requires kept { IsKeptBy self.old.vote self.old.log }
        requires packet { IsPacket J.setting message.now entries.now self.old.actor.seen }
        requires joins { Joins self.old.vote message.now entries.now }
        ensures own { IsOwn J.setting (held self.new.vote self.new.log.entries self.new.actor) }
        ensures kept { IsKeptBy self.new.vote self.new.log }
        ensures takes { OnOk result (TakesOne J.setting message.now entries.now
            (held self.old.vote self.old.log.entries self.old.actor) (held self.new.vote self.new.log.entries self.new.actor)) }
        ensures calm { OnOk result (IsCalm self.old.log self.new.log) }
        ensures unchanged { IsErrOf result Unkept.NoMemory → self.new ≡ self.old }
        ensures falls { IsErrOf result Unkept.Fault → FallsOver J.setting
            (held self.old.vote self.old.log.entries self.old.actor) (held self.new.vote self.new.log.entries self.new.actor)
            self.old.log self.new.log self.new.under_way }
    {
        let generation = generation_shipped(message);
        let skipped = length_shipped(message).saturating_sub(entries.len() as u64);
        let at = self.vote.length - skipped;
        let entry = copy_entry(alloc, &entries[at as usize])?;
        let length = self.vote.length + 1;
        let vote = with_taken(&self.vote, generation, length);
        self.grows(alloc, trace, generation, length, vote, entry)
    }
}
