//! A node without what its type says: each action is a function of its own, which asks for the history's node and leaves it.
//! All memory is taken before the step.
ghost use Rattle.std.specs.Prelude.{ℕ, ◌≡◌, ◌⊎◌, ◌+◌, ◌<◌, ◌≤◌, ◌∷◌, ◌++◌, [], length, true, IfOk, IsErrOf, OnOk, OnErr};
ghost use Rattle.std.specs.Prelude.{vec_len, vec_capacity};
ghost use Rattle.actor_trace.specs.Lists.{Begins};
ghost use Rattle.actor_trace.specs.Steps.{Adds, Rests};
ghost use Rattle.cluster_steps.specs.Named.{world};
ghost use Rattle.core_lists.specs.Lists.{In};
ghost use Rattle.election_core.specs.Allowed.{AllowsExactly};
ghost use Rattle.election_core.specs.Counted.{acted, counted};
ghost use Rattle.election_core.specs.Senders.{sender_of};
ghost use Rattle.election_core.specs.declared.messages.Action.TheVariants as deed;
ghost use Rattle.node_state.specs.Calls.{Acts, Answers, Did, IsAsBefore, Judges, MayProbe, Probes, Ships};
ghost use Rattle.node_state.specs.Calls.{StandsAsCandidate, through};
ghost use Rattle.node_state.specs.Nodes.{Follows, IsOwn, held};
ghost use Rattle.node_state.specs.Stores.{FallsAfter, FallsOver, IsCalm, IsKeptBy, StopsShort};
ghost use Rattle.node_state.specs.Packets.{AreSent, IsPacket, IsSent, ask_of, asked_in, packets_of};

use crate::drafts::{Draft, packets_after, packets_probing, packets_standing};
use crate::faults::{UnderWay, Unkept};
use crate::packets::Packet;
use crate::takes::{joins, length_shipped};
use actor_trace::{Actor, Naming, Note, Trace};
use cdb_outside::LogStore;
use cluster_core::{Cluster, Plan};
use cluster_steps::Event;
use election_core::{Action, Message, NodeVote, on_message, stand};
use kept_log::KeptLog;
use phys_log::Entry;
use std::alloc::{AllocError, Global};

/// The numbers of a node, its log over its store, what was under way where that failed, and its actor.
#[derive(Drop)]
pub(crate) struct Body<D: LogStore, J: Plan, N: Naming> {
    pub vote: NodeVote,
    pub log: KeptLog<D>,
    pub under_way: UnderWay,
    pub actor: Actor<Cluster<J>, N>,
}

/// What the node decides about a message with these entries, which is nothing where they do not join its log.
#[tactic(auto, using(crate::proofs::ShipLaws::unjoined_counts_nothing))]
fn judge(vote: &mut NodeVote, message: &Message, entries: &[Entry]) -> Action
    requires nodes { vote.old.nodes ≤ 7 }
    requires sender { (0 < sender_of message.now) × (sender_of message.now ≤ vote.old.nodes) }
    requires none { Ships message.now ⊎ (entries.now ≡ []) }
    ensures judged { Judges vote.old message.now entries.now result }
    ensures vote { vote.new ≡ acted (counted vote.old message.now) result }
{
    if !joins(vote, message, entries) {
        return Action::Nothing;
    }
    on_message(vote, message)
}

/// The ask of a leader that asks for a begin.
fn ask_in(message: &Message) -> u64
    ensures { result ≡ ask_of message.now }
{
    match message {
        Message::Ping { ask, .. } => *ask,
        _ => 0,
    }
}

/// The generation that it asks to be confirmed.
fn generation_asked(message: &Message) -> u64
    ensures { result ≡ asked_in message.now }
{
    match message {
        Message::Ping { generation, .. } => *generation,
        _ => 0,
    }
}

/// The action that is done in the end: all that the message ships is taken.
fn whole_action(message: &Message, action: Action) -> Action
    ensures { result ≡ through message.now action }
{
    match action {
        Action::Take { generation, .. } => Action::Take {
            generation,
            length: length_shipped(message),
        },
        other => other,
    }
}

impl<D: LogStore + Drop, J: Plan, N: Naming> Body<D, J, N> {
    /// An event happens, by which the node has these numbers.
    pub(crate) fn happens(&mut self, trace: &Trace<Cluster<J>, N>, vote: NodeVote, event: Event)
        requires room { 0 < self.old.actor.room }
        requires is_its { self.old.vote.node ≡ self.old.actor.number }
        requires follows { Follows J.setting self.old.vote.node event vote self.old.log.entries self.old.actor.seen }
        ensures own { IsOwn J.setting (held self.new.vote self.new.log.entries self.new.actor) }
        ensures did { Did (event ∷ []) (held self.old.vote self.old.log.entries self.old.actor)
            (held self.new.vote self.new.log.entries self.new.actor) }
        ensures adds { Adds self.old.actor.number event self.old.actor.seen self.new.actor.seen }
        ensures room { self.new.actor.room + 1 ≡ self.old.actor.room }
        ensures vote { self.new.vote ≡ vote }
        ensures entries { self.new.log.entries ≡ self.old.log.entries }
        ensures log { self.new.log ≡ self.old.log }
        ensures under_way { self.new.under_way ≡ self.old.under_way }
    {
        self.actor.step(trace, event);
        self.vote = vote;
    }

    /// Knows what the note knows, too.
    pub(crate) fn hear(&mut self, trace: &Trace<Cluster<J>, N>, note: Note<Cluster<J>, N>)
        requires own { IsOwn J.setting (held self.old.vote self.old.log.entries self.old.actor) }
        ensures own { IsOwn J.setting (held self.new.vote self.new.log.entries self.new.actor) }
        ensures same { IsAsBefore (held self.old.vote self.old.log.entries self.old.actor)
            (held self.new.vote self.new.log.entries self.new.actor) }
        ensures rests { Rests self.old.actor.number self.old.actor.seen self.new.actor.seen }
        ensures log { self.new.log ≡ self.old.log }
        ensures under_way { self.new.under_way ≡ self.old.under_way }
        ensures heard { Begins note self.new.actor.seen }
        ensures room { self.new.actor.room ≡ self.old.actor.room }
    {
        self.actor.meet(trace, note);
    }

    /// A note of all that was done so far, which the node knows from now on.
    pub(crate) fn note(&mut self, trace: &Trace<Cluster<J>, N>) -> Note<Cluster<J>, N>
        requires own { IsOwn J.setting (held self.old.vote self.old.log.entries self.old.actor) }
        ensures own { IsOwn J.setting (held self.new.vote self.new.log.entries self.new.actor) }
        ensures same { IsAsBefore (held self.old.vote self.old.log.entries self.old.actor)
            (held self.new.vote self.new.log.entries self.new.actor) }
        ensures log { self.new.log ≡ self.old.log }
        ensures under_way { self.new.under_way ≡ self.old.under_way }
        ensures note { result ≡ self.new.actor.seen }
        ensures rests { Rests self.old.actor.number self.old.actor.seen self.new.actor.seen }
        ensures room { self.new.actor.room ≡ self.old.actor.room }
    {
        self.actor.note(trace)
    }

    /// Keeps what was counted.
    fn keep(&mut self, vote: NodeVote, action: Action, message: &Message, entries: &[Entry])
        requires nothing { action ≡ deed.Nothing }
        requires own { IsOwn J.setting (held self.old.vote self.old.log.entries self.old.actor) }
        requires kept { IsKeptBy self.old.vote self.old.log }
        requires packet { IsPacket J.setting message.now entries.now self.old.actor.seen }
        requires vote { vote ≡ acted (counted self.old.vote message.now) action }
        ensures own { IsOwn J.setting (held self.new.vote self.new.log.entries self.new.actor) }
        ensures kept { IsKeptBy self.new.vote self.new.log }
        ensures acts { Acts self.old.vote message.now entries.now action
            (held self.old.vote self.old.log.entries self.old.actor) (held self.new.vote self.new.log.entries self.new.actor) }
        ensures sends { AreSent J.setting self.new.actor.seen
            (packets_of self.new.vote (through message.now action) self.new.log.entries (sender_of message.now)) }
        ensures log { self.new.log ≡ self.old.log }
    {
        self.vote = vote;
    }

    /// Gives its vote.
    fn grant(
        &mut self,
        alloc: Global,
        trace: &Trace<Cluster<J>, N>,
        vote: NodeVote,
        action: Action,
        generation: u64,
        to: u8,
        message: &Message,
        entries: &[Entry],
    ) -> Result<(), Unkept>
        requires is { action ≡ deed.Promise generation to }
        requires room { 0 < self.old.actor.room }
        requires own { IsOwn J.setting (held self.old.vote self.old.log.entries self.old.actor) }
        requires kept { IsKeptBy self.old.vote self.old.log }
        requires packet { IsPacket J.setting message.now entries.now self.old.actor.seen }
        requires decided { AllowsExactly self.old.vote message.now action }
        requires vote { vote ≡ acted (counted self.old.vote message.now) action }
        ensures own { IsOwn J.setting (held self.new.vote self.new.log.entries self.new.actor) }
        ensures kept { IsKeptBy self.new.vote self.new.log }
        ensures acts { OnOk result (Acts self.old.vote message.now entries.now action
            (held self.old.vote self.old.log.entries self.old.actor) (held self.new.vote self.new.log.entries self.new.actor)) }
        ensures sends { OnOk result (AreSent J.setting self.new.actor.seen
            (packets_of self.new.vote (through message.now action) self.new.log.entries (sender_of message.now))) }
        ensures calm { OnOk result (IsCalm self.old.log self.new.log) }
        ensures unchanged { IsErrOf result Unkept.NoMemory → self.new ≡ self.old }
        ensures falls { IsErrOf result Unkept.Fault → FallsOver J.setting
            (held self.old.vote self.old.log.entries self.old.actor) (held self.new.vote self.new.log.entries self.new.actor)
            self.old.log self.new.log self.new.under_way }
    {
        self.promises(
            alloc,
            trace,
            generation,
            vote,
            Event::Grant { generation, to },
        )
    }

    /// Leads.
    fn lead(
        &mut self,
        alloc: Global,
        trace: &Trace<Cluster<J>, N>,
        vote: NodeVote,
        action: Action,
        generation: u64,
        message: &Message,
        entries: &[Entry],
    ) -> Result<(), Unkept>
        requires is { action ≡ deed.Lead generation }
        requires room { 0 < self.old.actor.room }
        requires own { IsOwn J.setting (held self.old.vote self.old.log.entries self.old.actor) }
        requires kept { IsKeptBy self.old.vote self.old.log }
        requires packet { IsPacket J.setting message.now entries.now self.old.actor.seen }
        requires decided { AllowsExactly self.old.vote message.now action }
        requires vote { vote ≡ acted (counted self.old.vote message.now) action }
        ensures own { IsOwn J.setting (held self.new.vote self.new.log.entries self.new.actor) }
        ensures kept { IsKeptBy self.new.vote self.new.log }
        ensures acts { OnOk result (Acts self.old.vote message.now entries.now action
            (held self.old.vote self.old.log.entries self.old.actor) (held self.new.vote self.new.log.entries self.new.actor)) }
        ensures sends { OnOk result (AreSent J.setting self.new.actor.seen
            (packets_of self.new.vote (through message.now action) self.new.log.entries (sender_of message.now))) }
        ensures calm { OnOk result (IsCalm self.old.log self.new.log) }
        ensures unchanged { IsErrOf result Unkept.NoMemory → self.new ≡ self.old }
        ensures falls { IsErrOf result Unkept.Fault → FallsOver J.setting
            (held self.old.vote self.old.log.entries self.old.actor) (held self.new.vote self.new.log.entries self.new.actor)
            self.old.log self.new.log self.new.under_way }
    {
        self.leads(alloc, trace, generation, vote)
    }

    /// Knows that length as durable.
    fn learn(
        &mut self,
        trace: &Trace<Cluster<J>, N>,
        vote: NodeVote,
        action: Action,
        durable: u64,
        message: &Message,
        entries: &[Entry],
    )
        requires is { action ≡ deed.Know durable }
        requires room { 0 < self.old.actor.room }
        requires own { IsOwn J.setting (held self.old.vote self.old.log.entries self.old.actor) }
        requires kept { IsKeptBy self.old.vote self.old.log }
        requires packet { IsPacket J.setting message.now entries.now self.old.actor.seen }
        requires decided { AllowsExactly self.old.vote message.now action }
        requires vote { vote ≡ acted (counted self.old.vote message.now) action }
        ensures own { IsOwn J.setting (held self.new.vote self.new.log.entries self.new.actor) }
        ensures kept { IsKeptBy self.new.vote self.new.log }
        ensures acts { Acts self.old.vote message.now entries.now action
            (held self.old.vote self.old.log.entries self.old.actor) (held self.new.vote self.new.log.entries self.new.actor) }
        ensures sends { AreSent J.setting self.new.actor.seen
            (packets_of self.new.vote (through message.now action) self.new.log.entries (sender_of message.now)) }
        ensures log { self.new.log ≡ self.old.log }
    {
        self.happens(trace, vote, Event::Learn { length: durable });
    }

    /// Confirms the generation of a leader that asks for a begin.
    fn confirm(
        &mut self,
        trace: &Trace<Cluster<J>, N>,
        vote: NodeVote,
        action: Action,
        answer: Message,
        to: u8,
        message: &Message,
        entries: &[Entry],
    )
        requires is { action ≡ deed.Answer answer to }
        requires room { 0 < self.old.actor.room }
        requires own { IsOwn J.setting (held self.old.vote self.old.log.entries self.old.actor) }
        requires kept { IsKeptBy self.old.vote self.old.log }
        requires packet { IsPacket J.setting message.now entries.now self.old.actor.seen }
        requires decided { AllowsExactly self.old.vote message.now action }
        requires vote { vote ≡ acted (counted self.old.vote message.now) action }
        ensures own { IsOwn J.setting (held self.new.vote self.new.log.entries self.new.actor) }
        ensures kept { IsKeptBy self.new.vote self.new.log }
        ensures acts { Acts self.old.vote message.now entries.now action
            (held self.old.vote self.old.log.entries self.old.actor) (held self.new.vote self.new.log.entries self.new.actor) }
        ensures sends { AreSent J.setting self.new.actor.seen
            (packets_of self.new.vote (through message.now action) self.new.log.entries (sender_of message.now)) }
        ensures log { self.new.log ≡ self.old.log }
    {
        let generation = generation_asked(message);
        let ask = ask_in(message);
        self.happens(trace, vote, Event::Confirm { ask, generation });
    }

    /// Does what was decided about a message.
    #[tactic(auto, using(crate::proofs::ActionLaws::judged_grant, crate::proofs::ActionLaws::judged_lead, crate::proofs::ActionLaws::judged_know, crate::proofs::ActionLaws::judged_answer, crate::proofs::ActionLaws::judged_take, crate::proofs::ActionLaws::judged_joins))]
    fn act(
        &mut self,
        alloc: Global,
        trace: &Trace<Cluster<J>, N>,
        vote: NodeVote,
        action: Action,
        message: &Message,
        entries: &[Entry],
    ) -> Result<(), Unkept>
        requires room { length entries.now + 1 ≤ self.old.actor.room }
        requires own { IsOwn J.setting (held self.old.vote self.old.log.entries self.old.actor) }
        requires kept { IsKeptBy self.old.vote self.old.log }
        requires packet { IsPacket J.setting message.now entries.now self.old.actor.seen }
        requires judged { Judges self.old.vote message.now entries.now action }
        requires vote { vote ≡ acted (counted self.old.vote message.now) action }
        ensures own { IsOwn J.setting (held self.new.vote self.new.log.entries self.new.actor) }
        ensures kept { IsKeptBy self.new.vote self.new.log }
        ensures acts { OnOk result (Acts self.old.vote message.now entries.now action
            (held self.old.vote self.old.log.entries self.old.actor) (held self.new.vote self.new.log.entries self.new.actor)) }
        ensures sends { OnOk result (AreSent J.setting self.new.actor.seen
            (packets_of self.new.vote (through message.now action) self.new.log.entries (sender_of message.now))) }
        ensures calm { OnOk result (IsCalm self.old.log self.new.log) }
        ensures short { IsErrOf result Unkept.NoMemory → StopsShort message.now entries.now
            (held self.old.vote self.old.log.entries self.old.actor) (held self.new.vote self.new.log.entries self.new.actor)
            self.old.log self.new.log }
        ensures falls { IsErrOf result Unkept.Fault → FallsAfter J.setting message.now entries.now
            (held self.old.vote self.old.log.entries self.old.actor) (held self.new.vote self.new.log.entries self.new.actor)
            self.old.log self.new.log self.new.under_way }
    {
        match action {
            Action::Nothing => {
                self.keep(vote, action, message, entries);
                Ok(())
            }
            Action::Promise { generation, to } => {
                self.grant(alloc, trace, vote, action, generation, to, message, entries)
            }
            Action::Lead { generation } => {
                self.lead(alloc, trace, vote, action, generation, message, entries)
            }
            Action::Know { durable } => {
                self.learn(trace, vote, action, durable, message, entries);
                Ok(())
            }
            Action::Answer {
                message: answer,
                to,
            } => {
                self.confirm(trace, vote, action, answer, to, message, entries);
                Ok(())
            }
            Action::Take { generation, length } => self.accept(
                alloc, trace, vote, action, generation, length, message, entries,
            ),
        }
    }

    /// Takes a message in with its entries, and answers what it sends about it. What it sends is made first.
    pub(crate) fn deliver(
        &mut self,
        alloc: Global,
        trace: &Trace<Cluster<J>, N>,
        message: &Message,
        entries: &[Entry],
    ) -> Result<Vec<Packet<J, N>>, Unkept>
        requires room { length entries.now + 1 ≤ self.old.actor.room }
        requires own { IsOwn J.setting (held self.old.vote self.old.log.entries self.old.actor) }
        requires kept { IsKeptBy self.old.vote self.old.log }
        requires packet { IsPacket J.setting message.now entries.now self.old.actor.seen }
        ensures own { IsOwn J.setting (held self.new.vote self.new.log.entries self.new.actor) }
        ensures kept { IsKeptBy self.new.vote self.new.log }
        ensures delivers { IfOk result (λ ps. Answers message.now entries.now ps.items
            (held self.old.vote self.old.log.entries self.old.actor) (held self.new.vote self.new.log.entries self.new.actor)) }
        ensures calm { OnOk result (IsCalm self.old.log self.new.log) }
        ensures short { IsErrOf result Unkept.NoMemory → StopsShort message.now entries.now
            (held self.old.vote self.old.log.entries self.old.actor) (held self.new.vote self.new.log.entries self.new.actor)
            self.old.log self.new.log }
        ensures falls { IsErrOf result Unkept.Fault → FallsAfter J.setting message.now entries.now
            (held self.old.vote self.old.log.entries self.old.actor) (held self.new.vote self.new.log.entries self.new.actor)
            self.old.log self.new.log self.new.under_way }
    {
        let mut vote = self.vote;
        let action = judge(&mut vote, message, entries);
        let whole = whole_action(message, action);
        let drafts = packets_after(alloc, &vote, &whole, self.log.entries(), message.sender())?;
        let mut packets = Vec::with_capacity(alloc, drafts.len())?;
        self.act(alloc, trace, vote, action, message, entries)?;
        self.send(trace, drafts, &mut packets);
        Ok(packets)
    }

    /// Sends what it told: each packet goes out with a note of its own.
    pub(crate) fn send(
        &mut self,
        trace: &Trace<Cluster<J>, N>,
        drafts: Vec<Draft>,
        packets: &mut Vec<Packet<J, N>>,
    )
        requires own { IsOwn J.setting (held self.old.vote self.old.log.entries self.old.actor) }
        requires sent { AreSent J.setting self.old.actor.seen drafts.items }
        requires room { vec_len packets.old + length drafts.items ≤ vec_capacity packets.old }
        ensures own { IsOwn J.setting (held self.new.vote self.new.log.entries self.new.actor) }
        ensures same { IsAsBefore (held self.old.vote self.old.log.entries self.old.actor)
            (held self.new.vote self.new.log.entries self.new.actor) }
        ensures log { self.new.log ≡ self.old.log }
        ensures under_way { self.new.under_way ≡ self.old.under_way }
        ensures packets { packets.new.items ≡ packets.old.items ++ drafts.items }
    {
        'sending: for draft in drafts {
            let packet = self.sent(trace, draft);
            if packets.push(packet).is_err() {
                unreachable!();
            }
        }
    }

    /// One packet, with a note.
    fn sent(&mut self, trace: &Trace<Cluster<J>, N>, draft: Draft) -> Packet<J, N>
        requires own { IsOwn J.setting (held self.old.vote self.old.log.entries self.old.actor) }
        requires sent { IsSent J.setting self.old.actor.seen draft }
        ensures own { IsOwn J.setting (held self.new.vote self.new.log.entries self.new.actor) }
        ensures same { IsAsBefore (held self.old.vote self.old.log.entries self.old.actor)
            (held self.new.vote self.new.log.entries self.new.actor) }
        ensures rests { Rests self.old.actor.number self.old.actor.seen self.new.actor.seen }
        ensures log { self.new.log ≡ self.old.log }
        ensures under_way { self.new.under_way ≡ self.old.under_way }
        ensures packet { result ≡ draft }
    {
        let note = self.note(trace);
        let Draft {
            to,
            message,
            entries,
        } = draft;
        Packet {
            to,
            message,
            entries,
            note,
        }
    }

    /// Stands in that generation, where it is above its promise.
    pub(crate) fn stand(
        &mut self,
        alloc: Global,
        trace: &Trace<Cluster<J>, N>,
        generation: u64,
    ) -> Result<Vec<Packet<J, N>>, Unkept>
        requires room { 0 < self.old.actor.room }
        requires up { self.old.vote.up ≡ true }
        requires above { self.old.vote.promised < generation }
        requires own { IsOwn J.setting (held self.old.vote self.old.log.entries self.old.actor) }
        requires kept { IsKeptBy self.old.vote self.old.log }
        ensures own { IsOwn J.setting (held self.new.vote self.new.log.entries self.new.actor) }
        ensures kept { IsKeptBy self.new.vote self.new.log }
        ensures stands { IfOk result (λ ps. StandsAsCandidate generation ps.items
            (held self.old.vote self.old.log.entries self.old.actor)
            (held self.new.vote self.new.log.entries self.new.actor)) }
        ensures calm { OnOk result (IsCalm self.old.log self.new.log) }
        ensures falls { IsErrOf result Unkept.Fault → FallsOver J.setting
            (held self.old.vote self.old.log.entries self.old.actor) (held self.new.vote self.new.log.entries self.new.actor)
            self.old.log self.new.log self.new.under_way }
        ensures unchanged { IsErrOf result Unkept.NoMemory → self.new ≡ self.old }
    {
        let mut vote = self.vote;
        stand(&mut vote, generation);
        let drafts = packets_standing(alloc, &vote, generation)?;
        let mut packets = Vec::with_capacity(alloc, drafts.len())?;
        self.promises(alloc, trace, generation, vote, Event::Stand { generation })?;
        self.send(trace, drafts, &mut packets);
        Ok(packets)
    }

    /// Asks the others to confirm its generation, for a begin that was asked for.
    pub(crate) fn probe(
        &mut self,
        alloc: Global,
        trace: &Trace<Cluster<J>, N>,
        ask: u64,
    ) -> Result<Vec<Packet<J, N>>, AllocError>
        requires room { 0 < self.old.actor.room }
        requires up { self.old.vote.up ≡ true }
        requires may { MayProbe self.old.vote }
        requires asked { In ask (world J.setting self.old.actor.seen).asks }
        requires own { IsOwn J.setting (held self.old.vote self.old.log.entries self.old.actor) }
        requires kept { IsKeptBy self.old.vote self.old.log }
        ensures own { IsOwn J.setting (held self.new.vote self.new.log.entries self.new.actor) }
        ensures kept { IsKeptBy self.new.vote self.new.log }
        ensures probes { IfOk result (λ ps. Probes ask ps.items (held self.old.vote self.old.log.entries self.old.actor)
            (held self.new.vote self.new.log.entries self.new.actor)) }
        ensures log { self.new.log ≡ self.old.log }
        ensures err { OnErr result (self.new ≡ self.old) }
    {
        let vote = self.vote;
        let drafts = packets_probing(alloc, &vote, ask)?;
        let mut packets = Vec::with_capacity(alloc, drafts.len())?;
        self.happens(trace, vote, Event::Probe { ask });
        self.send(trace, drafts, &mut packets);
        Ok(packets)
    }
}
