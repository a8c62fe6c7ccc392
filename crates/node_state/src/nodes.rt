//! A node, and its calls.
ghost use Rattle.std.specs.Prelude.{ℕ, ◌≡◌, ◌+◌, ◌<◌, ◌≤◌, ◌++◌, ◌∷◌, [], true, false, length, IfOk, IfErr, OnOk, OnErr};
ghost use Rattle.actor_trace.specs.History.{entries_of};
ghost use Rattle.actor_trace.specs.Lists.{Begins};
ghost use Rattle.cluster_events.specs.Operator.{IsStartOrdered};
ghost use Rattle.cluster_events.specs.Settings.{lines_to_do};
ghost use Rattle.cluster_steps.specs.Guards.{IsPlan};
ghost use Rattle.cluster_steps.specs.Named.{steps, world};
ghost use Rattle.cluster_steps.specs.declared.events.Event.TheVariants as event;
ghost use Rattle.cluster_steps.specs.declared.events.Woken.TheVariants as woken;
ghost use Rattle.core_lists.specs.Lists.{In};
ghost use Rattle.kept_log.specs.Kept.{HoldsAny, StandsStill, kept_by};
ghost use Rattle.node_reading.specs.Reading.{IsWhyUnread, WasFound, WasRead};
ghost use Rattle.node_state.specs.Commits.{IsEntered, MayEnter, MaySettle, Settles};
ghost use Rattle.node_state.specs.Nodes.{blank_vote};
ghost use Rattle.node_state.specs.Restarts.{Falls, IsStarted, IsStartTold, IsStopTold};
ghost use Rattle.node_state.specs.Ships.{ShipsAgain};
ghost use Rattle.phys_log.specs.Logs.{Fits};

use crate::bodies::Body;
use crate::faults::{UnderWay, Unkept};
use crate::packets::Packet;
use crate::steps::{BeginStep, Started, Step};
use actor_trace::{Actor, Naming, Note, Trace};
use cdb_outside::LogStore;
use cdb_values::Schema;
use cluster_core::{Cluster, Plan};
use election_core::NodeVote;
use kept_log::KeptLog;
use log_replay::PagedLog;
use node_reading::{Found, WhyUnread};
use phys_log::{CommitId, Decision, Entry};
use std::alloc::{AllocError, Global};
use std::marker::Model;
use std::snapshot::Snapshot;
use table_state::State;

/// A node of a cluster. Its type says that it is the history's node: its numbers and its log are those of its part after what
/// its actor saw, and each vote and length that it counted was told. The log over its store is its own, and where it is down it
/// may come up with what its store holds.
#[derive(Drop)]
pub struct Node<D: LogStore, J: Plan, N: Naming> {
    body: Body<D, J, N>,
}

impl<D: LogStore, J: Plan, N: Naming> Model for Node<D, J, N> {
    ghost use Rattle.node_state.specs.Nodes.{held};
    ghost use Rattle.node_state.specs.Stores.{IsStored, Stored, stored};

    ghost Value = { Stored };

    ghost view = { λ n. stored n.body.vote n.body.actor n.body.log };

    ghost invariant = { λ n. IsStored J.setting (held n.body.vote n.body.log.entries n.body.actor) n.body.log n.body.under_way };
}

impl<D: LogStore + Drop, J: Plan, N: Naming> Node<D, J, N> {
    ghost use Rattle.node_state.specs.Calls.{IsAsBefore, IsBegun, IsBehind, IsDelivered, IsSetUp, IsStood};
    ghost use Rattle.node_state.specs.Nodes.{IsOwn};
    ghost use Rattle.node_state.specs.Stores.{AsksStore, IsCalm, IsKeptBy, IsLeft, IsRead, IsStartedSo, IsUnopened, MayBeFirst};
    ghost use Rattle.node_state.specs.Stores.{OpensStore, StaysShut, StopsShort, held_of};

    /// A node that is down, with a log that was not opened yet.
    pub fn new(node: u8, nodes: u8, log: KeptLog<D>, actor: Actor<Cluster<J>, N>) -> Node<D, J, N>
        requires plan { IsPlan J.setting }
        requires run { (nodes ≡ J.setting.nodes) × (nodes ≤ 7) × (1 ≤ node) × (node ≤ nodes) }
        requires log { IsKeptBy (blank_vote node nodes) log × (log.entries ≡ []) }
        requires actor { (actor.number ≡ node) × (actor.made ≡ []) }
        ensures vote { result.vote ≡ blank_vote node nodes }
        ensures over { result.over ≡ log }
        ensures actor { result.actor ≡ actor }
    {
        actor.knows();
        Node {
            body: Body {
                vote: first_vote(node, nodes),
                log,
                under_way: UnderWay::Nothing,
                actor,
            },
        }
    }

    /// Its numbers, up or down.
    pub fn vote(&self) -> &NodeVote
        ensures { result.now ≡ self.now.vote }
    {
        &self.body.vote
    }

    /// Its log, up or down.
    pub fn entries(&self) -> &[Entry]
        ensures { result.now ≡ self.now.entries }
    {
        self.body.log.entries()
    }

    /// Its log with its pages, up or down.
    pub fn log(&self) -> &PagedLog
        ensures { result.now ≡ self.now.entries }
    {
        self.body.log.log()
    }

    /// It is the history's node over its store, and what it did is its part of what it knows. Where it is down and was up before,
    /// this is what its store may hold.
    pub fn knows(&self)
        ensures own { IsOwn J.setting (held_of self.now) }
        ensures over { IsKeptBy self.now.vote self.now.over × (self.now.over.entries ≡ self.now.entries) }
        ensures made { self.now.actor.made ≡ entries_of self.now.actor.number self.now.actor.seen }
        ensures left { IsLeft J.setting self.now }
    {
        self.body.actor.knows();
    }

    /// Room for at least `n` further steps.
    pub fn reserve(&mut self, n: u32) -> Result<(), AllocError>
        ensures same { IsAsBefore (held_of self.old) (held_of self.new) }
        ensures over { self.new.over ≡ self.old.over }
        ensures room { IfOk result (λ _. n ≤ self.new.actor.room) }
    {
        self.body.actor.reserve(n)
    }

    /// Knows what the note knows, too.
    pub fn hear(&mut self, trace: &Trace<Cluster<J>, N>, note: Note<Cluster<J>, N>)
        ensures same { IsAsBefore (held_of self.old) (held_of self.new) }
        ensures over { self.new.over ≡ self.old.over }
        ensures heard { Begins note self.new.actor.seen }
    {
        self.body.hear(trace, note);
    }

    /// A note of all that was done so far, which the node knows from now on.
    pub fn note(&mut self, trace: &Trace<Cluster<J>, N>) -> Note<Cluster<J>, N>
        ensures same { IsAsBefore (held_of self.old) (held_of self.new) }
        ensures over { self.new.over ≡ self.old.over }
        ensures note { result ≡ self.new.actor.seen }
    {
        self.body.note(trace)
    }

    /// Stands in that generation: nothing is sent where it is not above its promise.
    pub fn stand(
        &mut self,
        alloc: Global,
        trace: &Trace<Cluster<J>, N>,
        generation: u64,
    ) -> Result<Step<Vec<Packet<J, N>>>, AllocError>
        requires room { 0 < self.old.actor.room }
        ensures stood { IfOk result (λ s. IsStood generation s (held_of self.old) (held_of self.new)) }
        ensures store { IfOk result (λ s. AsksStore s self.old.over self.new.over) }
        ensures unchanged { OnErr result (self.new ≡ self.old) }
    {
        if !self.body.vote.up {
            return Ok(Step::Down);
        }
        if generation <= self.body.vote.promised {
            return Ok(Step::Sent(Vec::new(alloc)));
        }
        match self.body.stand(alloc, trace, generation) {
            Ok(packets) => Ok(Step::Sent(packets)),
            Err(Unkept::Fault) => Ok(Step::Fault),
            Err(Unkept::NoMemory) => Err(AllocError),
        }
    }

    /// Takes a packet in. Nothing is asked of it: its type says that its message was told. After want of memory the node may
    /// have taken the first entries of it, each by an event of its own.
    pub fn deliver(
        &mut self,
        alloc: Global,
        trace: &Trace<Cluster<J>, N>,
        packet: Packet<J, N>,
    ) -> Result<Step<Vec<Packet<J, N>>>, AllocError>
        requires room { length packet.entries + 1 ≤ self.old.actor.room }
        ensures delivered { IfOk result (λ s. IsDelivered packet s (held_of self.old) (held_of self.new)) }
        ensures behind { IfOk result (λ s. IsBehind packet.message s) }
        ensures store { IfOk result (λ s. AsksStore s self.old.over self.new.over) }
        ensures short { OnErr result (StopsShort packet.message packet.entries (held_of self.old) (held_of self.new)
            self.old.over self.new.over) }
    {
        let Packet {
            message,
            entries,
            note,
            ..
        } = packet;
        self.body.hear(trace, note);
        if !self.body.vote.up {
            return Ok(Step::Down);
        }
        match self
            .body
            .deliver(alloc, trace, &message, entries.as_slice())
        {
            Ok(packets) => Ok(Step::Sent(packets)),
            Err(Unkept::Fault) => Ok(Step::Fault),
            Err(Unkept::NoMemory) => Err(AllocError),
        }
    }

    /// A begin asks for a position: the node knows the ask.
    pub fn begin(
        &mut self,
        alloc: Global,
        trace: &Trace<Cluster<J>, N>,
        ask: u64,
    ) -> Result<BeginStep<Vec<Packet<J, N>>>, AllocError>
        requires room { 0 < self.old.actor.room }
        requires asked { In ask (world J.setting self.old.actor.seen).asks }
        ensures begun { IfOk result (λ s. IsBegun ask s (held_of self.old) (held_of self.new)) }
        ensures over { self.new.over ≡ self.old.over }
        ensures unchanged { OnErr result (self.new ≡ self.old) }
    {
        let vote = self.body.vote;
        if !vote.up {
            return Ok(BeginStep::Down);
        }
        if !vote.leading {
            return Ok(BeginStep::NotMaster {
                generation: vote.promised,
            });
        }
        if vote.durable == 0 || vote.durable < vote.adopted {
            return Ok(BeginStep::NotYet {
                durable: vote.durable,
                adopted: vote.adopted,
            });
        }
        Ok(BeginStep::Sent(self.body.probe(alloc, trace, ask)?))
    }

    /// As a leader with an empty log it appends the setup of the script's tables, and ships it.
    pub fn setup(
        &mut self,
        alloc: Global,
        trace: &Trace<Cluster<J>, N>,
        schema: &Schema,
    ) -> Result<Step<Vec<Packet<J, N>>>, AllocError>
        requires room { 0 < self.old.actor.room }
        requires schema { schema.now ≡ J.setting.tables }
        requires leads { self.old.vote.leading ≡ true }
        requires empty { self.old.entries ≡ [] }
        ensures set_up { IfOk result (λ s. IsSetUp J.setting.tables s (held_of self.old) (held_of self.new)) }
        ensures store { IfOk result (λ s. AsksStore s self.old.over self.new.over) }
        ensures unchanged { OnErr result (self.new ≡ self.old) }
    {
        if !self.body.vote.up {
            return Ok(Step::Down);
        }
        match self.body.set_up(alloc, trace, schema) {
            Ok(packets) => Ok(Step::Sent(packets)),
            Err(Unkept::Fault) => Ok(Step::Fault),
            Err(Unkept::NoMemory) => Err(AllocError),
        }
    }

    /// As a leader it appends an entry that may be appended, and ships it.
    pub fn append(
        &mut self,
        alloc: Global,
        trace: &Trace<Cluster<J>, N>,
        entry: Entry,
    ) -> Result<Step<Vec<Packet<J, N>>>, AllocError>
        requires room { 0 < self.old.actor.room }
        requires may { MayEnter J.setting self.old.actor.seen self.old.vote.node entry }
        requires fits { Fits self.old.entries entry }
        ensures entered { IfOk result (λ s. IsEntered entry s (held_of self.old) (held_of self.new)) }
        ensures store { IfOk result (λ s. AsksStore s self.old.over self.new.over) }
        ensures unchanged { OnErr result (self.new ≡ self.old) }
    {
        match self.body.append(alloc, trace, entry) {
            Ok(packets) => Ok(Step::Sent(packets)),
            Err(Unkept::Fault) => Ok(Step::Fault),
            Err(Unkept::NoMemory) => Err(AllocError),
        }
    }

    /// As a leader it tells what it decided of a request, in place of an entry. Takes no memory.
    pub fn settle(&mut self, trace: &Trace<Cluster<J>, N>, id: &CommitId, decision: &Decision)
        requires room { 0 < self.old.actor.room }
        requires may { MaySettle J.setting self.old.actor.seen self.old.vote.node id.now decision.now }
        ensures settles { Settles id.now decision.now (held_of self.old) (held_of self.new) }
        ensures over { self.new.over ≡ self.old.over }
    {
        self.body.settle(trace, id, decision);
    }

    /// Where it leads it ships what it has once more, to another node that did not get it: its whole log, and the length that it
    /// told last as durable.
    pub fn ship(
        &mut self,
        alloc: Global,
        trace: &Trace<Cluster<J>, N>,
        to: u8,
    ) -> Result<Vec<Packet<J, N>>, AllocError>
        requires to { (1 ≤ to) × (to ≤ J.setting.nodes) }
        requires other { to ≡ self.old.vote.node → ⊥ }
        ensures ships { IfOk result (λ ps. ShipsAgain to ps.items (held_of self.old) (held_of self.new)) }
        ensures over { self.new.over ≡ self.old.over }
        ensures unchanged { OnErr result (self.new ≡ self.old) }
    {
        self.body.ship(alloc, trace, to)
    }

    /// Reads its store, where it is down: what that holds, or why a node may not come up with it. Where a call of the store fails
    /// there the node goes down once more.
    pub fn read_store(
        &mut self,
        alloc: Global,
        trace: &Trace<Cluster<J>, N>,
    ) -> Result<Found, WhyUnread>
        requires room { 0 < self.old.actor.room }
        requires down { self.old.vote.up ≡ false }
        ensures read { IsRead result (held_of self.old) (held_of self.new) }
        ensures found { IfOk result (λ f. WasRead self.old.over self.new.over f.promised f.accepted f.state) }
        ensures log { IfOk result (λ f.
            WasFound self.old.over self.new.over f.promised f.accepted f.length f.tables f.state) }
        ensures shut { StaysShut self.old.over self.new.over }
        ensures still { StandsStill self.old.over.node self.old.over.cluster self.old.over.synced self.new.over.synced }
        ensures calm { OnOk result (self.new.over.faults ≡ self.old.over.faults) }
        ensures why { IfErr result (λ w. IsWhyUnread w self.old.over.node self.old.over.cluster self.old.over.synced
            self.old.over.faults self.new.over.faults) }
    {
        self.body.read_store(alloc, trace)
    }

    /// Goes down by a fault: its store failed as it was read, before the node was made. Takes no memory.
    pub fn fail_unread(&mut self, trace: &Trace<Cluster<J>, N>)
        requires room { 0 < self.old.actor.room }
        requires down { self.old.vote.up ≡ false }
        ensures falls { Falls true (held_of self.old) (held_of self.new) }
        ensures over { self.new.over ≡ self.old.over }
    {
        self.body.fall_again(trace);
    }

    /// Goes down by a stop that it knows of, and answers the ticket of that. Takes no memory.
    pub fn stop(&mut self, trace: &Trace<Cluster<J>, N>) -> u64
        requires room { 0 < self.old.actor.room }
        requires up { self.old.vote.up ≡ true }
        requires told { IsStopTold J.setting self.old.actor.seen self.old.vote.node }
        ensures falls { Falls false (held_of self.old) (held_of self.new) }
        ensures holds { HoldsAny self.new.over (kept_by self.old.over ∷ []) }
        ensures calm { IsCalm self.old.over self.new.over }
        ensures ticket { self.new.actor.made ≡ self.old.actor.made ++ (result, event.Down false) ∷ [] }
    {
        self.body.stop(trace)
    }

    /// Opens its store, and comes up with what that holds, as it knows that its start is ordered: it was up before. It takes room
    /// for a stop. Where the store fails there it goes down once more.
    pub fn start(
        &mut self,
        alloc: Global,
        trace: &Trace<Cluster<J>, N>,
    ) -> Result<Started, AllocError>
        requires down { self.old.vote.up ≡ false }
        requires was_up { ((world J.setting self.old.actor.seen).nodes self.old.vote.node).was_up ≡ true }
        requires told { IsStartOrdered (lines_to_do J.setting) (steps J.setting self.old.actor.seen) self.old.vote.node }
        ensures started { IfOk result (λ s. IsStarted s (held_of self.old) (held_of self.new)) }
        ensures store { IfOk result (λ s. OpensStore s self.old.over self.new.over) }
        ensures unchanged { OnErr result (IsUnopened (held_of self.old) (held_of self.new) self.old.over self.new.over) }
    {
        self.body.start(alloc, trace, None)
    }

    /// So for the first time: its store holds what was read, which stands for these rows.
    pub fn start_first(
        &mut self,
        alloc: Global,
        trace: &Trace<Cluster<J>, N>,
        rows: Snapshot<State>,
    ) -> Result<Started, AllocError>
        requires down { self.old.vote.up ≡ false }
        requires first { MayBeFirst J.setting (held_of self.old) self.old.over (woken.First rows) }
        requires told { IsStartTold J.setting self.old.actor.seen self.old.vote.node (woken.First rows) }
        ensures first { IfOk result (λ s. IsStartedSo s (woken.First rows) self.old self.new) }
        ensures store { IfOk result (λ s. OpensStore s self.old.over self.new.over) }
        ensures unchanged { OnErr result (IsUnopened (held_of self.old) (held_of self.new) self.old.over self.new.over) }
    {
        self.body.start(alloc, trace, Some(rows))
    }

    /// Its store, which is stopped, and its actor. Takes no memory.
    pub fn give_back(self) -> (D, Actor<Cluster<J>, N>)
        ensures synced { D.synced result.0 ≡ self.over.synced }
        ensures settled { D.pending result.0 ≡ [] }
        ensures calm { D.faults result.0 ≡ self.over.faults }
        ensures holds { self.over.is_open ≡ true → HoldsAny self.over (kept_by self.over ∷ []) }
        ensures actor { result.1 ≡ self.actor }
    {
        let Node { body } = self;
        let Body { log, actor, .. } = body;
        (log.give_back(), actor)
    }
}

/// The numbers of a node that did nothing yet.
fn first_vote(node: u8, nodes: u8) -> NodeVote
    ensures { result ≡ blank_vote node nodes }
{
    NodeVote {
        node,
        nodes,
        promised: 0,
        accepted: 0,
        length: 0,
        adopted: 0,
        durable: 0,
        granted: 0,
        acked: [0; 7],
        leading: false,
        up: false,
    }
}
