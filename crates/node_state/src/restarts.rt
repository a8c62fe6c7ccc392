//! A node goes down, and comes up with what its store holds.
ghost use Rattle.std.specs.Prelude.{List, ◌≡◌, ◌+◌, ◌<◌, ◌≤◌, ◌++◌, ◌∷◌, [], true, false, IfOk, IfErr, OnOk, OnErr};
ghost use Rattle.actor_trace.specs.Steps.{Adds};
ghost use Rattle.cluster_events.specs.Parts.{field};
ghost use Rattle.cluster_steps.specs.Named.{steps};
ghost use Rattle.cluster_steps.specs.declared.events.Event.TheVariants as event;
ghost use Rattle.kept_log.specs.Kept.{HoldsAny, Kept, StandsStill, kept_by};
ghost use Rattle.node_reading.specs.Reading.{IsWhyUnread, WasFound, WasRead};
ghost use Rattle.node_state.specs.Nodes.{IsOwn, held};
ghost use Rattle.node_state.specs.Restarts.{Falls, IsStartTold, IsStopTold, MayWake, Wakes, woken_vote as vote_woken};
ghost use Rattle.node_state.specs.Stores.{IsCalm, IsKeptBy, IsRead, IsStartedSo, IsStored, IsTried, IsUnopened, MayReturn, MayStart};
ghost use Rattle.node_state.specs.Stores.{OpensStore, StaysShut, how_by, how_of, stored};
ghost use Rattle.phys_log.specs.declared.entries.Entry.{Entry};

use crate::bodies::Body;
use crate::faults::UnderWay;
use crate::steps::Started;
use actor_trace::{Naming, Trace};
use cdb_outside::LogStore;
use cluster_core::{Cluster, Plan};
use cluster_steps::{Event, Woken};
use election_core::NodeVote;
use kept_log::{KeptLog, OpenFault};
use node_reading::{Found, WhyUnread, read_store};
use std::alloc::{AllocError, Global};
use std::snapshot::Snapshot;
use table_state::State;

/// The numbers of a node that comes up.
fn woken_vote(vote: &NodeVote, promised: u64, accepted: u64, length: u64) -> NodeVote
    ensures { result ≡ vote_woken vote.now promised accepted length }
{
    let mut woken = *vote;
    woken.promised = promised;
    woken.accepted = accepted;
    woken.length = length;
    woken.durable = 0;
    woken.granted = 0;
    woken.acked = [0; 7];
    woken.leading = false;
    woken.up = true;
    woken
}

/// How it comes up with such an acceptance and a log of that length: as it was, or by what was under way.
fn how_found(vote: &NodeVote, under_way: UnderWay, accepted: u64, length: u64) -> Woken
    ensures { result ≡ how_of vote.now under_way accepted length }
{
    if accepted == vote.accepted && length == vote.length {
        return Woken::AsLeft;
    }
    match under_way {
        UnderWay::Nothing => Woken::AsLeft,
        UnderWay::Lead => Woken::Led,
        UnderWay::Take => Woken::Took,
        UnderWay::Append => Woken::Appended,
    }
}

/// Opens a log that is stopped, whose store holds something. Where a call of the store fails, it is stopped still.
fn open<D: LogStore + Drop>(alloc: Global, log: &mut KeptLog<D>) -> Result<Started, AllocError>
    requires stopped { log.old.is_open ≡ false }
    requires holds { (ks : List Kept) × HoldsAny log.old ks }
    ensures tried { IfOk result (λ s. IsTried s log.old log.new) }
    ensures shut { OnErr result (StaysShut log.old log.new) }
    ensures calm { OnErr result (IsCalm log.old log.new) }
{
    match log.open(alloc) {
        Ok(()) => Ok(Started::Up),
        Err(OpenFault::NoMemory) => Err(AllocError),
        Err(OpenFault::StoreFault { .. }) => Ok(Started::Fault),
        Err(OpenFault::Foreign) => unreachable!(),
        Err(OpenFault::Corrupt { .. }) => unreachable!(),
    }
}

impl<D: LogStore + Drop, J: Plan, N: Naming> Body<D, J, N> {
    /// Goes down by a stop, and answers the ticket.
    pub(crate) fn stop(&mut self, trace: &Trace<Cluster<J>, N>) -> u64
        requires room { 0 < self.old.actor.room }
        requires up { self.old.vote.up ≡ true }
        requires told { IsStopTold J.setting self.old.actor.seen self.old.vote.node }
        requires own { IsOwn J.setting (held self.old.vote self.old.log.entries self.old.actor) }
        requires kept { IsKeptBy self.old.vote self.old.log }
        ensures own { IsOwn J.setting (held self.new.vote self.new.log.entries self.new.actor) }
        ensures kept { IsKeptBy self.new.vote self.new.log }
        ensures falls { Falls false (held self.old.vote self.old.log.entries self.old.actor)
            (held self.new.vote self.new.log.entries self.new.actor) }
        ensures returns { MayReturn J.setting (held self.new.vote self.new.log.entries self.new.actor) self.new.log
            self.new.under_way }
        ensures holds { HoldsAny self.new.log (kept_by self.old.log ∷ []) }
        ensures calm { IsCalm self.old.log self.new.log }
        ensures ticket { self.new.actor.made ≡ self.old.actor.made ++ (result, event.Down false) ∷ [] }
    {
        self.log.stop();
        let ticket = self.actor.step(trace, Event::Down { fault: false });
        self.vote.up = false;
        self.under_way = UnderWay::Nothing;
        ticket
    }

    /// Goes down by a fault of its store, where this was under way.
    pub(crate) fn fall(&mut self, trace: &Trace<Cluster<J>, N>, under_way: UnderWay)
        requires room { 0 < self.old.actor.room }
        requires own { IsOwn J.setting (held self.old.vote self.old.log.entries self.old.actor) }
        ensures own { IsOwn J.setting (held self.new.vote self.new.log.entries self.new.actor) }
        ensures falls { Falls true (held self.old.vote self.old.log.entries self.old.actor)
            (held self.new.vote self.new.log.entries self.new.actor) }
        ensures adds { Adds self.old.actor.number (event.Down true) self.old.actor.seen self.new.actor.seen }
        ensures log { self.new.log ≡ self.old.log }
        ensures under_way { self.new.under_way ≡ under_way }
    {
        let mut vote = self.vote;
        vote.up = false;
        self.under_way = under_way;
        self.happens(trace, vote, Event::Down { fault: true });
    }

    /// Goes down once more by a fault of its store, which holds what it held.
    pub(crate) fn fall_again(&mut self, trace: &Trace<Cluster<J>, N>)
        requires room { 0 < self.old.actor.room }
        requires down { self.old.vote.up ≡ false }
        requires node { IsStored J.setting (held self.old.vote self.old.log.entries self.old.actor) self.old.log
            self.old.under_way }
        ensures node { IsStored J.setting (held self.new.vote self.new.log.entries self.new.actor) self.new.log
            self.new.under_way }
        ensures falls { Falls true (held self.old.vote self.old.log.entries self.old.actor)
            (held self.new.vote self.new.log.entries self.new.actor) }
        ensures log { self.new.log ≡ self.old.log }
    {
        let under_way = self.under_way;
        self.fall(trace, under_way);
    }

    /// Reads its store. Where a call of that fails there it is down still, by a fault of its own.
    pub(crate) fn read_store(
        &mut self,
        alloc: Global,
        trace: &Trace<Cluster<J>, N>,
    ) -> Result<Found, WhyUnread>
        requires room { 0 < self.old.actor.room }
        requires down { self.old.vote.up ≡ false }
        requires node { IsStored J.setting (held self.old.vote self.old.log.entries self.old.actor) self.old.log
            self.old.under_way }
        ensures node { IsStored J.setting (held self.new.vote self.new.log.entries self.new.actor) self.new.log
            self.new.under_way }
        ensures read { IsRead result (held self.old.vote self.old.log.entries self.old.actor)
            (held self.new.vote self.new.log.entries self.new.actor) }
        ensures found { IfOk result (λ f. WasRead self.old.log self.new.log f.promised f.accepted f.state) }
        ensures log { IfOk result (λ f.
            WasFound self.old.log self.new.log f.promised f.accepted f.length f.tables f.state) }
        ensures shut { StaysShut self.old.log self.new.log }
        ensures still { StandsStill self.old.log.node self.old.log.cluster self.old.log.synced self.new.log.synced }
        ensures calm { OnOk result (self.new.log.faults ≡ self.old.log.faults) }
        ensures why { IfErr result (λ w. IsWhyUnread w self.old.log.node self.old.log.cluster self.old.log.synced
            self.old.log.faults self.new.log.faults) }
    {
        match read_store(alloc, &mut self.log) {
            Ok(found) => Ok(found),
            Err(WhyUnread::StoreFault) => {
                self.fall_again(trace);
                Err(WhyUnread::StoreFault)
            }
            Err(WhyUnread::Corrupt { at }) => Err(WhyUnread::Corrupt { at }),
            Err(WhyUnread::Unsound) => Err(WhyUnread::Unsound),
            Err(WhyUnread::NoMemory) => Err(WhyUnread::NoMemory),
        }
    }

    /// How it comes up with what its log has: for the first time with these rows; else as it was, or by what was under way.
    fn how(&self, first: Option<Snapshot<State>>) -> Woken
        ensures { result ≡ how_by first self.now.vote self.now.under_way (kept_by self.now.log) }
    {
        match first {
            Some(rows) => Woken::First { rows },
            None => {
                let length = self.log.entries().len() as u64;
                how_found(&self.vote, self.under_way, self.log.accepted(), length)
            }
        }
    }

    /// Opens its store, and comes up with what that holds, for the first time where there are rows. All memory is taken first,
    /// with room for a stop. Where the store fails there it is down still, by a fault of its own.
    pub(crate) fn start(
        &mut self,
        alloc: Global,
        trace: &Trace<Cluster<J>, N>,
        first: Option<Snapshot<State>>,
    ) -> Result<Started, AllocError>
        requires down { self.old.vote.up ≡ false }
        requires may { MayStart J.setting (held self.old.vote self.old.log.entries self.old.actor) self.old.log
            self.old.under_way first }
        requires node { IsStored J.setting (held self.old.vote self.old.log.entries self.old.actor) self.old.log
            self.old.under_way }
        ensures node { IsStored J.setting (held self.new.vote self.new.log.entries self.new.actor) self.new.log
            self.new.under_way }
        ensures started { IfOk result (λ s. IsStartedSo s
            (how_by first self.old.vote self.old.under_way (kept_by self.new.log))
            (stored self.old.vote self.old.actor self.old.log) (stored self.new.vote self.new.actor self.new.log)) }
        ensures store { IfOk result (λ s. OpensStore s self.old.log self.new.log) }
        ensures unchanged { OnErr result (IsUnopened (held self.old.vote self.old.log.entries self.old.actor)
            (held self.new.vote self.new.log.entries self.new.actor) self.old.log self.new.log) }
    {
        self.actor.reserve(2)?;
        match open(alloc, &mut self.log)? {
            Started::Up => {
                let how = self.how(first);
                self.rise(trace, how);
                Ok(Started::Up)
            }
            Started::Fault => {
                self.fall_again(trace);
                Ok(Started::Fault)
            }
        }
    }

    /// Comes up so with its log, which is open.
    fn rise(&mut self, trace: &Trace<Cluster<J>, N>, how: Woken)
        requires room { 2 ≤ self.old.actor.room }
        requires down { self.old.vote.up ≡ false }
        requires opened { (self.old.log.is_open ≡ true) × (self.old.log.node ≡ self.old.vote.node) }
        requires may { MayWake J.setting (field (steps J.setting self.old.actor.seen)) self.old.vote.node how
            (kept_by self.old.log) }
        requires told { IsStartTold J.setting self.old.actor.seen self.old.vote.node how }
        requires own { (was : List Entry) × IsOwn J.setting (held self.old.vote was self.old.actor) }
        ensures own { IsOwn J.setting (held self.new.vote self.new.log.entries self.new.actor) }
        ensures kept { IsKeptBy self.new.vote self.new.log }
        ensures wakes { (was : List Entry) → Wakes how (kept_by self.old.log) (held self.old.vote was self.old.actor)
            (held self.new.vote self.new.log.entries self.new.actor) }
        ensures room { 1 ≤ self.new.actor.room }
        ensures log { self.new.log ≡ self.old.log }
    {
        let told = self.log.told();
        let promised = self.log.promised();
        let accepted = self.log.accepted();
        let length = self.log.entries().len() as u64;
        let vote = woken_vote(&self.vote, promised, accepted, length);
        let event = Event::Up {
            how,
            promised,
            accepted,
            entries: told,
        };
        self.happens(trace, vote, event);
    }
}
