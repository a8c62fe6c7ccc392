//! A node asks its store before an event. Where the store fails it goes down by a fault, and does no such event.
ghost use Rattle.std.specs.Prelude.{◌≡◌, ◌≤◌, ◌<◌, ◌+◌, true, [], ◌∷◌, ◌++◌, IsErrOf, OnOk};
ghost use Rattle.std.specs.declared.snapshot.Snapshot.{Snapshot};
ghost use Rattle.actor_trace.specs.Steps.{Adds};
ghost use Rattle.cluster_steps.specs.declared.events.Event.TheVariants as event;
ghost use Rattle.node_state.specs.Calls.{Appends, Did};
ghost use Rattle.node_state.specs.Nodes.{Follows, IsOwn, held};
ghost use Rattle.node_state.specs.Stores.{FallsOver, HasNumbers, IsCalm, IsKeptBy};
ghost use Rattle.phys_log.specs.declared.entries.Entry.{Entry};
ghost use Rattle.store_log.specs.Held.{generation_of};

use crate::bodies::Body;
use crate::faults::{UnderWay, Unkept};
use crate::spellings::{are_spelled, is_spelled};
use actor_trace::{Naming, Trace};
use cdb_outside::LogStore;
use cdb_values::limits::GENERATION_LIMIT;
use cluster_core::{Cluster, Plan};
use cluster_steps::Event;
use election_core::NodeVote;
use kept_log::KeepFault;
use phys_log::Entry;
use std::alloc::Global;
use std::snapshot::Snapshot;

impl<D: LogStore + Drop, J: Plan, N: Naming> Body<D, J, N> {
    /// Promises a generation, by this event.
    pub(crate) fn promises(
        &mut self,
        alloc: Global,
        trace: &Trace<Cluster<J>, N>,
        generation: u64,
        vote: NodeVote,
        event: Event,
    ) -> Result<(), Unkept>
        requires room { 0 < self.old.actor.room }
        requires up { self.old.vote.up ≡ true }
        requires above { self.old.vote.promised < generation }
        requires own { IsOwn J.setting (held self.old.vote self.old.log.entries self.old.actor) }
        requires kept { IsKeptBy self.old.vote self.old.log }
        requires follows { Follows J.setting self.old.vote.node event vote self.old.log.entries self.old.actor.seen }
        requires numbers { HasNumbers self.old.vote generation self.old.vote.accepted vote }
        ensures own { IsOwn J.setting (held self.new.vote self.new.log.entries self.new.actor) }
        ensures kept { IsKeptBy self.new.vote self.new.log }
        ensures did { OnOk result (Did (event ∷ []) (held self.old.vote self.old.log.entries self.old.actor)
            (held self.new.vote self.new.log.entries self.new.actor)) }
        ensures adds { OnOk result (Adds self.old.actor.number event self.old.actor.seen self.new.actor.seen) }
        ensures vote { OnOk result (self.new.vote ≡ vote) }
        ensures entries { OnOk result (self.new.log.entries ≡ self.old.log.entries) }
        ensures calm { OnOk result (IsCalm self.old.log self.new.log) }
        ensures unchanged { IsErrOf result Unkept.NoMemory → self.new ≡ self.old }
        ensures falls { IsErrOf result Unkept.Fault → FallsOver J.setting
            (held self.old.vote self.old.log.entries self.old.actor) (held self.new.vote self.new.log.entries self.new.actor)
            self.old.log self.new.log self.new.under_way }
    {
        if generation >= GENERATION_LIMIT {
            return Err(Unkept::NoMemory);
        }
        match self.log.promise(alloc, generation) {
            Ok(()) => {
                self.happens(trace, vote, event);
                Ok(())
            }
            Err(KeepFault::NoMemory) => Err(Unkept::NoMemory),
            Err(KeepFault::StoreFault) => {
                self.fall(trace, UnderWay::Nothing);
                Err(Unkept::Fault)
            }
        }
    }

    /// Leads in the generation that it promised.
    pub(crate) fn leads(
        &mut self,
        alloc: Global,
        trace: &Trace<Cluster<J>, N>,
        generation: u64,
        vote: NodeVote,
    ) -> Result<(), Unkept>
        requires room { 0 < self.old.actor.room }
        requires up { self.old.vote.up ≡ true }
        requires above { self.old.vote.accepted < self.old.vote.promised }
        requires own { IsOwn J.setting (held self.old.vote self.old.log.entries self.old.actor) }
        requires kept { IsKeptBy self.old.vote self.old.log }
        requires follows { Follows J.setting self.old.vote.node (event.Lead generation) vote self.old.log.entries
            self.old.actor.seen }
        requires numbers { HasNumbers self.old.vote self.old.vote.promised self.old.vote.promised vote }
        ensures own { IsOwn J.setting (held self.new.vote self.new.log.entries self.new.actor) }
        ensures kept { IsKeptBy self.new.vote self.new.log }
        ensures did { OnOk result (Did (event.Lead generation ∷ [])
            (held self.old.vote self.old.log.entries self.old.actor)
            (held self.new.vote self.new.log.entries self.new.actor)) }
        ensures adds { OnOk result (Adds self.old.actor.number (event.Lead generation) self.old.actor.seen
            self.new.actor.seen) }
        ensures vote { OnOk result (self.new.vote ≡ vote) }
        ensures entries { OnOk result (self.new.log.entries ≡ self.old.log.entries) }
        ensures calm { OnOk result (IsCalm self.old.log self.new.log) }
        ensures unchanged { IsErrOf result Unkept.NoMemory → self.new ≡ self.old }
        ensures falls { IsErrOf result Unkept.Fault → FallsOver J.setting
            (held self.old.vote self.old.log.entries self.old.actor) (held self.new.vote self.new.log.entries self.new.actor)
            self.old.log self.new.log self.new.under_way }
    {
        match self.log.accept(alloc) {
            Ok(()) => {
                self.happens(trace, vote, Event::Lead { generation });
                Ok(())
            }
            Err(KeepFault::NoMemory) => Err(Unkept::NoMemory),
            Err(KeepFault::StoreFault) => {
                self.fall(trace, UnderWay::Lead);
                Err(Unkept::Fault)
            }
        }
    }

    /// Takes a log in a generation, in the place of its own.
    pub(crate) fn takes(
        &mut self,
        alloc: Global,
        trace: &Trace<Cluster<J>, N>,
        generation: u64,
        length: u64,
        vote: NodeVote,
        entries: Vec<Entry>,
    ) -> Result<(), Unkept>
        requires room { 0 < self.old.actor.room }
        requires up { self.old.vote.up ≡ true }
        requires promised { self.old.vote.promised ≤ generation }
        requires accepted { self.old.vote.accepted < generation }
        requires own { IsOwn J.setting (held self.old.vote self.old.log.entries self.old.actor) }
        requires kept { IsKeptBy self.old.vote self.old.log }
        requires follows { Follows J.setting self.old.vote.node (event.Take generation length) vote entries.items
            self.old.actor.seen }
        requires numbers { HasNumbers self.old.vote generation generation vote }
        ensures own { IsOwn J.setting (held self.new.vote self.new.log.entries self.new.actor) }
        ensures kept { IsKeptBy self.new.vote self.new.log }
        ensures did { OnOk result (Did (event.Take generation length ∷ [])
            (held self.old.vote self.old.log.entries self.old.actor)
            (held self.new.vote self.new.log.entries self.new.actor)) }
        ensures adds { OnOk result (Adds self.old.actor.number (event.Take generation length) self.old.actor.seen
            self.new.actor.seen) }
        ensures vote { OnOk result (self.new.vote ≡ vote) }
        ensures entries { OnOk result (self.new.log.entries ≡ entries.items) }
        ensures calm { OnOk result (IsCalm self.old.log self.new.log) }
        ensures unchanged { IsErrOf result Unkept.NoMemory → self.new ≡ self.old }
        ensures falls { IsErrOf result Unkept.Fault → FallsOver J.setting
            (held self.old.vote self.old.log.entries self.old.actor) (held self.new.vote self.new.log.entries self.new.actor)
            self.old.log self.new.log self.new.under_way }
    {
        if generation >= GENERATION_LIMIT || !are_spelled(alloc, entries.as_slice())? {
            return Err(Unkept::NoMemory);
        }
        match self.log.take_over(alloc, generation, 0, entries) {
            Ok(()) => {
                self.happens(trace, vote, Event::Take { generation, length });
                Ok(())
            }
            Err(KeepFault::NoMemory) => Err(Unkept::NoMemory),
            Err(KeepFault::StoreFault) => {
                self.fall(trace, UnderWay::Take);
                Err(Unkept::Fault)
            }
        }
    }

    /// Takes one entry more of what is shipped in the generation that it accepted.
    pub(crate) fn grows(
        &mut self,
        alloc: Global,
        trace: &Trace<Cluster<J>, N>,
        generation: u64,
        length: u64,
        vote: NodeVote,
        entry: Entry,
    ) -> Result<(), Unkept>
        requires room { 0 < self.old.actor.room }
        requires up { self.old.vote.up ≡ true }
        requires own { IsOwn J.setting (held self.old.vote self.old.log.entries self.old.actor) }
        requires kept { IsKeptBy self.old.vote self.old.log }
        requires accepted { generation_of entry ≡ self.old.vote.accepted }
        requires follows { Follows J.setting self.old.vote.node (event.Take generation length) vote
            (self.old.log.entries ++ entry ∷ []) self.old.actor.seen }
        requires numbers { HasNumbers self.old.vote self.old.vote.promised self.old.vote.accepted vote }
        ensures own { IsOwn J.setting (held self.new.vote self.new.log.entries self.new.actor) }
        ensures kept { IsKeptBy self.new.vote self.new.log }
        ensures did { OnOk result (Did (event.Take generation length ∷ [])
            (held self.old.vote self.old.log.entries self.old.actor)
            (held self.new.vote self.new.log.entries self.new.actor)) }
        ensures adds { OnOk result (Adds self.old.actor.number (event.Take generation length) self.old.actor.seen
            self.new.actor.seen) }
        ensures room { OnOk result (self.new.actor.room + 1 ≡ self.old.actor.room) }
        ensures vote { OnOk result (self.new.vote ≡ vote) }
        ensures entries { OnOk result (self.new.log.entries ≡ self.old.log.entries ++ entry ∷ []) }
        ensures calm { OnOk result (IsCalm self.old.log self.new.log) }
        ensures unchanged { IsErrOf result Unkept.NoMemory → self.new ≡ self.old }
        ensures falls { IsErrOf result Unkept.Fault → FallsOver J.setting
            (held self.old.vote self.old.log.entries self.old.actor) (held self.new.vote self.new.log.entries self.new.actor)
            self.old.log self.new.log self.new.under_way }
    {
        if !is_spelled(alloc, &entry)? {
            return Err(Unkept::NoMemory);
        }
        match self.log.append(alloc, entry) {
            Ok(()) => {
                self.happens(trace, vote, Event::Take { generation, length });
                Ok(())
            }
            Err(KeepFault::NoMemory) => Err(Unkept::NoMemory),
            Err(KeepFault::StoreFault) => {
                self.fall(trace, UnderWay::Take);
                Err(Unkept::Fault)
            }
        }
    }

    /// Appends an entry.
    pub(crate) fn appends(
        &mut self,
        alloc: Global,
        trace: &Trace<Cluster<J>, N>,
        vote: NodeVote,
        entry: Entry,
    ) -> Result<(), Unkept>
        requires room { 0 < self.old.actor.room }
        requires up { self.old.vote.up ≡ true }
        requires own { IsOwn J.setting (held self.old.vote self.old.log.entries self.old.actor) }
        requires kept { IsKeptBy self.old.vote self.old.log }
        requires accepted { generation_of entry ≡ self.old.vote.accepted }
        requires follows { (next : Snapshot Entry) → next.value ≡ entry → Follows J.setting self.old.vote.node
            (event.Append next) vote (self.old.log.entries ++ entry ∷ []) self.old.actor.seen }
        requires numbers { HasNumbers self.old.vote self.old.vote.promised self.old.vote.accepted vote }
        ensures own { IsOwn J.setting (held self.new.vote self.new.log.entries self.new.actor) }
        ensures kept { IsKeptBy self.new.vote self.new.log }
        ensures appended { OnOk result (Appends entry (held self.old.vote self.old.log.entries self.old.actor)
            (held self.new.vote self.new.log.entries self.new.actor)) }
        ensures room { OnOk result (self.new.actor.room + 1 ≡ self.old.actor.room) }
        ensures vote { OnOk result (self.new.vote ≡ vote) }
        ensures entries { OnOk result (self.new.log.entries ≡ self.old.log.entries ++ entry ∷ []) }
        ensures calm { OnOk result (IsCalm self.old.log self.new.log) }
        ensures unchanged { IsErrOf result Unkept.NoMemory → self.new ≡ self.old }
        ensures falls { IsErrOf result Unkept.Fault → FallsOver J.setting
            (held self.old.vote self.old.log.entries self.old.actor) (held self.new.vote self.new.log.entries self.new.actor)
            self.old.log self.new.log self.new.under_way }
    {
        if !is_spelled(alloc, &entry)? {
            return Err(Unkept::NoMemory);
        }
        let next = Snapshot::of(&entry);
        match self.log.append(alloc, entry) {
            Ok(()) => {
                self.happens(trace, vote, Event::Append { entry: next });
                Ok(())
            }
            Err(KeepFault::NoMemory) => Err(Unkept::NoMemory),
            Err(KeepFault::StoreFault) => {
                self.fall(trace, UnderWay::Append);
                Err(Unkept::Fault)
            }
        }
    }
}
