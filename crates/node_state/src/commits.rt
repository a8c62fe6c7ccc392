//! A leader answers a request: it appends an entry and ships it, or tells what it decided in place of one.
ghost use Rattle.std.specs.Prelude.{◌≡◌, ◌+◌, ◌<◌, IfOk, IsErrOf, OnOk};
ghost use Rattle.node_state.specs.Commits.{Enters, MayEnter, MaySettle, Settles};
ghost use Rattle.node_state.specs.Nodes.{IsOwn, held};
ghost use Rattle.node_state.specs.Stores.{FallsOver, IsCalm, IsKeptBy};
ghost use Rattle.phys_log.specs.Logs.{Fits};

use crate::bodies::Body;
use crate::drafts::packets_appending;
use crate::faults::Unkept;
use crate::packets::Packet;
use actor_trace::{Naming, Trace};
use cdb_outside::LogStore;
use cluster_core::{Cluster, Plan};
use cluster_steps::Event;
use phys_log::{CommitId, Decision, Entry, copy_entry};
use std::alloc::Global;
use std::snapshot::Snapshot;

impl<D: LogStore + Drop, J: Plan, N: Naming> Body<D, J, N> {
    /// Appends an entry, and answers what it sends.
    pub(crate) fn append(
        &mut self,
        alloc: Global,
        trace: &Trace<Cluster<J>, N>,
        entry: Entry,
    ) -> Result<Vec<Packet<J, N>>, Unkept>
        requires room { 0 < self.old.actor.room }
        requires may { MayEnter J.setting self.old.actor.seen self.old.vote.node entry }
        requires fits { Fits self.old.log.entries entry }
        requires own { IsOwn J.setting (held self.old.vote self.old.log.entries self.old.actor) }
        requires kept { IsKeptBy self.old.vote self.old.log }
        ensures own { IsOwn J.setting (held self.new.vote self.new.log.entries self.new.actor) }
        ensures kept { IsKeptBy self.new.vote self.new.log }
        ensures enters { IfOk result (λ ps. Enters entry ps.items (held self.old.vote self.old.log.entries self.old.actor)
            (held self.new.vote self.new.log.entries self.new.actor)) }
        ensures calm { OnOk result (IsCalm self.old.log self.new.log) }
        ensures unchanged { IsErrOf result Unkept.NoMemory → self.new ≡ self.old }
        ensures falls { IsErrOf result Unkept.Fault → FallsOver J.setting
            (held self.old.vote self.old.log.entries self.old.actor) (held self.new.vote self.new.log.entries self.new.actor)
            self.old.log self.new.log self.new.under_way }
    {
        let shipped = vec![in alloc; copy_entry(alloc, &entry)?]?;
        let mut vote = self.vote;
        vote.length = self.log.entries().len() as u64 + 1;
        let drafts = packets_appending(alloc, &vote, shipped.as_slice())?;
        let mut packets = Vec::with_capacity(alloc, drafts.len())?;
        self.appends(alloc, trace, vote, entry)?;
        self.send(trace, drafts, &mut packets);
        Ok(packets)
    }

    /// Tells what it decided of a request.
    pub(crate) fn settle(
        &mut self,
        trace: &Trace<Cluster<J>, N>,
        id: &CommitId,
        decision: &Decision,
    )
        requires room { 0 < self.old.actor.room }
        requires may { MaySettle J.setting self.old.actor.seen self.old.vote.node id.now decision.now }
        requires own { IsOwn J.setting (held self.old.vote self.old.log.entries self.old.actor) }
        ensures own { IsOwn J.setting (held self.new.vote self.new.log.entries self.new.actor) }
        ensures settles { Settles id.now decision.now (held self.old.vote self.old.log.entries self.old.actor)
            (held self.new.vote self.new.log.entries self.new.actor) }
        ensures log { self.new.log ≡ self.old.log }
        ensures under_way { self.new.under_way ≡ self.old.under_way }
        ensures vote { self.new.vote ≡ self.old.vote }
        ensures room { self.new.actor.room + 1 ≡ self.old.actor.room }
    {
        let request = Snapshot::of(id);
        let told = Snapshot::of(decision);
        let event = Event::Settle {
            id: request,
            decision: told,
        };
        self.actor.step(trace, event);
    }
}
