//! A leader appends an entry, and ships it.
ghost use Rattle.std.specs.Prelude.{◌≡◌, ◌<◌, [], true, IfOk, IsErrOf, OnOk};
ghost use Rattle.node_state.specs.Calls.{SetsUp};
ghost use Rattle.node_state.specs.Nodes.{IsOwn, held};
ghost use Rattle.node_state.specs.Stores.{FallsOver, IsCalm, IsKeptBy};

use crate::bodies::Body;
use crate::drafts::packets_appending;
use crate::faults::Unkept;
use crate::packets::Packet;
use actor_trace::{Naming, Trace};
use cdb_outside::LogStore;
use cdb_values::Schema;
use cluster_core::{Cluster, Plan};
use log_rows::setup_entry;
use phys_log::copy_entry;
use std::alloc::Global;

impl<D: LogStore + Drop, J: Plan, N: Naming> Body<D, J, N> {
    /// Appends the setup of these tables to an empty log, and answers what it sends.
    pub(crate) fn set_up(
        &mut self,
        alloc: Global,
        trace: &Trace<Cluster<J>, N>,
        schema: &Schema,
    ) -> Result<Vec<Packet<J, N>>, Unkept>
        requires room { 0 < self.old.actor.room }
        requires schema { schema.now ≡ J.setting.tables }
        requires up { self.old.vote.up ≡ true }
        requires leads { self.old.vote.leading ≡ true }
        requires empty { self.old.log.entries ≡ [] }
        requires own { IsOwn J.setting (held self.old.vote self.old.log.entries self.old.actor) }
        requires kept { IsKeptBy self.old.vote self.old.log }
        ensures own { IsOwn J.setting (held self.new.vote self.new.log.entries self.new.actor) }
        ensures kept { IsKeptBy self.new.vote self.new.log }
        ensures sets_up { IfOk result (λ ps. SetsUp J.setting.tables ps.items (held self.old.vote self.old.log.entries self.old.actor)
            (held self.new.vote self.new.log.entries self.new.actor)) }
        ensures calm { OnOk result (IsCalm self.old.log self.new.log) }
        ensures unchanged { IsErrOf result Unkept.NoMemory → self.new ≡ self.old }
        ensures falls { IsErrOf result Unkept.Fault → FallsOver J.setting
            (held self.old.vote self.old.log.entries self.old.actor) (held self.new.vote self.new.log.entries self.new.actor)
            self.old.log self.new.log self.new.under_way }
    {
        let entry = setup_entry(alloc, schema, self.vote.accepted)?;
        let shipped = vec![in alloc; copy_entry(alloc, &entry)?]?;
        let mut vote = self.vote;
        vote.length = 1;
        let drafts = packets_appending(alloc, &vote, shipped.as_slice())?;
        let mut packets = Vec::with_capacity(alloc, drafts.len())?;
        self.appends(alloc, trace, vote, entry)?;
        self.send(trace, drafts, &mut packets);
        Ok(packets)
    }
}
