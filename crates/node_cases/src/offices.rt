//! The operator of a case: it admits the stores of the nodes, and orders their starts and stops in the order of the case.
ghost use Rattle.std.specs.Prelude.{◌≡◌, ◌<◌, [], List, ℕ, IfOk, IfSome, OnOk};
ghost use Rattle.actor_trace.specs.History.{entries_of};
ghost use Rattle.actor_trace.specs.Lists.{Begins};
ghost use Rattle.cluster_steps.specs.Guards.{IsPlan};
ghost use Rattle.cluster_steps.specs.Named.{world};
ghost use Rattle.cluster_steps.specs.declared.events.Event.{Event};
ghost use Rattle.core_lists.specs.Lists.{In};
ghost use Rattle.node_cases.specs.Offices.{IsDoneAt, IsOrdered, Waits};
ghost use Rattle.node_cases.specs.Plans.{setting_of};

use crate::orders::Order;
use actor_trace::{Actor, Naming, Note, Trace};
use cluster_core::{Cluster, Plan};
use cluster_steps::Event;
use std::alloc::AllocError;
use std::marker::Model;

/// What is ordered, and a note that tells it.
#[derive(Drop)]
pub(crate) struct Ordered<J: Plan, N: Naming> {
    pub(crate) order: Order,
    pub(crate) note: Note<Cluster<J>, N>,
}

/// The operator.
#[derive(Drop)]
pub(crate) struct Operator<J: Plan, N: Naming> {
    actor: Actor<Cluster<J>, N>,
    admitted: u8,
    orders: Vec<Order>,
    done: usize,
    ordered: bool,
}

impl<J: Plan, N: Naming> Model for Operator<J, N> {
    ghost use Rattle.node_cases.specs.Offices.{IsOffice, Office};

    ghost Value = { Office };

    ghost view = { λ o. record { actor = o.actor; admitted = o.admitted; orders = o.orders.items; done = o.done; ordered = o.ordered } };

    ghost invariant = { λ o. IsOffice J.setting (record { actor = o.actor; admitted = o.admitted; orders = o.orders.items; done = o.done; ordered = o.ordered }) };
}

impl<J: Plan, N: Naming> Operator<J, N> {
    /// An operator that did nothing, with the orders of the case.
    pub(crate) fn new(actor: Actor<Cluster<J>, N>, orders: Vec<Order>) -> Operator<J, N>
        requires plan { J.setting ≡ setting_of orders.items }
        requires actor { (actor.number ≡ 0) × (actor.made ≡ []) }
        ensures { result.admitted ≡ 0 }
    {
        actor.knows();
        Operator {
            actor,
            admitted: 0,
            orders,
            done: 0,
            ordered: false,
        }
    }

    /// The run is that of the case.
    pub(crate) fn plan(&self)
        ensures plan { J.setting ≡ setting_of self.now.orders }
        ensures tables { J.setting.tables ≡ [] }
        ensures nodes { J.setting.nodes ≡ 3 }
        ensures is_plan { IsPlan J.setting }
    {
        let _done = self.done;
    }

    /// Admits the store of the next node, which is empty.
    pub(crate) fn admit(
        &mut self,
        trace: &Trace<Cluster<J>, N>,
        node: u8,
    ) -> Result<Note<Cluster<J>, N>, AllocError>
        requires next { self.old.admitted < node }
        ensures there { IfOk result (λ n. In (record { node = node; promised = 0; accepted = 0 })
            (world J.setting n).admits) }
        ensures admitted { OnOk result (self.new.admitted ≡ node) }
    {
        self.actor.reserve(1)?;
        let event = Event::Admit {
            node,
            promised: 0,
            accepted: 0,
        };
        self.actor.step(trace, event);
        self.admitted = node;
        Ok(self.actor.note(trace))
    }

    /// Orders what is next, after what is heard of its node.
    pub(crate) fn order(
        &mut self,
        trace: &Trace<Cluster<J>, N>,
        heard: Note<Cluster<J>, N>,
    ) -> Result<Option<Ordered<J, N>>, AllocError>
        ensures ordered { IfOk result (λ t. IfSome t (λ o. IsOrdered J.setting o.order heard o.note)) }
        ensures made { IfOk result (λ t. IfSome t (λ o. entries_of 0 o.note ≡ self.new.actor.made)) }
        ensures waits { IfOk result (λ t. IfSome t (λ o. Waits o.order self.new)) }
    {
        let Some(next) = self.orders.get(self.done) else {
            return Ok(None);
        };
        if self.ordered {
            return Ok(None);
        }
        let order = *next;
        self.actor.reserve(2)?;
        self.actor.meet(trace, heard);
        self.actor.step(trace, Event::Order);
        self.ordered = true;
        let note = self.actor.note(trace);
        Ok(Some(Ordered { order, note }))
    }

    /// It saw that the node is up, or down, as it ordered.
    pub(crate) fn obeyed(
        &mut self,
        trace: &Trace<Cluster<J>, N>,
        order: Order,
        told: Note<Cluster<J>, N>,
    )
        requires waits { Waits order self.old }
        requires known { (known : List (ℕ × Event)) × (entries_of 0 known ≡ self.old.actor.made) × Begins known told }
        requires done { IsDoneAt J.setting order told }
    {
        let Some(done) = self.done.checked_add(1) else {
            return;
        };
        self.actor.meet(trace, told);
        self.actor.knows();
        self.actor.step(trace, Event::Obeyed);
        self.done = done;
        self.ordered = false;
    }
}
