//! The session of a case. It saw each of the nodes up, and asks for begins, and never goes on.
ghost use Rattle.std.specs.Prelude.{◌≡◌, [], IfOk};
ghost use Rattle.cluster_steps.specs.Named.{world};
ghost use Rattle.core_lists.specs.Lists.{In};
ghost use Rattle.node_cases.specs.Seats.{WasUp, WereUp};

use crate::offices::Operator;
use actor_trace::{Actor, Naming, Note, Trace};
use cluster_core::{Cluster, Plan};
use cluster_steps::Event;
use std::alloc::AllocError;
use std::marker::Model;

/// An ask, and a note that tells it.
#[derive(Drop)]
pub(crate) struct Asked<J: Plan, N: Naming> {
    pub(crate) ask: u64,
    pub(crate) note: Note<Cluster<J>, N>,
}

/// The session.
#[derive(Drop)]
pub(crate) struct Asker<J: Plan, N: Naming> {
    actor: Actor<Cluster<J>, N>,
}

impl<J: Plan, N: Naming> Model for Asker<J, N> {
    ghost use Rattle.actor_trace.specs.Actors.{Knows};
    ghost use Rattle.cluster_steps.specs.declared.events.Event.{Event};
    ghost use Rattle.node_cases.specs.Asking.{IsAsker};

    ghost Value = { Knows Event };

    ghost view = { λ s. s.actor };

    ghost invariant = { λ s. IsAsker J.setting s.actor };
}

impl<J: Plan, N: Naming> Asker<J, N> {
    /// A session that did nothing, and heard that each of the nodes came up.
    pub(crate) fn new(
        trace: &Trace<Cluster<J>, N>,
        operator: &Operator<J, N>,
        actor: Actor<Cluster<J>, N>,
        one: Note<Cluster<J>, N>,
        two: Note<Cluster<J>, N>,
        three: Note<Cluster<J>, N>,
    ) -> Asker<J, N>
        requires actor { (actor.number ≡ 4) × (actor.made ≡ []) }
        requires one { WasUp J.setting 1 one }
        requires two { WasUp J.setting 2 two }
        requires three { WasUp J.setting 3 three }
    {
        operator.plan();
        let mut seen = actor;
        seen.meet(trace, one);
        seen.meet(trace, two);
        seen.meet(trace, three);
        seen.knows();
        Asker { actor: seen }
    }

    /// Asks for a begin.
    pub(crate) fn ask(&mut self, trace: &Trace<Cluster<J>, N>) -> Result<Asked<J, N>, AllocError>
        ensures { IfOk result (λ a. In a.ask (world J.setting a.note).asks) }
    {
        self.actor.reserve(1)?;
        self.actor.knows();
        let ask = self.actor.step(trace, Event::Ask);
        let note = self.actor.note(trace);
        Ok(Asked { ask, note })
    }

    /// Tells that each of the nodes was up.
    pub(crate) fn tells(&mut self, trace: &Trace<Cluster<J>, N>) -> Note<Cluster<J>, N>
        ensures { WereUp J.setting result }
    {
        self.actor.note(trace)
    }
}
