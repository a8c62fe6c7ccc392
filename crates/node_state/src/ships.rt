//! A leader ships what it has once more, to a node that did not get it.
ghost use Rattle.std.specs.Prelude.{◌≡◌, ◌≤◌, ◌↔◌, Bool, IsTrue, IsNone, IfSome, IfOk, OnErr};
ghost use Rattle.actor_trace.specs.History.{entries_of};
ghost use Rattle.node_state.specs.Nodes.{events_of, held};
ghost use Rattle.node_state.specs.Stores.{IsStored};
ghost use Rattle.node_state.specs.Ships.{Leads, ShipsAgain, again_packets, learned_after, learned_by};

use crate::bodies::Body;
use crate::drafts::{Draft, draft_to};
use crate::packets::Packet;
use actor_trace::{Naming, Trace};
use cdb_outside::LogStore;
use cluster_core::{Cluster, Plan};
use cluster_steps::Event;
use election_core::{Message, NodeVote};
use phys_log::Entry;
use std::alloc::{AllocError, Global};

/// Whether a node learned a length since it leads, where one of its events tells.
#[tactic(auto, using(crate::proofs::LearnedLaws::neither))]
fn told_by(event: &Event) -> Option<bool>
    ensures some { IfSome result (λ told. (b : Bool) → learned_after b event.now ≡ told) }
    ensures none { IsNone result → (b : Bool) → learned_after b event.now ≡ b }
{
    match event {
        Event::Lead { .. } => Some(false),
        Event::Learn { .. } => Some(true),
        _ => None,
    }
}

/// Whether a node learned a length since it leads, by its steps.
fn has_learned(steps: &[(u64, Event)]) -> bool
    ensures { result ≡ learned_by (events_of steps.now) }
{
    let mut rest = steps;
    'steps: while let Some(((_, event), before)) = rest.split_last() {
        if let Some(told) = told_by(event) {
            return told;
        }
        rest = before;
    }
    false
}

/// Whether a node is up and leads.
fn leads(vote: &NodeVote) -> bool
    ensures { IsTrue result ↔ Leads vote.now }
{
    vote.up && vote.leading
}

/// Its whole log, and its durable length where it told that.
fn drafts_again(
    alloc: Global,
    vote: &NodeVote,
    learned: bool,
    to: u8,
    log: &[Entry],
) -> Result<Vec<Draft>, AllocError>
    ensures { IfOk result (λ ps. ps.items ≡ again_packets vote.now learned to log.now) }
{
    let adopt = Message::Adopt {
        from: vote.node,
        generation: vote.accepted,
        length: log.len() as u64,
    };
    let mut out = Vec::new(alloc);
    out.push(draft_to(alloc, to, adopt, log)?)?;
    if learned {
        let durable = Message::Durable {
            from: vote.node,
            generation: vote.accepted,
            length: vote.durable,
        };
        out.push(draft_to(alloc, to, durable, &[])?)?;
    }
    Ok(out)
}

impl<D: LogStore + Drop, J: Plan, N: Naming> Body<D, J, N> {
    /// Ships what it has once more, where it leads.
    pub(crate) fn ship(
        &mut self,
        alloc: Global,
        trace: &Trace<Cluster<J>, N>,
        to: u8,
    ) -> Result<Vec<Packet<J, N>>, AllocError>
        requires to { (1 ≤ to) × (to ≤ J.setting.nodes) }
        requires other { to ≡ self.old.vote.node → ⊥ }
        requires node { IsStored J.setting (held self.old.vote self.old.log.entries self.old.actor) self.old.log
            self.old.under_way }
        ensures node { IsStored J.setting (held self.new.vote self.new.log.entries self.new.actor) self.new.log
            self.new.under_way }
        ensures ships { IfOk result (λ ps. ShipsAgain to ps.items (held self.old.vote self.old.log.entries self.old.actor)
            (held self.new.vote self.new.log.entries self.new.actor)) }
        ensures log { self.new.log ≡ self.old.log }
        ensures unchanged { OnErr result (self.new ≡ self.old) }
    {
        if !leads(&self.vote) {
            return Ok(Vec::new(alloc));
        }
        self.actor.knows();
        let learned = has_learned(self.actor.steps());
        let drafts = drafts_again(alloc, &self.vote, learned, to, self.log.entries())?;
        let mut packets = Vec::with_capacity(alloc, drafts.len())?;
        self.send(trace, drafts, &mut packets);
        Ok(packets)
    }
}
