//! The sizes of a node's logs, one event after the other.
ghost use Rattle.std.specs.Prelude.{◌≡◌, ℕ, List, IfOk, OnOk, reverse};
ghost use Rattle.history_base.specs.Sizes.{no_sizes, length_at, sized_by, sizes_of, up_with, with_accepted, with_led, with_log};
ghost use Rattle.history_base.specs.Tail.{has_accepted};

use cluster_steps::{Event, Woken};
use std::alloc::{AllocError, Global};
use std::marker::Model;

/// A log in a generation, by its length.
#[derive(Clone, Copy)]
pub(crate) struct Size {
    pub(crate) generation: u64,
    pub(crate) length: u64,
}

/// How often a node came up, its log, and those that it accepted or led with, the first one first.
#[derive(Drop)]
pub(crate) struct Sizes {
    pub(crate) ups: usize,
    pub(crate) accepted: u64,
    pub(crate) length: u64,
    pub(crate) accepts: Vec<Size>,
    pub(crate) leads: Vec<Size>,
}

impl Model for Sizes {
    ghost use Rattle.history_base.specs.Sizes.{Sizes as AllSizes};

    ghost Value = { AllSizes };

    ghost view = { λ s. record { ups = s.ups; accepted = s.accepted; length = s.length; accepts = s.accepts.items; leads = s.leads.items } };
}

/// The sizes of a node's logs in a history, whose events are the oldest first, with the lengths that were noted of it.
pub(crate) fn node_sizes(
    alloc: Global,
    node: u32,
    lengths: &[u64],
    events: &[(u32, Event)],
) -> Result<Sizes, AllocError>
    ensures { IfOk result (λ s. s ≡ sizes_of node lengths.now (reverse events.now)) }
{
    let mut sizes = Sizes::none(alloc);
    let mut rest = events;
    'events: while let Some((step, after)) = rest.split_first() {
        let (actor, event) = step;
        if node == *actor {
            sizes.add(lengths, event)?;
        }
        rest = after;
    }
    Ok(sizes)
}

impl Sizes {
    /// Those of a node that did nothing.
    fn none(alloc: Global) -> Sizes
        ensures { result ≡ no_sizes }
    {
        Sizes {
            ups: 0,
            accepted: 0,
            length: 0,
            accepts: Vec::new(alloc),
            leads: Vec::new(alloc),
        }
    }

    /// Whether it accepted in a generation.
    pub(crate) fn has_accepted(&self, generation: u64) -> bool
        ensures { result ≡ has_accepted generation self.now }
    {
        self.accepts.iter().any(|a| a.generation == generation)
    }

    /// It has a log in a generation.
    fn has(&mut self, generation: u64, length: u64)
        ensures { self.new ≡ with_log self.old generation length }
    {
        self.accepted = generation;
        self.length = length;
    }

    /// It accepts a log.
    fn accept(&mut self, generation: u64, length: u64) -> Result<(), AllocError>
        ensures { OnOk result (self.new ≡ with_accepted self.old generation length) }
    {
        self.accepts.push(Size { generation, length })?;
        self.has(generation, length);
        Ok(())
    }

    /// It leads with a log, or was about to.
    fn lead(&mut self, generation: u64, length: u64) -> Result<(), AllocError>
        ensures { OnOk result (self.new ≡ with_led self.old generation length) }
    {
        self.leads.push(Size { generation, length })?;
        self.accept(generation, length)
    }

    /// It comes up with a log.
    fn wake(&mut self, how: &Woken, generation: u64, length: u64) -> Result<(), AllocError>
        ensures { OnOk result (self.new ≡ up_with self.old how.now generation length) }
    {
        let Some(ups) = self.ups.checked_add(1) else {
            return Err(AllocError);
        };
        self.ups = ups;
        match how {
            Woken::Led => self.lead(generation, length),
            Woken::Took => self.accept(generation, length),
            Woken::Appended if self.length < length => self.accept(generation, length),
            _ => {
                self.has(generation, length);
                Ok(())
            }
        }
    }

    /// An event of the node.
    fn add(&mut self, lengths: &[u64], event: &Event) -> Result<(), AllocError>
        ensures { OnOk result (self.new ≡ sized_by lengths.now self.old event.now) }
    {
        match event {
            Event::Up { how, accepted, .. } => {
                let length = noted(lengths, self.ups);
                self.wake(how, *accepted, length)
            }
            Event::Lead { generation } => {
                let length = self.length;
                self.lead(*generation, length)
            }
            Event::Take { generation, length } => self.accept(*generation, *length),
            Event::Append { .. } => {
                let accepted = self.accepted;
                let Some(length) = self.length.checked_add(1) else {
                    return Err(AllocError);
                };
                self.accept(accepted, length)
            }
            _ => Ok(()),
        }
    }
}

/// The length that was noted of a time that a node came up.
fn noted(lengths: &[u64], at: usize) -> u64
    ensures { result ≡ length_at lengths.now at }
{
    match lengths.get(at) {
        Some(length) => *length,
        None => 0,
    }
}
