//! The lines of a history, one event after the other.
ghost use Rattle.std.specs.Option.{option_copied};
ghost use Rattle.std.specs.Prelude.{◌≡◌, ◌+◌, IfOk, OnOk, reverse, replicate};
ghost use Rattle.history_report.specs.Told.{nothing_told, told_by, with_begin, with_down, with_event, with_line, with_outcome, with_up};

use super::looks::{called, end_one, is_up, next_number, session_at};
use cdb_values::Reply;
use cluster_steps::{Event, Woken};
use report_text::Line;
use script_form::SessionLine;
use std::alloc::{AllocError, Global};
use std::marker::Model;

/// What was told so far: the lines, how many of them tell that a node went down, and how many transactions of each
/// actor ended.
#[derive(Drop)]
struct Told {
    lines: Vec<Line>,
    downs: u64,
    ended: Vec<u64>,
}

impl Model for Told {
    ghost use Rattle.history_report.specs.Told.{SoFar};

    ghost Value = { SoFar };

    ghost view = { λ t. record { lines = t.lines.items; downs = t.downs; ended = t.ended.items } };
}

/// The lines that a history tells, of so many nodes and these sessions: its events with their actors, the oldest
/// first. More than 2^64 lines of a kind count as want of memory.
pub fn lines_told(
    alloc: Global,
    nodes: u8,
    sessions: &[SessionLine],
    events: Vec<(u32, Event)>,
) -> Result<Vec<Line>, AllocError>
    ensures { IfOk result (λ lines. lines.items ≡ (told_by nodes sessions.now (reverse events.items)).lines) }
{
    let mut told = Told::new(alloc, usize::from(nodes) + 1, sessions.len())?;
    'events: for step in events {
        let (actor, event) = step;
        told.tell(alloc, nodes, sessions, actor, event)?;
    }
    Ok(told.lines)
}

/// That many zeros.
fn zeros(alloc: Global, count: usize) -> Result<Vec<u64>, AllocError>
    ensures { IfOk result (λ v. v.items ≡ replicate count 0) }
{
    let mut zeros = Vec::with_capacity(alloc, count)?;
    let mut index = 0;
    while index < count {
        zeros.push(0)?;
        index += 1;
    }
    Ok(zeros)
}

impl Told {
    /// Nothing was told, to so many actors.
    fn new(alloc: Global, first: usize, others: usize) -> Result<Told, AllocError>
        ensures { IfOk result (λ t. t ≡ nothing_told (first + others)) }
    {
        let Some(actors) = first.checked_add(others) else {
            return Err(AllocError);
        };
        Ok(Told {
            lines: Vec::new(alloc),
            downs: 0,
            ended: zeros(alloc, actors)?,
        })
    }

    /// One line more.
    fn add(&mut self, line: Line) -> Result<(), AllocError>
        ensures { OnOk result (self.new ≡ with_line self.old line) }
    {
        self.lines.push(line)?;
        Ok(())
    }

    /// A node went down.
    fn tell_down(&mut self, node: u64, fault: bool) -> Result<(), AllocError>
        ensures { OnOk result (self.new ≡ with_down self.old node fault) }
    {
        let Some(count) = self.downs.checked_add(1) else {
            return Err(AllocError);
        };
        self.downs = count;
        self.add(Line::Down { count, node, fault })
    }

    /// It came up.
    fn tell_up(&mut self, how: &Woken, node: u64) -> Result<(), AllocError>
        ensures { OnOk result (self.new ≡ with_up self.old how.now node) }
    {
        if let Woken::First { .. } = how
            && is_up(node, self.lines.as_slice())
        {
            return Ok(());
        }
        self.add(Line::Up { node })
    }

    /// A session was told its begin.
    fn tell_begin(
        &mut self,
        alloc: Global,
        session: Option<&SessionLine>,
        actor: u32,
        position: u64,
    ) -> Result<(), AllocError>
        ensures { OnOk result (self.new ≡ with_begin self.old (option_copied session.entry) actor position) }
    {
        let txn = next_number(self.ended.as_slice(), actor)?;
        let name = called(alloc, session)?;
        let reply = Reply::Begin(position);
        self.add(Line::Session { name, txn, reply })
    }

    /// It was told how its transaction ended.
    fn tell_outcome(&mut self, actor: u32, line: Line) -> Result<(), AllocError>
        ensures { OnOk result (self.new ≡ with_outcome self.old actor line) }
    {
        end_one(&mut self.ended, actor)?;
        self.add(line)
    }

    /// What an actor's event tells.
    fn tell(
        &mut self,
        alloc: Global,
        nodes: u8,
        sessions: &[SessionLine],
        actor: u32,
        event: Event,
    ) -> Result<(), AllocError>
        ensures { OnOk result (self.new ≡ with_event nodes sessions.now self.old actor event) }
    {
        match event {
            Event::Up { how, .. } => self.tell_up(&how, u64::from(actor)),
            Event::Down { fault } => self.tell_down(u64::from(actor), fault),
            Event::Begun { position, .. } => {
                self.tell_begin(alloc, session_at(nodes, sessions, actor), actor, position)
            }
            Event::Reply { line } => self.add(line),
            Event::Outcome { line } => self.tell_outcome(actor, line),
            Event::Barrier => self.add(Line::Barrier),
            Event::Fed { position, .. } => self.add(Line::Fed { position }),
            Event::FedAgain { position } => self.add(Line::Fed { position }),
            _ => Ok(()),
        }
    }
}
