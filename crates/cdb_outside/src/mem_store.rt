//! A store of a log in memory, which fails as planned, and stops inside a write where it is told to.
ghost use Rattle.std.specs.Prelude.{◌≡◌, ◌-◌, ◌<◌, ◌≤◌, ◌↔◌, ◌⊎◌, IsTrue, [], ◌++◌, min, length, take, drop, IfOk, OnOk, OnErr};
ghost use Rattle.std.specs.Io.{ReadsAtMost, StartsWith};
ghost use Rattle.cdb_outside.specs.Faults.{HasCause, Rose};
ghost use Rattle.cdb_outside.specs.Parts.{IsFront, IsFrontFrom};
ghost use Rattle.cdb_outside.specs.Plans.{fresh};
ghost use Rattle.cdb_outside.specs.Stores.{GivesFrom};
ghost use Rattle.cdb_outside.specs.Objects.{HeldStore};
ghost use Rattle.cdb_outside.specs.Stops.{IsRefused, StopsIn, room_in, left_behind, passed, refused, written, appended, halted};

use crate::faults::FaultPlan;
use crate::kept::KeptBytes;
use crate::{Failed, LogStore};
use std::marker::Model;

/// A store that keeps its bytes in memory. Its calls but `halt` are numbered from 1, and those of the plan fail. Where it
/// is to stop, it takes that many appended bytes and fails from then on, until it is halted. Besides, an append fails
/// that finds no memory.
#[derive(Drop)]
pub struct MemStore {
    kept: KeptBytes,
    keeps: u64,
    left: Option<u64>,
    writes: u64,
    plan: FaultPlan,
}

impl Model for MemStore {
    ghost Value = { HeldStore };

    ghost view = { λ s. record {
      durable = s.kept.durable;
      waiting = s.kept.waiting;
      keeps = s.keeps;
      left = s.left;
      writes = s.writes;
      plan = s.plan;
    } };
}

impl MemStore {
    /// A store with these synced bytes and none pending. The calls with the numbers of `fails` fail. `stop_after` is how
    /// many bytes are appended before it stops; none where it does not. `keeps` is how many pending bytes a halt keeps;
    /// it keeps all of them where they are fewer.
    pub fn new(bytes: Vec<u8>, fails: Vec<u64>, stop_after: Option<u64>, keeps: u64) -> MemStore
        ensures { result ≡ record {
          durable = bytes.items;
          waiting = [];
          keeps = keeps;
          left = stop_after;
          writes = 0;
          plan = fresh fails.items;
        } }
    {
        MemStore {
            kept: KeptBytes::new(bytes),
            keeps,
            left: stop_after,
            writes: 0,
            plan: FaultPlan::new(fails),
        }
    }

    /// The synced bytes.
    pub fn synced(&self) -> &[u8]
        ensures { result.now ≡ self.now.durable }
    {
        self.kept.synced()
    }

    /// Whether the next call fails, whatever it is.
    fn refuses(&self) -> bool
        ensures { IsTrue result ↔ IsRefused self.now }
    {
        self.left == Some(0) || self.plan.fails_next()
    }

    /// How many of so many bytes are taken before the store stops.
    fn room(&self, count: usize) -> usize
        ensures { result ≡ room_in self.now.left count }
    {
        match self.left {
            Some(left) => (left as usize).min(count),
            None => count,
        }
    }

    /// Counts the bytes that were taken, in a call that succeeds.
    fn count_taken(&mut self, count: usize)
        ensures { self.new ≡ record (passed self.old) { left = left_behind self.old.left count } }
    {
        if let Some(left) = self.left {
            self.left = Some(left.saturating_sub(count as u64));
        }
        self.plan.count_success();
    }
}

impl LogStore for MemStore {
    ghost synced = { λ s. s.durable };

    ghost pending = { λ s. s.waiting };

    ghost faults = { λ s. s.plan.failures };

    ghost writes = { λ s. s.writes };

    /// Gives as many bytes as the buffer has room for and stand there.
    fn read(&mut self, at: u64, buf: &mut [u8]) -> Result<usize, Failed>
        ensures bound { ReadsAtMost result buf.new }
        ensures given { GivesFrom self.old.durable at result buf.new }
        ensures some { at < length self.old.durable → 0 < length buf.old → IfOk result (λ n. 0 < n) }
        ensures cause { HasCause self.old.plan.failures self.new.plan.failures result }

        ensures count { IfOk result (λ n. n ≡ min (length buf.old) (length self.old.durable - at)) }
        ensures passes { OnOk result ((IsRefused self.old → ⊥) × (self.new ≡ passed self.old)) }
        ensures fails { OnErr result (IsRefused self.old × (self.new ≡ refused self.old)) }
    {
        if self.refuses() {
            self.plan.count_failure();
            return Err(Failed);
        }
        self.plan.count_success();
        Ok(self.kept.give(at, buf))
    }

    /// Takes all of the bytes, or fails: as planned; or where the store stops inside of them; or where no memory is found
    /// for them, when nothing but the counts is changed.
    fn append(&mut self, bytes: &[u8]) -> Result<(), Failed>
        ensures part { OnErr result (IsFront self.new.waiting (self.old.waiting ++ bytes.now)) }
        ensures cause { HasCause self.old.plan.failures self.new.plan.failures result }
        ensures wrote { Rose self.old.writes self.new.writes }

        ensures passes { OnOk result ((IsRefused self.old → ⊥) × (room_in self.old.left (length bytes.now) ≡ length bytes.now)) }
        ensures success { OnOk result (self.new ≡ appended self.old bytes.now) }
        ensures failure { OnErr result ((self.new ≡ refused (written self.old)) ⊎ StopsIn self.old bytes.now self.new) }
    {
        let refuses = self.refuses();
        let room = self.room(bytes.len());
        self.writes = self.writes.saturating_add(1);
        if refuses {
            self.plan.count_failure();
            return Err(Failed);
        }
        let (front, over) = bytes.split_at(room);
        if !self.kept.add(front) {
            self.plan.count_failure();
            return Err(Failed);
        }
        if !over.is_empty() {
            self.left = Some(0);
            self.plan.count_failure();
            return Err(Failed);
        }
        self.count_taken(front.len());
        Ok(())
    }

    fn sync(&mut self) -> Result<(), Failed>
        ensures part { OnErr result (IsFront self.new.waiting self.old.waiting) }
        ensures cause { HasCause self.old.plan.failures self.new.plan.failures result }
        ensures wrote { Rose self.old.writes self.new.writes }

        ensures passes { OnOk result ((IsRefused self.old → ⊥)
            × (self.new ≡ record (passed (written self.old)) { durable = self.old.durable ++ self.old.waiting; waiting = [] })) }
        ensures fails { OnErr result (IsRefused self.old × (self.new ≡ refused (written self.old))) }
    {
        let refuses = self.refuses();
        self.writes = self.writes.saturating_add(1);
        if refuses {
            self.plan.count_failure();
            return Err(Failed);
        }
        self.kept.join();
        self.plan.count_success();
        Ok(())
    }

    fn cut(&mut self, at: u64) -> Result<(), Failed>
        requires settled { self.old.waiting ≡ [] }
        requires within { at ≤ length self.old.durable }
        ensures part { OnErr result (IsFrontFrom at self.new.durable self.old.durable) }
        ensures cause { HasCause self.old.plan.failures self.new.plan.failures result }
        ensures wrote { Rose self.old.writes self.new.writes }

        ensures passes { OnOk result ((IsRefused self.old → ⊥)
            × (self.new ≡ record (passed (written self.old)) { durable = take at self.old.durable })) }
        ensures fails { OnErr result (IsRefused self.old × (self.new ≡ refused (written self.old))) }
    {
        let refuses = self.refuses();
        self.writes = self.writes.saturating_add(1);
        if refuses {
            self.plan.count_failure();
            return Err(Failed);
        }
        self.kept.cut(at);
        self.plan.count_success();
        Ok(())
    }

    /// Keeps as many pending bytes as the store was made to keep. A store that stopped goes on.
    fn halt(&mut self)
        ensures { self.new ≡ halted self.old }
    {
        self.kept.settle(self.keeps);
        if self.left == Some(0) {
            self.left = None;
        }
    }
}
