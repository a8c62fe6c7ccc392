ghost use Rattle.std.specs.Prelude as std;
ghost use Rattle.std.specs.Prelude.{ℕ, ◌≡◌, ◌≤◌, IfOk, length, take};
ghost use Rattle.page_store.specs.Sources.{IsExcused};
ghost use Rattle.phys_log.specs.declared.entries.Entry.{Entry as OneEntry};
ghost use Rattle.phys_log.specs.Logs.{pages_of};
ghost use Rattle.undo_snapshot.specs.Grants.{Speaks};

use crate::undoing::undo_grant;
use log_replay::{Grant, PagedLog};
use page_store::{Page, PageFault};
use std::alloc::Global;
use std::marker::Model;

/// Who grants pages to a reader at an earlier position. Each grant speaks of some log that begins with the reader's first
/// entries, perhaps of another one each time.
pub trait Granter {
    /// The entries up to the reader's position, with which each log begins that a grant speaks of.
    ghost front: { Self → std.List OneEntry };

    /// How often the one who has the log was lost, up to the last value of a u64. A count that stands there after a call
    /// counts as one that rose in it.
    ghost losses: { Self → ℕ };

    /// A page as it is now, and its records after the reader's position, newest first. `Gone` comes only where the one
    /// who has the log was lost; the other error is want of memory.
    fn grant(&mut self, alloc: Global, page: u64) -> Result<Grant, PageFault>
        ensures spoken { IfOk result (Speaks (front self.old) page) }
        ensures front { front self.new ≡ front self.old }
        ensures excused { IsExcused result (losses self.old) (losses self.new) };

    /// The page of the first entries: a grant, undone. Who has the log at hand undoes its records where they lie. Its errors
    /// are those of a grant.
    fn page(&mut self, alloc: Global, page: u64) -> Result<Page, PageFault>
        ensures page { IfOk result (λ p. p ≡ pages_of (front self.old) page) }
        ensures front { front self.new ≡ front self.old }
        ensures excused { IsExcused result (losses self.old) (losses self.new) }
    {
        let grant = self.grant(alloc, page)?;
        match undo_grant(grant) {
            Ok(page) => Ok(page),
            Err(_) => Err(PageFault::NoMemory),
        }
    }
}

/// Grants of a log in memory to a reader at a position of it. Contracts see the entries up to the position.
#[derive(Drop)]
pub struct LogGranter<'a> {
    log: &'a PagedLog,
    position: u64,
}

impl<'a> Model for LogGranter<'a> {
    ghost use Rattle.std.specs.Prelude as std;
    ghost use Rattle.std.specs.Prelude.{◌≤◌, length, take};
    ghost use Rattle.phys_log.specs.declared.entries.Entry.{Entry as OneEntry};

    ghost Value = { std.List OneEntry };

    ghost view = { λ g. take g.position g.log.now };

    ghost invariant = { λ g. g.position ≤ length g.log.now };
}

impl<'a> LogGranter<'a> {
    /// Grants of this log to a reader at this position.
    pub fn new(log: &'a PagedLog, position: u64) -> LogGranter<'a>
        requires { position ≤ length log.now }
        ensures { result ≡ take position log.now }
    {
        LogGranter { log, position }
    }
}

impl<'a> Granter for LogGranter<'a> {
    ghost front = { λ g. g };

    ghost losses = { λ _. 0 };

    fn grant(&mut self, alloc: Global, page: u64) -> Result<Grant, PageFault> {
        let grant = match self.log.grant(alloc, page, self.position) {
            Ok(grant) => grant,
            Err(_) => return Err(PageFault::NoMemory),
        };
        Ok(grant)
    }

    fn page(&mut self, alloc: Global, page: u64) -> Result<Page, PageFault> {
        let undone = match self.log.page_at(alloc, page, self.position) {
            Ok(undone) => undone,
            Err(_) => return Err(PageFault::NoMemory),
        };
        Ok(undone)
    }
}
