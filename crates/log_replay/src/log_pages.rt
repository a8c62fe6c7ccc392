ghost use Rattle.std.specs.Prelude.{ℕ, ◌≡◌, IfOk, None, option_map};
ghost use Rattle.page_store.specs.Image.{blank_image};
ghost use Rattle.phys_log.specs.Logs.{pages_of};
ghost use Rattle.log_replay.specs.Blanks.{IsBlank};

use crate::logs::PagedLog;
use page_store::{Page, PageFault, PageSource};
use std::alloc::{AllocError, Global};
use std::marker::Model;

/// The blank page of a source: that of its log, or its own where the log has none.
#[derive(Drop)]
enum Blank<'a> {
    Lent(&'a Page),
    Own(Page),
}

/// The pages of a log as a source. It loses none.
#[derive(Drop)]
pub struct LogPages<'a> {
    log: &'a PagedLog,
    blank: Blank<'a>,
    loaded: Option<u64>,
}

impl<'a> Model for LogPages<'a> {
    ghost use Rattle.log_replay.specs.Answers.{LogSource};
    ghost use Rattle.log_replay.specs.Blanks.{IsBlank};

    ghost Value = { LogSource };

    ghost view = { λ s. record { entries = s.log.now; loaded = s.loaded } };

    ghost invariant = { λ s. IsBlank s.blank };
}

impl<'a> LogPages<'a> {
    /// The pages of a log, with none loaded. The error is want of memory.
    pub fn new(alloc: Global, log: &'a PagedLog) -> Result<LogPages<'a>, AllocError>
        ensures { IfOk result (λ s. s ≡ record { entries = log.now; loaded = None }) }
    {
        Ok(LogPages {
            log,
            blank: blank_of(alloc, log)?,
            loaded: None,
        })
    }
}

impl<'a> PageSource for LogPages<'a> {
    ghost pages = { λ s. pages_of s.entries };

    ghost below = { λ s. pages_of s.entries };

    ghost loaded = { λ s. option_map (pages_of s.entries) s.loaded };

    ghost losses = { λ _. 0 };

    fn load(&mut self, id: u64) -> Result<(), PageFault> {
        self.loaded = Some(id);
        Ok(())
    }

    fn page(&self) -> &Page {
        match self.loaded {
            Some(id) => page_or(self.log, id, blank_in(&self.blank)),
            None => blank_in(&self.blank),
        }
    }
}

/// The blank page of a source over a log.
fn blank_of<'a>(alloc: Global, log: &'a PagedLog) -> Result<Blank<'a>, AllocError>
    ensures { IfOk result IsBlank }
{
    match log.blank_page() {
        Some(page) => Ok(Blank::Lent(page)),
        None => Ok(Blank::Own(Page::blank(alloc)?)),
    }
}

/// The blank page itself.
fn blank_in<'a>(blank: &'a Blank<'_>) -> &'a Page
    requires { IsBlank blank.now }
    ensures { result.now ≡ blank_image }
{
    match blank {
        Blank::Lent(page) => page,
        Blank::Own(page) => page,
    }
}

/// A page of a log, or this blank one.
fn page_or<'a>(log: &'a PagedLog, id: u64, blank: &'a Page) -> &'a Page
    requires { blank.now ≡ blank_image }
    ensures { result.now ≡ pages_of log.now id }
{
    match log.page(id) {
        Some(page) => page,
        None => blank,
    }
}
