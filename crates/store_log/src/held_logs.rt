//! What the frames of a store stand for, in memory: a fold that takes one frame after the other.
ghost use Rattle.std.specs.Prelude.{◌≡◌, ◌≤◌, ◌++◌, ◌∷◌, [], length, take, drop, IfOk, OnOk, None, Some, is_some};
ghost use Rattle.frame_code.specs.declared.frames.Frame.TheVariants as frame;
ghost use Rattle.phys_log.specs.Logs.{Fits, IsLog};
ghost use Rattle.store_log.specs.Asides.{log_of, ArePieces};
ghost use Rattle.store_log.specs.Held.{at_first, May, after, generation_of};
ghost use Rattle.store_log.specs.Steps.{TellsMay, told};

use crate::asides::Aside;
use cdb_values::List;
use frame_code::Frame;
use log_replay::{AppendFault, PagedLog};
use phys_log::{Entry, copy_entry};
use std::alloc::{AllocError, Global};
use std::marker::Model;

/// Why a frame was not taken.
#[derive(Drop)]
pub enum TakeFault {
    /// The frame may not stand there.
    Misplaced,
    /// Want of memory, or an LSN at or above 2^62.
    NoMemory,
}

/// What the frames so far stand for: the generations that were promised and accepted, the log with its pages, and the
/// entries of an open adoption. It costs as much as the records that an adoption leaves out, and not as the log.
#[derive(Drop)]
pub struct HeldLog {
    promised: u64,
    accepted: u64,
    live: PagedLog,
    aside: Option<Aside>,
}

impl Model for HeldLog {
    ghost use Rattle.store_log.specs.Held.{Held};
    ghost use Rattle.store_log.specs.Asides.{log_of, adoption_of, ArePieces};

    ghost Value = { Held };

    ghost view = { λ h. record {
      promised = h.promised;
      accepted = h.accepted;
      entries = log_of h.live h.aside;
      adopting = adoption_of h.live h.aside;
    } };

    ghost invariant = { λ h. ArePieces h.live h.aside };
}

impl HeldLog {
    /// What is held before the first frame. Takes no memory.
    #[tactic(auto, using(crate::proofs::PieceLemmas::no_pieces))]
    pub fn new(alloc: Global) -> HeldLog
        ensures { result ≡ at_first }
    {
        HeldLog {
            promised: 0,
            accepted: 0,
            live: PagedLog::new(alloc),
            aside: None,
        }
    }

    /// Takes the next frame, where it may stand there.
    pub fn take(self, alloc: Global, frame: Frame) -> Result<HeldLog, TakeFault>
        ensures taken { IfOk result (λ h. h ≡ after self frame) }
        ensures may { TellsMay result (May self frame) }
    {
        match frame {
            Frame::Header { .. } => Err(TakeFault::Misplaced),
            Frame::Promise(generation) => self.promise(alloc, generation),
            Frame::Accept(generation) => self.accept(generation),
            Frame::Entry(entry) => self.add(alloc, entry),
            Frame::Cut(kept) => self.cut(alloc, kept),
        }
    }

    /// The promised generation, the accepted one, and the log, with an open adoption dropped.
    pub fn into_parts(self, alloc: Global) -> Result<(u64, u64, PagedLog), AllocError>
        ensures promised { IfOk result (λ p. p.0 ≡ self.promised) }
        ensures accepted { IfOk result (λ p. p.1 ≡ self.accepted) }
        ensures entries { IfOk result (λ p. p.2 ≡ self.entries) }
    {
        let HeldLog {
            promised,
            accepted,
            live,
            aside,
        } = self;
        let log = restored(alloc, live, aside)?;
        Ok((promised, accepted, log))
    }

    /// Whether an adoption is open.
    pub fn is_adopting(&self) -> bool
        ensures { result ≡ is_some self.now.adopting }
    {
        self.aside.is_some()
    }

    /// Takes a promise.
    fn promise(self, alloc: Global, generation: u64) -> Result<HeldLog, TakeFault>
        ensures taken { IfOk result (λ h. h ≡ after self (frame.Promise generation)) }
        ensures may { TellsMay result (May self (frame.Promise generation)) }
    {
        let HeldLog {
            promised,
            accepted,
            live,
            aside,
        } = self;
        if generation <= promised {
            return Err(TakeFault::Misplaced);
        }
        match restored(alloc, live, aside) {
            Ok(log) => Ok(plain(generation, accepted, log)),
            Err(_) => Err(TakeFault::NoMemory),
        }
    }

    /// Takes an acceptance.
    fn accept(self, generation: u64) -> Result<HeldLog, TakeFault>
        ensures taken { IfOk result (λ h. h ≡ after self (frame.Accept generation)) }
        ensures may { TellsMay result (May self (frame.Accept generation)) }
    {
        let HeldLog {
            promised,
            accepted,
            live,
            aside: _,
        } = self;
        if generation != promised || generation <= accepted {
            return Err(TakeFault::Misplaced);
        }
        Ok(plain(promised, generation, live))
    }

    /// Takes an entry.
    fn add(self, alloc: Global, entry: Entry) -> Result<HeldLog, TakeFault>
        ensures taken { IfOk result (λ h. h ≡ after self (frame.Entry entry)) }
        ensures may { TellsMay result (May self (frame.Entry entry)) }
    {
        let HeldLog {
            promised,
            accepted,
            live,
            aside,
        } = self;
        match aside {
            None => add_to_log(alloc, promised, accepted, live, entry),
            Some(aside) => add_to_adoption(alloc, promised, accepted, live, aside, entry),
        }
    }

    /// Takes a cut.
    fn cut(self, alloc: Global, kept: u64) -> Result<HeldLog, TakeFault>
        ensures taken { IfOk result (λ h. h ≡ after self (frame.Cut kept)) }
        ensures may { TellsMay result (May self (frame.Cut kept)) }
    {
        let HeldLog {
            promised,
            accepted,
            live,
            aside,
        } = self;
        let log = match restored(alloc, live, aside) {
            Ok(log) => log,
            Err(_) => return Err(TakeFault::NoMemory),
        };
        if kept > log.entries().len() as u64 {
            return Err(TakeFault::Misplaced);
        }
        match set_aside(alloc, promised, accepted, log, kept) {
            Ok(held) => Ok(held),
            Err(_) => Err(TakeFault::NoMemory),
        }
    }
}

/// A log with no adoption open.
#[tactic(auto, using(crate::proofs::PieceLemmas::plain_pieces))]
fn plain(promised: u64, accepted: u64, log: PagedLog) -> HeldLog
    requires { ∥ IsLog log ∥₁ }
    ensures { result ≡ record { promised = promised; accepted = accepted; entries = log; adopting = None } }
{
    HeldLog {
        promised,
        accepted,
        live: log,
        aside: None,
    }
}

/// The log without the adoption that is open.
fn restored(alloc: Global, mut live: PagedLog, aside: Option<Aside>) -> Result<PagedLog, AllocError>
    requires { ArePieces live aside }
    ensures { IfOk result (λ log. log ≡ log_of live aside) }
{
    match aside {
        None => Ok(live),
        Some(aside) => {
            live.drop_tail(alloc, aside.kept)?;
            append_all(alloc, &mut live, aside.tail.as_slice())?;
            Ok(live)
        }
    }
}

/// Adds the entries that a log had before.
#[tactic(auto, using(crate::proofs::PieceLemmas::next_fits))]
fn append_all(alloc: Global, log: &mut PagedLog, entries: &[Entry]) -> Result<(), AllocError>
    requires { ∥ IsLog (log.old ++ entries.now) ∥₁ }
    ensures { OnOk result (log.new ≡ log.old ++ entries.now) }
{
    let mut rest = entries;
    'entries: while let Some((entry, behind)) = rest.split_first() {
        append_copy(alloc, log, entry)?;
        rest = behind;
    }
    Ok(())
}

/// Adds a copy of an entry that fits.
fn append_copy(alloc: Global, log: &mut PagedLog, entry: &Entry) -> Result<(), AllocError>
    requires { Fits log.old entry.now }
    ensures { OnOk result (log.new ≡ log.old ++ entry.now ∷ []) }
{
    let copy = copy_entry(alloc, entry)?;
    match log.append(alloc, copy) {
        Ok(()) => Ok(()),
        Err(AppendFault::Unfit(_)) => unreachable!(),
        Err(AppendFault::NoMemory(_)) => Err(AllocError),
    }
}

/// The generation of an entry.
fn generation_in(entry: &Entry) -> u64
    ensures { result ≡ generation_of entry.now }
{
    match entry {
        Entry::Setup { generation, .. } => *generation,
        Entry::Commit { generation, .. } => *generation,
    }
}

/// A log with an entry more. Where there is none, both are let go here, so that the steps of their destructors stand in
/// no other function.
fn appended(alloc: Global, mut live: PagedLog, entry: Entry) -> Result<PagedLog, TakeFault>
    ensures taken { IfOk result (λ log. log ≡ live ++ entry ∷ []) }
    ensures may { TellsMay result (Fits live entry) }
{
    match live.append(alloc, entry) {
        Ok(()) => Ok(live),
        Err(fault) => {
            drop(live);
            Err(why_not(fault))
        }
    }
}

/// Why an entry was not added, which is let go.
fn why_not(fault: AppendFault) -> TakeFault
    ensures { result ≡ told fault }
{
    match fault {
        AppendFault::Unfit(entry) => {
            drop(entry);
            TakeFault::Misplaced
        }
        AppendFault::NoMemory(entry) => {
            drop(entry);
            TakeFault::NoMemory
        }
    }
}

/// Adds an entry to a log.
#[tactic(auto, using(crate::proofs::PieceLemmas::log_and_entry))]
fn add_to_log(
    alloc: Global,
    promised: u64,
    accepted: u64,
    live: PagedLog,
    entry: Entry,
) -> Result<HeldLog, TakeFault>
    requires { ∥ IsLog live ∥₁ }
    ensures taken { IfOk result (λ h.
        h ≡ record { promised = promised; accepted = accepted; entries = live ++ entry ∷ []; adopting = None }) }
    ensures may { TellsMay result ((generation_of entry ≡ accepted) × Fits live entry) }
{
    if generation_in(&entry) != accepted {
        drop(live);
        drop(entry);
        return Err(TakeFault::Misplaced);
    }
    let log = appended(alloc, live, entry)?;
    Ok(plain(promised, accepted, log))
}

/// Adds an entry to an open adoption.
#[tactic(auto, using(crate::proofs::PieceLemmas::one_more, crate::proofs::PieceLemmas::log_stays))]
fn add_to_adoption(
    alloc: Global,
    promised: u64,
    accepted: u64,
    live: PagedLog,
    aside: Aside,
    entry: Entry,
) -> Result<HeldLog, TakeFault>
    requires { ArePieces live (Some aside) }
    ensures taken { IfOk result (λ h. h ≡ record {
      promised = promised;
      accepted = accepted;
      entries = log_of live (Some aside);
      adopting = Some (live ++ entry ∷ []);
    }) }
    ensures may { TellsMay result (Fits live entry) }
{
    match appended(alloc, live, entry) {
        Ok(live) => Ok(HeldLog {
            promised,
            accepted,
            live,
            aside: Some(aside),
        }),
        Err(why) => {
            drop(aside);
            Err(why)
        }
    }
}

/// Opens an adoption with the first entries of a log, so many.
#[tactic(auto, using(crate::proofs::PieceLemmas::cut_pieces, crate::proofs::PieceLemmas::cut_log))]
fn set_aside(
    alloc: Global,
    promised: u64,
    accepted: u64,
    mut log: PagedLog,
    kept: u64,
) -> Result<HeldLog, AllocError>
    requires within { kept ≤ length log }
    requires logged { ∥ IsLog log ∥₁ }
    ensures { IfOk result (λ h.
        h ≡ record { promised = promised; accepted = accepted; entries = log; adopting = Some (take kept log) }) }
{
    let tail = copy_tail(alloc, log.entries(), kept)?;
    log.drop_tail(alloc, kept)?;
    Ok(HeldLog {
        promised,
        accepted,
        live: log,
        aside: Some(Aside { kept, tail }),
    })
}

/// Copies of the entries behind the first ones, so many.
fn copy_tail(alloc: Global, entries: &[Entry], kept: u64) -> Result<List<Entry>, AllocError>
    requires { kept ≤ length entries.now }
    ensures { IfOk result (λ l. l ≡ drop kept entries.now) }
{
    let (_, tail) = entries.split_at(kept as usize);
    copies(alloc, tail)
}

/// Copies of entries.
fn copies(alloc: Global, entries: &[Entry]) -> Result<List<Entry>, AllocError>
    ensures { IfOk result (λ l. l ≡ entries.now) }
{
    let mut copies = List::new(alloc);
    for entry in entries {
        copies.push(copy_entry(alloc, entry)?)?;
    }
    Ok(copies)
}
