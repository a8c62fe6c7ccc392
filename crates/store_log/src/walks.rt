//! The frames of a store are read one after the other, through a window that grows with the greatest frame.
ghost use Rattle.std.specs.Prelude.{◌≡◌, ◌≤◌, ◌<◌, ◌+◌, length, drop, is_some, if◌then◌else◌, IfOk, IfErr, OnOk};
ghost use Rattle.std.specs.Io.{StartsWith};
ghost use Rattle.frame_code.specs.Fronts.{IsFrameFront};
ghost use Rattle.store_log.specs.declared.opens.OpenFault.TheVariants as fault;
ghost use Rattle.store_log.specs.Opens.{IsLater};
ghost use Rattle.store_log.specs.Steps.{IsStep};
ghost use Rattle.store_log.specs.Walks.{IsWalk, ahead, IsEnded, IsTurn, IsWalkFault, further};

use crate::held_logs::HeldLog;
use crate::opens::OpenFault;
use crate::readings::HEADER_SIZE;
use crate::steps::{Step, take_next};
use crate::windows::{grow, sum, without_front};
use cdb_outside::LogStore;
use std::alloc::Global;

/// How far a store is read.
#[derive(Drop)]
pub(crate) struct Reach {
    /// The offset behind the last frame that was taken.
    at: u64,
    /// The offset behind the last of them after which no adoption is open.
    closed: u64,
    /// Bytes of the store, in front of the offset and behind it.
    window: Vec<u8>,
    /// How many bytes of the window are in front of the offset.
    used: usize,
}

/// The frames of a store that was read to its end.
#[derive(Drop)]
pub(crate) struct Ended {
    /// What they stand for.
    pub(crate) held: HeldLog,
    /// The offset behind the last of them after which no adoption is open.
    pub(crate) closed: u64,
    /// The offset behind the last byte.
    pub(crate) end: u64,
}

/// What comes of one frame more, or of more bytes.
#[derive(Drop)]
pub(crate) enum Turn {
    /// What is held, and how far the store is read.
    On(HeldLog, Reach),
    /// Less than an envelope is left, and no byte behind it.
    Done(Ended),
}

/// Reads the frames of a store whose header is at the front of the window.
#[tactic(auto, using(crate::proofs::WalkLemmas::walk_begun, crate::proofs::FaultLemmas::walk_from, crate::proofs::FaultLemmas::later_from))]
pub(crate) fn read_frames<D: LogStore>(
    alloc: Global,
    store: &mut D,
    window: Vec<u8>,
) -> Result<Ended, OpenFault>
    requires begun { 27 ≤ length window.items }
    requires front { StartsWith (D.synced store.old) window.items }
    ensures ended { IfOk result (λ e. IsEnded (D.synced store.old) e) }
    ensures why { IfErr result (λ w. IsWalkFault w (D.synced store.old) (D.faults store.old) (D.faults store.new)) }
    ensures synced { D.synced store.new ≡ D.synced store.old }
    ensures pending { D.pending store.new ≡ D.pending store.old }
    ensures unwritten { D.writes store.new ≡ D.writes store.old }
    ensures calm { OnOk result (D.faults store.new ≡ D.faults store.old) }
    ensures later { IfErr result (λ w. IsLater w (D.faults store.old) (D.faults store.new)) }
{
    let mut held = HeldLog::new(alloc);
    let mut reach = Reach {
        at: HEADER_SIZE as u64,
        closed: HEADER_SIZE as u64,
        window,
        used: HEADER_SIZE,
    };
    'frames: loop {
        match take_turn(alloc, store, held, reach)? {
            Turn::On(now, next) => {
                held = now;
                reach = next;
            }
            Turn::Done(last) => return Ok(last),
        }
    }
}

/// Takes the frame at the offset, or reads more bytes.
#[tactic(auto, using(crate::proofs::WalkLemmas::walk_to, crate::proofs::WalkLemmas::walk_corrupt, crate::proofs::WalkLemmas::more_within, crate::proofs::WalkLemmas::walk_same, crate::proofs::FaultLemmas::memory_walk, crate::proofs::FaultLemmas::same_later))]
fn take_turn<D: LogStore>(
    alloc: Global,
    store: &mut D,
    held: HeldLog,
    reach: Reach,
) -> Result<Turn, OpenFault>
    requires { IsWalk (D.synced store.old) held reach }
    ensures turn { IfOk result (λ t. IsTurn t (D.synced store.old) (ahead (D.synced store.old) reach)) }
    ensures why { IfErr result (λ w. IsWalkFault w (D.synced store.old) (D.faults store.old) (D.faults store.new)) }
    ensures synced { D.synced store.new ≡ D.synced store.old }
    ensures pending { D.pending store.new ≡ D.pending store.old }
    ensures unwritten { D.writes store.new ≡ D.writes store.old }
    ensures calm { OnOk result (D.faults store.new ≡ D.faults store.old) }
    ensures later { IfErr result (λ w. IsLater w (D.faults store.old) (D.faults store.new)) }
{
    match next_of(alloc, held, &reach)? {
        Step::Wrong => Err(OpenFault::Corrupt { at: reach.at }),
        Step::End(same) => read_more(alloc, store, same, reach),
        Step::More(now, size) => {
            let next = advanced(&now, reach, size)?;
            Ok(Turn::On(now, next))
        }
    }
}

/// What the bytes of the window from the offset on make of what is held.
fn next_of(alloc: Global, held: HeldLog, reach: &Reach) -> Result<Step, OpenFault>
    requires { reach.now.used ≤ length reach.now.window.items }
    ensures step { IfOk result (λ s. IsStep s held (drop reach.now.used reach.now.window.items)) }
    ensures why { IfErr result (λ w. w ≡ fault.NoMemory) }
{
    let (_, rest) = reach.window.as_slice().split_at(reach.used);
    match take_next(alloc, held, rest) {
        Ok(step) => Ok(step),
        Err(_) => Err(OpenFault::NoMemory),
    }
}

/// How far a store is read with one frame more, which takes so many bytes.
fn advanced(held: &HeldLog, reach: Reach, size: u64) -> Result<Reach, OpenFault>
    requires { reach.used + size ≤ length reach.window.items }
    ensures reach { IfOk result (λ r. r ≡ further held.now.adopting reach size) }
    ensures why { IfErr result (λ w. w ≡ fault.NoMemory) }
{
    let at = sum(reach.at, size)?;
    Ok(Reach {
        at,
        closed: closed_at(held, reach.closed, at),
        window: reach.window,
        used: reach.used + size as usize,
    })
}

/// Where the last frame ends after which no adoption is open: at the offset, or where it did before.
fn closed_at(held: &HeldLog, before: u64, at: u64) -> u64
    ensures { result ≡ (if is_some held.now.adopting then before else at) }
{
    if held.is_adopting() {
        return before;
    }
    at
}

/// Reads more bytes, where the window has less than an envelope behind the offset.
#[tactic(auto, using(crate::proofs::WalkLemmas::walk_window, crate::proofs::WalkLemmas::walk_grown, crate::proofs::WalkLemmas::walk_ended, crate::proofs::FaultLemmas::memory_walk, crate::proofs::FaultLemmas::call_walk, crate::proofs::FaultLemmas::same_later))]
fn read_more<D: LogStore>(
    alloc: Global,
    store: &mut D,
    held: HeldLog,
    reach: Reach,
) -> Result<Turn, OpenFault>
    requires walk { IsWalk (D.synced store.old) held reach }
    requires short { IsFrameFront (drop reach.used reach.window.items) }
    ensures turn { IfOk result (λ t. IsTurn t (D.synced store.old) (ahead (D.synced store.old) reach)) }
    ensures why { IfErr result (λ w. IsWalkFault w (D.synced store.old) (D.faults store.old) (D.faults store.new)) }
    ensures synced { D.synced store.new ≡ D.synced store.old }
    ensures pending { D.pending store.new ≡ D.pending store.old }
    ensures unwritten { D.writes store.new ≡ D.writes store.old }
    ensures calm { OnOk result (D.faults store.new ≡ D.faults store.old) }
    ensures later { IfErr result (λ w. IsLater w (D.faults store.old) (D.faults store.new)) }
{
    let Reach {
        at,
        closed,
        window,
        used,
    } = reach;
    let mut window = without_front(alloc, window, used)?;
    let size = grow(store, at, &mut window)?;
    if size == 0 {
        let end = sum(at, window.len() as u64)?;
        return Ok(Turn::Done(Ended { held, closed, end }));
    }
    Ok(Turn::On(
        held,
        Reach {
            at,
            closed,
            window,
            used: 0,
        },
    ))
}
