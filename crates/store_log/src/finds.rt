//! What a store stands for, and where it is to be cut.
ghost use Rattle.std.specs.Prelude.{◌≡◌, ◌<◌, [], None, Some, length, IfOk, IfErr, OnOk};
ghost use Rattle.std.specs.Io.{StartsWith};
ghost use Rattle.store_log.specs.declared.opens.OpenFault.TheVariants as fault;
ghost use Rattle.store_log.specs.declared.readings.First.TheVariants.{Ours};
ghost use Rattle.store_log.specs.Firsts.{IsFirst};
ghost use Rattle.store_log.specs.Opens.{IsOpenFault, IsLater, IsUnread};
ghost use Rattle.store_log.specs.Walks.{IsFound};

use crate::opens::OpenFault;
use crate::readings::{First, first_frame};
use crate::walks::{Ended, read_frames};
use crate::windows::first_window;
use cdb_outside::LogStore;
use log_replay::PagedLog;
use std::alloc::Global;

/// What was found in a store.
#[derive(Drop)]
pub(crate) struct Found {
    pub(crate) promised: u64,
    pub(crate) accepted: u64,
    pub(crate) entries: PagedLog,
    /// Behind the last frame after which no adoption is open; none where the header is not whole.
    pub(crate) closed: Option<u64>,
    /// Behind the last byte.
    pub(crate) end: u64,
}

/// Reads a store.
#[tactic(auto, using(crate::proofs::FaultLemmas::call_told, crate::proofs::FaultLemmas::call_unread))]
pub(crate) fn read_log<D: LogStore>(
    alloc: Global,
    store: &mut D,
    node: u8,
    cluster: u128,
) -> Result<Found, OpenFault>
    ensures found { IfOk result (λ f. IsFound f node cluster (D.synced store.old)) }
    ensures why { IfErr result (λ w.
        IsOpenFault w node cluster (D.synced store.old) (D.faults store.old) (D.faults store.new)) }
    ensures unread { IfErr result IsUnread }
    ensures synced { D.synced store.new ≡ D.synced store.old }
    ensures pending { D.pending store.new ≡ D.pending store.old }
    ensures unwritten { D.writes store.new ≡ D.writes store.old }
    ensures calm { OnOk result (D.faults store.new ≡ D.faults store.old) }
    ensures later { IfErr result (λ w. IsLater w (D.faults store.old) (D.faults store.new)) }
{
    let window = first_window(alloc, store)?;
    read_from(alloc, store, window, node, cluster)
}

/// Reads a store, by the window over its first bytes.
#[tactic(auto, using(crate::proofs::FaultLemmas::memory_told, crate::proofs::FaultLemmas::memory_unread, crate::proofs::FaultLemmas::same_later))]
fn read_from<D: LogStore>(
    alloc: Global,
    store: &mut D,
    window: Vec<u8>,
    node: u8,
    cluster: u128,
) -> Result<Found, OpenFault>
    requires front { StartsWith (D.synced store.old) window.items }
    requires whole { length window.items < 27 → window.items ≡ D.synced store.old }
    ensures found { IfOk result (λ f. IsFound f node cluster (D.synced store.old)) }
    ensures why { IfErr result (λ w.
        IsOpenFault w node cluster (D.synced store.old) (D.faults store.old) (D.faults store.new)) }
    ensures unread { IfErr result IsUnread }
    ensures synced { D.synced store.new ≡ D.synced store.old }
    ensures pending { D.pending store.new ≡ D.pending store.old }
    ensures unwritten { D.writes store.new ≡ D.writes store.old }
    ensures calm { OnOk result (D.faults store.new ≡ D.faults store.old) }
    ensures later { IfErr result (λ w. IsLater w (D.faults store.old) (D.faults store.new)) }
{
    match first_of(alloc, window.as_slice(), node, cluster)? {
        First::Ours => read_behind(alloc, store, window, node, cluster),
        First::Foreign => Err(OpenFault::Foreign),
        First::Bad => Err(OpenFault::Corrupt { at: 0 }),
        First::Unbegun => Ok(unbegun(alloc, window.len() as u64)),
    }
}

/// What stands at the front of a store, by the window over its first bytes.
fn first_of(alloc: Global, window: &[u8], node: u8, cluster: u128) -> Result<First, OpenFault>
    ensures first { IfOk result (λ f. IsFirst f node cluster window.now) }
    ensures why { IfErr result (λ w. w ≡ fault.NoMemory) }
{
    match first_frame(alloc, window, node, cluster) {
        Ok(first) => Ok(first),
        Err(_) => Err(OpenFault::NoMemory),
    }
}

/// A store of so many bytes without a whole header.
fn unbegun(alloc: Global, end: u64) -> Found
    ensures promised { result.promised ≡ 0 }
    ensures accepted { result.accepted ≡ 0 }
    ensures entries { result.entries ≡ [] }
    ensures closed { result.closed ≡ None }
    ensures end { result.end ≡ end }
{
    Found {
        promised: 0,
        accepted: 0,
        entries: PagedLog::new(alloc),
        closed: None,
        end,
    }
}

/// Reads a store whose header is at the front of the window.
#[tactic(auto, using(crate::proofs::FindLemmas::fault_told, crate::proofs::FaultLemmas::walk_unread))]
fn read_behind<D: LogStore>(
    alloc: Global,
    store: &mut D,
    window: Vec<u8>,
    node: u8,
    cluster: u128,
) -> Result<Found, OpenFault>
    requires begun { IsFirst Ours node cluster window.items }
    requires front { StartsWith (D.synced store.old) window.items }
    ensures found { IfOk result (λ f. IsFound f node cluster (D.synced store.old)) }
    ensures why { IfErr result (λ w.
        IsOpenFault w node cluster (D.synced store.old) (D.faults store.old) (D.faults store.new)) }
    ensures unread { IfErr result IsUnread }
    ensures synced { D.synced store.new ≡ D.synced store.old }
    ensures pending { D.pending store.new ≡ D.pending store.old }
    ensures unwritten { D.writes store.new ≡ D.writes store.old }
    ensures calm { OnOk result (D.faults store.new ≡ D.faults store.old) }
    ensures later { IfErr result (λ w. IsLater w (D.faults store.old) (D.faults store.new)) }
{
    let ended = read_frames(alloc, store, window)?;
    found_in(alloc, ended)
}

/// What was found, with an adoption that is open at the end dropped.
fn found_in(alloc: Global, ended: Ended) -> Result<Found, OpenFault>
    ensures promised { IfOk result (λ f. f.promised ≡ ended.held.promised) }
    ensures accepted { IfOk result (λ f. f.accepted ≡ ended.held.accepted) }
    ensures entries { IfOk result (λ f. f.entries ≡ ended.held.entries) }
    ensures closed { IfOk result (λ f. f.closed ≡ Some ended.closed) }
    ensures end { IfOk result (λ f. f.end ≡ ended.end) }
    ensures why { IfErr result (λ w. w ≡ fault.NoMemory) }
{
    let Ended { held, closed, end } = ended;
    match held.into_parts(alloc) {
        Ok((promised, accepted, entries)) => Ok(Found {
            promised,
            accepted,
            entries,
            closed: Some(closed),
            end,
        }),
        Err(_) => Err(OpenFault::NoMemory),
    }
}
