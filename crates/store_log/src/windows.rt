//! A window over bytes of a store.
ghost use Rattle.std.specs.Prelude.{◌≡◌, ◌≤◌, ◌<◌, ◌+◌, length, drop, IfOk, IfErr, OnOk};
ghost use Rattle.std.specs.Io.{StartsWith};
ghost use Rattle.store_log.specs.declared.opens.OpenFault.TheVariants as fault;
ghost use Rattle.store_log.specs.Opens.{IsLater};
ghost use Rattle.store_log.specs.Walks.{IsCallFault};

use crate::opens::OpenFault;
use crate::readings::HEADER_SIZE;
use cdb_outside::LogStore;
use std::alloc::Global;

/// How many bytes one call reads at most.
const CHUNK: usize = 4096;

/// The first bytes of a store: at least as many as a header takes, or all.
#[tactic(auto, using(crate::proofs::FaultLemmas::call_from, crate::proofs::FaultLemmas::later_from))]
pub(crate) fn first_window<D: LogStore>(alloc: Global, store: &mut D) -> Result<Vec<u8>, OpenFault>
    ensures window { IfOk result (λ v. StartsWith (D.synced store.old) v.items) }
    ensures whole { IfOk result (λ v. length v.items < 27 → v.items ≡ D.synced store.old) }
    ensures synced { D.synced store.new ≡ D.synced store.old }
    ensures pending { D.pending store.new ≡ D.pending store.old }
    ensures unwritten { D.writes store.new ≡ D.writes store.old }
    ensures calm { OnOk result (D.faults store.new ≡ D.faults store.old) }
    ensures later { IfErr result (λ w. IsLater w (D.faults store.old) (D.faults store.new)) }
    ensures why { IfErr result (λ w. IsCallFault w (D.faults store.old) (D.faults store.new)) }
{
    let mut window = Vec::new(alloc);
    'begin: while window.len() < HEADER_SIZE {
        if grow(store, 0, &mut window)? == 0 {
            return Ok(window);
        }
    }
    Ok(window)
}

/// A sum, where it is below 2^64; memory can hold no bytes past it.
pub(crate) fn sum(offset: u64, more: u64) -> Result<u64, OpenFault>
    ensures sum { IfOk result (λ n. n ≡ offset + more) }
    ensures why { IfErr result (λ w. w ≡ fault.NoMemory) }
{
    match offset.checked_add(more) {
        Some(end) => Ok(end),
        None => Err(OpenFault::NoMemory),
    }
}

/// Adds to the window, which has the bytes from an offset on, some that are behind them, and says how many: none
/// exactly at the end.
#[tactic(auto, using(crate::proofs::GrowLemmas::window_more, crate::proofs::GrowLemmas::window_is_all, crate::proofs::FaultLemmas::memory_call, crate::proofs::FaultLemmas::same_later))]
pub(crate) fn grow<D: LogStore>(
    store: &mut D,
    from: u64,
    window: &mut Vec<u8>,
) -> Result<usize, OpenFault>
    requires { StartsWith (drop from (D.synced store.old)) window.old.items }
    ensures window { IfOk result (λ n. StartsWith (drop from (D.synced store.old)) window.new.items) }
    ensures more { IfOk result (λ n. length window.new.items ≡ length window.old.items + n) }
    ensures end { IfOk result (λ n. n ≡ 0 → window.new.items ≡ drop from (D.synced store.old)) }
    ensures synced { D.synced store.new ≡ D.synced store.old }
    ensures pending { D.pending store.new ≡ D.pending store.old }
    ensures unwritten { D.writes store.new ≡ D.writes store.old }
    ensures calm { OnOk result (D.faults store.new ≡ D.faults store.old) }
    ensures later { IfErr result (λ w. IsLater w (D.faults store.old) (D.faults store.new)) }
    ensures why { IfErr result (λ w. IsCallFault w (D.faults store.old) (D.faults store.new)) }
{
    let mut chunk = [0u8; CHUNK];
    let end = sum(from, window.len() as u64)?;
    let size = match store.read(end, &mut chunk) {
        Ok(size) => size,
        Err(_) => return Err(OpenFault::StoreFault { read: None }),
    };
    let (read, _) = chunk.split_at(size);
    match window.extend_from_slice(read) {
        Ok(()) => Ok(size),
        Err(_) => Err(OpenFault::NoMemory),
    }
}

/// A window without its first bytes, so many.
pub(crate) fn without_front(
    alloc: Global,
    window: Vec<u8>,
    used: usize,
) -> Result<Vec<u8>, OpenFault>
    requires { used ≤ length window.items }
    ensures left { IfOk result (λ v. v.items ≡ drop used window.items) }
    ensures why { IfErr result (λ w. w ≡ fault.NoMemory) }
{
    if used == 0 {
        return Ok(window);
    }
    let (_, rest) = window.as_slice().split_at(used);
    let mut left = Vec::new(alloc);
    match left.extend_from_slice(rest) {
        Ok(()) => Ok(left),
        Err(_) => Err(OpenFault::NoMemory),
    }
}
