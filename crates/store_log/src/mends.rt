//! A store is mended: an unfinished frame and an open adoption are cut off, and a header is written where there is none.
ghost use Rattle.std.specs.Prelude.{◌≡◌, ◌≢◌, ◌≤◌, [], length, take, IfOk, IfErr, OnOk, OnErr};
ghost use Rattle.cdb_outside.specs.Faults.{Rose};
ghost use Rattle.cdb_outside.specs.Parts.{IsFront, IsFrontFrom};
ghost use Rattle.frame_code.specs.Codes.{frame_code};
ghost use Rattle.store_log.specs.Held.{header};
ghost use Rattle.store_log.specs.Holds.{Holds, plain};
ghost use Rattle.store_log.specs.Mends.{IsPart};
ghost use Rattle.store_log.specs.Opens.{IsOpened, StandsAlike, IsOpenFault, IsLater, IsUnchanged, TellsRead};
ghost use Rattle.store_log.specs.Walks.{IsFound};

use crate::finds::Found;
use crate::opens::OpenFault;
use crate::stores::write_synced;
use cdb_outside::{Failed, LogStore};
use cdb_values::Bytes;
use frame_code::{Frame, VERSION};
use log_format::write_frame;
use std::alloc::{AllocError, Global};

/// Cuts off what is behind the last frame after which no adoption is open, and writes a header where there is none.
/// Memory is taken before the store is called.
#[tactic(auto, using(crate::proofs::MendLemmas::closed_within, crate::proofs::MendLemmas::trim_opened, crate::proofs::MendLemmas::trim_holds, crate::proofs::MendLemmas::trim_alike, crate::proofs::MendLemmas::begin_opened, crate::proofs::MendLemmas::begin_holds, crate::proofs::MendLemmas::begin_alike, crate::proofs::MendLemmas::same_alike))]
pub(crate) fn mend<D: LogStore>(
    alloc: Global,
    store: &mut D,
    found: &Found,
    node: u8,
    cluster: u128,
) -> Result<(), OpenFault>
    requires settled { D.pending store.old ≡ [] }
    requires found { IsFound found.now node cluster (D.synced store.old) }
    ensures opened { OnOk result (IsOpened node cluster (D.synced store.old) (D.synced store.new)) }
    ensures holds { OnOk result
        (Holds node cluster (D.synced store.new) (plain found.now.promised found.now.accepted found.now.entries)) }
    ensures settled { D.pending store.new ≡ [] }
    ensures calm { OnOk result (D.faults store.new ≡ D.faults store.old) }
    ensures later { IfErr result (λ w. IsLater w (D.faults store.old) (D.faults store.new)) }
    ensures why { IfErr result (λ w.
        IsOpenFault w node cluster (D.synced store.old) (D.faults store.old) (D.faults store.new)) }
    ensures read { IfErr result (λ w.
        TellsRead w node cluster (D.synced store.old) (D.writes store.old) (D.writes store.new)) }
    ensures unchanged { IfErr result (λ w. IsUnchanged w (D.synced store.old) (D.synced store.new)) }
    ensures alike { OnErr result (StandsAlike node cluster (D.synced store.old) (D.synced store.new)) }
{
    let header = match header_bytes(alloc, node, cluster) {
        Ok(header) => header,
        Err(_) => return Err(OpenFault::NoMemory),
    };
    let length = found.entries.entries().len() as u64;
    if let Some(closed) = found.closed {
        match trim(store, closed, found.end) {
            Ok(()) => return Ok(()),
            Err(_) => return Err(OpenFault::StoreFault { read: Some(length) }),
        }
    }
    match begin(store, found.end, header.as_bytes()) {
        Ok(()) => Ok(()),
        Err(_) => Err(OpenFault::StoreFault { read: Some(length) }),
    }
}

/// The bytes of the header of a node and a cluster.
fn header_bytes(alloc: Global, node: u8, cluster: u128) -> Result<Bytes, AllocError>
    ensures { IfOk result (λ b. b ≡ frame_code (header node cluster)) }
{
    let frame = Frame::Header {
        version: VERSION,
        node,
        cluster,
    };
    write_frame(alloc, &frame)
}

/// Leaves the first synced bytes, so many. The store is called only where it has more.
#[tactic(auto, using(crate::proofs::MendLemmas::take_whole))]
fn trim<D: LogStore>(store: &mut D, at: u64, end: u64) -> Result<(), Failed>
    requires settled { D.pending store.old ≡ [] }
    requires within { at ≤ end }
    requires end { end ≡ length (D.synced store.old) }
    ensures cut { OnOk result (D.synced store.new ≡ take at (D.synced store.old)) }
    ensures part { OnErr result (IsFrontFrom at (D.synced store.new) (D.synced store.old)) }
    ensures more { OnErr result (at ≢ end) }
    ensures settled { D.pending store.new ≡ [] }
    ensures calm { OnOk result (D.faults store.new ≡ D.faults store.old) }
    ensures later { D.faults store.old ≤ D.faults store.new }
    ensures failed { OnErr result (Rose (D.faults store.old) (D.faults store.new)) }
{
    if at == end {
        return Ok(());
    }
    match store.cut(at) {
        Ok(()) => Ok(()),
        Err(failed) => Err(failed),
    }
}

/// Leaves a header and nothing else. After a fault some front of the old bytes or of the header's is left.
#[tactic(auto, using(crate::proofs::MendLemmas::left_part, crate::proofs::MendLemmas::written_part, crate::proofs::KeepLemmas::rose_from))]
fn begin<D: LogStore>(store: &mut D, end: u64, header: &[u8]) -> Result<(), Failed>
    requires settled { D.pending store.old ≡ [] }
    requires end { end ≡ length (D.synced store.old) }
    ensures written { OnOk result (D.synced store.new ≡ header.now) }
    ensures part { OnErr result (IsPart (D.synced store.old) header.now (D.synced store.new)) }
    ensures settled { D.pending store.new ≡ [] }
    ensures calm { OnOk result (D.faults store.new ≡ D.faults store.old) }
    ensures later { D.faults store.old ≤ D.faults store.new }
    ensures failed { OnErr result (Rose (D.faults store.old) (D.faults store.new)) }
{
    trim(store, 0, end)?;
    write_or_halt(store, header)?;
    Ok(())
}

/// Writes into a store of no byte, synced. After a fault the store is stopped.
#[tactic(auto, using(crate::proofs::MendLemmas::stopped_front, crate::proofs::KeepLemmas::rose_still))]
fn write_or_halt<D: LogStore>(store: &mut D, bytes: &[u8]) -> Result<(), Failed>
    requires settled { D.pending store.old ≡ [] }
    requires empty { D.synced store.old ≡ [] }
    ensures written { OnOk result (D.synced store.new ≡ bytes.now) }
    ensures part { OnErr result (IsFront (D.synced store.new) bytes.now) }
    ensures settled { D.pending store.new ≡ [] }
    ensures calm { OnOk result (D.faults store.new ≡ D.faults store.old) }
    ensures later { D.faults store.old ≤ D.faults store.new }
    ensures failed { OnErr result (Rose (D.faults store.old) (D.faults store.new)) }
{
    match write_synced(store, bytes) {
        Ok(()) => Ok(()),
        Err(failed) => {
            store.halt();
            Err(failed)
        }
    }
}
