//! A store is opened: read, begun or mended where need be, and told.
ghost use Rattle.std.specs.Prelude.{◌≡◌, [], IfOk, IfErr, OnOk, MatchResult};
ghost use Rattle.store_log.specs.declared.standings.Standing.TheVariants.{Log};
ghost use Rattle.store_log.specs.Held.{StandsFor};
ghost use Rattle.store_log.specs.Holds.{Holds, plain};
ghost use Rattle.store_log.specs.Opens.{IsOpened, StandsAlike, IsOpenFault, IsLater, IsUnchanged, TellsRead};

use crate::finds::{Found, read_log};
use crate::mends::mend;
use crate::stores::Held;
use cdb_outside::LogStore;
use log_replay::PagedLog;
use std::alloc::Global;

/// Why a store was not opened.
#[derive(Drop)]
pub enum OpenFault {
    /// A call of the store failed: its count of faults rose.
    StoreFault {
        /// How many entries the log has that was read; none where it was not read. Then no call wrote to the store.
        read: Option<u64>,
    },
    /// The header is whole and names another version, node or cluster.
    Foreign,
    /// A frame is bad.
    Corrupt {
        /// The offset of its first byte.
        at: u64,
    },
    /// Want of memory: the store is as before.
    NoMemory,
}

/// A store that was opened, with what it stands for.
#[derive(Drop)]
pub struct OpenedLog<D: LogStore> {
    /// The store, without an unfinished frame or an open adoption.
    pub held: Held<D>,
    /// The promised generation.
    pub promised: u64,
    /// The accepted generation.
    pub accepted: u64,
    /// The log: its entries, with the pages that they make.
    pub entries: PagedLog,
}

/// A store that was not opened.
#[derive(Drop)]
pub struct Unopened<D: LogStore> {
    /// The store.
    pub store: D,
    /// Why it was not opened.
    pub why: OpenFault,
}

/// Opens a store in which nothing is pending: tells what it stands for, gives it its header where it has none, and cuts
/// off an unfinished last frame and an adoption that is open at the end. Memory is taken for the log and for the
/// greatest frame, and not for the store.
pub fn open_log<D: LogStore + Drop>(
    alloc: Global,
    store: D,
    node: u8,
    cluster: u128,
) -> Result<OpenedLog<D>, Unopened<D>>
    requires settled { D.pending store ≡ [] }
    ensures stands { IfOk result (λ o.
        StandsFor node cluster (D.synced store) (Log o.promised o.accepted o.entries)) }
    ensures opened { IfOk result (λ o. IsOpened node cluster (D.synced store) o.held.synced) }
    ensures holds { IfOk result (λ o. Holds node cluster o.held.synced (plain o.promised o.accepted o.entries)) }
    ensures settled { MatchResult result (λ o. o.held.pending ≡ []) (λ u. D.pending u.store ≡ []) }
    ensures calm { IfOk result (λ o. o.held.faults ≡ D.faults store) }
    ensures later { IfErr result (λ u. IsLater u.why (D.faults store) (D.faults u.store)) }
    ensures why { IfErr result (λ u.
        IsOpenFault u.why node cluster (D.synced store) (D.faults store) (D.faults u.store)) }
    ensures read { IfErr result (λ u.
        TellsRead u.why node cluster (D.synced store) (D.writes store) (D.writes u.store)) }
    ensures unchanged { IfErr result (λ u. IsUnchanged u.why (D.synced store) (D.synced u.store)) }
    ensures alike { IfErr result (λ u. StandsAlike node cluster (D.synced store) (D.synced u.store)) }
{
    let mut store = store;
    match make_ready(alloc, &mut store, node, cluster) {
        Ok(found) => Ok(OpenedLog {
            held: Held::of(store),
            promised: found.promised,
            accepted: found.accepted,
            entries: found.entries,
        }),
        Err(why) => Err(Unopened { store, why }),
    }
}

/// Reads a store, and begins or mends it.
#[tactic(auto, using(crate::proofs::MendLemmas::found_stands, crate::proofs::FaultLemmas::same_unchanged, crate::proofs::FindLemmas::unchanged_over, crate::proofs::FindLemmas::told_over, crate::proofs::FindLemmas::unread_tells, crate::proofs::FindLemmas::tells_over, crate::proofs::FaultLemmas::later_from))]
fn make_ready<D: LogStore>(
    alloc: Global,
    store: &mut D,
    node: u8,
    cluster: u128,
) -> Result<Found, OpenFault>
    requires settled { D.pending store.old ≡ [] }
    ensures stands { IfOk result (λ f.
        StandsFor node cluster (D.synced store.old) (Log f.promised f.accepted f.entries)) }
    ensures opened { IfOk result (λ f. IsOpened node cluster (D.synced store.old) (D.synced store.new)) }
    ensures holds { IfOk result (λ f.
        Holds node cluster (D.synced store.new) (plain f.promised f.accepted f.entries)) }
    ensures settled { D.pending store.new ≡ [] }
    ensures calm { OnOk result (D.faults store.new ≡ D.faults store.old) }
    ensures later { IfErr result (λ w. IsLater w (D.faults store.old) (D.faults store.new)) }
    ensures why { IfErr result (λ w.
        IsOpenFault w node cluster (D.synced store.old) (D.faults store.old) (D.faults store.new)) }
    ensures read { IfErr result (λ w.
        TellsRead w node cluster (D.synced store.old) (D.writes store.old) (D.writes store.new)) }
    ensures unchanged { IfErr result (λ w. IsUnchanged w (D.synced store.old) (D.synced store.new)) }
    ensures alike { IfErr result (λ w. StandsAlike node cluster (D.synced store.old) (D.synced store.new)) }
{
    let found = read_log(alloc, store, node, cluster)?;
    mend(alloc, store, &found, node, cluster)?;
    Ok(found)
}
