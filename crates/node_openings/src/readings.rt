//! The logs over all stores, and the reading of each.
ghost use Rattle.std.specs.Prelude.{◌≡◌, ◌≤◌, [], false, length, IfOk, IfErr};
ghost use Rattle.std.specs.List.{AllByRecursion};
ghost use Rattle.node_openings.specs.Found.{AreFound, AreStill, AreStopped, AreUnopened, IsFoundAs, IsReadOf, IsStill, unread_from};

use crate::found::{ReadLog, StoreFound};
use cdb_outside::LogStore;
use kept_log::KeptLog;
use node_reading::{Found, WhyUnread, read_store};
use std::alloc::{AllocError, Global};
use std::snapshot::Snapshot;

/// The logs over these stores, in the order of their nodes, which were not read yet: they are stopped, and without an entry. For
/// want of memory the stores come back.
#[tactic(auto, using(crate::proofs::ReadLemmas::unread_more, crate::proofs::ReadLemmas::settled_next, crate::proofs::ReadLemmas::settled_rest, crate::proofs::ReadLemmas::all_unopened))]
pub fn unread_logs<D: LogStore + Drop>(
    alloc: Global,
    cluster: u128,
    stores: Vec<D>,
) -> Result<Vec<KeptLog<D>>, Vec<D>>
    requires few { length stores.items ≤ 7 }
    requires settled { AllByRecursion (λ s. D.pending s ≡ []) stores.items }
    ensures logs { IfOk result (λ logs. logs.items ≡ unread_from D.synced D.faults cluster 1 stores.items) }
    ensures unopened { IfOk result (λ logs. AreUnopened 1 logs.items) }
    ensures back { IfErr result (λ back. back.items ≡ stores.items) }
{
    let Ok(mut logs) = Vec::with_capacity(alloc, stores.len()) else {
        return Err(stores);
    };
    let mut node: u8 = 1;
    'stores: for store in stores {
        logs.push_reserved(KeptLog::unread(alloc, node, cluster, store));
        node += 1;
    }
    Ok(logs)
}

/// Reads the store of each log, in order, and tells what it was found to be.
#[tactic(auto, using(crate::proofs::ReadLemmas::at_first, crate::proofs::ReadLemmas::next_stopped, crate::proofs::ReadLemmas::read_more, crate::proofs::ReadLemmas::stops_still, crate::proofs::ReadLemmas::whole_still, crate::proofs::ReadLemmas::all_found))]
pub(crate) fn read_all<D: LogStore + Drop>(
    alloc: Global,
    logs: &mut Vec<KeptLog<D>>,
) -> Result<Vec<StoreFound>, AllocError>
    requires stopped { AreStopped logs.old.items }
    ensures still { AreStill logs.old.items logs.new.items }
    ensures found { IfOk result (λ found. AreFound found.items logs.old.items logs.new.items) }
{
    let mut found = Vec::new(alloc);
    'logs: for log in logs.iter_mut() {
        let one = read_one(alloc, log)?;
        found.push(one)?;
    }
    Ok(found)
}

/// Reads the store of a log.
#[tactic(auto, using(crate::proofs::ReadLemmas::read_whole, crate::proofs::ReadLemmas::still_is))]
fn read_one<D: LogStore + Drop>(
    alloc: Global,
    log: &mut KeptLog<D>,
) -> Result<StoreFound, AllocError>
    requires stopped { log.old.is_open ≡ false }
    ensures still { IsStill log.old log.new }
    ensures found { IfOk result (λ f. IsFoundAs f log.old log.new) }
{
    match read_store(alloc, log) {
        Ok(found) => Ok(StoreFound::Whole(read_log(found))),
        Err(WhyUnread::StoreFault) => Ok(StoreFound::Failed),
        Err(WhyUnread::Corrupt { at }) => Ok(StoreFound::Bad { at }),
        Err(WhyUnread::Unsound) => Ok(StoreFound::NotSound),
        Err(WhyUnread::NoMemory) => Err(AllocError),
    }
}

/// What was read, without the rows themselves.
fn read_log(found: Found) -> ReadLog
    ensures { IsReadOf found result }
{
    let Found {
        promised,
        accepted,
        length,
        tables,
        state,
    } = found;
    let rows = Snapshot::of(&state);
    ReadLog {
        promised,
        accepted,
        length,
        tables,
        rows,
    }
}
