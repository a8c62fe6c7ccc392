//! A node stands, and begins its log where it has none.
ghost use Rattle.std.specs.Prelude.{◌≡◌, false, [], IfOk, IfErr, OnOk, OnErr, IsErrOf};
ghost use Rattle.cdb_outside.specs.Faults.{Rose};
ghost use Rattle.frame_code.specs.Spelled.{Grow};
ghost use Rattle.node_opening.specs.Goods.{IsGood};
ghost use Rattle.node_opening.specs.Stands.{HasBegun, LeavesBegun, IsBegunFrom, LeavesPartway, IsUpFrom};
ghost use Rattle.node_opening.specs.Why.{IsDown, IsLater};

use crate::up::{NotUp, UpNode, WhyNotUp};
use cdb_outside::LogStore;
use cdb_values::Schema;
use entry_spelling::has_spelling;
use log_rows::setup_entry;
use node_log::{KeepFault, NodeLog};
use std::alloc::Global;

/// Stands with a log that is sound and has the given tables, and begins it with their setup where it has no entries.
pub(crate) fn go_up<D: LogStore + Drop>(
    alloc: Global,
    log: NodeLog<D>,
    schema: &Schema,
) -> Result<UpNode<D>, NotUp<D>>
    requires running { log.failed ≡ false }
    requires good { IsGood log.accepted log.entries schema.now }
    requires grown { Grow [] schema.now }
    ensures up { IfOk result (λ u. IsUpFrom log schema.now u.base u.log) }
    ensures why { IfErr result (λ n. IsDown n.why log schema.now (D.synced n.store) (D.faults n.store)) }
    ensures settled { IfErr result (λ n. D.pending n.store ≡ []) }
    ensures later { IfErr result (λ n. IsLater n.why log.store.faults (D.faults n.store)) }
{
    let base = log.log().entries().len() as u64;
    let mut log = log;
    match begin(alloc, &mut log, schema) {
        Ok(()) => Ok(settle(log, base)),
        Err(KeepFault::StoreFault) => Err(NotUp {
            store: log.give_back(),
            why: WhyNotUp::StoreFault { length: base },
        }),
        Err(KeepFault::NoMemory) => Err(NotUp {
            store: log.give_back(),
            why: WhyNotUp::NoMemory,
        }),
    }
}

/// A node that is up: nothing is pending in its store.
fn settle<D: LogStore>(log: NodeLog<D>, base: u64) -> UpNode<D>
    requires running { log.failed ≡ false }
    ensures log { result.log ≡ log }
    ensures base { result.base ≡ base }
    ensures settled { result.log.store.pending ≡ [] }
{
    let _ = log.log();
    UpNode { log, base }
}

/// Stands in the next generation, and appends the setup of a schema where the log has no entries.
fn begin<D: LogStore>(alloc: Global, log: &mut NodeLog<D>, schema: &Schema) -> Result<(), KeepFault>
    requires running { log.old.failed ≡ false }
    requires grown { Grow [] schema.now }
    ensures begun { OnOk result (IsBegunFrom log.old schema.now log.new) }
    ensures left { OnErr result (LeavesPartway log.old schema.now log.new.store) }
    ensures rose { IsErrOf result KeepFault.StoreFault → Rose log.old.store.faults log.new.store.faults }
    ensures calm { OnOk result (log.new.store.faults ≡ log.old.store.faults) }
    ensures same { IsErrOf result KeepFault.NoMemory → log.new.store.faults ≡ log.old.store.faults }
{
    let _ = log.log();
    match log.stand(alloc) {
        Ok(_) => {}
        Err(KeepFault::StoreFault) => return Err(KeepFault::StoreFault),
        Err(KeepFault::NoMemory) => return Err(KeepFault::NoMemory),
    }
    if !log.log().entries().is_empty() {
        return Ok(());
    }
    match append_setup(alloc, log, schema) {
        Ok(()) => Ok(()),
        Err(KeepFault::StoreFault) => Err(KeepFault::StoreFault),
        Err(KeepFault::NoMemory) => Err(KeepFault::NoMemory),
    }
}

/// Appends the setup of a schema to a log without entries, in its accepted generation.
fn append_setup<D: LogStore>(
    alloc: Global,
    log: &mut NodeLog<D>,
    schema: &Schema,
) -> Result<(), KeepFault>
    requires running { log.old.failed ≡ false }
    requires empty { log.old.entries ≡ [] }
    requires grown { Grow [] schema.now }
    ensures begun { OnOk result (HasBegun log.old schema.now log.new) }
    ensures unchanged { IsErrOf result KeepFault.NoMemory → log.new ≡ log.old }
    ensures left { IsErrOf result KeepFault.StoreFault → LeavesBegun log.old schema.now log.new.store }
    ensures rose { IsErrOf result KeepFault.StoreFault → Rose log.old.store.faults log.new.store.faults }
    ensures calm { OnOk result (log.new.store.faults ≡ log.old.store.faults) }
{
    let Ok(entry) = setup_entry(alloc, schema, log.accepted()) else {
        return Err(KeepFault::NoMemory);
    };
    if !has_spelling(&entry) {
        return Err(KeepFault::NoMemory);
    }
    match log.append(alloc, entry) {
        Ok(()) => Ok(()),
        Err(KeepFault::StoreFault) => Err(KeepFault::StoreFault),
        Err(KeepFault::NoMemory) => Err(KeepFault::NoMemory),
    }
}
