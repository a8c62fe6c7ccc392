//! A node is opened over its store.
ghost use Rattle.std.specs.Prelude.{◌≡◌, false, [], IfOk, IfErr, MatchResult};
ghost use Rattle.frame_code.specs.Spelled.{Grow};
ghost use Rattle.node_opening.specs.Left.{IsLeft};
ghost use Rattle.node_opening.specs.Stands.{IsUpFrom};
ghost use Rattle.node_opening.specs.Up.{IsTakenUp};
ghost use Rattle.node_opening.specs.Why.{IsWhy, IsLater, IsDown, TellsLength, unopened};

use crate::judges::judge;
use crate::stands::go_up;
use cdb_outside::LogStore;
use cdb_values::Schema;
use node_log::{NodeLog, OpenFault};
use std::alloc::Global;

/// A node that is up.
#[derive(Drop)]
pub struct UpNode<D: LogStore> {
    /// Its log, over its store.
    pub log: NodeLog<D>,
    /// How many entries the log of its store had.
    pub base: u64,
}

/// A node that is not up.
#[derive(Drop)]
pub struct NotUp<D: LogStore> {
    /// Its store.
    pub store: D,
    /// Why it is not up.
    pub why: WhyNotUp,
}

/// Why a node is not up, in the order in which the causes are looked for.
#[derive(Clone, Copy, PartialEq, Eq, Debug)]
pub enum WhyNotUp {
    /// A call of the store failed: its count of faults rose.
    StoreFault {
        /// The length of the log that was read; 0 where it was not read, and then no call wrote to the store.
        length: u64,
    },
    /// A frame is bad, or the header is another's.
    Refused {
        /// The offset of the bad frame, 0 for the header.
        at: u64,
    },
    /// The log is not sound.
    Unsound,
    /// The given tables are not those of the log.
    Differs {
        /// The place of the first given table that differs.
        table: u64,
    },
    /// Want of memory, or of generations.
    NoMemory,
}

/// Opens a node over its store. The log that the store stands for is read and judged, and its tables are compared with
/// the given ones, where it has an entry and some are given; the node stands in the generation above the one that it
/// promised; and where the log has no entries, the setup of the given tables is appended.
pub fn open_node<D: LogStore + Drop>(
    alloc: Global,
    store: D,
    node: u8,
    cluster: u128,
    schema: &Schema,
) -> Result<UpNode<D>, NotUp<D>>
    requires settled { D.pending store ≡ [] }
    requires grown { Grow [] schema.now }
    ensures up { IfOk result (λ u. IsTakenUp node cluster (D.synced store) schema.now u.base u.log) }
    ensures node { IfOk result (λ u. u.log.node ≡ node) }
    ensures cluster { IfOk result (λ u. u.log.cluster ≡ cluster) }
    ensures running { IfOk result (λ u. u.log.failed ≡ false) }
    ensures settled { MatchResult result (λ u. u.log.store.pending ≡ []) (λ n. D.pending n.store ≡ []) }
    ensures calm { IfOk result (λ u. u.log.store.faults ≡ D.faults store) }
    ensures later { IfErr result (λ n. IsLater n.why (D.faults store) (D.faults n.store)) }
    ensures why { IfErr result (λ n.
        IsWhy n.why node cluster (D.synced store) schema.now (D.faults store) (D.faults n.store)) }
    ensures length { IfErr result (λ n.
        TellsLength n.why node cluster (D.synced store) schema.now (D.writes store) (D.writes n.store)) }
    ensures left { IfErr result (λ n.
        IsLeft n.why node cluster (D.synced store) (D.synced n.store) schema.now) }
{
    match NodeLog::open(alloc, store, node, cluster) {
        Ok(log) => take_up(alloc, log, schema),
        Err(unopened) => Err(NotUp {
            store: unopened.store,
            why: why_unopened(unopened.why),
        }),
    }
}

/// Takes up a log that was opened, where it may be.
fn take_up<D: LogStore + Drop>(
    alloc: Global,
    log: NodeLog<D>,
    schema: &Schema,
) -> Result<UpNode<D>, NotUp<D>>
    requires running { log.failed ≡ false }
    requires grown { Grow [] schema.now }
    ensures up { IfOk result (λ u. IsUpFrom log schema.now u.base u.log) }
    ensures why { IfErr result (λ n. IsDown n.why log schema.now (D.synced n.store) (D.faults n.store)) }
    ensures settled { IfErr result (λ n. D.pending n.store ≡ []) }
    ensures later { IfErr result (λ n. IsLater n.why log.store.faults (D.faults n.store)) }
{
    match judge(alloc, log.accepted(), log.log(), schema) {
        Ok(()) => go_up(alloc, log, schema),
        Err(why) => Err(NotUp {
            store: log.give_back(),
            why,
        }),
    }
}

/// Why a node is not up whose store was not opened.
fn why_unopened(why: OpenFault) -> WhyNotUp
    ensures { result ≡ unopened why }
{
    match why {
        OpenFault::StoreFault { read: Some(length) } => WhyNotUp::StoreFault { length },
        OpenFault::StoreFault { read: None } => WhyNotUp::StoreFault { length: 0 },
        OpenFault::Foreign => WhyNotUp::Refused { at: 0 },
        OpenFault::Corrupt { at } => WhyNotUp::Refused { at },
        OpenFault::NoMemory => WhyNotUp::NoMemory,
    }
}
