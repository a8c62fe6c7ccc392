//! One step of a node over its store.
ghost use Rattle.std.specs.Prelude.{◌≡◌, [], false};
ghost use Rattle.frame_code.specs.Spelled.{IsSpelled, Grow};
ghost use Rattle.frame_code.specs.declared.frames.Frame.TheVariants as frame;
ghost use Rattle.phys_log.specs.Logs.{Fits};
ghost use Rattle.store_log.specs.Held.{generation_of};
ghost use Rattle.store_cases.specs.Calm.{IsCalm};

use crate::given::{entry_at, is_next, schema_of};
use crate::opened::{CLUSTER, NODE};
use crate::told::Told;
use cdb_outside::MemStore;
use cdb_values::Schema;
use node_log::{KeepFault, NodeLog};
use node_opening::open_node;
use phys_log::Entry;
use std::alloc::Global;

/// A node: its store, or its log over its store.
#[derive(Drop)]
pub(crate) enum Node {
    Shut(MemStore),
    Up(NodeLog<MemStore>),
}

/// A node behind a step, and what the step came to.
#[derive(Drop)]
pub(crate) struct Stepped {
    pub node: Node,
    pub told: Told,
}

/// The store of a node, which is shut.
fn store_of(node: Node) -> MemStore
    requires { IsCalm node }
    ensures { result.waiting ≡ [] }
{
    match node {
        Node::Shut(store) => store,
        Node::Up(log) => log.give_back(),
    }
}

/// Does a step, where it can be done. A node of which a call failed is shut.
pub(crate) fn step(alloc: Global, node: Node, word: &str, given: &[u8]) -> Stepped
    requires { IsCalm node }
    ensures { IsCalm result.node }
{
    match word {
        "open" => open(alloc, store_of(node)),
        "node" => bring_up(alloc, store_of(node), given),
        "size" => size(store_of(node)),
        _ => log_step(alloc, node, word, given),
    }
}

/// Does a step of a log; none where the node is shut.
fn log_step(alloc: Global, node: Node, word: &str, given: &[u8]) -> Stepped
    requires { IsCalm node }
    ensures { IsCalm result.node }
{
    match node {
        Node::Shut(store) => shut(store, Told::Nothing),
        Node::Up(log) => match word {
            "stand" => stand(alloc, log),
            "begin" => begin(alloc, log),
            _ => append(alloc, log, given),
        },
    }
}

/// A node that is shut.
fn shut(store: MemStore, told: Told) -> Stepped
    requires { store.waiting ≡ [] }
    ensures { IsCalm result.node }
{
    Stepped {
        node: Node::Shut(store),
        told,
    }
}

/// A node that is up.
fn up(log: NodeLog<MemStore>, told: Told) -> Stepped
    requires { log.failed ≡ false }
    ensures { IsCalm result.node }
{
    Stepped {
        node: Node::Up(log),
        told,
    }
}

/// Tells how many bytes a store has.
fn size(store: MemStore) -> Stepped
    requires { store.waiting ≡ [] }
    ensures { IsCalm result.node }
{
    let size = store.synced().len();
    shut(store, Told::Size(size))
}

/// Opens a log.
fn open(alloc: Global, store: MemStore) -> Stepped
    requires { store.waiting ≡ [] }
    ensures { IsCalm result.node }
{
    match NodeLog::open(alloc, store, NODE, CLUSTER) {
        Ok(log) => opened(log),
        Err(unopened) => shut(unopened.store, Told::NotOpened(unopened.why)),
    }
}

/// A node whose log was opened.
fn opened(log: NodeLog<MemStore>) -> Stepped
    requires { log.failed ≡ false }
    ensures { IsCalm result.node }
{
    let told = Told::Opened {
        promised: log.promised(),
        accepted: log.accepted(),
        length: log.log().entries().len(),
    };
    up(log, told)
}

/// Opens a node, with the tables of the given setup, or with none.
fn bring_up(alloc: Global, store: MemStore, given: &[u8]) -> Stepped
    requires { store.waiting ≡ [] }
    ensures { IsCalm result.node }
{
    match schema_of(alloc, given) {
        Ok(schema) => bring_up_with(alloc, store, &schema),
        Err(_) => shut(store, Told::NoMemory),
    }
}

/// Opens a node with these tables.
fn bring_up_with(alloc: Global, store: MemStore, schema: &Schema) -> Stepped
    requires settled { store.waiting ≡ [] }
    requires spelled { Grow [] schema.now }
    ensures { IsCalm result.node }
{
    match open_node(alloc, store, NODE, CLUSTER, schema) {
        Ok(node) => {
            let told = Told::Up {
                base: node.base,
                generation: node.log.accepted(),
            };
            up(node.log, told)
        }
        Err(down) => shut(down.store, Told::Down(down.why)),
    }
}

/// Stands in the next generation, where the log was not accepted in one.
fn begin(alloc: Global, log: NodeLog<MemStore>) -> Stepped
    requires { log.failed ≡ false }
    ensures { IsCalm result.node }
{
    if log.accepted() > 0 {
        return up(log, Told::Nothing);
    }
    stand(alloc, log)
}

/// Stands in the next generation.
fn stand(alloc: Global, mut log: NodeLog<MemStore>) -> Stepped
    requires { log.failed ≡ false }
    ensures { IsCalm result.node }
{
    match log.stand(alloc) {
        Ok(generation) => up(log, Told::Stood(generation)),
        Err(KeepFault::StoreFault) => shut(log.give_back(), Told::Fault),
        Err(KeepFault::NoMemory) => up(log, Told::NoGeneration),
    }
}

/// Appends the given entry with the number of the next one, where it may be.
fn append(alloc: Global, log: NodeLog<MemStore>, given: &[u8]) -> Stepped
    requires { log.failed ≡ false }
    ensures { IsCalm result.node }
{
    match entry_at(alloc, given, log.log().entries().len()) {
        Ok(Some(entry)) => append_fit(alloc, log, entry),
        Ok(None) => up(log, Told::NoEntry),
        Err(_) => up(log, Told::NoMemory),
    }
}

/// Appends an entry, where it may be.
fn append_fit(alloc: Global, log: NodeLog<MemStore>, entry: Entry) -> Stepped
    requires running { log.failed ≡ false }
    requires spelled { IsSpelled (frame.Entry entry) }
    ensures { IsCalm result.node }
{
    match is_next(alloc, log.log(), log.accepted(), &entry) {
        Ok(true) => append_next(alloc, log, entry),
        Ok(false) => up(log, Told::Unfit),
        Err(_) => up(log, Told::NoMemory),
    }
}

/// Appends an entry that may be the next one.
fn append_next(alloc: Global, mut log: NodeLog<MemStore>, entry: Entry) -> Stepped
    requires running { log.failed ≡ false }
    requires accepted { generation_of entry ≡ log.accepted }
    requires fits { Fits log.entries entry }
    requires spelled { IsSpelled (frame.Entry entry) }
    ensures { IsCalm result.node }
{
    match log.append(alloc, entry) {
        Ok(()) => {
            let length = log.log().entries().len();
            up(log, Told::Appended(length))
        }
        Err(KeepFault::StoreFault) => shut(log.give_back(), Told::Fault),
        Err(KeepFault::NoMemory) => up(log, Told::NoMemory),
    }
}
