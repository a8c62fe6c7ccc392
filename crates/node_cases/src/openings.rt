//! A node comes up for the first time, over an empty store.
ghost use Rattle.std.specs.Prelude.{◌≡◌, ◌<◌, ◌≤◌, [], IfOk, IfSome, OnOk, false};
ghost use Rattle.cluster_steps.specs.declared.events.Woken.TheVariants as woken;
ghost use Rattle.kept_log.specs.Kept.{stopped_from};
ghost use Rattle.node_cases.specs.Seats.{IsBlank, WasUp};
ghost use Rattle.node_reading.specs.Reading.{WasRead};
ghost use Rattle.node_state.specs.Restarts.{IsStartTold};
ghost use Rattle.node_state.specs.Stores.{MayBeFirst, held_of};

use crate::offices::Operator;
use crate::seats::{Seat, came_up, note_of};
use crate::stores::store_of;
use actor_trace::{Actor, Naming, Note, Trace};
use cdb_outside::MemStore;
use cluster_core::{Cluster, Plan};
use kept_log::KeptLog;
use node_reading::{Found, read_store};
use node_state::Node;
use std::alloc::{AllocError, AllocFailed, Global};
use std::snapshot::Snapshot;
use table_state::State;

/// The cluster of all stores.
const CLUSTER: u128 = 7;

/// Why a case is not opened.
#[derive(Drop)]
pub(crate) enum Unopened {
    NoMemory,
    /// A call of a store failed.
    Fault,
}

impl From<AllocError> for Unopened {
    fn from(_error: AllocError) -> Unopened {
        Unopened::NoMemory
    }
}

impl<T: Drop> From<AllocFailed<T>> for Unopened {
    fn from(_error: AllocFailed<T>) -> Unopened {
        Unopened::NoMemory
    }
}

/// A log over an empty store that was read, and the rows for which it stands.
#[derive(Drop)]
struct Blank {
    log: KeptLog<MemStore>,
    rows: Snapshot<State>,
}

/// The rows of an empty store.
fn rows_found(found: &Found) -> Option<Snapshot<State>>
    ensures promised { IfSome result (λ rows. found.now.promised ≡ 0) }
    ensures accepted { IfSome result (λ rows. found.now.accepted ≡ 0) }
    ensures rows { IfSome result (λ rows. rows.value ≡ found.now.state) }
{
    if found.promised != 0 || found.accepted != 0 {
        return None;
    }
    Some(Snapshot::of(&found.state))
}

/// Reads the store of a log, which is empty; none where it fails.
fn rows_read(alloc: Global, log: &mut KeptLog<MemStore>) -> Option<Snapshot<State>>
    requires stopped { log.old.is_open ≡ false }
    ensures same { log.new ≡ stopped_from log.old log.new.synced log.new.faults }
    ensures read { IfSome result (λ rows. WasRead log.old log.new 0 0 rows.value) }
{
    match read_store(alloc, log) {
        Ok(found) => rows_found(&found),
        Err(_) => None,
    }
}

/// The log of a node over its empty store, which is read.
fn blank_log(alloc: Global, lines: &[String], node: u8) -> Result<Blank, Unopened>
    ensures { IfOk result (λ b. IsBlank node b.rows b.log) }
{
    let store = store_of(alloc, lines, node)?;
    let mut log = KeptLog::unread(alloc, node, CLUSTER, store);
    let read = rows_read(alloc, &mut log);
    match read {
        Some(rows) => Ok(Blank { log, rows }),
        None => Err(Unopened::Fault),
    }
}

/// A node comes up for the first time, over an empty store that the operator admits, and joins the others. The note tells that
/// it came up.
pub(crate) fn seated<J: Plan, N: Naming>(
    alloc: Global,
    trace: &Trace<Cluster<J>, N>,
    operator: &mut Operator<J, N>,
    seats: &mut Vec<Seat<J, N>>,
    actor: Actor<Cluster<J>, N>,
    lines: &[String],
    node: u8,
) -> Result<Note<Cluster<J>, N>, Unopened>
    requires actor { (actor.number ≡ node) × (actor.made ≡ []) }
    requires node { (1 ≤ node) × (node ≤ 3) }
    requires next { operator.old.admitted < node }
    ensures admitted { OnOk result (operator.new.admitted ≡ node) }
    ensures was_up { IfOk result (WasUp J.setting node) }
{
    operator.plan();
    let note = operator.admit(trace, node)?;
    let blank = blank_log(alloc, lines, node)?;
    let Blank { log, rows } = blank;
    let mut seat = Node::new(node, 3, log, actor);
    seat.hear(trace, note);
    seat.knows();
    let born = first_up(alloc, trace, &mut seat, rows)?;
    seats.push(seat)?;
    Ok(born)
}

/// The node comes up.
fn first_up<J: Plan, N: Naming>(
    alloc: Global,
    trace: &Trace<Cluster<J>, N>,
    seat: &mut Seat<J, N>,
    rows: Snapshot<State>,
) -> Result<Note<Cluster<J>, N>, Unopened>
    requires down { seat.old.vote.up ≡ false }
    requires first { MayBeFirst J.setting (held_of seat.old) seat.old.over (woken.First rows) }
    requires told { IsStartTold J.setting seat.old.actor.seen seat.old.vote.node (woken.First rows) }
    ensures { IfOk result (WasUp J.setting seat.old.vote.node) }
{
    let started = seat.start_first(alloc, trace, rows)?;
    let came = came_up(started);
    if !came {
        return Err(Unopened::Fault);
    }
    let born = note_of(trace, seat);
    Ok(born)
}
