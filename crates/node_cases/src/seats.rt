//! What a node of a case does. The run has no tables.
ghost use Rattle.std.specs.Prelude.{◌≡◌, ◌+◌, [], length, true, false, IfOk, OnOk};
ghost use Rattle.actor_trace.specs.Lists.{Begins};
ghost use Rattle.node_cases.specs.Offices.{IsOrdered};
ghost use Rattle.node_cases.specs.Seats.{IsUpBy, WasUp, is_up};
ghost use Rattle.node_cases.specs.declared.orders.Order.{Order};

use crate::asking::{Asked, Asker};
use crate::offices::Operator;
use actor_trace::{Naming, Note, Trace};
use cdb_outside::MemStore;
use cdb_values::Schema;
use cluster_core::{Cluster, Plan};
use node_state::{BeginStep, Node, Packet, Started, Step};
use std::alloc::{AllocError, Global};

/// What comes of a line at a node.
#[derive(Drop)]
pub(crate) enum Told {
    /// It did it, and what it sends is under way.
    Done,
    /// It is down.
    Down,
    /// Its store failed, and it is down now.
    Fault,
    /// It leads not, and promised this generation.
    NotMaster(u64),
    /// It leads, and does not know what it adopted as durable: what it knows, and what it adopted.
    NotYet(u64, u64),
    /// The line can't be done there.
    Nothing,
}

/// A node of a case.
pub(crate) type Seat<J, N> = Node<MemStore, J, N>;

/// What a line comes to.
pub(crate) type Came = Result<Told, AllocError>;

/// Packets go out, behind those that are under way.
fn send<J: Plan, N: Naming>(under_way: &mut Vec<Packet<J, N>>, packets: Vec<Packet<J, N>>) -> Came {
    'sending: for packet in packets {
        under_way.push(packet)?;
    }
    Ok(Told::Done)
}

/// What is told of a step.
fn stepped<J: Plan, N: Naming>(
    under_way: &mut Vec<Packet<J, N>>,
    step: Step<Vec<Packet<J, N>>>,
) -> Came {
    match step {
        Step::Sent(packets) => send(under_way, packets),
        Step::Down => Ok(Told::Down),
        Step::Fault => Ok(Told::Fault),
    }
}

/// What is told of a begin.
fn begun<J: Plan, N: Naming>(
    under_way: &mut Vec<Packet<J, N>>,
    step: BeginStep<Vec<Packet<J, N>>>,
) -> Came {
    match step {
        BeginStep::Sent(packets) => send(under_way, packets),
        BeginStep::NotMaster { generation } => Ok(Told::NotMaster(generation)),
        BeginStep::NotYet { durable, adopted } => Ok(Told::NotYet(durable, adopted)),
        BeginStep::Down => Ok(Told::Down),
    }
}

/// Room for the steps that a packet may take.
fn room_for<J: Plan, N: Naming>(packet: &Packet<J, N>) -> Result<u32, AllocError>
    ensures { IfOk result (λ n. n ≡ length packet.now.entries + 1) }
{
    let count = packet.entries().len();
    if count >= 1_000_000 {
        return Err(AllocError);
    }
    Ok(count as u32 + 1)
}

/// It stands in a generation.
pub(crate) fn stand_at<J: Plan, N: Naming>(
    alloc: Global,
    trace: &Trace<Cluster<J>, N>,
    seat: &mut Seat<J, N>,
    under_way: &mut Vec<Packet<J, N>>,
    generation: u64,
) -> Came {
    seat.reserve(1)?;
    let step = seat.stand(alloc, trace, generation)?;
    stepped(under_way, step)
}

/// It takes a packet in.
pub(crate) fn deliver_to<J: Plan, N: Naming>(
    alloc: Global,
    trace: &Trace<Cluster<J>, N>,
    seat: &mut Seat<J, N>,
    under_way: &mut Vec<Packet<J, N>>,
    packet: Packet<J, N>,
) -> Came {
    let room = room_for(&packet)?;
    seat.reserve(room)?;
    let step = seat.deliver(alloc, trace, packet)?;
    stepped(under_way, step)
}

/// As a leader with an empty log it appends a setup without tables.
pub(crate) fn setup_at<J: Plan, N: Naming>(
    alloc: Global,
    trace: &Trace<Cluster<J>, N>,
    operator: &Operator<J, N>,
    seat: &mut Seat<J, N>,
    under_way: &mut Vec<Packet<J, N>>,
) -> Came {
    if !may_set_up(seat) {
        return Ok(Told::Nothing);
    }
    operator.plan();
    append_setup(alloc, trace, seat, under_way)
}

/// Whether it leads with an empty log.
#[tactic(auto, using(crate::proofs::SeatLaws::none_there))]
fn may_set_up<J: Plan, N: Naming>(seat: &Seat<J, N>) -> bool
    ensures leads { result ≡ true → seat.now.vote.leading ≡ true }
    ensures empty { result ≡ true → seat.now.entries ≡ [] }
{
    if !seat.entries().is_empty() {
        return false;
    }
    seat.vote().leading
}

/// It appends a setup without tables.
fn append_setup<J: Plan, N: Naming>(
    alloc: Global,
    trace: &Trace<Cluster<J>, N>,
    seat: &mut Seat<J, N>,
    under_way: &mut Vec<Packet<J, N>>,
) -> Came
    requires tables { J.setting.tables ≡ [] }
    requires leads { seat.old.vote.leading ≡ true }
    requires empty { seat.old.entries ≡ [] }
{
    seat.reserve(1)?;
    let schema = Schema::new(alloc);
    let step = seat.setup(alloc, trace, &schema)?;
    stepped(under_way, step)
}

/// It is asked for a begin.
pub(crate) fn begin_at<J: Plan, N: Naming>(
    alloc: Global,
    trace: &Trace<Cluster<J>, N>,
    asker: &mut Asker<J, N>,
    seat: &mut Seat<J, N>,
    under_way: &mut Vec<Packet<J, N>>,
) -> Came {
    let asked = asker.ask(trace)?;
    let Asked { ask, note } = asked;
    seat.hear(trace, note);
    seat.reserve(1)?;
    let step = seat.begin(alloc, trace, ask)?;
    begun(under_way, step)
}

/// It ships what it has to a node once more.
pub(crate) fn ship_from<J: Plan, N: Naming>(
    alloc: Global,
    trace: &Trace<Cluster<J>, N>,
    operator: &Operator<J, N>,
    seat: &mut Seat<J, N>,
    under_way: &mut Vec<Packet<J, N>>,
    to: u8,
) -> Came {
    let own = seat.vote().node;
    if to < 1 || 3 < to || own == to {
        return Ok(Told::Nothing);
    }
    operator.plan();
    let packets = seat.ship(alloc, trace, to)?;
    send(under_way, packets)
}

/// What it knows.
pub(crate) fn note_of<J: Plan, N: Naming>(
    trace: &Trace<Cluster<J>, N>,
    seat: &mut Seat<J, N>,
) -> Note<Cluster<J>, N>
    ensures vote { seat.new.vote ≡ seat.old.vote }
    ensures number { seat.new.actor.number ≡ seat.new.vote.node }
    ensures note { result ≡ seat.new.actor.seen }
    ensures more { Begins seat.old.actor.seen result }
    ensures up { IsUpBy J.setting seat.new.vote result }
    ensures was_up { seat.new.vote.up ≡ true → WasUp J.setting seat.new.vote.node result }
{
    let note = seat.note(trace);
    seat.knows();
    note
}

/// It goes down by a stop that is ordered; it stays down where it is.
pub(crate) fn stop_by<J: Plan, N: Naming>(
    trace: &Trace<Cluster<J>, N>,
    seat: &mut Seat<J, N>,
    told: Note<Cluster<J>, N>,
) -> Result<(), AllocError>
    requires { (o : Order) × (o.starts ≡ false) × (o.node ≡ seat.old.actor.number) × IsOrdered J.setting o seat.old.actor.seen told }
    ensures down { OnOk result (seat.new.vote.up ≡ false) }
    ensures node { OnOk result (seat.new.vote.node ≡ seat.old.vote.node) }
    ensures heard { OnOk result (Begins told seat.new.actor.seen) }
{
    seat.knows();
    seat.reserve(1)?;
    seat.hear(trace, told);
    seat.knows();
    if !seat.vote().up {
        return Ok(());
    }
    let _ticket = seat.stop(trace);
    Ok(())
}

/// Whether it came up.
pub(crate) fn came_up(started: Started) -> bool
    ensures { result ≡ is_up started }
{
    match started {
        Started::Up => true,
        Started::Fault => false,
    }
}

/// It comes up by a start that is ordered, with what its store holds; it stays up where it is. It is down still where its store
/// fails.
pub(crate) fn start_by<J: Plan, N: Naming>(
    alloc: Global,
    trace: &Trace<Cluster<J>, N>,
    seat: &mut Seat<J, N>,
    told: Note<Cluster<J>, N>,
) -> Result<bool, AllocError>
    requires order { (o : Order) × (o.starts ≡ true) × (o.node ≡ seat.old.actor.number) × IsOrdered J.setting o seat.old.actor.seen told }
    requires was_up { WasUp J.setting seat.old.vote.node seat.old.actor.seen }
    ensures up { IfOk result (λ b. b ≡ seat.new.vote.up) }
    ensures node { OnOk result (seat.new.vote.node ≡ seat.old.vote.node) }
    ensures heard { OnOk result (Begins told seat.new.actor.seen) }
{
    seat.knows();
    seat.hear(trace, told);
    seat.knows();
    if seat.vote().up {
        return Ok(true);
    }
    let started = seat.start(alloc, trace)?;
    Ok(came_up(started))
}
