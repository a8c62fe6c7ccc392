//! A run of three nodes: how it is opened, and what the operator orders in it.
ghost use Rattle.std.specs.Prelude.{◌≡◌, ◌+◌, [], true, IfOk, OnOk};
ghost use Rattle.actor_trace.specs.Actors.{fresh};
ghost use Rattle.actor_trace.specs.History.{entries_of};
ghost use Rattle.actor_trace.specs.Lists.{Begins};
ghost use Rattle.node_cases.specs.Offices.{IsOrdered, Waits};
ghost use Rattle.node_cases.specs.Plans.{setting_of};
ghost use Rattle.node_cases.specs.Seats.{WasUp};

use crate::asking::Asker;
use crate::offices::{Operator, Ordered};
use crate::openings::{Unopened, seated};
use crate::orders::Order;
use crate::seats::{Came, Seat, Told, note_of, start_by, stop_by};
use actor_trace::{Actor, Naming, Note, OpenedTrace, Trace};
use cluster_core::{Cluster, Plan};
use node_state::Packet;
use std::alloc::{AllocError, Global};

/// Three nodes that were up once, what is under way between them, the session, and the operator.
#[derive(Drop)]
pub(crate) struct Run<J: Plan, N: Naming> {
    pub(crate) trace: Trace<Cluster<J>, N>,
    pub(crate) operator: Operator<J, N>,
    pub(crate) asker: Asker<J, N>,
    pub(crate) seats: Vec<Seat<J, N>>,
    pub(crate) packets: Vec<Packet<J, N>>,
}

/// The place of a node among the others; none where it is too large.
pub(crate) fn place(number: u8) -> usize {
    usize::from(number).wrapping_sub(1)
}

/// The last one of the actors up to that number.
fn last<J: Plan, N: Naming>(
    actors: &mut Vec<Actor<Cluster<J>, N>>,
    number: u32,
) -> Actor<Cluster<J>, N>
    requires { actors.old.items ≡ fresh (number + 1) }
    ensures rest { actors.new.items ≡ fresh number }
    ensures number { result.number ≡ number }
    ensures made { result.made ≡ [] }
{
    match actors.pop() {
        Some(actor) => actor,
        None => unreachable!(),
    }
}

/// Three nodes that are up over empty stores, with the orders of a case to come.
pub(crate) fn opened<J: Plan, N: Naming>(
    alloc: Global,
    history: OpenedTrace<Cluster<J>>,
    lines: &[String],
    orders: Vec<Order>,
) -> Result<Run<J, N>, Unopened>
    requires plan { J.setting ≡ setting_of orders.items }
    requires table { history.table ≡ N.table }
    requires actors { (history.actors ≡ N.actors) × (history.actors ≡ 5) }
{
    let made = history.named::<N>(alloc)?;
    let (trace, mut actors) = made;
    let session = last(&mut actors, 4);
    let three = last(&mut actors, 3);
    let two = last(&mut actors, 2);
    let one = last(&mut actors, 1);
    let zero = last(&mut actors, 0);
    let operator = Operator::new(zero, orders);
    come_up(alloc, trace, operator, one, two, three, session, lines)
}

/// The nodes come up, one after the other, and the session hears of it.
fn come_up<J: Plan, N: Naming>(
    alloc: Global,
    trace: Trace<Cluster<J>, N>,
    mut operator: Operator<J, N>,
    one: Actor<Cluster<J>, N>,
    two: Actor<Cluster<J>, N>,
    three: Actor<Cluster<J>, N>,
    session: Actor<Cluster<J>, N>,
    lines: &[String],
) -> Result<Run<J, N>, Unopened>
    requires admitted { operator.admitted ≡ 0 }
    requires one { (one.number ≡ 1) × (one.made ≡ []) }
    requires two { (two.number ≡ 2) × (two.made ≡ []) }
    requires three { (three.number ≡ 3) × (three.made ≡ []) }
    requires session { (session.number ≡ 4) × (session.made ≡ []) }
{
    let mut seats = Vec::new(alloc);
    let first = seated(alloc, &trace, &mut operator, &mut seats, one, lines, 1)?;
    let second = seated(alloc, &trace, &mut operator, &mut seats, two, lines, 2)?;
    let third = seated(alloc, &trace, &mut operator, &mut seats, three, lines, 3)?;
    let asker = Asker::new(&trace, &operator, session, first, second, third);
    Ok(Run {
        trace,
        operator,
        asker,
        seats,
        packets: Vec::new(alloc),
    })
}

/// The operator starts a node or stops it, where its next line is of that node, and sees that it is done.
pub(crate) fn order_at<J: Plan, N: Naming>(
    alloc: Global,
    trace: &Trace<Cluster<J>, N>,
    operator: &mut Operator<J, N>,
    asker: &mut Asker<J, N>,
    seat: &mut Seat<J, N>,
) -> Came {
    let own = seat.vote().node;
    if own < 1 || 3 < own {
        return Ok(Told::Nothing);
    }
    let saw = asker.tells(trace);
    seat.hear(trace, saw);
    let heard = note_of(trace, seat);
    let found = operator.order(trace, heard)?;
    let Some(next) = found else {
        return Ok(Told::Nothing);
    };
    let Ordered { order, note } = next;
    if order.node != own {
        return Ok(Told::Nothing);
    }
    obeyed(alloc, trace, operator, seat, order, note)
}

/// The node does what is ordered, and the operator sees that.
fn obeyed<J: Plan, N: Naming>(
    alloc: Global,
    trace: &Trace<Cluster<J>, N>,
    operator: &mut Operator<J, N>,
    seat: &mut Seat<J, N>,
    order: Order,
    note: Note<Cluster<J>, N>,
) -> Came
    requires waits { Waits order operator.old }
    requires made { entries_of 0 note ≡ operator.old.actor.made }
    requires its { (order.node ≡ seat.old.vote.node) × (order.node ≡ seat.old.actor.number) }
    requires was_up { WasUp J.setting order.node seat.old.actor.seen }
    requires ordered { IsOrdered J.setting order seat.old.actor.seen note }
{
    let done = moved(alloc, trace, seat, order, note)?;
    if !done {
        return Ok(Told::Fault);
    }
    let told = note_of(trace, seat);
    operator.obeyed(trace, order, told);
    Ok(Told::Done)
}

/// Whether the node is up or down then, as it is ordered.
fn moved<J: Plan, N: Naming>(
    alloc: Global,
    trace: &Trace<Cluster<J>, N>,
    seat: &mut Seat<J, N>,
    order: Order,
    note: Note<Cluster<J>, N>,
) -> Result<bool, AllocError>
    requires its { (order.node ≡ seat.old.vote.node) × (order.node ≡ seat.old.actor.number) }
    requires was_up { WasUp J.setting order.node seat.old.actor.seen }
    requires ordered { IsOrdered J.setting order seat.old.actor.seen note }
    ensures done { IfOk result (λ b. b ≡ true → seat.new.vote.up ≡ order.starts) }
    ensures node { OnOk result (seat.new.vote.node ≡ seat.old.vote.node) }
    ensures heard { OnOk result (Begins note seat.new.actor.seen) }
{
    if order.starts {
        let up = start_by(alloc, trace, seat, note)?;
        return Ok(up);
    }
    stop_by(trace, seat, note)?;
    Ok(true)
}
