//! A line of a case.

use crate::asking::Asker;
use crate::offices::Operator;
use crate::runs::{Run, order_at, place};
use crate::seats::{Came, Seat, Told, begin_at, deliver_to, setup_at, ship_from, stand_at};
use crate::shown::{put_node, put_packet};
use crate::words::{node_of, number_of};
use actor_trace::{Naming, Trace};
use cluster_core::{Cluster, Plan};
use node_state::Packet;
use std::alloc::{AllocError, Global};

/// How many packets one line delivers, at most.
const MOST: u64 = 10_000;

/// More packets than a node sends at once: room for them is made before it does anything.
const SENT: usize = 8;

/// Does what a line says, and adds what it comes to.
pub(crate) fn put_line<J: Plan, N: Naming>(
    alloc: Global,
    run: &mut Run<J, N>,
    line: &str,
    out: &mut String,
) -> Result<(), AllocError> {
    let mut words = line.split_whitespace();
    let word = words.next().unwrap_or("");
    let first = node_of(words.next());
    let second = words.next();
    match word {
        "deliver" => deliver(alloc, run, first, node_of(second), out),
        "all" => deliver_all(alloc, run, out),
        "lose" => lose(run, first, node_of(second), out),
        "stand" | "setup" | "begin" | "ship" | "start" | "stop" => {
            let before = run.packets.len();
            let came = act(alloc, run, word, first, second);
            put_came(run, first, before, came, out)
        }
        _ => Ok(()),
    }
}

/// What a node does by itself.
fn act<J: Plan, N: Naming>(
    alloc: Global,
    run: &mut Run<J, N>,
    word: &str,
    number: u8,
    second: Option<&str>,
) -> Came {
    let at = place(number);
    if at >= run.seats.len() {
        return Ok(Told::Nothing);
    }
    run.packets.reserve(SENT)?;
    let seat = &mut run.seats[at];
    done(
        alloc,
        &run.trace,
        &mut run.operator,
        &mut run.asker,
        seat,
        &mut run.packets,
        word,
        second,
    )
}

/// The same at its place.
fn done<J: Plan, N: Naming>(
    alloc: Global,
    trace: &Trace<Cluster<J>, N>,
    operator: &mut Operator<J, N>,
    asker: &mut Asker<J, N>,
    seat: &mut Seat<J, N>,
    under_way: &mut Vec<Packet<J, N>>,
    word: &str,
    second: Option<&str>,
) -> Came {
    match word {
        "stand" => stand_at(alloc, trace, seat, under_way, number_of(second)),
        "setup" => setup_at(alloc, trace, operator, seat, under_way),
        "begin" => begin_at(alloc, trace, asker, seat, under_way),
        "ship" => ship_from(alloc, trace, operator, seat, under_way, node_of(second)),
        _ => order_at(alloc, trace, operator, asker, seat),
    }
}

/// The oldest packet from a node to another, which is under way no more.
fn taken<J: Plan, N: Naming>(
    packets: &mut Vec<Packet<J, N>>,
    from: u8,
    to: u8,
) -> Option<Packet<J, N>> {
    let at = packets.iter().position(|packet| packet.message().sender() == from
        && packet.to() == to)?;
    Some(packets.remove(at))
}

/// The oldest packet from a node to another is lost.
fn lose<J: Plan, N: Naming>(
    run: &mut Run<J, N>,
    from: u8,
    to: u8,
    out: &mut String,
) -> Result<(), AllocError> {
    if taken(&mut run.packets, from, to).is_some() {
        return Ok(());
    }
    out.push_str("  no such packet\n")
}

/// The oldest packet from a node to another reaches it.
fn deliver<J: Plan, N: Naming>(
    alloc: Global,
    run: &mut Run<J, N>,
    from: u8,
    to: u8,
    out: &mut String,
) -> Result<(), AllocError> {
    let Some(packet) = taken(&mut run.packets, from, to) else {
        return out.push_str("  no such packet\n");
    };
    let before = run.packets.len();
    let came = hand(alloc, run, to, packet);
    put_came(run, to, before, came, out)
}

/// A packet reaches its node.
fn hand<J: Plan, N: Naming>(
    alloc: Global,
    run: &mut Run<J, N>,
    to: u8,
    packet: Packet<J, N>,
) -> Came {
    let at = place(to);
    if at >= run.seats.len() {
        return Ok(Told::Nothing);
    }
    run.packets.reserve(SENT)?;
    let seat = &mut run.seats[at];
    deliver_to(alloc, &run.trace, seat, &mut run.packets, packet)
}

/// Packets reach their nodes, the oldest first, until none is under way.
fn deliver_all<J: Plan, N: Naming>(
    alloc: Global,
    run: &mut Run<J, N>,
    out: &mut String,
) -> Result<(), AllocError> {
    for _ in 0..MOST {
        let Some(packet) = run.packets.first() else {
            return Ok(());
        };
        let (from, to) = (packet.message().sender(), packet.to());
        writeln!(out, " {from} {to}")?;
        deliver(alloc, run, from, to, out)?;
    }
    Ok(())
}

/// Adds what came of a line at a node, and the packets that it sent, which stand behind so many others.
fn put_came<J: Plan, N: Naming>(
    run: &Run<J, N>,
    number: u8,
    before: usize,
    came: Came,
    out: &mut String,
) -> Result<(), AllocError> {
    match came {
        Ok(Told::Done) => {
            put_seat(run, number, out)?;
            put_sent(run, before, out)
        }
        Ok(Told::Fault) => {
            writeln!(out, "  {number}: fault")?;
            put_seat(run, number, out)
        }
        Ok(Told::Down) => writeln!(out, "  {number}: down"),
        Ok(Told::NotMaster(promised)) => {
            writeln!(out, "  {number}: no master, promised {promised}")
        }
        Ok(Told::NotYet(durable, adopted)) => {
            writeln!(
                out,
                "  {number}: not yet, durable {durable} adopted {adopted}"
            )
        }
        Ok(Told::Nothing) => out.push_str("  nothing\n"),
        Err(_) => {
            writeln!(out, "  {number}: no memory")?;
            put_seat(run, number, out)
        }
    }
}

/// Adds the packets behind so many others.
fn put_sent<J: Plan, N: Naming>(
    run: &Run<J, N>,
    before: usize,
    out: &mut String,
) -> Result<(), AllocError> {
    let Some(sent) = run.packets.as_slice().get(before..) else {
        return Ok(());
    };
    for packet in sent {
        put_packet(out, packet.to(), &packet.message())?;
    }
    Ok(())
}

/// Adds the numbers and the log of a node.
fn put_seat<J: Plan, N: Naming>(
    run: &Run<J, N>,
    number: u8,
    out: &mut String,
) -> Result<(), AllocError> {
    match run.seats.get(place(number)) {
        Some(seat) => put_node(out, seat.vote(), seat.entries()),
        None => Ok(()),
    }
}
