//! Whose log is reported, and behind which base.
ghost use Rattle.std.specs.Prelude.{◌≡◌, ◌≤◌, ℕ, List, IfOk, length, reverse};
ghost use Rattle.history_base.specs.Tail.{all_sizes as sizes_of_all, best_of as best_node, better as better_node, count_accepted as count_of, earlier as earlier_of, first_if, first_led as first_of_leads, first_master as first_of_all, first_of, is_accepted as is_by_majority, outranks as is_above, tail};

use super::sizes::{Size, Sizes, node_sizes};
use cdb_values::List;
use cluster_steps::Event;
use std::alloc::{AllocError, Global};

/// The node whose log is reported, and how long the log was that the first master adopted; without one, how long that
/// log is.
#[derive(Clone, Copy)]
pub struct Tail {
    pub reported: u64,
    pub base: u64,
}

/// A node, with the pair of its accepted generation and the length of its log.
#[derive(Clone, Copy)]
struct Best {
    node: u64,
    accepted: u64,
    length: u64,
}

/// The tail of a run of so many nodes, from its history, whose events are the oldest first. With how long a log a
/// node came up each time, the first one first, is noted at its place.
pub fn tail_of(
    alloc: Global,
    nodes: u8,
    lengths: &[List<u64>],
    events: &[(u32, Event)],
) -> Result<Tail, AllocError>
    ensures { IfOk result (λ t. t ≡ tail nodes lengths.now (reverse events.now)) }
{
    let all = all_sizes(alloc, nodes, lengths, events)?;
    let best = best_of(all.as_slice());
    let base = match first_master(all.as_slice()) {
        Some(led) => led.length,
        None => best.length,
    };
    Ok(Tail {
        reported: best.node,
        base,
    })
}

/// The sizes of all nodes.
fn all_sizes(
    alloc: Global,
    nodes: u8,
    lengths: &[List<u64>],
    events: &[(u32, Event)],
) -> Result<Vec<Sizes>, AllocError>
    ensures all { IfOk result (λ all. all.items ≡ sizes_of_all nodes lengths.now (reverse events.now)) }
    ensures few { IfOk result (λ all. length all.items ≡ nodes) }
{
    let mut all = Vec::with_capacity(alloc, usize::from(nodes))?;
    let mut done = 0u8;
    'nodes: while done < nodes {
        let noted = match lengths.get(usize::from(done)) {
            Some(noted) => noted.as_slice(),
            None => &[],
        };
        all.push(node_sizes(alloc, u32::from(done) + 1, noted, events)?)?;
        done += 1;
    }
    Ok(all)
}

/// How many nodes accepted in a generation.
fn count_accepted(all: &[Sizes], generation: u64) -> usize
    ensures count { result ≡ count_of generation all.now }
    ensures low { result ≤ length all.now }
{
    let mut count = 0;
    let mut rest = all;
    'nodes: while let Some((sizes, after)) = rest.split_first() {
        if sizes.has_accepted(generation) {
            count += 1;
        }
        rest = after;
    }
    count
}

/// Whether a majority did.
fn is_accepted(all: &[Sizes], generation: u64) -> bool
    ensures { result ≡ is_by_majority all.now generation }
{
    let count = count_accepted(all, generation);
    all.len() - count < count
}

/// The one of the lower generation, or the first of two of one generation.
fn earlier(a: Size, found: Option<Size>) -> Size
    ensures { result ≡ earlier_of a found }
{
    match found {
        Some(b) if a.generation >= b.generation => b,
        _ => a,
    }
}

/// Of these logs that were led with, and the one that was found so far, the first that a majority accepted.
fn first_led(all: &[Sizes], found: Option<Size>, leads: &[Size]) -> Option<Size>
    ensures { result ≡ first_of_leads all.now found leads.now }
{
    let mut found = found;
    let mut rest = leads;
    'leads: while let Some((led, after)) = rest.split_first() {
        if is_accepted(all, led.generation) {
            found = Some(earlier(*led, found));
        }
        rest = after;
    }
    found
}

/// The first of all that a majority accepted.
fn first_master(all: &[Sizes]) -> Option<Size>
    ensures { result ≡ first_of_all all.now }
{
    let mut found = None;
    let mut rest = all;
    'nodes: while let Some((sizes, after)) = rest.split_first() {
        found = first_led(all, found, sizes.leads.as_slice());
        rest = after;
    }
    found
}

/// Whether a node's pair is greater than that of the best one so far.
fn outranks(sizes: &Sizes, best: &Best) -> bool
    ensures { result ≡ is_above sizes.now best.now }
{
    sizes.accepted > best.accepted
        || (sizes.accepted == best.accepted && sizes.length > best.length)
}

/// The better one.
fn better(best: Best, node: u64, sizes: &Sizes) -> Best
    ensures { result ≡ better_node best node sizes.now }
{
    if outranks(sizes, &best) {
        return Best {
            node,
            accepted: sizes.accepted,
            length: sizes.length,
        };
    }
    best
}

/// The first node whose pair is greatest.
fn best_of(all: &[Sizes]) -> Best
    requires few { length all.now ≤ 255 }
    ensures { result ≡ best_node all.now }
{
    let mut best = Best {
        node: 1,
        accepted: 0,
        length: 0,
    };
    let mut node = 1u64;
    let mut rest = all;
    'nodes: while let Some((sizes, after)) = rest.split_first() {
        best = better(best, node, sizes);
        node += 1;
        rest = after;
    }
    best
}
