//! Votes and acknowledged lengths, counted over the nodes.
ghost use Rattle.std.specs.Prelude.{ℕ, ◌≡◌, ◌≤◌, ◌<◌, ◌*◌, ◌+◌, IsTrue, ◌↔◌, ◌⊎◌};
ghost use Rattle.core_lists.specs.Majorities.{count};
ghost use Rattle.election_core.specs.Counts.{has_bit, reaches, with_bit, IsReached, IsGreatest};

/// How many nodes granted.
fn grants(granted: u8, nodes: u8) -> u8
    requires { nodes ≤ 7 }
    ensures value { result ≡ count nodes (λ k. has_bit granted k) }
    ensures bound { result ≤ nodes }
{
    let mut total = 0;
    for k in 0..nodes {
        if (granted >> (k + 1)) & 1 == 1 {
            total += 1;
        }
    }
    total
}

/// Whether more than half of the nodes granted.
pub fn is_granted(granted: u8, nodes: u8) -> bool
    requires { nodes ≤ 7 }
    ensures { IsTrue result ↔ (nodes < 2 * count nodes (λ k. has_bit granted k)) }
{
    2 * grants(granted, nodes) > nodes
}

/// The votes with that of one more node.
pub fn with_vote(granted: u8, node: u8) -> u8
    requires { node ≤ 7 }
    ensures { result ≡ with_bit granted node }
{
    granted | (1 << node)
}

/// How many nodes acknowledged at least this length.
fn acks(acked: &[u64; 7], nodes: u8, length: u64) -> u8
    requires { nodes ≤ 7 }
    ensures value { result ≡ count nodes (λ k. reaches acked.now length k) }
    ensures bound { result ≤ nodes }
{
    let mut total = 0;
    for k in 0..nodes {
        if length <= acked[usize::from(k)] {
            total += 1;
        }
    }
    total
}

/// Whether more than half of the nodes acknowledged at least this length.
pub fn is_acknowledged(acked: &[u64; 7], nodes: u8, length: u64) -> bool
    requires { nodes ≤ 7 }
    ensures { IsTrue result ↔ IsReached acked.now nodes length }
{
    2 * acks(acked, nodes, length) > nodes
}

/// The greater one of a length and another that a majority acknowledged.
fn raised(best: u64, acked: &[u64; 7], nodes: u8, length: u64) -> u64
    requires { nodes ≤ 7 }
    ensures reached { (result ≡ best) ⊎ IsReached acked.now nodes result }
    ensures kept { best ≤ result }
    ensures covers { IsReached acked.now nodes length → length ≤ result }
{
    if best < length && is_acknowledged(acked, nodes, length) {
        length
    } else {
        best
    }
}

/// The greatest length that more than half of the nodes acknowledged.
pub fn greatest_acknowledged(acked: &[u64; 7], nodes: u8) -> u64
    requires { nodes ≤ 7 }
    ensures { IsGreatest acked.now nodes result }
{
    let mut best = 0;
    for k in 0..nodes {
        best = raised(best, acked, nodes, acked[usize::from(k)]);
    }
    best
}
