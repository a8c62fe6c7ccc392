//! Whether stores fit: what one of them accepted was promised by a majority, as far as the others were read.
ghost use Rattle.std.specs.Prelude.{ℕ, ◌≡◌, ◌<◌, ◌≤◌, ◌↔◌, IsTrue, IfSome, IfNone};
ghost use Rattle.core_lists.specs.Lists.{Each};
ghost use Rattle.core_lists.specs.Majorities.{count};
ghost use Rattle.cluster_consensus.specs.Enabled.{Fit};
ghost use Rattle.election_core.specs.Fits.{IsLowestUnfit, has_promised, is_covered, lacks_cover};

use std::marker::Model;

/// What a store that was read stands for: whose it is, and the generations that it promised and accepted.
#[derive(Clone, Copy, Debug)]
pub struct ReadStore {
    pub node: u8,
    pub promised: u64,
    pub accepted: u64,
}

impl Model for ReadStore {
    ghost use Rattle.cluster_consensus.specs.Facts.{Admit};

    ghost Value = { Admit };

    ghost view = { λ s. record { node = s.node; promised = s.promised; accepted = s.accepted } };

    ghost inverse = { λ a. record { node = a.node; promised = a.promised; accepted = a.accepted } };
}

/// Of the nodes from 1 on, so many: the lowest one whose store accepted a generation that lacks a majority, where the nodes
/// whose store was read and promised at least that generation, and those whose store was not read, count. `None` exactly
/// where the stores fit. Takes no memory.
#[tactic(auto, using(crate::proofs::Fitting::none_fit, crate::proofs::Fitting::fit_more, crate::proofs::Fitting::all_fit, crate::proofs::Fitting::first_unfit))]
pub fn lowest_unfit(nodes: u8, stores: &[ReadStore]) -> Option<u8>
    requires few { nodes ≤ 7 }
    requires numbered { Each (λ s. (0 < s.node) × (s.node ≤ nodes)) stores.now }
    ensures fit { IfNone result (Fit nodes stores.now) }
    ensures lowest { IfSome result (λ k. IsLowestUnfit nodes stores.now k) }
{
    for below in 0..nodes {
        if lacks_majority(nodes, stores, below + 1) {
            return Some(below + 1);
        }
    }
    None
}

/// Whether a store of that node accepted a generation that lacks a majority.
fn lacks_majority(nodes: u8, stores: &[ReadStore], node: u8) -> bool
    requires { nodes ≤ 7 }
    ensures { result ≡ lacks_cover nodes stores.now node stores.now }
{
    stores.iter().any(|store| store.node == node && !is_promised(nodes, stores, store.accepted))
}

/// Whether more than half of the nodes promised at least that generation, where those that were not read count.
fn is_promised(nodes: u8, stores: &[ReadStore], generation: u64) -> bool
    requires { nodes ≤ 7 }
    ensures { result ≡ is_covered nodes stores.now generation }
{
    2 * promises(nodes, stores, generation) > nodes
}

/// How many nodes promised at least that generation, where those that were not read count.
fn promises(nodes: u8, stores: &[ReadStore], generation: u64) -> u8
    requires { nodes ≤ 7 }
    ensures value { result ≡ count nodes (λ k. has_promised stores.now generation k) }
    ensures bound { result ≤ nodes }
{
    let mut total = 0;
    for k in 0..nodes {
        if promised(stores, generation, k + 1) {
            total += 1;
        }
    }
    total
}

/// Whether each store of that node that was read promised at least that generation.
fn promised(stores: &[ReadStore], generation: u64, node: u8) -> bool
    ensures { result ≡ has_promised stores.now generation node }
{
    stores
        .iter()
        .all(|store| store.node != node || generation <= store.promised)
}
