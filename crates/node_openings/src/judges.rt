//! What stores were found to be is judged: why a script is not played over them.
ghost use Rattle.std.specs.Prelude.{◌≡◌, ◌≤◌, ◌++◌, length, None, IfOk, IfErr, IfNone, IfSome, OnOk, MatchOption};
ghost use Rattle.cluster_consensus.specs.Enabled.{Fit};
ghost use Rattle.election_core.specs.Fits.{IsLowestUnfit};
ghost use Rattle.node_opening.specs.Tables.{AreMatched, IsDifference};
ghost use Rattle.node_openings.specs.Judged.{AreMatchedBest, IsOtherBest, admit_of, admits_of, bad_from, bad_place, best_tables_of};
ghost use Rattle.node_openings.specs.Judged.{is_unsound as unsound, unsound_from};
ghost use Rattle.node_openings.specs.Told.{IsToldOf, MayPlayOf};

use crate::found::{StoreFound, WhyNotOpened};
use crate::tables::best_tables;
use cdb_values::Schema;
use election_core::{ReadStore, lowest_unfit};
use node_opening::difference;
use std::alloc::{AllocError, Global};

/// Whether a script with these tables is played over these stores, by the first cause for which it is not.
#[tactic(auto, using(crate::proofs::ToldLemmas::told_bad))]
pub(crate) fn judge(alloc: Global, found: &[StoreFound], given: &Schema) -> Result<(), WhyNotOpened>
    requires few { length found.now ≤ 7 }
    ensures may { OnOk result (MayPlayOf given.now found.now) }
    ensures fit { OnOk result (Fit (length found.now) (admits_of 1 found.now)) }
    ensures why { IfErr result (λ w. IsToldOf given.now found.now w) }
{
    match first_bad(found) {
        Some(why) => Err(why),
        None => judge_whole(alloc, found, given),
    }
}

/// The same of stores of which none is bad.
#[tactic(auto, using(crate::proofs::ToldLemmas::told_unsound))]
fn judge_whole(alloc: Global, found: &[StoreFound], given: &Schema) -> Result<(), WhyNotOpened>
    requires few { length found.now ≤ 7 }
    requires whole { bad_from 1 found.now ≡ None }
    ensures may { OnOk result (MayPlayOf given.now found.now) }
    ensures fit { OnOk result (Fit (length found.now) (admits_of 1 found.now)) }
    ensures why { IfErr result (λ w. IsToldOf given.now found.now w) }
{
    match first_unsound(found) {
        Some(node) => Err(WhyNotOpened::Unsound { node }),
        None => judge_sound(alloc, found, given),
    }
}

/// The same of stores of which the log of none is not sound, either.
#[tactic(auto, using(crate::proofs::ToldLemmas::told_unfit, crate::proofs::ToldLemmas::told_nothing))]
fn judge_sound(alloc: Global, found: &[StoreFound], given: &Schema) -> Result<(), WhyNotOpened>
    requires few { length found.now ≤ 7 }
    requires whole { bad_from 1 found.now ≡ None }
    requires sound { unsound_from 1 found.now ≡ None }
    ensures may { OnOk result (MayPlayOf given.now found.now) }
    ensures fit { OnOk result (Fit (length found.now) (admits_of 1 found.now)) }
    ensures why { IfErr result (λ w. IsToldOf given.now found.now w) }
{
    match first_unfit(alloc, found) {
        Ok(Some(node)) => Err(WhyNotOpened::Unsound { node }),
        Ok(None) => judge_fit(found, given),
        Err(_) => Err(WhyNotOpened::NoMemory),
    }
}

/// The same of stores that fit, too.
#[tactic(auto, using(crate::proofs::ToldLemmas::told_differs, crate::proofs::ToldLemmas::may_play))]
fn judge_fit(found: &[StoreFound], given: &Schema) -> Result<(), WhyNotOpened>
    requires few { length found.now ≤ 7 }
    requires whole { bad_from 1 found.now ≡ None }
    requires sound { unsound_from 1 found.now ≡ None }
    requires fit { Fit (length found.now) (admits_of 1 found.now) }
    ensures may { OnOk result (MayPlayOf given.now found.now) }
    ensures fit { OnOk result (Fit (length found.now) (admits_of 1 found.now)) }
    ensures why { IfErr result (λ w. IsToldOf given.now found.now w) }
{
    match differs(found, given) {
        Some(table) => Err(WhyNotOpened::Differs { table }),
        None => Ok(()),
    }
}

/// The lowest node whose store accepted what no majority promised, as far as the stores were read.
fn first_unfit(alloc: Global, found: &[StoreFound]) -> Result<Option<u8>, AllocError>
    requires few { length found.now ≤ 7 }
    ensures fit { IfOk result (λ unfit. IfNone unfit (Fit (length found.now) (admits_of 1 found.now))) }
    ensures lowest { IfOk result (λ unfit. IfSome unfit (λ node.
        IsLowestUnfit (length found.now) (admits_of 1 found.now) node)) }
{
    let stores = admits(alloc, found)?;
    Ok(lowest_unfit(count_of(found), stores.as_slice()))
}

/// How many stores there are.
fn count_of(found: &[StoreFound]) -> u8
    requires few { length found.now ≤ 7 }
    ensures { result ≡ length found.now }
{
    found.len() as u8
}

/// The first store that is bad.
#[tactic(auto, using(crate::proofs::JudgeLemmas::bad_next, crate::proofs::JudgeLemmas::bad_here))]
fn first_bad(found: &[StoreFound]) -> Option<WhyNotOpened>
    requires few { length found.now ≤ 7 }
    ensures { result ≡ bad_from 1 found.now }
{
    let mut node: u8 = 1;
    let mut rest = found;
    'stores: while let Some((store, after)) = rest.split_first() {
        if let Some(at) = place_of_bad(store) {
            return Some(WhyNotOpened::StoreRefused { node, at });
        }
        node += 1;
        rest = after;
    }
    None
}

/// The place at which a store is bad.
fn place_of_bad(store: &StoreFound) -> Option<u64>
    ensures { result ≡ bad_place store.now }
{
    match store {
        StoreFound::Bad { at } => Some(*at),
        StoreFound::Failed => None,
        StoreFound::NotSound => None,
        StoreFound::Whole(_) => None,
    }
}

/// The first store whose log is not sound.
#[tactic(auto, using(crate::proofs::JudgeLemmas::unsound_next, crate::proofs::JudgeLemmas::unsound_here))]
fn first_unsound(found: &[StoreFound]) -> Option<u8>
    requires few { length found.now ≤ 7 }
    ensures { result ≡ unsound_from 1 found.now }
{
    let mut node: u8 = 1;
    let mut rest = found;
    'stores: while let Some((store, after)) = rest.split_first() {
        if is_unsound(store) {
            return Some(node);
        }
        node += 1;
        rest = after;
    }
    None
}

/// Whether the log of a store is not sound.
fn is_unsound(store: &StoreFound) -> bool
    ensures { result ≡ unsound store.now }
{
    match store {
        StoreFound::NotSound => true,
        StoreFound::Failed => false,
        StoreFound::Bad { .. } => false,
        StoreFound::Whole(_) => false,
    }
}

/// What the stores promised and accepted whose logs are sound.
#[tactic(auto, using(crate::proofs::JudgeLemmas::admits_next))]
fn admits(alloc: Global, found: &[StoreFound]) -> Result<Vec<ReadStore>, AllocError>
    requires few { length found.now ≤ 7 }
    ensures { IfOk result (λ stores. stores.items ≡ admits_of 1 found.now) }
{
    let mut stores = Vec::new(alloc);
    let mut node: u8 = 1;
    let mut rest = found;
    'stores: while let Some((store, after)) = rest.split_first() {
        add_admit(&mut stores, node, store)?;
        node += 1;
        rest = after;
    }
    Ok(stores)
}

/// Adds what the store of a node promised and accepted, where its log is sound.
fn add_admit(stores: &mut Vec<ReadStore>, node: u8, store: &StoreFound) -> Result<(), AllocError>
    ensures { OnOk result (stores.new.items ≡ stores.old.items ++ admit_of node store.now) }
{
    match store {
        StoreFound::Whole(log) => {
            stores.push(ReadStore {
                node,
                promised: log.promised,
                accepted: log.accepted,
            })?;
            Ok(())
        }
        StoreFound::Failed => Ok(()),
        StoreFound::Bad { .. } => Ok(()),
        StoreFound::NotSound => Ok(()),
    }
}

/// The place at which the given tables differ from those of the best log, where that has entries.
#[tactic(auto, using(crate::proofs::JudgeLemmas::differs_by, crate::proofs::JudgeLemmas::differs_none))]
fn differs(found: &[StoreFound], given: &Schema) -> Option<u64>
    requires few { length found.now ≤ 7 }
    ensures { MatchOption result (AreMatchedBest given.now (best_tables_of found.now))
        (IsOtherBest given.now (best_tables_of found.now)) }
{
    match best_tables(found) {
        Some(logged) => tables_differ(given, logged),
        None => None,
    }
}

/// The place at which the given tables differ from others.
fn tables_differ(given: &Schema, logged: &Schema) -> Option<u64>
    ensures { MatchOption result (AreMatched given.now logged.now) (IsDifference given.now logged.now) }
{
    difference(given.tables(), logged.tables())
}
