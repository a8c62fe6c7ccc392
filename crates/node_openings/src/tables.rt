//! The best log of those that were read, and its tables.
ghost use Rattle.std.specs.Prelude.{◌≡◌, ◌≤◌, None, length, option_copied};
ghost use Rattle.node_openings.specs.Judged.{best_from, best_tables_of, better_of, better_with, is_better as better, tables_found};
ghost use Rattle.node_openings.specs.Judged.{tables_read};

use crate::found::{RankedLog, StoreFound};
use cdb_values::Schema;

/// The tables of the best log, where it has entries. That is the log with the greatest accepted generation, of such the longest, of
/// such that of the lowest node.
#[tactic(auto, using(crate::proofs::JudgeLemmas::best_there, crate::proofs::JudgeLemmas::best_missing))]
pub fn best_tables(found: &[StoreFound]) -> Option<&Schema>
    requires few { length found.now ≤ 7 }
    ensures { option_copied result ≡ best_tables_of found.now }
{
    match best(found) {
        Some(best) => tables_of(found, best),
        None => None,
    }
}

/// The best log of those that were read.
fn best(found: &[StoreFound]) -> Option<RankedLog>
    requires few { length found.now ≤ 7 }
    ensures { result ≡ best_from 1 None found.now }
{
    let mut best = None;
    let mut node: u8 = 1;
    let mut rest = found;
    'stores: while let Some((store, after)) = rest.split_first() {
        best = better_next(node, store, best);
        node += 1;
        rest = after;
    }
    best
}

/// The better one of the log of a node and the best log before it.
fn better_next(node: u8, store: &StoreFound, best: Option<RankedLog>) -> Option<RankedLog>
    ensures { result ≡ better_with node store.now best }
{
    match store {
        StoreFound::Whole(log) => better_one(
            RankedLog {
                node,
                accepted: log.accepted,
                length: log.length,
            },
            best,
        ),
        StoreFound::Failed => best,
        StoreFound::Bad { .. } => best,
        StoreFound::NotSound => best,
    }
}

fn better_one(log: RankedLog, best: Option<RankedLog>) -> Option<RankedLog>
    ensures { result ≡ better_of log best }
{
    if is_better(&log, &best) {
        Some(log)
    } else {
        best
    }
}

/// Whether a log is better than the best one before it.
fn is_better(log: &RankedLog, best: &Option<RankedLog>) -> bool
    ensures { result ≡ better log.now best.now }
{
    match best {
        Some(best) => {
            best.accepted < log.accepted
                || (log.accepted == best.accepted && best.length < log.length)
        }
        None => true,
    }
}

/// The tables of a log, where it has entries.
#[tactic(auto, using(crate::proofs::JudgeLemmas::tables_there, crate::proofs::JudgeLemmas::tables_missing))]
fn tables_of(found: &[StoreFound], log: RankedLog) -> Option<&Schema>
    ensures { option_copied result ≡ tables_found found.now (Some log) }
{
    match found.get((log.node as usize).saturating_sub(1)) {
        Some(store) => tables_in(store),
        None => None,
    }
}

/// The tables that were read of a store.
fn tables_in(store: &StoreFound) -> Option<&Schema>
    ensures { option_copied result ≡ tables_read (Some store.now) }
{
    match store {
        StoreFound::Whole(log) => log.tables.as_ref(),
        StoreFound::Failed => None,
        StoreFound::Bad { .. } => None,
        StoreFound::NotSound => None,
    }
}
