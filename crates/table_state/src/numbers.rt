//! Numbers of pages, and whether one comes twice.
ghost use Rattle.std.specs.Prelude.{◌≡◌, ◌++◌, IfOk};
ghost use Rattle.std.specs.Bool.{Decides};
ghost use Rattle.table_store.specs.Forests.{joined};
ghost use Rattle.table_state.specs.Numbers.{rise_from};
ghost use Rattle.table_state.specs.Grown.{owns_of, AreOwn};

use std::alloc::{AllocError, Global};
use tree_walk::Walked;

/// Whether no page stands twice in trees and free pages, and each is above 0 and below the limit.
pub(crate) fn are_apart(
    alloc: Global,
    trees: &[Walked],
    free: &[u64],
    limit: u64,
) -> Result<bool, AllocError>
    ensures { IfOk result (λ apart. Decides apart (AreOwn (joined (owns_of trees.now) ++ free.now) limit)) }
{
    let numbers = all_numbers(alloc, trees, free)?;
    Ok(are_own(numbers, limit))
}

/// The numbers of the pages of trees, and the free pages.
fn all_numbers(alloc: Global, trees: &[Walked], free: &[u64]) -> Result<Vec<u64>, AllocError>
    ensures { IfOk result (λ v. v.items ≡ joined (owns_of trees.now) ++ free.now) }
{
    let mut numbers = Vec::new(alloc);
    let mut rest = trees;
    'adding: while let Some((tree, after)) = rest.split_first() {
        numbers.extend_from_slice(tree.own.as_slice())?;
        rest = after;
    }
    numbers.extend_from_slice(free)?;
    Ok(numbers)
}

/// Whether no number comes twice, and each is above 0 and below the limit.
fn are_own(numbers: Vec<u64>, limit: u64) -> bool
    ensures { Decides result (AreOwn numbers.items limit) }
{
    let mut numbers = numbers;
    numbers.sort_unstable();
    are_rising(numbers.as_slice(), 0, limit)
}

/// Whether numbers rise, each above a least one and below a limit.
fn are_rising(numbers: &[u64], least: u64, limit: u64) -> bool
    ensures { result ≡ rise_from least limit numbers.now }
{
    let mut low = least;
    let mut rest = numbers;
    'rising: while let Some((number, after)) = rest.split_first() {
        if *number <= low || *number >= limit {
            return false;
        }
        low = *number;
        rest = after;
    }
    true
}
