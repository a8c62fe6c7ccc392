//! The stores of a case.
ghost use Rattle.std.specs.Prelude.{◌≡◌, [], IfOk};

use crate::words::{node_of, number_of};
use cdb_outside::MemStore;
use std::alloc::{AllocError, Global};
use std::str::SplitWhitespace;

/// The empty store of a node: the case says how many pending bytes a stop keeps, and which of its calls fail.
pub(crate) fn store_of(alloc: Global, lines: &[String], node: u8) -> Result<MemStore, AllocError>
    ensures { IfOk result (λ s. s.waiting ≡ []) }
{
    let mut fails = Vec::new(alloc);
    let mut keeps = 0;
    for line in lines {
        let mut words = line.as_str().split_whitespace();
        if words.next() == Some("store") && node_of(words.next()) == node {
            keeps = number_of(words.next());
            put_numbers(&mut fails, words)?;
        }
    }
    Ok(MemStore::new(Vec::new(alloc), fails, None, keeps))
}

/// Puts the numbers that the words are behind the others.
fn put_numbers(numbers: &mut Vec<u64>, words: SplitWhitespace<'_>) -> Result<(), AllocError> {
    for word in words {
        numbers.push(number_of(Some(word)))?;
    }
    Ok(())
}
