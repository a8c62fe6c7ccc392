//! Runs of steps: over a store that does not fail, and over one whose calls fail in turn.

ghost use Rattle.std.specs.Prelude.{◌≡◌, []};

use crate::steps::{Stepped, begin, step};
use crate::told::put_told;
use cdb_outside::MemStore;
use std::alloc::{AllocError, Global};

/// How many calls fail in turn, at most.
const MOST: u64 = 1_000;

/// A line, and what it comes to.
pub(crate) fn line_told(alloc: Global, line: &str) -> Result<String, AllocError> {
    let (word, rest) = line.split_once(' ').unwrap_or((line, ""));
    match word {
        "run" => run_told(alloc, line, rest),
        "fails" => failing_told(alloc, line, rest),
        _ => format!(in alloc; "{line}\n"),
    }
}

/// What steps come to over a store that does not fail.
fn run_told(alloc: Global, line: &str, steps: &str) -> Result<String, AllocError> {
    let store = MemStore::new(Vec::new(alloc), Vec::new(alloc), None, 0);
    let told = steps_told(alloc, store, steps)?;
    format!(in alloc; "{line}\n  {told}\n")
}

/// What steps come to over a store whose call 1 fails, then call 2, and so on to the first that does not come. A stop keeps so
/// many pending bytes.
fn failing_told(alloc: Global, line: &str, rest: &str) -> Result<String, AllocError> {
    let (first, steps) = rest.split_once(' ').unwrap_or((rest, ""));
    let keeps = first.parse::<u64>().unwrap_or(0);
    let mut out = format!(in alloc; "{line}\n")?;
    for number in 1..=MOST {
        let fails = vec![in alloc; number]?;
        let store = MemStore::new(Vec::new(alloc), fails, None, keeps);
        let told = steps_told(alloc, store, steps)?;
        writeln!(out, "  {number} {told}")?;
        if !told.contains("fault") {
            break;
        }
    }
    Ok(out)
}

/// What the steps over a store come to.
fn steps_told(alloc: Global, store: MemStore, steps: &str) -> Result<String, AllocError>
    requires { store.waiting ≡ [] }
{
    let mut out = String::new(alloc);
    let mut place = begin(alloc, store);
    'steps: for word in steps.split_whitespace() {
        let Stepped { place: next, told } = step(alloc, place, word);
        place = next;
        put_told(&mut out, told)?;
    }
    Ok(out)
}
