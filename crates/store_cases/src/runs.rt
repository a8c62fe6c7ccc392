//! Runs of steps: over a store that does not fail, one whose calls fail in turn, and one that stops after each byte.
ghost use Rattle.std.specs.Prelude.{◌≡◌, [], IfOk};

use crate::lines::{Answers, is_asked};
use crate::steps::{Node, Stepped, step};
use crate::told::put_step;
use cdb_outside::MemStore;
use std::alloc::{AllocError, Global};

/// How many calls fail in turn, and how many bytes a store stops after, at most.
const MOST: u64 = 100_000;

/// The bytes of a store, those of the frames that steps take, and the steps.
#[derive(Clone, Copy)]
pub(crate) struct Run<'a> {
    pub bytes: &'a [u8],
    pub given: &'a [u8],
    pub steps: &'a str,
}

/// Where a store fails.
#[derive(Clone, Copy)]
pub(crate) enum Failing {
    /// Its calls do not fail.
    Nowhere,
    /// The call with that number fails.
    AtCall,
    /// It stops once so many bytes are appended.
    BehindBytes,
}

/// What the steps come to over a store that does not fail.
pub(crate) fn run_told(alloc: Global, run: Run) -> Result<String, AllocError> {
    let told = told_over(alloc, run, Failing::Nowhere, 0, 0)?;
    format!(in alloc; "  {told}\n")
}

/// What the steps come to over a store that fails there, for each number that is asked in turn and the first that does
/// not come. A stop keeps so many pending bytes.
pub(crate) fn failing_told(
    alloc: Global,
    run: Run,
    failing: Failing,
    keeps: u64,
    every: u64,
) -> Result<String, AllocError> {
    let mut answers = Answers::new(alloc);
    for number in 1..=MOST {
        if is_asked(number, every) {
            let told = told_over(alloc, run, failing, number, keeps)?;
            let is_over = !told.contains("fault");
            answers.add(number, told)?;
            if is_over {
                break;
            }
        }
    }
    answers.lines()
}

/// What the steps come to over a store that fails there at a number.
fn told_over(
    alloc: Global,
    run: Run,
    failing: Failing,
    number: u64,
    keeps: u64,
) -> Result<String, AllocError> {
    let synced = Vec::from_slice(alloc, run.bytes)?;
    let store = match failing {
        Failing::Nowhere => MemStore::new(synced, Vec::new(alloc), None, keeps),
        Failing::AtCall => MemStore::new(synced, vec![in alloc; number]?, None, keeps),
        Failing::BehindBytes => MemStore::new(synced, Vec::new(alloc), Some(number), keeps),
    };
    steps_told(alloc, store, run)
}

/// What the steps over a store come to.
fn steps_told(alloc: Global, store: MemStore, run: Run) -> Result<String, AllocError>
    requires { store.waiting ≡ [] }
{
    let mut out = String::new(alloc);
    let mut node = Node::Shut(store);
    'steps: for word in run.steps.split_whitespace() {
        let Stepped { node: next, told } = step(alloc, node, word, run.given);
        node = next;
        put_step(alloc, &mut out, told)?;
    }
    Ok(out)
}
