//! Work to be measured that no script of the command reaches: `bench_program WORK COUNT` does it and prints what came of it.
//!
//! | WORK | What is done, so many times |
//! |---|---|
//! | `keys` | a key of two values is encoded and decoded |
//! | `statements`, `script`, `report` | a statement of some 200 bytes is read; one script, one report of that many lines |
//! | `trees` | pairs with keys of 16 bytes are put into a tree in a drawn order, and each is found |
//! | `decide` | a request is decided against 1,000 entries since its begin, in a log of that many |
//! | `others`, `same` | a page is loaded at a position that many commits back, which changed other pages, or the page |
//! | `opens` | a store of that many entries is opened |
//! | `trace` | two threads do that many steps each in one trace; `trace 4 COUNT` with four |
#![tactic(auto)]

mod decides;
mod opens;
mod texts;
mod traces;
mod trees;
mod undos;

use crate::decides::measure_decides;
use crate::opens::measure_opening;
use crate::texts::{keys, report, script, statements};
use crate::traces::trace;
use crate::trees::measure_trees;
use crate::undos::measure_loads;
use std::alloc::{AllocError, Global};
use std::{env, io};

fn main(rt: HostRuntime) -> io::Result<()> {
    let mut words = env::args(&rt)?.skip(1);
    let (Some(work), Some(count)) = (words.next(), words.next()) else {
        return println!(rt; "usage: bench_program WORK COUNT");
    };
    let count = number(count.as_str());
    let (threads, steps) = match words.next() {
        Some(steps) => (count, number(steps.as_str())),
        None => (2, count),
    };
    let done = match work.as_str() {
        "trace" => trace(&rt, rt.alloc(), threads, steps)?,
        work => measured(&rt, work, count)?,
    };
    println!(rt; "{done} done")
}

/// Does measured work that many times.
fn measured(rt: &HostRuntime, work: &str, count: u64) -> io::Result<u64> {
    match work {
        "trees" => measure_trees(rt, count),
        "decide" => measure_decides(rt, count),
        "others" => measure_loads(rt, count, false),
        "same" => measure_loads(rt, count, true),
        "opens" => measure_opening(rt, count),
        _ => Ok(texts_done(rt.alloc(), work, count)?),
    }
}

/// Reads texts that many times.
fn texts_done(alloc: Global, work: &str, count: u64) -> Result<u64, AllocError> {
    match work {
        "keys" => keys(alloc, count),
        "statements" => Ok(statements(alloc, count)),
        "script" => script(alloc, count),
        "report" => report(alloc, count),
        _ => Ok(0),
    }
}

/// The number that a word tells, 0 where it tells none.
fn number(word: &str) -> u64 {
    word.parse::<u64>().unwrap_or(0)
}
