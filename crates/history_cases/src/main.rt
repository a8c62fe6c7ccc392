//! Reads histories of runs, event by event, and tells what each reports: of which node the log, behind which base, and
//! the report.
//!
//! ```text
//! case 3 node 2 leads, and its log is taken     three nodes; the sessions behind them are a and b
//! 2 first 0 0                                   node 2 comes up for the first time: accepted generation, length of its log
//! 2 lead 1                                      it leads in generation 1
//! 2 append                                      it appends an entry
//! 3 take 1 1                                    node 3 takes its log: generation, length
//! 4 begin 1                                     a is told its begin
//! 4 told a 1 changed 1                          and an answer
//! log setup                                     the log that is reported; the history is told now
//! ```
//!
//! README.md has all words.
#![tactic(auto)]

mod cases;
mod events;
mod values;
mod words;

use std::io;
use std::io::Write;

fn main(rt: HostRuntime) -> io::Result<()> {
    let alloc = rt.alloc();
    let text = io::read_to_string(alloc, rt.stdin())?;
    let told = cases::all_told(alloc, text.as_str())?;
    rt.stdout().write_all(told.as_slice())
}
