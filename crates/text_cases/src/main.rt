//! Texts that are read: scripts, reports and definitions of tables, case by case. Standard input says what they are, and what
//! is read, or why it is refused, is printed.
//!
//! ```text
//! case a session of no node
//! - script for 7 stores and 16 consumers
//! |nodes 1
//! |session a 2
//! ```
//!
//! is answered by the name of the case and `refused 2 6`. README.md has all lines that a case may have.
#![tactic(auto)]

mod cases;
mod reports;
mod scripts;
mod tables;
mod told;

use cases::Case;
use std::io::{self, BufRead, BufReader, BufWriter, Write};
use told::put_case;

fn main(rt: HostRuntime) -> io::Result<()> {
    let alloc = rt.alloc();
    let mut out = BufWriter::new(alloc, io::writer(&rt))?;
    let mut case: Option<Case> = None;
    for line in BufReader::new(alloc, rt.reader())?.lines(alloc) {
        let line = line?;
        if let Some(name) = line.as_str().strip_prefix("case ") {
            if let Some(done) = &case {
                put_case(alloc, &mut out, done)?;
            }
            case = Some(Case::new(alloc, name)?);
        } else if let Some(case) = &mut case {
            case.take(alloc, line.as_str())?;
        }
    }
    if let Some(done) = &case {
        put_case(alloc, &mut out, done)?;
    }
    out.flush()
}
