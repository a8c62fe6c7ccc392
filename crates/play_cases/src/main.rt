//! Whole runs, case by case: standard input says what each is run over, and what each tells is printed.
//!
//! ```text
//! case an insert and a select
//! |nodes 1
//! |session a 1
//! |create table t(id integer primary key)
//! |a: select * from t
//! ```
//!
//! is answered by the name of the case, the report and the exit status. README.md has all lines that a case may have.
#![tactic(auto)]

mod cases;
mod plays;
mod sinks;
mod told;

use cases::Case;
use std::io::{self, BufRead, BufReader, BufWriter, Write};
use told::put_case;

fn main(rt: HostRuntime) -> io::Result<()> {
    let alloc = rt.alloc();
    let mut out = BufWriter::new(alloc, io::writer(&rt))?;
    let mut case: Option<Case> = None;
    let mut left = Vec::new(alloc);
    for line in BufReader::new(alloc, rt.reader())?.lines(alloc) {
        let line = line?;
        if let Some(name) = line.as_str().strip_prefix("case ") {
            if let Some(done) = &case {
                left = put_case(alloc, &mut out, done, left)?;
            }
            case = Some(Case::new(alloc, name)?);
        } else if let Some(case) = &mut case {
            case.take(alloc, line.as_str())?;
        }
    }
    if let Some(done) = &case {
        let _left = put_case(alloc, &mut out, done, left)?;
    }
    out.flush()
}
