//! The sentence on each reason and on each status, one a line. The file `stdout` has what they must be.
#![tactic(auto)]

use cdb_outside::Status;
use status_words::status_words;
use std::io;
use std::io::Write;

/// The greatest reason against a line.
const LAST_REASON: u8 = 10;

fn main(rt: HostRuntime) -> io::Result<()> {
    for why in 1..=LAST_REASON {
        show(&rt, Status::Refused { line: 3, why })?;
    }
    for status in [
        Status::Usage,
        Status::ReadFault,
        Status::WriteFault,
        Status::StoreRefused { node: 1, at: 0 },
        Status::StoreRefused { node: 1, at: 766 },
        Status::NoMemory,
        Status::Unsound { node: 1 },
    ] {
        show(&rt, status)?;
    }
    Ok(())
}

/// Writes the sentence on a status to standard output.
fn show(rt: &HostRuntime, status: Status) -> io::Result<()> {
    let text = status_words(rt.alloc(), status)?;
    rt.stdout().write_all(text.as_bytes())
}
