//! Reads lines, and tells what steps of a node's log over its store come to, with its calls failing in turn. The README has the
//! lines.
#![tactic(auto)]

mod runs;
mod steps;
mod told;

use std::io;

fn main(rt: HostRuntime) -> io::Result<()> {
    let text = io::read_to_string(rt.alloc(), rt.stdin())?;
    for line in text.lines() {
        let told = runs::line_told(rt.alloc(), line)?;
        print!(rt; "{told}")?;
    }
    Ok(())
}
