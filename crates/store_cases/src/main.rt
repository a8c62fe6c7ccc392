//! Reads cases of stores, line by line, and tells what each stands for and what the calls over it come to. The README
//! has the lines.
#![tactic(auto)]

mod cases;
mod files;
mod frames;
mod given;
mod lines;
mod opened;
mod runs;
mod steps;
mod told;
mod values;
mod variants;

use std::io;

fn main(rt: HostRuntime) -> io::Result<()> {
    let text = io::read_to_string(rt.alloc(), rt.stdin())?;
    let mut case = cases::Case::new(rt.alloc());
    for line in text.lines() {
        let told = case.take(&rt, line)?;
        print!(rt; "{told}")?;
    }
    Ok(())
}
