//! Reads cases, plays each with three nodes of its own, and tells line by line what the nodes do. The README has the lines.
#![tactic(auto)]

mod asking;
mod cases;
mod lines;
mod offices;
mod openings;
mod orders;
mod runs;
mod seats;
mod shown;
mod stores;
mod words;

use std::io;

fn main(rt: HostRuntime) -> io::Result<()> {
    let text = io::read_to_string(rt.alloc(), rt.stdin())?;
    let told = cases::all_told(rt.alloc(), text.as_str())?;
    print!(rt; "{told}")
}
