//! Plays runs of a small cluster, line by line, and tells what its nodes do and which numbers they have then. The
//! README has the lines.
#![tactic(auto)]

mod cluster;
mod lines;
mod shown;

use std::io;

fn main(rt: HostRuntime) -> io::Result<()> {
    let text = io::read_to_string(rt.alloc(), rt.stdin())?;
    let mut cluster = cluster::Cluster::new(rt.alloc());
    for line in text.lines() {
        let mut out = String::new(rt.alloc());
        lines::take(&mut cluster, line.trim(), &mut out)?;
        print!(rt; "{out}")?;
    }
    Ok(())
}
