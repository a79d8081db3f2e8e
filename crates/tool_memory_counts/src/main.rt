//! Makes the calls that must not take memory. It reads a line such as `vector 1000`, which names a group of calls and how often
//! to make them, makes them, and prints whether each gave the right answer. `tools/gate/count-allocations` runs it and counts
//! its allocations.
#![tactic(auto)]

mod copies;
mod devices;
mod filters;
mod fleets;
mod groups;
mod growing;
mod held;
mod ledgers;
mod pulls;
mod runs;
mod scripts;
mod staging;

use std::io;

fn main(rt: HostRuntime) -> io::Result<()> {
    for line in rt.lines(rt.alloc()) {
        let line = line?;
        let answered = groups::of_line(&rt, rt.alloc(), line.as_str()) == Some(true);
        println!(rt; "{answered}")?;
    }
    Ok(())
}
