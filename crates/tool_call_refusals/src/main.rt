//! Makes calls that may want memory. It reads a line such as `photo_version::Vector::join`, which names a call, makes it on
//! values of its own, and prints the line with the verdict. `tools/gate/refuse-calls` runs it and refuses each call's requests
//! for memory one by one.
#![tactic(auto)]

mod calls;
mod devices;
mod fields;
mod fleets;
mod gates;
mod growing;
mod live;
mod plans;
mod pulls;
mod questions;
mod runs;
mod scripts;
mod sessions;
mod streams;
mod texts;

use std::io;
use tool_value_refusals::word_of;

fn main(rt: HostRuntime) -> io::Result<()> {
    for line in rt.lines(rt.alloc()) {
        let line = line?;
        let said = word_of(calls::of_line(rt, rt.alloc(), line.as_str()));
        println!(rt; "{line}: {said}")?;
    }
    Ok(())
}
