// The comparisons of solve that the gate runs. Each group prints its name, its number of cases and its number of agreements; a
// disagreement prints its case.
#![tactic(auto)]

mod pins;
mod refusals;
mod small;
mod solving;

use cases::table;
use std::io;

// Runs every group.
fn main(rt: HostRuntime) -> io::Result<()> {
    let alloc = rt.alloc();
    table::compare(&rt, "refusals of solve", "refusals.txt", |case| {
        refusals::agrees(alloc, case)
    })?;
    table::compare(&rt, "buffers after solve", "buffers.txt", |case| {
        refusals::agrees(alloc, case)
    })?;
    small::compare(&rt)?;
    table::compare(&rt, "counted problems", "counted.txt", |case| {
        pins::agrees(alloc, case)
    })?;
    table::compare(&rt, "pinned problems", "pins.txt", |case| {
        pins::agrees(alloc, case)
    })
}
