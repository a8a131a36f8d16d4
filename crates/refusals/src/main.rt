// What translate answers: the refusals of sheets on both sides of their limits, and stored lists; and the lines of a text. Each group
// prints its name, its number of cases and its number of agreements; a disagreement prints its case.
#![tactic(auto)]

mod grounds;
mod line_trials;
mod pins;
mod translating;

use cases::table::Cases;
use cases::{report, table};
use std::alloc::Global;
use std::io;
use std::rt::Files;

// The refusals of sheets, with lists of the full sizes and with longer ones; the file is read once.
fn sheet_refusals(rt: &(impl Files + Print), alloc: Global) -> io::Result<()> {
    let mut buffer = [0u8; 65536];
    let length = table::load(rt, b"grounds.txt", &mut buffer);
    let table = &buffer[..length];
    report::compare(rt, "refusals of sheets", Cases::new(table), |case| {
        grounds::agrees(alloc, case, 0)
    })?;
    report::compare(
        rt,
        "refusals with longer lists",
        Cases::new(table),
        |case| { grounds::agrees(alloc, case, 7) },
    )
}

// Runs every group.
fn main(rt: HostRuntime) -> io::Result<()> {
    let alloc = rt.alloc();
    sheet_refusals(&rt, alloc)?;
    table::compare(&rt, "lines of a text", "lines.txt", |case| {
        line_trials::agrees(alloc, case)
    })?;
    table::compare(&rt, "pinned lists", "pins.txt", |case| {
        pins::agrees(alloc, case)
    })
}
