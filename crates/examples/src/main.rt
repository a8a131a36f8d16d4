// The examples and comparisons of sheets that the gate runs. Each group prints its name, its number of cases and its number of
// agreements; a disagreement prints its case.
#![tactic(auto)]

mod answers;
mod drawing;
mod room;
mod sheets;
mod small;
mod spelling;
mod trying;

use answers::Given;
use std::io;

// Runs every group: the document's examples, the sheets of the desk, small sheets, sheets whose sweeps were followed by hand, and
// sheets with the answers of the second implementation.
fn main(rt: HostRuntime) -> io::Result<()> {
    let alloc = rt.alloc();
    answers::compare(
        &rt,
        alloc,
        "examples of the document",
        "document.txt",
        Given::Text,
    )?;
    answers::compare(&rt, alloc, "sheets of the desk", "desk.txt", Given::File)?;
    sheets::compare(&rt, alloc)?;
    answers::compare(&rt, alloc, "counted sheets", "counted.txt", Given::Text)?;
    answers::compare(&rt, alloc, "pinned sheets", "pins.txt", Given::Text)
}
