// Small sheets from a fixed pseudo-random sequence, each answered as the desk does and by trying every assignment in order.
use crate::drawing::Drawing;
use crate::small::Sheet;
use crate::{answers, spelling};
use cases::report;
use std::alloc::{AllocError, Global};
use std::io;

// How many sheets are compared.
const SHEETS: usize = 5_000;

// The lines of an assignment's values.
fn value_lines(alloc: Global, assignment: &[i64]) -> Result<String, AllocError> {
    let mut lines = String::new(alloc);
    for (place, value) in assignment.iter().enumerate() {
        let name = spelling::name(place);
        writeln!(lines, "{name} {value}")?;
    }
    Ok(lines)
}

// Whether an answer of the desk is the one that the trial of every assignment gives.
fn is_right(alloc: Global, sheet: &Sheet, answer: &[u8]) -> Result<bool, AllocError> {
    let Some((word, values)) = answers::without_sweeps(answer) else {
        return Ok(false);
    };
    let Some(assignment) = sheet.first(alloc)? else {
        return Ok(word == "NONE" && values.is_empty());
    };
    let lines = value_lines(alloc, &assignment)?;
    Ok(word == "FOUND" && values == lines.as_str())
}

// Compares every sheet of the sequence; the text of one that disagrees is printed.
pub fn compare(rt: &impl Print, alloc: Global) -> io::Result<()> {
    let mut drawing = Drawing::new(alloc);
    let mut out = [0u8; 4096];
    report::compare(rt, "small sheets", 0..SHEETS, |_| {
        let sheet = drawing.sheet()?;
        let text = format!(in alloc; "{sheet}")?;
        let answer = answers::answer_to(text.as_bytes(), &mut out);
        let right = is_right(alloc, &sheet, answer)?;
        if !right {
            print!(rt; "{text}")?;
        }
        Ok(right)
    })
}
