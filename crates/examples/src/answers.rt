// Sheets and their answers. Each line of a table is a case: a sheet or the name of a file with one, a bar, and what the desk prints.
use cases::{table, unfold};
use std::alloc::{AllocError, Global};
use std::io;
use std::rt::Files;

// The most bytes of a sheet; a longer one gets no answer.
const SHEET: usize = 4_200;

// The most bytes of a file's name; a longer one names no file.
const NAME: usize = 256;

// The most bytes of an answer that is asked for; those behind them read as LF.
const ASKED: usize = 256;

// How a case gives its sheet: by its text, or by the name of the file that it stands in.
#[derive(Clone, Copy)]
pub enum Given {
    Text,
    File,
}

// The desk's answer to a sheet.
pub fn answer_to<'a>(sheet: &[u8], out: &'a mut [u8; 4096]) -> &'a [u8] {
    let length = answer::answer(sheet, out);
    &out[..length]
}

// The word of an answer and the lines of its values, without the count of sweeps between them.
pub fn without_sweeps(answer: &[u8]) -> Option<(&str, &str)> {
    let text = str::from_utf8(answer).ok()?;
    let (first, values) = text.split_once('\n')?;
    let (word, _sweeps) = first.split_once(' ')?;
    Some((word, values))
}

// The sheet that a case gives. A file that cannot be read is an empty one.
fn sheet_of(
    rt: &impl Files,
    alloc: Global,
    given: Given,
    case: &[u8],
) -> Result<Vec<u8>, AllocError> {
    let text = unfold::unfolded_front(alloc, case)?;
    match given {
        Given::Text => Ok(text),
        Given::File if NAME < text.len() => Ok(Vec::new(alloc)),
        Given::File => {
            let mut buffer = [0u8; SHEET];
            let length = table::load(rt, &text, &mut buffer);
            buffer[..length].to_vec(alloc)
        }
    }
}

// Compares the cases of a table.
pub fn compare(
    rt: &(impl Files + Print),
    alloc: Global,
    group: &str,
    file: &str,
    given: Given,
) -> io::Result<()> {
    let mut out = [0u8; 4096];
    table::compare(rt, group, file, |case| {
        let sheet = sheet_of(rt, alloc, given, case)?;
        let mut asked = unfold::unfolded_front(alloc, table::behind(case, b'|').unwrap_or(b""))?;
        for byte in asked.iter_mut().skip(ASKED) {
            *byte = b'\n';
        }
        if SHEET < sheet.len() {
            return Ok(asked.is_empty());
        }
        Ok(answer_to(&sheet, &mut out) == asked.as_slice())
    })
}
