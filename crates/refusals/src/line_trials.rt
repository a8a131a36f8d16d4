// The lines of a text at their edges. Each line of the table is a case: a line number, where that line starts and ends, and the text,
// with a slash for each LF.
use cases::fields::ByteFields;
use cases::unfold::unfolded_front;
use std::alloc::Global;
use std::io;

// The most bytes of a text; a case with more is not tried.
const TEXT: usize = 256;

// Whether a case agrees.
pub fn agrees(alloc: Global, case: &[u8]) -> io::Result<bool> {
    let mut fields = ByteFields::new(case);
    let line = fields.take();
    let start = fields.take();
    let end = fields.take();
    let text = unfolded_front(alloc, fields.rest)?;
    if TEXT < text.len() {
        return Ok(false);
    }
    let span = sheet::line_span(&text, line);
    let stretch = sheet::line_at(&text, line);
    Ok(span.start == start && span.end == end && text.get(start..end) == Some(stretch))
}
