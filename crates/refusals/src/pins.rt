// Sheets and the lists that the second implementation makes of them. Each line of the table is a case: a sheet, a bar, 0, the counts of
// quantities, declared quantities, primitives, clauses and literals, and then the ranges, primitives, lengths and literals.
use crate::grounds::asked;
use crate::translating::{Lists, Sizes, in_numbers};
use cases::fields::ByteFields;
use cases::table::behind;
use cases::unfold::unfolded_front;
use std::alloc::Global;
use std::io;

// The most bytes of a sheet; a case with more is not tried.
const SHEET: usize = 512;

// Whether a case agrees.
pub fn agrees(alloc: Global, case: &[u8]) -> io::Result<bool> {
    let sheet = unfolded_front(alloc, case)?;
    if SHEET < sheet.len() {
        return Ok(false);
    }
    let mut fields = ByteFields::new(behind(case, b'|').unwrap_or(b""));
    let number = fields.take();
    let asked = asked(number, &mut fields);
    let mut lists = Lists::new(alloc, Sizes::full(0))?;
    let answer = lists.translate(&sheet);
    let Some(made) = lists.made(answer) else {
        return Ok(false);
    };
    for list in [made.ranges, made.primitives, made.lengths, made.literals] {
        if list != fields.take_list(alloc, list.len())?.as_slice() {
            return Ok(false);
        }
    }
    Ok(in_numbers(answer) == asked)
}
