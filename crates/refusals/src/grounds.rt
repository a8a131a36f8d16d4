// Refusals 19 to 30 on both sides of their limits, and what a translation leaves in the lists. Each line of the table is a case. It
// starts with the refusal's number and its line; or with 19 and the lengths of the five lists; or with 0 and the counts of an accepted
// sheet: quantities, declared quantities, primitives, clauses and literals. Then the text.
use crate::translating::{Lists, Numbers, Sizes, in_numbers};
use cases::fields::ByteFields;
use cases::unfold::unfolded_front;
use std::alloc::Global;
use std::io;

// The refusal of lists that are too short.
const SHORT: usize = 19;

// The most bytes of a sheet, and how many more numbers than the full sizes a list has at most; a case that asks for more is not tried.
const SHEET: usize = 4_200;

const MORE: u8 = 8;

// What the first fields of a case ask, of a refusal with a number or of an accepted sheet.
pub fn asked(number: usize, fields: &mut ByteFields) -> Numbers {
    if number == 0 {
        return Ok([
            fields.take(),
            fields.take(),
            fields.take(),
            fields.take(),
            fields.take(),
        ]);
    }
    Err((number, fields.take()))
}

// Whether a case agrees with so many more numbers in each list than the full sizes.
pub fn agrees(alloc: Global, case: &[u8], more: u8) -> io::Result<bool> {
    let mut fields = ByteFields::new(case);
    let number: usize = fields.take();
    let (sizes, asked) = if number == SHORT {
        (Sizes::take(&mut fields), Err((SHORT, 0)))
    } else {
        (Sizes::full(more), asked(number, &mut fields))
    };
    let sheet = unfolded_front(alloc, fields.rest)?;
    if SHEET < sheet.len() || !sizes.is_within(Sizes::full(MORE)) {
        return Ok(false);
    }
    let mut lists = Lists::new(alloc, sizes)?;
    let answer = lists.translate(&sheet);
    Ok(in_numbers(answer) == asked && lists.made(answer).is_some())
}
