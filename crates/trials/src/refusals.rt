// Refusals 1 to 8, and what an answer leaves in the buffers. Each line of a table is a case: the answer's number, how many numbers of
// the workspace are 0 after it, the lengths of the range, primitive, length and literal lists, the leading number, the budget, the
// lengths of the point buffer and the workspace, and up to three edits of the lists below: list, place, number.
use crate::solving::{Buffers, Lists, Sizes, number_of};
use cases::fields::ByteFields;
use std::alloc::{AllocError, Global};
use std::io;

// How many edits a case has at most.
const EDITS: usize = 3;

// The lengths of the lists, of which a case has the fronts; one that asks for more is not solved, and its answer is that a list was too
// short.
const MOST: Sizes = Sizes {
    ranges: 300,
    primitives: 1_100,
    lengths: 300,
    literals: 3_100,
    point: 140,
    work: 33_100,
};

// A list of some length that says the same numbers over and over.
fn repeated(alloc: Global, numbers: &[i64], length: usize) -> Result<Vec<i64>, AllocError> {
    numbers.iter().copied().cycle().take(length).collect(alloc)
}

// Puts a number at a place, if the list reaches so far.
fn put(list: &mut [i64], place: usize, number: i64) {
    if let Some(old) = list.get_mut(place) {
        *old = number;
    }
}

// Makes the edit in the next fields of a case.
fn edit(fields: &mut ByteFields, lists: &mut Lists) {
    let list: usize = fields.take();
    let place: usize = fields.take();
    let number = fields.take();
    match list {
        0 => put(&mut lists.ranges, place, number),
        1 => put(&mut lists.primitives, place, number),
        2 => put(&mut lists.lengths, place, number),
        3 => put(&mut lists.literals, place, number),
        _ => {}
    }
}

// Whether a case agrees. Before the edits the ranges are 0 to 1, the primitives sums of quantity 0 and itself, and the clauses of four
// literals, which say that quantity 0 is at most 1. After FOUND and STOP the point is made of the low ends.
pub fn agrees(alloc: Global, case: &[u8]) -> io::Result<bool> {
    let mut fields = ByteFields::new(case);
    let number: usize = fields.take();
    let needed = fields.take();
    let ranges = fields.take();
    let primitives = fields.take();
    let lengths = fields.take();
    let literals = fields.take();
    let leading = fields.take();
    let budget = fields.take();
    let sizes = Sizes {
        ranges,
        primitives,
        lengths,
        literals,
        point: fields.take(),
        work: fields.take(),
    };
    let mut lists = Lists {
        ranges: repeated(alloc, &[0, 1], MOST.ranges)?,
        primitives: repeated(alloc, &[1, 0, 0, 0], MOST.primitives)?,
        lengths: repeated(alloc, &[4], MOST.lengths)?,
        literals: repeated(alloc, &[0, 0, 1], MOST.literals)?,
    };
    for _ in 0..EDITS {
        if !fields.is_empty() {
            edit(&mut fields, &mut lists);
        }
    }
    let mut buffers = Buffers::new(
        alloc,
        sizes.point.min(MOST.point),
        sizes.work.min(MOST.work),
    )?;
    let outcome = buffers.solve(&lists, &sizes, leading, budget);
    let Some(point) = buffers.point(outcome) else {
        return Ok(false);
    };
    let lows = lists.ranges.iter().step_by(2);
    let is_lows = point.iter().zip(lows).all(|(x, low)| x == low);
    Ok(number_of(outcome) == number && is_lows && buffers.is_cleared(needed))
}
