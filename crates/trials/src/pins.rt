// Problems with stored answers and counts. Each line of a table is a case: the answer's number, its sweeps, the workspace needed, the
// leading number, the budget, and the numbers of quantities, primitives, clauses and literals; then the ranges, primitives, lengths and
// literals; then the point or the floor, or nothing after NONE and after a refusal.
use crate::solving::{Buffers, Lists, Sizes, number_of};
use cases::fields::ByteFields;
use std::alloc::{AllocError, Global};
use std::io;

// How many more numbers of workspace are lent than are needed.
const MORE: usize = 3;

// The most numbers of each list; a case that asks for more is not solved, and its answer is that a list was too short.
const MOST: Sizes = Sizes {
    ranges: 16,
    primitives: 32,
    lengths: 16,
    literals: 64,
    point: 16,
    work: 4_096,
};

// The numbers in the next fields, of which a list keeps no more than it may have.
fn taken(
    alloc: Global,
    fields: &mut ByteFields,
    count: usize,
    most: usize,
) -> Result<Vec<i64>, AllocError> {
    let list = fields.take_list(alloc, count.min(most))?;
    for _ in most..count {
        if fields.is_empty() {
            break;
        }
        let _passed: i64 = fields.take();
    }
    Ok(list)
}

// Whether a case agrees.
pub fn agrees(alloc: Global, case: &[u8]) -> io::Result<bool> {
    let mut fields = ByteFields::new(case);
    let number: usize = fields.take();
    let sweeps: usize = fields.take();
    let needed: usize = fields.take();
    let leading = fields.take();
    let budget = fields.take();
    let quantities: usize = fields.take();
    let primitives: usize = fields.take();
    let clauses = fields.take();
    let literals: usize = fields.take();
    let sizes = Sizes {
        ranges: quantities.wrapping_mul(2),
        primitives: primitives.wrapping_mul(4),
        lengths: clauses,
        literals: literals.wrapping_mul(3),
        point: quantities,
        work: needed.wrapping_add(MORE),
    };
    let lists = Lists {
        ranges: taken(alloc, &mut fields, sizes.ranges, MOST.ranges)?,
        primitives: taken(alloc, &mut fields, sizes.primitives, MOST.primitives)?,
        lengths: taken(alloc, &mut fields, sizes.lengths, MOST.lengths)?,
        literals: taken(alloc, &mut fields, sizes.literals, MOST.literals)?,
    };
    let mut buffers = Buffers::new(
        alloc,
        sizes.point.min(MOST.point),
        sizes.work.min(MOST.work),
    )?;
    let outcome = buffers.solve(&lists, &sizes, leading, budget);
    let Some(point) = buffers.point(outcome) else {
        return Ok(false);
    };
    let counted = match outcome {
        Some(Ok(solved)) => solved.sweeps,
        _ => 0,
    };
    // What lies past the end of a point buffer that was too short reads as 0.
    Ok(
        number_of(outcome) == number
            && counted == sweeps
            && point == fields.take_list(alloc, point.len())?.as_slice()
            && (point.is_empty() || (point.len()..quantities).all(|_| fields.take::<i64>() == 0))
            && buffers.is_cleared(needed),
    )
}
