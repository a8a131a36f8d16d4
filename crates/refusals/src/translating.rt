// Calls of translate with marked lists, and what it leaves in them.
use cases::fields::ByteFields;
use cases::marks::Marked;
use problem::Problem;
use std::alloc::{AllocError, Global};
use translate::{Counts, Refused};

// The counts of a refusal: none of the lists is written.
const NOTHING: Counts = Counts {
    quantities: 0,
    declared: 0,
    primitives: 0,
    clauses: 0,
    literals: 0,
};

// How many numbers of each list are lent.
#[derive(Clone, Copy)]
pub struct Sizes {
    ranges: usize,
    primitives: usize,
    lengths: usize,
    literals: usize,
    names: usize,
}

impl Sizes {
    // The full sizes, and so many more numbers in each list.
    pub fn full(more: u8) -> Sizes {
        let beyond = usize::from(more);
        Sizes {
            ranges: 256 + beyond,
            primitives: 1_024 + beyond,
            lengths: 256 + beyond,
            literals: 3_072 + beyond,
            names: 1_024 + beyond,
        }
    }

    // Whether no list is longer than with other sizes.
    pub fn is_within(self, most: Sizes) -> bool {
        self.ranges <= most.ranges
            && self.primitives <= most.primitives
            && self.lengths <= most.lengths
            && self.literals <= most.literals
            && self.names <= most.names
    }

    // The sizes in the next fields of a case.
    pub fn take(fields: &mut ByteFields) -> Sizes {
        Sizes {
            ranges: fields.take(),
            primitives: fields.take(),
            lengths: fields.take(),
            literals: fields.take(),
            names: fields.take(),
        }
    }
}

// An answer in the numbers of a table: the counts of an accepted sheet, or the refusal's number and line.
pub type Numbers = Result<[usize; 5], (usize, usize)>;

// An answer in numbers.
pub fn in_numbers(answer: Result<Counts, Refused>) -> Numbers {
    match answer {
        Ok(counts) => Ok([
            counts.quantities,
            counts.declared,
            counts.primitives,
            counts.clauses,
            counts.literals,
        ]),
        Err(refused) => Err((usize::from(refused.refusal), refused.line)),
    }
}

// The lists of a translation.
#[derive(Drop)]
pub struct Lists {
    ranges: Marked<i64>,
    primitives: Marked<i64>,
    lengths: Marked<i64>,
    literals: Marked<i64>,
    names: Marked<u8>,
}

impl Lists {
    // Lists of which so many numbers are lent.
    pub fn new(alloc: Global, sizes: Sizes) -> Result<Lists, AllocError> {
        Ok(Lists {
            ranges: Marked::new(alloc, sizes.ranges)?,
            primitives: Marked::new(alloc, sizes.primitives)?,
            lengths: Marked::new(alloc, sizes.lengths)?,
            literals: Marked::new(alloc, sizes.literals)?,
            names: Marked::new(alloc, sizes.names)?,
        })
    }

    // Translates a sheet into the lists.
    pub fn translate(&mut self, sheet: &[u8]) -> Result<Counts, Refused> {
        translate::translate(
            sheet,
            self.ranges.lend(),
            self.primitives.lend(),
            self.lengths.lend(),
            self.literals.lend(),
            self.names.lend(),
        )
    }

    // The problem that an answer made of the lists, if the rest of each list is as it came; a refusal makes an empty one.
    pub fn made(&self, answer: Result<Counts, Refused>) -> Option<Problem<'_>> {
        let counts = answer.unwrap_or(NOTHING);
        self.names.written(counts.declared.saturating_mul(8))?;
        Some(Problem {
            ranges: self.ranges.written(counts.quantities.saturating_mul(2))?,
            primitives: self
                .primitives
                .written(counts.primitives.saturating_mul(4))?,
            lengths: self.lengths.written(counts.clauses)?,
            literals: self.literals.written(counts.literals.saturating_mul(3))?,
        })
    }
}
