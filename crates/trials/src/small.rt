// Small problems from a fixed pseudo-random sequence, each answered by solve and by trying every point in order.
ghost use Rattle.std.specs.Prelude.{pos, neg_ℤ, ◌≤ℤ◌, ◌≡◌, ◌<◌, length, vec_len, IfOk};

use crate::solving::{Buffers, Lists, Sizes};
use cases::report;
use cases::sequence::Sequence;
use search::Answer;
use std::alloc::{AllocError, Global};
use std::io;

// How many problems are compared.
const PROBLEMS: usize = 5_000;

// The first state of the sequence.
const SEED: usize = 20_011;

// M: no bound is farther from 0.
const MOST: i64 = 1_000_000_000_000;

// The values of a quantity: so many from the low end on, which is no farther from 0 than M and a little.
#[derive(Clone, Copy)]
struct Range {
    low: i64,
    values: u8,
    ghost above: { neg_ℤ (pos 1000000001000) ≤ℤ low },
    ghost under: { low ≤ℤ pos 1000000001000 },
}

// A low end near -M, near M, around the root of M either way, or around 0.
fn low_end(place: usize, values: u8, slip: u8, near: u8) -> i64
    ensures above { neg_ℤ (pos 1000000001000) ≤ℤ result }
    ensures under { result ≤ℤ pos 1000000001000 }
{
    let slip = i64::from(slip);
    match place {
        0 => slip - MOST,
        1 => MOST + 1 - i64::from(values) - slip,
        2 => 1_000_000 - slip,
        3 => -1_000_000 - slip,
        _ => i64::from(near) - 7,
    }
}

impl Range {
    // The next range of a problem with so many quantities.
    fn draw(sequence: &mut Sequence, quantities: u8) -> Range {
        let most = match quantities {
            2 => 12,
            3 => 6,
            _ => 4,
        };
        let values = sequence.draw(most) as u8 + 1;
        let place = sequence.draw(14);
        let slip = sequence.draw(3) as u8;
        let near = sequence.draw(12) as u8;
        let low = low_end(place, values, slip, near);
        Range { low, values }
    }

    // The high end.
    fn high(&self) -> i64 {
        self.low + i64::from(self.values) - 1
    }

    // The least k with 2^k at least the number of values.
    fn halvings(&self) -> usize {
        (u8::BITS - self.values.saturating_sub(1).leading_zeros()) as usize
    }

    // The next bound for a quantity: from one below its range to one above, and within plus or minus M.
    fn draw_bound(&self, sequence: &mut Sequence) -> i64 {
        let step = sequence.draw(usize::from(self.values) + 2) as i64;
        (self.low + step - 1).clamp(-MOST, MOST)
    }
}

// z = x + y, z = x * y, z = x squared.
#[derive(Clone, Copy)]
enum Primitive {
    Sum { z: u8, x: u8, y: u8 },
    Product { z: u8, x: u8, y: u8 },
    Square { z: u8, x: u8 },
}

impl Primitive {
    // The next primitive of a problem with so many quantities.
    fn draw(sequence: &mut Sequence, quantities: u8) -> Primitive {
        let kind = sequence.draw(3);
        let z = draw_quantity(sequence, quantities);
        let x = draw_quantity(sequence, quantities);
        let y = draw_quantity(sequence, quantities);
        match kind {
            0 => Primitive::Sum { z, x, y },
            1 => Primitive::Product { z, x, y },
            _ => Primitive::Square { z, x },
        }
    }

    // The numbers of a primitive in a list.
    fn numbers(&self) -> [i64; 4] {
        let (kind, z, x, y) = match *self {
            Primitive::Sum { z, x, y } => (1, z, x, y),
            Primitive::Product { z, x, y } => (2, z, x, y),
            Primitive::Square { z, x } => (3, z, x, 0),
        };
        [kind, i64::from(z), i64::from(x), i64::from(y)]
    }

    // Whether a primitive holds at a point.
    fn holds(&self, point: &[i64]) -> bool {
        match *self {
            Primitive::Sum { z, x, y } => {
                value(point, x).checked_add(value(point, y)) == Some(value(point, z))
            }
            Primitive::Product { z, x, y } => {
                value(point, x).checked_mul(value(point, y)) == Some(value(point, z))
            }
            Primitive::Square { z, x } => {
                value(point, x).checked_mul(value(point, x)) == Some(value(point, z))
            }
        }
    }
}

// A quantity is at most a bound, or at least.
#[derive(Clone, Copy)]
enum Literal {
    AtMost { quantity: u8, bound: i64 },
    AtLeast { quantity: u8, bound: i64 },
}

impl Literal {
    // The next literal of a problem with these ranges.
    fn draw(sequence: &mut Sequence, ranges: &[Range]) -> Literal
        requires some { 0 < length ranges.now }
        requires few { length ranges.now < 256 }
    {
        let q = sequence.draw(ranges.len());
        let quantity = q as u8;
        let sense = sequence.draw(2);
        let bound = ranges[q].draw_bound(sequence);
        match sense {
            0 => Literal::AtMost { quantity, bound },
            _ => Literal::AtLeast { quantity, bound },
        }
    }

    // The numbers of a literal in a list.
    fn numbers(&self) -> [i64; 3] {
        match *self {
            Literal::AtMost { quantity, bound } => [i64::from(quantity), 0, bound],
            Literal::AtLeast { quantity, bound } => [i64::from(quantity), 1, bound],
        }
    }

    // Whether a literal is true at a point.
    fn is_true(&self, point: &[i64]) -> bool {
        match *self {
            Literal::AtMost { quantity, bound } => value(point, quantity) <= bound,
            Literal::AtLeast { quantity, bound } => bound <= value(point, quantity),
        }
    }
}

// The next quantity of so many.
fn draw_quantity(sequence: &mut Sequence, quantities: u8) -> u8 {
    sequence.draw(usize::from(quantities)) as u8
}

// The value of a quantity at a point.
fn value(point: &[i64], quantity: u8) -> i64 {
    point.get(usize::from(quantity)).copied().unwrap_or(0)
}

// The next ranges of a problem with so many quantities.
fn draw_ranges(
    alloc: Global,
    sequence: &mut Sequence,
    quantities: u8,
) -> Result<Vec<Range>, AllocError>
    ensures { IfOk result (λ v. vec_len v ≡ quantities) }
{
    (0..quantities)
        .map(|_| Range::draw(sequence, quantities))
        .collect(alloc)
}

// A problem and its budget.
#[derive(Drop)]
struct Problem {
    ranges: Vec<Range>,
    primitives: Vec<Primitive>,
    clauses: Vec<Vec<Literal>>,
    budget: u32,
}

impl Problem {
    // The next problem: 2 to 4 quantities, up to 3 primitives and up to 3 clauses. One clause in ten is empty, the others have 1 to 3
    // literals. One budget in three is small.
    fn draw(alloc: Global, sequence: &mut Sequence) -> Result<Problem, AllocError> {
        let quantities = sequence.draw(3) as u8 + 2;
        let ranges = draw_ranges(alloc, sequence, quantities)?;
        let mut primitives = Vec::new(alloc);
        for _ in 0..sequence.draw(4) {
            primitives.push(Primitive::draw(sequence, quantities))?;
        }
        let mut clauses = Vec::new(alloc);
        for _ in 0..sequence.draw(4) {
            let is_empty = sequence.draw(10) == 0;
            let size = sequence.draw(3) + 1;
            let mut clause = Vec::new(alloc);
            if !is_empty {
                for _ in 0..size {
                    clause.push(Literal::draw(sequence, &ranges))?;
                }
            }
            clauses.push(clause)?;
        }
        let kind = sequence.draw(3);
        let few = sequence.draw(12) as u32;
        let budget = match kind {
            0 => few,
            1 => 100_000,
            _ => 1_000_000_000,
        };
        Ok(Problem {
            ranges,
            primitives,
            clauses,
            budget,
        })
    }

    // The problem in lists.
    fn lists(&self, alloc: Global) -> Result<Lists, AllocError> {
        let mut ranges = Vec::new(alloc);
        for range in &self.ranges {
            ranges.extend_from_slice(&[range.low, range.high()])?;
        }
        let mut primitives = Vec::new(alloc);
        for primitive in &self.primitives {
            primitives.extend_from_slice(&primitive.numbers())?;
        }
        let mut lengths = Vec::new(alloc);
        let mut literals = Vec::new(alloc);
        for clause in &self.clauses {
            lengths.push(clause.len() as i64)?;
            for literal in clause {
                literals.extend_from_slice(&literal.numbers())?;
            }
        }
        Ok(Lists {
            ranges,
            primitives,
            lengths,
            literals,
        })
    }

    // The workspace needed: 2n(D+1).
    fn room(&self) -> usize {
        let mut slots: usize = 1;
        for range in &self.ranges {
            slots = slots.saturating_add(range.halvings());
        }
        slots.saturating_mul(self.ranges.len().saturating_mul(2))
    }

    // Whether a point satisfies the problem; its values are in their ranges.
    fn is_satisfied(&self, point: &[i64]) -> bool {
        self.primitives.iter().all(|p| p.holds(point))
            && self.clauses.iter().all(|clause| clause.iter().any(|literal| literal.is_true(point)))
    }

    // Lays behind a point the first values in some ranges, the last of the problem, that satisfy it; leaves the point as it was where
    // none do.
    fn complete(&self, ranges: &[Range], point: &mut Vec<i64>) -> Result<bool, AllocError> {
        let Some((range, rest)) = ranges.split_first() else {
            return Ok(self.is_satisfied(point));
        };
        for x in range.low..=range.high() {
            point.push(x)?;
            if self.complete(rest, point)? {
                return Ok(true);
            }
            point.pop();
        }
        Ok(false)
    }

    // The first point that satisfies the problem: quantity 0 weighs most.
    fn first_point(&self, alloc: Global) -> Result<Option<Vec<i64>>, AllocError> {
        let mut point = Vec::new(alloc);
        let some = self.complete(&self.ranges, &mut point)?;
        Ok(if some { Some(point) } else { None })
    }

    // Whether solve and the trial of every point agree on a problem, with some more workspace than is needed.
    fn agrees(&self, alloc: Global, more: usize) -> io::Result<bool> {
        let lists = self.lists(alloc)?;
        let quantities = self.ranges.len();
        let needed = self.room();
        let sizes = Sizes {
            ranges: lists.ranges.len(),
            primitives: lists.primitives.len(),
            lengths: lists.lengths.len(),
            literals: lists.literals.len(),
            point: quantities,
            work: needed.saturating_add(more),
        };
        let mut buffers = Buffers::new(alloc, sizes.point, sizes.work)?;
        let outcome = buffers.solve(&lists, &sizes, quantities as i64, i64::from(self.budget));
        let Some(point) = buffers.point(outcome) else {
            return Ok(false);
        };
        let Some(Ok(solved)) = outcome else {
            return Ok(false);
        };
        let budget = self.budget as usize;
        let is_right = match (solved.answer, self.first_point(alloc)?) {
            (Answer::None, None) => solved.sweeps <= budget,
            (Answer::Found, Some(first)) => point == first.as_slice() && solved.sweeps <= budget,
            (Answer::Stopped, Some(first)) => {
                point <= first.as_slice() && solved.sweeps == budget
            }
            (Answer::Stopped, None) => solved.sweeps == budget,
            _ => false,
        };
        Ok(is_right && buffers.is_cleared(needed))
    }
}

// Compares every problem of the sequence.
pub fn compare(rt: &(impl Print + AllocGlobal)) -> io::Result<()> {
    let alloc = rt.alloc();
    let mut sequence = Sequence::new(SEED);
    report::compare(rt, "small problems", 0..PROBLEMS, |case| {
        let problem = Problem::draw(alloc, &mut sequence)?;
        problem.agrees(alloc, case % 3)
    })
}
