// Calls of solve with marked buffers, and what it leaves in them.
use cases::marks::Marked;
use problem::{Problem, Refusal};
use search::{Answer, Solved};
use std::alloc::{AllocError, Global};

// How many numbers of each list a case asks for.
#[derive(Clone, Copy)]
pub struct Sizes {
    pub ranges: usize,
    pub primitives: usize,
    pub lengths: usize,
    pub literals: usize,
    pub point: usize,
    pub work: usize,
}

// The lists of a problem.
#[derive(Drop)]
pub struct Lists {
    pub ranges: Vec<i64>,
    pub primitives: Vec<i64>,
    pub lengths: Vec<i64>,
    pub literals: Vec<i64>,
}

impl Lists {
    // The problem in the fronts of the lists, if they are so long.
    fn problem(&self, sizes: &Sizes) -> Option<Problem<'_>> {
        Some(Problem {
            ranges: self.ranges.get(..sizes.ranges)?,
            primitives: self.primitives.get(..sizes.primitives)?,
            lengths: self.lengths.get(..sizes.lengths)?,
            literals: self.literals.get(..sizes.literals)?,
        })
    }
}

// What a solve says; nothing where a list is too short for what a case asks.
pub type Outcome = Option<Result<Solved, Refusal>>;

// The number that a table has for an answer: 1 to 8 for a refusal.
pub fn number_of(outcome: Outcome) -> usize {
    match outcome {
        Some(Ok(solved)) => match solved.answer {
            Answer::None => 50,
            Answer::Found => 51,
            Answer::Stopped => 52,
        },
        Some(Err(refusal)) => usize::from(refusal),
        None => 53,
    }
}

// The buffers of a solve.
#[derive(Drop)]
pub struct Buffers {
    point: Marked<i64>,
    work: Marked<i64>,
}

impl Buffers {
    // Buffers of which so many numbers are lent.
    pub fn new(alloc: Global, point: usize, work: usize) -> Result<Buffers, AllocError> {
        Ok(Buffers {
            point: Marked::new(alloc, point)?,
            work: Marked::new(alloc, work)?,
        })
    }

    // Solves the problem in the fronts of the lists.
    pub fn solve(&mut self, lists: &Lists, sizes: &Sizes, leading: i64, budget: i64) -> Outcome {
        Some(search::solve(
            lists.problem(sizes)?,
            leading,
            budget,
            self.point.lend().get_mut(..sizes.point)?,
            self.work.lend().get_mut(..sizes.work)?,
        ))
    }

    // What a solve left in the point buffer, if the rest of it is as it came: the point or the floor, or nothing after NONE and after a
    // refusal. Where a list was too short, it is what was to be lent, as it came.
    pub fn point(&self, outcome: Outcome) -> Option<&[i64]> {
        let written = match outcome {
            None => self.point.lent,
            Some(
                Ok(
                    Solved {
                        answer: Answer::Found | Answer::Stopped,
                        ..
                    },
                ),
            ) => self.point.lent,
            _ => 0,
        };
        self.point.written(written)
    }

    // Whether the workspace is 0 where it was needed, and else as it came.
    pub fn is_cleared(&self, needed: usize) -> bool {
        match self.work.written(needed) {
            Some(front) => front.iter().all(|x| *x == 0),
            None => false,
        }
    }
}
