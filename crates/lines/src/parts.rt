// What the readers of a line hand to one another, and to the walk through all lines.
ghost use Rattle.std.specs.Prelude.{◌≡◌, length};
ghost use Rattle.lines.specs.inner.Stored.{Full};

use whole::Range;

// What expressions write: the ranges of the quantities, and the primitives.
#[derive(Drop)]
pub struct Equations {
    pub ranges: [i64; 256],
    pub primitives: [i64; 1024],
}

// Lists of full size for the lines to be read into: what expressions write, the lengths of the clauses, their literals, and the names of the
// declared quantities.
#[derive(Drop)]
pub struct Lists {
    pub equations: Equations,
    pub lengths: [i64; 256],
    pub literals: [i64; 3072],
    pub keys: [u64; 128],
}

impl Equations {
    // The lists have their full sizes: proofs learn it here, and nothing runs.
    fn full(&self)
        ensures { (length self.now.ranges ≡ 256) × (length self.now.primitives ≡ 1024) }
    {
        prove!(self.ranges.len() == 256);
        prove!(self.primitives.len() == 1024);
    }
}

impl Lists {
    // The lists have their full sizes: proofs learn it here, and nothing runs.
    pub(crate) fn full(&self)
        ensures { Full self.now.equations.ranges self.now.equations.primitives self.now.lengths self.now.literals self.now.keys }
    {
        self.equations.full();
        prove!(self.lengths.len() == 256);
        prove!(self.literals.len() == 3072);
        prove!(self.keys.len() == 128);
    }
}

// How many quantities and primitives there are, whether a name was undeclared, and whether a range left plus or minus M.
#[derive(Clone, Copy)]
pub struct Making {
    pub used: usize,
    pub count: usize,
    pub unknown: bool,
    pub wide: bool,
}

// The quantity that holds the value of what was read, and its range.
#[derive(Clone, Copy)]
pub struct Held {
    pub place: usize,
    pub span: Range,
}

// A helper that was made, and the counts with it.
#[derive(Clone, Copy)]
pub struct Emitted {
    pub held: Held,
    pub making: Making,
}

// What reading a part of an expression made, and where the next token starts.
#[derive(Clone, Copy)]
pub struct Made {
    pub next: usize,
    pub emitted: Emitted,
}

// Which of the two clauses of an equality demand.
#[derive(Clone, Copy)]
pub enum Clause {
    First,
    Second,
}

// The counts, how many literals a clause has so far, and how many equality demands there were, up to two.
#[derive(Clone, Copy)]
pub struct Tally {
    pub making: Making,
    pub count: usize,
    pub equals: usize,
}

// What listing comparisons made, and where the next token starts.
#[derive(Clone, Copy)]
pub struct Listed {
    pub next: usize,
    pub tally: Tally,
}

// How far the sheet has been read: the counts so far, and whether a rule was met.
#[derive(Clone, Copy)]
pub struct Progress {
    pub declared: usize,
    pub quantities: usize,
    pub primitives: usize,
    pub clauses: usize,
    pub literals: usize,
    pub ruled: bool,
}
