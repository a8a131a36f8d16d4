// The cuts of sum, product, square and clause, and one sweep over a box.
// Every function of this crate is inner: only our own crates call it, on boxes and lists that were judged.
#![tactic(auto)]

mod clause;
mod frame;
mod product;
mod square;
mod sum;

ghost use Rattle.std.specs.Prelude.{false, map};
ghost use Rattle.problem.specs.Problem.{quantities};
ghost use Rattle.problem.specs.Lists.{primitives_of, literals_of, clauses_of};
ghost use Rattle.problem.specs.inner.Placed.{Placed};
ghost use Rattle.narrow.specs.Narrowing.{primitive_steps, clause_step};
ghost use Rattle.narrow.specs.Sweep.{all_steps, sweep_steps};
ghost use Rattle.narrow.specs.inner.Done.{Has, Fine, Seen, Done, Narrowed, Sweeps, Sited};

use problem::{Primitive, Problem};
use whole::Range;

// What has become of a box: a range is empty, a range changed, nothing changed.
#[derive(Clone, Copy)]
pub enum Status {
    Empty,
    Changed,
    Same,
}

// A range of the box is empty, which ends a sweep at once. What else a function that narrows says is whether a range has changed.
#[derive(Clone, Copy)]
pub struct Emptied;

// The range of quantity q.
pub fn range_at(b: &[i64], q: usize) -> Range
    requires fact_1 { Fine b.now }
    requires fact_2 { Has b.now q }
    ensures { Seen b.now q result }
{
    Range {
        low: b[2 * q],
        high: b[2 * q + 1],
    }
}

// One primitive narrows the box.
fn narrow_primitive(frame: &mut frame::Frame, p: Primitive, changed: bool) -> Result<bool, Emptied>
    requires { Sited frame.old.ends.now p }
    ensures { Narrowed (primitive_steps p) changed frame.old.ends result frame.new.ends }
{
    match p {
        Primitive::Sum { z, x, y } => sum::narrow(frame, z, x, y, changed),
        Primitive::Product { z, x, y } => product::narrow(frame, z, x, y, changed),
        Primitive::Square { z, x } => square::narrow(frame, z, x, changed),
    }
}

// The primitives in order, until a range is empty.
fn sweep_primitives(frame: &mut frame::Frame, problem: Problem) -> Result<bool, Emptied>
    requires { Placed (quantities frame.old.ends.now) problem.primitives.now problem.lengths.now problem.literals.now }
    ensures { Narrowed (all_steps (primitives_of problem.entry.primitives.now)) false frame.old.ends result frame.new.ends }
{
    let mut changed = false;
    for i in 0..problem.primitives.len() / 4 {
        changed = narrow_primitive(frame, problem::primitive_at(problem.primitives, i), changed)?;
    }
    Ok(changed)
}

// The clauses in order, until a range is empty.
fn sweep_clauses(frame: &mut frame::Frame, problem: Problem, before: bool) -> Result<bool, Emptied>
    requires { Placed (quantities frame.old.ends.now) problem.primitives.now problem.lengths.now problem.literals.now }
    ensures { Narrowed (map clause_step (clauses_of problem.entry.lengths.now (literals_of problem.entry.literals.now))) before frame.old.ends result frame.new.ends }
{
    let mut changed = before;
    let mut left = problem.literals;
    for length in problem.lengths {
        let (clause, rest) = left.split_at(3 * (*length as usize));
        changed = clause::narrow(frame, clause, changed)?;
        left = rest;
    }
    Ok(changed)
}

// The primitives in order, then the clauses in order.
fn sweep_all(frame: &mut frame::Frame, problem: Problem) -> Result<bool, Emptied>
    requires { Placed (quantities frame.old.ends.now) problem.primitives.now problem.lengths.now problem.literals.now }
    ensures { Narrowed (sweep_steps (primitives_of problem.entry.primitives.now) (clauses_of problem.entry.lengths.now (literals_of problem.entry.literals.now))) false frame.old.ends result frame.new.ends }
{
    let changed = sweep_primitives(frame, problem)?;
    sweep_clauses(frame, problem, changed)
}

// The sweep of a box that is lent for it.
fn sweep_lent(b: &mut [i64], problem: Problem) -> Result<bool, Emptied>
    requires fact_1 { Fine b.old }
    requires fact_2 { Placed (quantities b.old) problem.primitives.now problem.lengths.now problem.literals.now }
    ensures { Done (sweep_steps (primitives_of problem.entry.primitives.now) (clauses_of problem.entry.lengths.now (literals_of problem.entry.literals.now))) false b.old result b.new }
{
    let mut frame = frame::Frame { ends: b };
    sweep_all(&mut frame, problem)
}

// One sweep, and what has become of the box.
pub fn sweep(b: &mut [i64], problem: Problem) -> Status
    requires fact_1 { Fine b.old }
    requires fact_2 { Placed (quantities b.old) problem.primitives.now problem.lengths.now problem.literals.now }
    ensures { Sweeps (primitives_of problem.entry.primitives.now) (clauses_of problem.entry.lengths.now (literals_of problem.entry.literals.now)) b.old result b.new }
{
    match sweep_lent(b, problem) {
        Err(Emptied) => Status::Empty,
        Ok(true) => Status::Changed,
        Ok(false) => Status::Same,
    }
}
