// The search, and the public call `solve`.
#![tactic(auto)]

mod boxes;
mod room;

ghost use Rattle.std.specs.Prelude.{◌≡◌};
ghost use Rattle.search.specs.Solve.{judged, Solves};
ghost use Rattle.search.specs.inner.Ready.{solved_by, Ready, Searched};

use narrow::Status;
use problem::{Problem, Refusal};

// What a solve answers where it refuses nothing.
#[derive(Clone, Copy)]
pub enum Answer {
    None,
    Found,
    Stopped,
}

// The answer, and the number of sweeps used.
#[derive(Clone, Copy)]
pub struct Solved {
    pub answer: Answer,
    pub sweeps: usize,
}

// The largest budget.
const MOST: i64 = 1_000_000_000;

// An answer after a number of sweeps.
fn after(sweeps: usize, answer: Answer) -> Solved
    ensures { result ≡ solved_by sweeps answer }
{
    Solved { answer, sweeps }
}

// The first ground met, 1 to 6, then 8, then 7.
#[tactic(auto, unfolding(crate::specs::Solve::judged))]
fn judge(
    problem: Problem,
    leading: i64,
    budget: i64,
    point: &[i64],
    work: &[i64],
) -> Result<(), Refusal>
    ensures { result ≡ judged problem.entry.ranges.now problem.entry.primitives.now problem.entry.lengths.now problem.entry.literals.now leading budget point.now work.now }
{
    problem.judge()?;
    if budget < 0 || MOST < budget {
        return Err(Refusal::Budget);
    }
    if problem.bad_leading(leading) {
        return Err(Refusal::Leading);
    }
    if point.len() != problem.ranges.len() / 2 {
        return Err(Refusal::Room);
    }
    if work.len() < room::needed(problem.ranges, leading as usize) {
        return Err(Refusal::Room);
    }
    Ok(())
}

// The search of the starting box, in slots of the workspace: the boxes that wait, and the box in hand behind them.
// The leading quantities say how many boxes can wait.
fn search(
    problem: Problem,
    leading: usize,
    budget: usize,
    point: &mut [i64],
    work: &mut [i64],
) -> Solved
    requires { Ready problem.ranges.now problem.primitives.now problem.lengths.now problem.literals.now leading point.old work.old }
    ensures { Searched problem.entry.ranges.now problem.entry.primitives.now problem.entry.lengths.now problem.entry.literals.now leading budget point.old work.old point.new work.new result }
{
    let width = problem.ranges.len();
    boxes::copy(problem.ranges, &mut work[..width]);
    let mut waiting = 0;
    let mut left = budget;
    loop {
        let at = waiting * width;
        let end = at + width;
        if left == 0 {
            boxes::lows_to(&work[at..end], point);
            return after(budget, Answer::Stopped);
        }
        left -= 1;
        match narrow::sweep(&mut work[at..end], problem) {
            Status::Empty => {
                if waiting == 0 {
                    return after(budget - left, Answer::None);
                }
                waiting -= 1;
            }
            Status::Changed => {}
            Status::Same => {
                let Some(q) = boxes::lowest_open(&work[at..end]) else {
                    boxes::lows_to(&work[at..end], point);
                    return after(budget - left, Answer::Found);
                };
                let next = end + width;
                boxes::split(&mut work[at..next], width, q);
                waiting += 1;
            }
        }
    }
}

// Solves a problem: the answer with its count of sweeps, and in the point buffer the point found or the floor.
pub fn solve(
    problem: Problem,
    leading: i64,
    budget: i64,
    point: &mut [i64],
    work: &mut [i64],
) -> Result<Solved, Refusal>
    ensures { Solves problem.entry.ranges.now problem.entry.primitives.now problem.entry.lengths.now problem.entry.literals.now leading budget point.old work.old point.new work.new result }
{
    judge(problem, leading, budget, point, work)?;
    let leading = leading as usize;
    let solved = search(problem, leading, budget as usize, point, work);
    let needed = room::needed(problem.ranges, leading);
    work[..needed].fill(0);
    Ok(solved)
}
