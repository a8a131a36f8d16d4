// The desk's whole answer.
#![tactic(auto)]

mod write;

ghost use Rattle.std.specs.Prelude.{◌≤◌, ◌*◌, length};
ghost use Rattle.answer.specs.Output.{refused_line, count_line, Answers};
ghost use Rattle.answer.specs.inner.Writing.{Puts};
ghost use Rattle.answer.specs.inner.Reporting.{report_of, report_on, Fronts};

use problem::Problem;
use search::{Answer, Solved};
use translate::Refused;

// The most sweeps that the desk pays for.
const BUDGET: i64 = 100_000;

// How many numbers the desk's workspace has.
const WORKSPACE: usize = 8_192;

// The most quantities of a problem.
const MOST: usize = 128;

// How many bytes a name takes, with its padding.
const NAME: usize = 8;

// Writes `REFUSED`, number and line.
fn refused(out: &mut [u8], number: usize, line: usize) -> usize
    ensures { Puts (refused_line number line) out.old 0 out.new result }
{
    let word = write::bytes(out, 0, b"REFUSED ");
    let first = write::number(out, word, number);
    let space = write::byte(out, first, b' ');
    let second = write::number(out, space, line);
    write::byte(out, second, b'\n')
}

// Writes a word and the sweep count.
fn counted(out: &mut [u8], word: &[u8], sweeps: usize) -> usize
    ensures { Puts (count_line word.now sweeps) out.old 0 out.new result }
{
    let first = write::bytes(out, 0, word);
    let space = write::byte(out, first, b' ');
    let second = write::number(out, space, sweeps);
    write::byte(out, second, b'\n')
}

// Writes what a solve answered: `NONE` has no value lines; after `STOP` they are the floor.
fn report(out: &mut [u8], solved: Solved, names: &[u8], point: &[i64]) -> usize
    requires { 8 * length point.now ≤ length names.now }
    ensures { Puts (report_of solved.answer solved.sweeps names.now point.now) out.old 0 out.new result }
{
    let sweeps = solved.sweeps;
    match solved.answer {
        Answer::None => counted(out, b"NONE", sweeps),
        Answer::Found => {
            let next = counted(out, b"FOUND", sweeps);
            write::lines(out, next, names, point)
        }
        Answer::Stopped => {
            let next = counted(out, b"STOP", sweeps);
            write::lines(out, next, names, point)
        }
    }
}

// Solves the problem of an accepted sheet with its declared quantities leading, and writes the answer.
fn solved(out: &mut [u8], problem: Problem, names: &[u8]) -> usize
    requires { Fronts problem.ranges.now names.now }
    ensures { Puts (report_on problem.entry.ranges.now problem.entry.primitives.now problem.entry.lengths.now problem.entry.literals.now names.now) out.old 0 out.new result }
{
    let n = problem.ranges.len() / 2;
    let declared = names.len() / NAME;
    let mut point = [0i64; MOST];
    let mut work = [0i64; WORKSPACE];
    let solved = search::solve(problem, declared as i64, BUDGET, &mut point[..n], &mut work);
    match solved {
        Ok(solved) => report(out, solved, names, &point[..declared]),
        Err(ground) => refused(out, usize::from(ground), 0),
    }
}

// A sheet's text in, the desk's whole output at the front of `out`; its length is returned.
pub fn answer(sheet: &[u8], out: &mut [u8; 4096]) -> usize
    ensures { Answers sheet.now out.old result out.new }
{
    let mut ranges = [0i64; 256];
    let mut primitives = [0i64; 1024];
    let mut lengths = [0i64; 256];
    let mut literals = [0i64; 3072];
    let mut names = [0u8; 1024];
    let translated = translate::translate(
        sheet,
        &mut ranges,
        &mut primitives,
        &mut lengths,
        &mut literals,
        &mut names,
    );
    match translated {
        Err(Refused { refusal, line }) => refused(out, usize::from(refusal), line),
        Ok(counts) => {
            let q = 2 * counts.quantities;
            let p = 4 * counts.primitives;
            let c = counts.clauses;
            let l = 3 * counts.literals;
            let d = NAME * counts.declared;
            let problem = Problem {
                ranges: &ranges[..q],
                primitives: &primitives[..p],
                lengths: &lengths[..c],
                literals: &literals[..l],
            };
            solved(out, problem, &names[..d])
        }
    }
}
