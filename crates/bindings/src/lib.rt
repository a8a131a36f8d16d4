// The calls for C, and the static library that has them: each says in numbers what the call of the same name answers, and asks nothing of
// its caller.
#![tactic(auto)]

ghost use Rattle.std.specs.Prelude.{◌≡◌};
ghost use Rattle.sheet.specs.Lines.{span_of};
ghost use Rattle.answer.specs.Output.{Answers};
ghost use Rattle.bindings.specs.Calls.{solve_numbers, SolvesInC, translate_numbers, TranslatesInC, span_numbers};

use problem::{Problem, Refusal};
use search::{Answer, Solved};
use translate::{Counts, Refused};

// What a solve answers: 0 none, 1 found, 2 stopped, 3 refused; the refusal's number, 0 where there is none; and the number of sweeps used.
#[repr(C)]
#[derive(Clone, Copy)]
pub struct SolveNumbers {
    pub answer: usize,
    pub refusal: usize,
    pub sweeps: usize,
}

// What a translation answers: the refusal's number and line, and how many of each the sheet makes. Accepted: refusal and line are 0. Refused: the counts are.
#[repr(C)]
#[derive(Clone, Copy)]
pub struct TranslateNumbers {
    pub refusal: usize,
    pub line: usize,
    pub quantities: usize,
    pub declared: usize,
    pub primitives: usize,
    pub clauses: usize,
    pub literals: usize,
}

// A stretch of a text: from start up to end.
#[repr(C)]
#[derive(Clone, Copy)]
pub struct LineSpan {
    pub start: usize,
    pub end: usize,
}

// A solve's answer in numbers.
fn solve_numbers(solved: Result<Solved, Refusal>) -> SolveNumbers
    ensures { result ≡ solve_numbers solved }
{
    match solved {
        Ok(Solved { answer, sweeps }) => SolveNumbers {
            answer: match answer {
                Answer::None => 0,
                Answer::Found => 1,
                Answer::Stopped => 2,
            },
            refusal: 0,
            sweeps,
        },
        Err(ground) => SolveNumbers {
            answer: 3,
            refusal: usize::from(ground),
            sweeps: 0,
        },
    }
}

// A translation's answer in numbers.
fn translate_numbers(translated: Result<Counts, Refused>) -> TranslateNumbers
    ensures { result ≡ translate_numbers translated }
{
    match translated {
        Ok(counts) => TranslateNumbers {
            refusal: 0,
            line: 0,
            quantities: counts.quantities,
            declared: counts.declared,
            primitives: counts.primitives,
            clauses: counts.clauses,
            literals: counts.literals,
        },
        Err(Refused { refusal, line }) => TranslateNumbers {
            refusal: usize::from(refusal),
            line,
            quantities: 0,
            declared: 0,
            primitives: 0,
            clauses: 0,
            literals: 0,
        },
    }
}

// Checks a problem and searches it.
#[unsafe(no_mangle)]
pub extern "C" fn ularimpong_solve(
    ranges: &[i64],
    primitives: &[i64],
    lengths: &[i64],
    literals: &[i64],
    leading: i64,
    budget: i64,
    point: &mut [i64],
    work: &mut [i64],
) -> SolveNumbers
    ensures { SolvesInC ranges.now primitives.now lengths.now literals.now leading budget point.old work.old point.new work.new result }
{
    let problem = Problem {
        ranges,
        primitives,
        lengths,
        literals,
    };
    solve_numbers(search::solve(problem, leading, budget, point, work))
}

// Translates a sheet into a problem.
#[unsafe(no_mangle)]
pub extern "C" fn ularimpong_translate(
    sheet: &[u8],
    ranges: &mut [i64],
    primitives: &mut [i64],
    lengths: &mut [i64],
    literals: &mut [i64],
    names: &mut [u8],
) -> TranslateNumbers
    ensures { TranslatesInC sheet.now ranges.old primitives.old lengths.old literals.old names.old ranges.new primitives.new lengths.new literals.new names.new result }
{
    translate_numbers(translate::translate(sheet, ranges, primitives, lengths, literals, names))
}

// From where to where a line of a text stands.
#[unsafe(no_mangle)]
pub extern "C" fn ularimpong_line_span(text: &[u8], line: usize) -> LineSpan
    ensures { result ≡ span_numbers (span_of text.now line) }
{
    let span = sheet::line_span(text, line);
    LineSpan {
        start: span.start,
        end: span.end,
    }
}

// The desk's whole answer to a sheet.
#[unsafe(no_mangle)]
pub extern "C" fn ularimpong_answer(sheet: &[u8], out: &mut [u8; 4096]) -> usize
    ensures { Answers sheet.now out.old result out.new }
{
    answer::answer(sheet, out)
}
