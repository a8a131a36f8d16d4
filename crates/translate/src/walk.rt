// The lines of a sheet behind the first, read into lists of full size, and those handed to the caller.
ghost use Rattle.sheet.specs.Lines.{lines_of};
ghost use Rattle.meaning.specs.Draft.{blank};
ghost use Rattle.meaning.specs.Grounds.{top_of, read_lines, some_declared};
ghost use Rattle.lines.specs.inner.Stored.{Full, Standing};
ghost use Rattle.translate.specs.inner.Walk.{Lent, LinesRead, Accepts, Gives};

use crate::name::write;
use crate::{Counts, Refused};
use lines::line::read_line;
use lines::parts::{Equations, Lists, Progress};
use meaning::Refusal;

// The lines of a text, the first of them line 2: the first fault decides.
fn read_lines(text: &[u8], version: u64, lists: &mut Lists) -> Result<Progress, Refused>
    requires { Full lists.old.equations.ranges lists.old.equations.primitives lists.old.lengths lists.old.literals lists.old.keys }
    ensures { LinesRead (read_lines (top_of version) 2 blank (lines_of text.now)) lists.new.equations.ranges lists.new.equations.primitives lists.new.lengths lists.new.literals lists.new.keys result }
{
    let mut done = Progress {
        declared: 0,
        quantities: 0,
        primitives: 0,
        clauses: 0,
        literals: 0,
        ruled: false,
    };
    for (i, ended) in text.split_inclusive(|b| *b == b'\n').enumerate() {
        let line = i + 2;
        let bytes = ended.strip_suffix(b"\n").unwrap_or(ended);
        done = read_line(bytes, version, done, lists).map_err(|refusal| Refused { refusal, line })?;
    }
    Ok(done)
}

// The fronts of the lists handed to the caller, with the counts.
fn accept(
    done: Progress,
    lists: &Lists,
    ranges: &mut [i64],
    primitives: &mut [i64],
    lengths: &mut [i64],
    literals: &mut [i64],
    names: &mut [u8],
) -> Counts
    requires standing { Standing done lists.now.equations.ranges lists.now.equations.primitives lists.now.lengths lists.now.literals lists.now.keys }
    requires lent { Lent ranges.old primitives.old lengths.old literals.old names.old }
    ensures { Accepts done lists.now.equations.ranges lists.now.equations.primitives lists.now.lengths lists.now.literals lists.now.keys ranges.old primitives.old lengths.old literals.old names.old ranges.new primitives.new lengths.new literals.new names.new result }
{
    let range_end = 2 * done.quantities;
    let primitive_end = 4 * done.primitives;
    let length_end = done.clauses;
    let literal_end = 3 * done.literals;
    ranges[..range_end].copy_from_slice(&lists.equations.ranges[..range_end]);
    primitives[..primitive_end].copy_from_slice(&lists.equations.primitives[..primitive_end]);
    lengths[..length_end].copy_from_slice(&lists.lengths[..length_end]);
    literals[..literal_end].copy_from_slice(&lists.literals[..literal_end]);
    write(&lists.keys[..done.declared], names);
    Counts {
        quantities: done.quantities,
        declared: done.declared,
        primitives: done.primitives,
        clauses: done.clauses,
        literals: done.literals,
    }
}

// Reads the lines of a text, the first of them line 2, and fills the caller's lists where no line has a fault and a quantity is declared.
pub fn fill(
    text: &[u8],
    version: u64,
    ranges: &mut [i64],
    primitives: &mut [i64],
    lengths: &mut [i64],
    literals: &mut [i64],
    names: &mut [u8],
) -> Result<Counts, Refused>
    requires { Lent ranges.old primitives.old lengths.old literals.old names.old }
    ensures { Gives (some_declared (read_lines (top_of version) 2 blank (lines_of text.now))) ranges.old primitives.old lengths.old literals.old names.old ranges.new primitives.new lengths.new literals.new names.new result }
{
    let mut lists = Lists {
        equations: Equations {
            ranges: [0; 256],
            primitives: [0; 1024],
        },
        lengths: [0; 256],
        literals: [0; 3072],
        keys: [0; 128],
    };
    let done = read_lines(text, version, &mut lists)?;
    if done.declared == 0 {
        return Err(Refused {
            refusal: Refusal::Undeclared,
            line: 0,
        });
    }
    let counts = accept(done, &lists, ranges, primitives, lengths, literals, names);
    Ok(counts)
}
