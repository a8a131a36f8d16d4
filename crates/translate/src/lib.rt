// Sheets to problems: the grounds in order, line by line, and the public call `translate`.
#![tactic(auto)]

mod name;
mod text;
mod walk;

ghost use Rattle.std.specs.Prelude.{◌≡◌, ◌||◌, ltb};
ghost use Rattle.translate.specs.Translate.{Translates};

use meaning::Refusal;
use sheet::line::line_end;
use text::{bad_text, first_line, other_version};

// How many of each an accepted sheet makes.
#[derive(Clone, Copy)]
pub struct Counts {
    pub quantities: usize,
    pub declared: usize,
    pub primitives: usize,
    pub clauses: usize,
    pub literals: usize,
}

// The ground on which a sheet is refused, and the line at which it is met.
#[derive(Clone, Copy)]
pub struct Refused {
    pub refusal: Refusal,
    pub line: usize,
}

// Whether a lent list is shorter than its full size: 19.
fn short(ranges: usize, primitives: usize, lengths: usize, literals: usize, names: usize) -> bool
    ensures { result ≡ (ltb ranges 256 || (ltb primitives 1024 || (ltb lengths 256 || (ltb literals 3072 || ltb names 1024)))) }
{
    ranges < 256 || primitives < 1_024 || lengths < 256 || literals < 3_072 || names < 1_024
}

// Translates a sheet into the lists of a problem: ranges, primitives, clause lengths, literals, and the names of the declared quantities.
pub fn translate(
    sheet: &[u8],
    ranges: &mut [i64],
    primitives: &mut [i64],
    lengths: &mut [i64],
    literals: &mut [i64],
    names: &mut [u8],
) -> Result<Counts, Refused>
    ensures { Translates sheet.now ranges.old primitives.old lengths.old literals.old names.old ranges.new primitives.new lengths.new literals.new names.new result }
{
    if short(
        ranges.len(),
        primitives.len(),
        lengths.len(),
        literals.len(),
        names.len(),
    ) {
        return Err(Refused {
            refusal: Refusal::Lists,
            line: 0,
        });
    }
    if bad_text(sheet) {
        return Err(Refused {
            refusal: Refusal::Text,
            line: 0,
        });
    }
    let end = line_end(sheet, 0);
    let Some(version) = first_line(&sheet[..end]) else {
        return Err(Refused {
            refusal: Refusal::FirstLine,
            line: 1,
        });
    };
    if other_version(version) {
        return Err(Refused {
            refusal: Refusal::Version,
            line: 1,
        });
    }
    walk::fill(
        &sheet[end + 1..],
        version,
        ranges,
        primitives,
        lengths,
        literals,
        names,
    )
}
