// One line of a sheet: 23, then a range line or a rule by its first token.
ghost use Rattle.std.specs.Prelude.{◌≡◌, ℕ, ◌+◌, ◌*◌, ◌≤◌, pos, length};
ghost use Rattle.std.proofs.Math.Option.{some};
ghost use Rattle.whole.specs.Numbers.{Near};
ghost use Rattle.sheet.specs.Grammar.{ranged};
ghost use Rattle.sheet.specs.Reading.{read_range};
ghost use Rattle.sheet.specs.inner.Steps.{tokens_from};
ghost use Rattle.meaning.specs.Grounds.{top_of};
ghost use Rattle.lines.specs.inner.Emission.{Rules};
ghost use Rattle.lines.specs.inner.Comparisons.{listing_of};
ghost use Rattle.lines.specs.inner.Stored.{Full, Standing, Answers, line_by, tree_by, rule_f, Appended, Roomy, DeclaresIn};

use crate::parts::{Equations, Lists, Making, Progress, Tally};
use crate::rule::{read_if, read_must};
use crate::writing::{place_of, put_range};
use meaning::Refusal;
use sheet::depth::deep;
use sheet::range::declaration;
use sheet::tokens::next;
use sheet::{Declaration, Mark, Token};
use whole::Range;

// The most quantities.
const MOST: usize = 128;

// The top of the default range, by the version.
fn top_of(version: u64) -> i64
    ensures { result ≡ pos (top_of version) }
{
    if version == 1 {
        return 1_000_000;
    }
    200_000
}

// A quantity more: 24 after a rule, 25 where it is declared twice, 26, 29.
fn declare(
    name: u64,
    low: i64,
    high: i64,
    done: Progress,
    lists: &mut Lists,
) -> Result<Progress, Refusal>
    requires near_1 { Near low }
    requires near_2 { Near high }
    requires declares_in { DeclaresIn done lists.old.equations.ranges lists.old.keys }
    ensures { (version : ℕ) → Answers (tree_by version (some (ranged name low high))) done lists.old.equations.ranges lists.old.equations.primitives lists.old.lengths lists.old.literals lists.old.keys lists.new.equations.ranges lists.new.equations.primitives lists.new.lengths lists.new.literals lists.new.keys result }
{
    if done.ruled {
        return Err(Refusal::Form);
    }
    let count = done.declared;
    if place_of(&lists.keys[..count], name) < count {
        return Err(Refusal::Names);
    }
    if high < low {
        return Err(Refusal::Order);
    }
    let quantity = done.quantities;
    if MOST <= quantity {
        return Err(Refusal::Many);
    }
    put_range(&mut lists.equations.ranges, quantity, Range { low, high });
    lists.keys[count] = name;
    Ok(Progress {
        declared: count + 1,
        quantities: quantity + 1,
        primitives: done.primitives,
        clauses: done.clauses,
        literals: done.literals,
        ruled: false,
    })
}

// What stands behind `range`.
fn range_line(
    line: &[u8],
    at: usize,
    version: u64,
    done: Progress,
    lists: &mut Lists,
) -> Result<Progress, Refusal>
    requires { DeclaresIn done lists.old.equations.ranges lists.old.keys }
    ensures { Answers (tree_by version (read_range (tokens_from line.now at))) done lists.old.equations.ranges lists.old.equations.primitives lists.old.lengths lists.old.literals lists.old.keys lists.new.equations.ranges lists.new.equations.primitives lists.new.lengths lists.new.literals lists.new.keys result }
{
    let said = declaration(line, at).ok_or(Refusal::Form)?;
    match said {
        Declaration::Plain { name } => declare(name, 0, top_of(version), done, lists),
        Declaration::Ranged { name, low, high } => declare(name, low, high, done, lists),
    }
}

// The clause of a rule, or the two clauses of an equality demand: their lengths, the literals of the second, and the counts.
fn append(
    done: Progress,
    tally: Tally,
    lengths: &mut [i64],
    literals: &mut [i64],
    seconds: &[i64],
) -> Progress
    requires { Roomy done tally.count lengths.old literals.old seconds.now }
    ensures { Appended done tally.making tally.count tally.equals lengths.old literals.old seconds.now lengths.new literals.new result }
{
    let at = done.clauses;
    let count = tally.count;
    lengths[at] = count as i64;
    let one = Progress {
        declared: done.declared,
        quantities: tally.making.used,
        primitives: tally.making.count,
        clauses: at + 1,
        literals: done.literals + count,
        ruled: true,
    };
    if tally.equals == 0 {
        return one;
    }
    lengths[at + 1] = count as i64;
    let size = 3 * count;
    let behind = 3 * one.literals;
    literals[behind..behind + size].copy_from_slice(&seconds[..size]);
    Progress {
        clauses: at + 2,
        literals: done.literals + 2 * count,
        ..one
    }
}

// What stands behind `if`, or behind `must`, read and listed.
fn read_part(
    line: &[u8],
    at: usize,
    conditional: bool,
    keys: &[u64],
    making: Making,
    equations: &mut Equations,
    firsts: &mut [i64],
    seconds: &mut [i64],
) -> Option<Tally>
    ensures { Rules (λ k. rule_f conditional k (tokens_from line.now at)) keys.now (length (tokens_from line.now at)) (listing_of (record { making = making; count = 0; equals = 0 }) equations.old.ranges equations.old.primitives firsts.old seconds.old) result equations.new.ranges equations.new.primitives firsts.new seconds.new }
{
    if conditional {
        return read_if(line, at, keys, making, equations, firsts, seconds);
    }
    read_must(line, at, keys, making, equations, firsts, seconds)
}

// A rule, from behind its first token: 24, 25, 27, 28, 29.
fn rule_line(
    line: &[u8],
    at: usize,
    conditional: bool,
    done: Progress,
    lists: &mut Lists,
) -> Result<Progress, Refusal>
    requires { Standing done lists.old.equations.ranges lists.old.equations.primitives lists.old.lengths lists.old.literals lists.old.keys }
    ensures { (version n : ℕ) → 8 * length (tokens_from line.now at) + 8 ≤ n → Answers (tree_by version (rule_f conditional n (tokens_from line.now at))) done lists.old.equations.ranges lists.old.equations.primitives lists.old.lengths lists.old.literals lists.old.keys lists.new.equations.ranges lists.new.equations.primitives lists.new.lengths lists.new.literals lists.new.keys result }
{
    let mut seconds = [0i64; 768];
    let declared = done.declared;
    let start = 3 * done.literals;
    let none = Making {
        used: done.quantities,
        count: done.primitives,
        unknown: false,
        wide: false,
    };
    let tally = read_part(
        line,
        at,
        conditional,
        &lists.keys[..declared],
        none,
        &mut lists.equations,
        &mut lists.literals[start..],
        &mut seconds,
    )
    .ok_or(Refusal::Form)?;
    let making = tally.making;
    if making.unknown {
        return Err(Refusal::Names);
    }
    if 1 < tally.equals {
        return Err(Refusal::Equalities);
    }
    if making.wide {
        return Err(Refusal::Beyond);
    }
    if MOST < making.used {
        return Err(Refusal::Many);
    }
    Ok(append(
        done,
        tally,
        &mut lists.lengths,
        &mut lists.literals,
        &seconds,
    ))
}

// One line by its first token: 23 where it is too deep, 24 where it is none of the forms.
fn by_first(
    line: &[u8],
    version: u64,
    done: Progress,
    lists: &mut Lists,
) -> Result<Progress, Refusal>
    requires { Standing done lists.old.equations.ranges lists.old.equations.primitives lists.old.lengths lists.old.literals lists.old.keys }
    ensures { Answers (line_by version line.now) done lists.old.equations.ranges lists.old.equations.primitives lists.old.lengths lists.old.literals lists.old.keys lists.new.equations.ranges lists.new.equations.primitives lists.new.lengths lists.new.literals lists.new.keys result }
{
    if deep(line) {
        return Err(Refusal::Brackets);
    }
    let first = next(line, 0);
    let Token::Fixed(mark) = first.token else {
        return Err(Refusal::Form);
    };
    match mark {
        Mark::Range => range_line(line, first.next, version, done, lists),
        Mark::Must => rule_line(line, first.next, false, done, lists),
        Mark::If => rule_line(line, first.next, true, done, lists),
        _ => Err(Refusal::Form),
    }
}

// Inner: one line, read into the lists behind what is there; the lists keep their full sizes.
pub fn read_line(
    line: &[u8],
    version: u64,
    done: Progress,
    lists: &mut Lists,
) -> Result<Progress, Refusal>
    requires { Standing done lists.old.equations.ranges lists.old.equations.primitives lists.old.lengths lists.old.literals lists.old.keys }
    ensures answers { Answers (line_by version line.now) done lists.old.equations.ranges lists.old.equations.primitives lists.old.lengths lists.old.literals lists.old.keys lists.new.equations.ranges lists.new.equations.primitives lists.new.lengths lists.new.literals lists.new.keys result }
    ensures full { Full lists.new.equations.ranges lists.new.equations.primitives lists.new.lengths lists.new.literals lists.new.keys }
{
    let read = by_first(line, version, done, lists);
    lists.full();
    read
}
