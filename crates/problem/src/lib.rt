// What a problem is: lists of numbers, read as primitives and literals, and judged by grounds 1 to 5.
// Every function of this crate is inner: only our own crates call it.
#![tactic(auto)]

pub mod leading;

ghost use Rattle.std.specs.Prelude.{◌||◌, ◌≡◌, ◌≤◌, length, pos, ◌*ℤ◌};
ghost use Rattle.problem.specs.Grounds.{differ, beyond, missing, bad_quantities, any_negative, total, bad_lists, bad_range, bad_ranges, bad_primitive, bad_primitives, bad_literal, bad_literals, judge_of, refusal_number};
ghost use Rattle.problem.specs.inner.Placed.{Readable, primitive_at, ReadableLiteral, literal_at};

// z = x + y, z = x * y, z = x squared.
#[derive(Clone, Copy, PartialEq, Eq)]
pub enum Primitive {
    Sum { z: usize, x: usize, y: usize },
    Product { z: usize, x: usize, y: usize },
    Square { z: usize, x: usize },
}

// A quantity is at most a bound, or at least.
#[derive(Clone, Copy, PartialEq, Eq)]
pub enum Literal {
    AtMost { quantity: usize, bound: i64 },
    AtLeast { quantity: usize, bound: i64 },
}

// The grounds on which a solve is refused, 1 to 8.
#[derive(Clone, Copy, PartialEq, Eq)]
pub enum Refusal {
    Quantities,
    Lists,
    Ranges,
    Primitives,
    Literals,
    Budget,
    Room,
    Leading,
}

// Document 01's number of a refusal.
impl From<Refusal> for usize {
    ghost from_gives = { λ refusal number. number ≡ refusal_number refusal };

    fn from(refusal: Refusal) -> usize {
        match refusal {
            Refusal::Quantities => 1,
            Refusal::Lists => 2,
            Refusal::Ranges => 3,
            Refusal::Primitives => 4,
            Refusal::Literals => 5,
            Refusal::Budget => 6,
            Refusal::Room => 7,
            Refusal::Leading => 8,
        }
    }
}

// A problem as four lists: ranges, two numbers each; primitives, four each; the lengths of clauses; and their literals, three numbers each.
#[derive(Clone, Copy)]
pub struct Problem<'a> {
    pub ranges: &'a [i64],
    pub primitives: &'a [i64],
    pub lengths: &'a [i64],
    pub literals: &'a [i64],
}

// The primitive at place i.
pub fn primitive_at(primitives: &[i64], i: usize) -> Primitive
    requires { Readable primitives.now i }
    ensures { result ≡ primitive_at primitives.now i }
{
    let kind = primitives[4 * i];
    let z = primitives[4 * i + 1] as usize;
    let x = primitives[4 * i + 2] as usize;
    if kind <= 1 {
        let y = primitives[4 * i + 3] as usize;
        return Primitive::Sum { z, x, y };
    }
    if kind <= 2 {
        let y = primitives[4 * i + 3] as usize;
        return Primitive::Product { z, x, y };
    }
    Primitive::Square { z, x }
}

// The literal at place i.
pub fn literal_at(literals: &[i64], i: usize) -> Literal
    requires { ReadableLiteral literals.now i }
    ensures { result ≡ literal_at literals.now i }
{
    let quantity = literals[3 * i] as usize;
    let sense = literals[3 * i + 1];
    let bound = literals[3 * i + 2];
    if sense <= 0 {
        return Literal::AtMost { quantity, bound };
    }
    Literal::AtLeast { quantity, bound }
}

// Whether a number is beyond plus or minus M.
fn is_beyond(z: i64) -> bool
    ensures { result ≡ beyond z }
{
    z < -1_000_000_000_000 || 1_000_000_000_000 < z
}

// Whether a number is none of 0 to n-1.
fn is_missing(n: usize, q: i64) -> bool
    ensures { result ≡ missing n q }
{
    q < 0 || n <= q as usize
}

// Ground 1: range list odd, or n not 1 to 128.
fn bad_quantities(ranges: &[i64]) -> bool
    ensures { result ≡ bad_quantities ranges.now }
{
    let n = ranges.len() / 2;
    ranges.len() % 2 == 1 || n < 1 || 128 < n
}

// Whether a clause length is below 0, or size is not three times the sum of lengths. A length above 1,024 is more than a list that gets here has room for.
fn lengths_off(lengths: &[i64], size: usize) -> bool
    requires { (length lengths.now ≤ 256) × (size ≤ 3072) }
    ensures { result ≡ (any_negative lengths.now || differ (pos size) (pos 3 *ℤ total lengths.now)) }
{
    let mut sum: usize = 0;
    for &n in lengths {
        if n < 0 || 1024 < n {
            return true;
        }
        sum += n as usize;
    }
    3 * sum != size
}

// Ground 2: a list too long, primitive list not in fours, a clause length below 0, or literal list not three times the sum of lengths.
fn bad_lists(primitives: &[i64], lengths: &[i64], literals: &[i64]) -> bool
    ensures { result ≡ bad_lists primitives.now lengths.now literals.now }
{
    1024 < primitives.len()
        || 256 < lengths.len()
        || 3072 < literals.len()
        || primitives.len() % 4 != 0
        || lengths_off(lengths, literals.len())
}

// Inner: whether a range has low above high, or an end beyond plus or minus M.
pub fn bad_range(low: i64, high: i64) -> bool
    ensures { result ≡ bad_range low high }
{
    high < low || is_beyond(low) || is_beyond(high)
}

// Ground 3: such a range.
fn bad_ranges(ranges: &[i64]) -> bool
    ensures { result ≡ bad_ranges ranges.now }
{
    let (twos, _) = ranges.as_chunks::<2>();
    twos.iter().any(|&[low, high]| bad_range(low, high))
}

// Unknown kind, missing quantity, or y not 0 in kind 3.
fn bad_primitive(n: usize, kind: i64, z: i64, x: i64, y: i64) -> bool
    ensures { result ≡ bad_primitive n kind z x y }
{
    if kind < 1 || 3 < kind || is_missing(n, z) || is_missing(n, x) {
        return true;
    }
    if kind <= 2 { is_missing(n, y) } else { y != 0 }
}

// Ground 4: such a primitive.
fn bad_primitives(n: usize, primitives: &[i64]) -> bool
    ensures { result ≡ bad_primitives n primitives.now }
{
    let (fours, _) = primitives.as_chunks::<4>();
    fours
        .iter()
        .any(|&[kind, z, x, y]| bad_primitive(n, kind, z, x, y))
}

// Literal with missing quantity, unknown sense, or bound beyond plus or minus M.
fn bad_literal(n: usize, quantity: i64, sense: i64, bound: i64) -> bool
    ensures { result ≡ bad_literal n quantity sense bound }
{
    is_missing(n, quantity) || sense < 0 || 1 < sense || is_beyond(bound)
}

// Ground 5: such a literal.
fn bad_literals(n: usize, literals: &[i64]) -> bool
    ensures { result ≡ bad_literals n literals.now }
{
    let (threes, _) = literals.as_chunks::<3>();
    threes.iter().any(|&[quantity, sense, bound]| bad_literal(n, quantity, sense, bound))
}

impl Problem<'_> {
    // The first of grounds 1 to 5 that the lists meet.
    #[tactic(auto, unfolding(crate::specs::Grounds::judge_of))]
    pub fn judge(self) -> Result<(), Refusal>
        ensures { result ≡ judge_of self.entry.ranges.now self.entry.primitives.now self.entry.lengths.now self.entry.literals.now }
    {
        if bad_quantities(self.ranges) {
            return Err(Refusal::Quantities);
        }
        if bad_lists(self.primitives, self.lengths, self.literals) {
            return Err(Refusal::Lists);
        }
        if bad_ranges(self.ranges) {
            return Err(Refusal::Ranges);
        }
        let n = self.ranges.len() / 2;
        if bad_primitives(n, self.primitives) {
            return Err(Refusal::Primitives);
        }
        if bad_literals(n, self.literals) {
            return Err(Refusal::Literals);
        }
        Ok(())
    }
}
