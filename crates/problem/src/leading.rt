// Leading quantities, and ground 8: whether each quantity after them is one value, or the result of a primitive over lower-numbered ones.
ghost use Rattle.std.specs.Prelude.{◌&&◌, ◌≡◌, eqb, ltb};
ghost use Rattle.problem.specs.Lists.{primitives_of};
ghost use Rattle.problem.specs.Leading.{makes, made, defined, bad_leading};
ghost use Rattle.problem.specs.inner.Placed.{ReadableAll, Definable, Leadable};

use crate::{Primitive, Problem};

// Whether a is q, and b and c are lower-numbered.
fn over_lower(a: usize, b: usize, c: usize, q: usize) -> bool
    ensures { result ≡ (eqb a q && (ltb b q && ltb c q)) }
{
    if a != q {
        return false;
    }
    b < q && c < q
}

// Whether q is the result of a primitive over lower-numbered ones: z of any kind, or x or y of a sum.
fn is_result(primitive: Primitive, q: usize) -> bool
    ensures { result ≡ makes primitive q }
{
    match primitive {
        Primitive::Sum { z, x, y } => {
            if over_lower(z, x, y, q) {
                return true;
            }
            if over_lower(x, z, y, q) {
                return true;
            }
            over_lower(y, z, x, q)
        }
        Primitive::Product { z, x, y } => over_lower(z, x, y, q),
        Primitive::Square { z, x } => z == q && x < q,
    }
}

// Whether q is such a result of one of the primitives.
fn is_made(primitives: &[i64], q: usize) -> bool
    requires { ReadableAll primitives.now }
    ensures { result ≡ made (primitives_of primitives.now) q }
{
    (0..primitives.len() / 4).any(|i| is_result(crate::primitive_at(primitives, i), q))
}

// Whether the starting range of q is one value, or q is such a result.
fn is_defined(ranges: &[i64], primitives: &[i64], q: usize) -> bool
    requires { Definable ranges.now primitives.now q }
    ensures { result ≡ defined ranges.now (primitives_of primitives.now) q }
{
    ranges[2 * q + 1] <= ranges[2 * q] || is_made(primitives, q)
}

impl Problem<'_> {
    // Ground 8: a leading number outside 1 to n, or a later quantity not so defined.
    pub fn bad_leading(self, leading: i64) -> bool
        requires { Leadable self.ranges.now self.primitives.now }
        ensures { result ≡ bad_leading self.entry.ranges.now self.entry.primitives.now leading }
    {
        let n = self.ranges.len() / 2;
        leading < 1
            || (n as i64) < leading
            || (leading as usize..n).any(|q| !is_defined(self.ranges, self.primitives, q))
    }
}
