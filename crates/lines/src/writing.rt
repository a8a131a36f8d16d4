// What a sheet's rules write into lists of fixed size. A number that has no place is not written, and counts stop at a limit.
ghost use Rattle.std.specs.Prelude.{◌≡◌, ℕ, ◌≤◌, pos, length, set, get_or};
ghost use Rattle.whole.specs.inner.Held.{Good};
ghost use Rattle.problem.specs.Problem.{range_at};
ghost use Rattle.meaning.specs.Plain.{place_of, constant, quantity, sum, difference, product};
ghost use Rattle.lines.specs.inner.Emission.{bump, small, Keeps, put_range, put_four, put_primitive, put_three, put_literal, emitted_as, Emits, another, operated, joined, squared_of, emit};

use crate::parts::{Emitted, Equations, Held, Making};
use problem::{Literal, Primitive};
use whole::Range;

// The limit of counts: above every size that is accepted.
const LIMIT: usize = 10_000;

// The first number that is not written as it is.
const LARGE: usize = 20_000;

// One more, up to the limit.
pub fn one_more(n: usize) -> usize
    ensures { result ≡ bump n }
{
    if n < LIMIT { n + 1 } else { n }
}

// A count as it is written.
fn number(n: usize) -> i64
    ensures { result ≡ pos (small n) }
{
    if n < LARGE { n as i64 } else { 0 }
}

// A store that is left out past the end.
fn store(list: &mut [i64], i: usize, v: i64)
    ensures { list.new ≡ set list.old i v }
{
    if i < list.len() {
        list[i] = v;
    }
}

// What stands at a place; 0 past the end.
fn fetch(list: &[i64], i: usize) -> i64
    ensures { result ≡ get_or list.now i (pos 0) }
{
    list.get(i).copied().unwrap_or(0)
}

// The range of quantity i written.
#[tactic(auto, unfolding(crate::specs::inner::Emission::put_range))]
pub fn put_range(list: &mut [i64], i: usize, r: Range)
    ensures { list.new ≡ put_range list.old i r }
{
    if i < 128 {
        store(list, 2 * i, r.low);
        store(list, 2 * i + 1, r.high);
    }
}

// The four numbers of primitive i written.
#[tactic(auto, unfolding(crate::specs::inner::Emission::put_four))]
fn put_four(list: &mut [i64], i: usize, kind: i64, z: i64, x: i64, y: i64)
    ensures { list.new ≡ put_four list.old i kind z x y }
{
    if i < 256 {
        store(list, 4 * i, kind);
        store(list, 4 * i + 1, z);
        store(list, 4 * i + 2, x);
        store(list, 4 * i + 3, y);
    }
}

// Primitive i written.
fn put_primitive(list: &mut [i64], i: usize, p: Primitive)
    ensures { list.new ≡ put_primitive list.old i p }
{
    match p {
        Primitive::Sum { z, x, y } => put_four(list, i, 1, number(z), number(x), number(y)),
        Primitive::Product { z, x, y } => put_four(list, i, 2, number(z), number(x), number(y)),
        Primitive::Square { z, x } => put_four(list, i, 3, number(z), number(x), 0),
    }
}

// The three numbers of literal i written.
#[tactic(auto, unfolding(crate::specs::inner::Emission::put_three))]
fn put_three(list: &mut [i64], i: usize, q: i64, sense: i64, bound: i64)
    ensures { list.new ≡ put_three list.old i q sense bound }
{
    if i < 1024 {
        store(list, 3 * i, q);
        store(list, 3 * i + 1, sense);
        store(list, 3 * i + 2, bound);
    }
}

// Literal i written.
pub fn put_literal(list: &mut [i64], i: usize, l: Literal)
    ensures { list.new ≡ put_literal list.old i l }
{
    match l {
        Literal::AtMost { quantity, bound } => put_three(list, i, number(quantity), 0, bound),
        Literal::AtLeast { quantity, bound } => put_three(list, i, number(quantity), 1, bound),
    }
}

// A range that can be computed with: the range itself, or [0, 0].
fn keep(r: Range) -> Range
    ensures { Keeps r result }
{
    if problem::bad_range(r.low, r.high) {
        return Range { low: 0, high: 0 };
    }
    r
}

// The range of quantity q, to compute with.
fn span_of(ranges: &[i64], q: usize) -> Range
    ensures { Keeps (range_at ranges.now q) result }
{
    if q < ranges.len() {
        let low = fetch(ranges, 2 * q);
        let high = fetch(ranges, 2 * q + 1);
        return keep(Range { low, high });
    }
    Range { low: 0, high: 0 }
}

// How many names were declared before this one; as many as there are where it is not there.
pub fn place_of(keys: &[u64], name: u64) -> usize
    ensures { result ≡ place_of keys.now name }
{
    keys.iter()
        .position(|&key| key == name)
        .unwrap_or(keys.len())
}

impl Equations {
    // A helper more, of this range: it is in hand.
    fn helper(&mut self, s: Range, count: usize, making: Making) -> Emitted
        ensures { Emits (another s self.old.ranges self.old.primitives count making) result self.new.ranges self.new.primitives }
    {
        let span = keep(s);
        let wide = making.wide || problem::bad_range(s.low, s.high);
        put_range(&mut self.ranges, making.used, span);
        Emitted {
            held: Held {
                place: making.used,
                span,
            },
            making: Making {
                used: one_more(making.used),
                count,
                wide,
                ..making
            },
        }
    }

    // A helper with its primitive.
    fn operated(&mut self, s: Range, p: Primitive, making: Making) -> Emitted
        ensures { Emits (operated s p self.old.ranges self.old.primitives making) result self.new.ranges self.new.primitives }
    {
        put_primitive(&mut self.primitives, making.count, p);
        self.helper(s, one_more(making.count), making)
    }

    // A number makes a helper with a one-value range.
    pub(crate) fn constant(&mut self, n: u64, making: Making) -> Emitted
        requires { n ≤ 1_000_000_000_000 }
        ensures { (d : ℕ) → Emits (emit d (constant n) self.old.ranges self.old.primitives making) result self.new.ranges self.new.primitives }
    {
        let z = n as i64;
        self.helper(Range { low: z, high: z }, making.count, making)
    }

    // A name makes no helper: its own quantity is in hand.
    pub(crate) fn named(&self, name: u64, keys: &[u64], making: Making) -> Emitted
        ensures { Emits (emit (length keys.now) (quantity (place_of keys.now name)) self.now.ranges self.now.primitives making) result self.now.ranges self.now.primitives }
    {
        let q = place_of(keys, name);
        let unknown = making.unknown || keys.len() <= q;
        Emitted {
            held: Held {
                place: q,
                span: span_of(&self.ranges, q),
            },
            making: Making { unknown, ..making },
        }
    }

    // The sum of what is in hand and what was made after it.
    pub(crate) fn sum(&mut self, a: Held, e: Emitted) -> Emitted
        requires fact_1 { Good a.span }
        requires fact_2 { Good e.held.span }
        ensures { Emits (joined sum a (emitted_as e self.old.ranges self.old.primitives)) result self.new.ranges self.new.primitives }
    {
        let b = e.held;
        let making = e.making;
        let p = Primitive::Sum {
            z: making.used,
            x: a.place,
            y: b.place,
        };
        self.operated(whole::span::sum(a.span, b.span), p, making)
    }

    // The difference d of a and b is the primitive a = d + b.
    pub(crate) fn difference(&mut self, a: Held, e: Emitted) -> Emitted
        requires fact_1 { Good a.span }
        requires fact_2 { Good e.held.span }
        ensures { Emits (joined difference a (emitted_as e self.old.ranges self.old.primitives)) result self.new.ranges self.new.primitives }
    {
        let b = e.held;
        let making = e.making;
        let p = Primitive::Sum {
            z: a.place,
            x: making.used,
            y: b.place,
        };
        self.operated(whole::span::difference(a.span, b.span), p, making)
    }

    // The product of what is in hand and what was made after it.
    pub(crate) fn product(&mut self, a: Held, e: Emitted) -> Emitted
        requires fact_1 { Good a.span }
        requires fact_2 { Good e.held.span }
        ensures { Emits (joined product a (emitted_as e self.old.ranges self.old.primitives)) result self.new.ranges self.new.primitives }
    {
        let b = e.held;
        let making = e.making;
        let p = Primitive::Product {
            z: making.used,
            x: a.place,
            y: b.place,
        };
        self.operated(whole::span::product(a.span, b.span), p, making)
    }

    // The square of what is in hand.
    pub(crate) fn squared(&mut self, e: Emitted) -> Emitted
        requires { Good e.held.span }
        ensures { Emits (squared_of (emitted_as e self.old.ranges self.old.primitives)) result self.new.ranges self.new.primitives }
    {
        let a = e.held;
        let making = e.making;
        let p = Primitive::Square {
            z: making.used,
            x: a.place,
        };
        self.operated(whole::span::square(a.span), p, making)
    }
}
