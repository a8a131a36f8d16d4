// The ranges that two ranges give, their products held.
ghost use Rattle.std.specs.Prelude.{◌≡◌, pos, ◌≤ℤ◌};
ghost use Rattle.whole.specs.Ranges.{holds_zero, sum_span, difference_span, product_span, square_span};
ghost use Rattle.whole.specs.inner.Held.{held_span, Good};

use crate::Range;

// Whether 0 is in a range.
pub fn holds_zero(r: Range) -> bool
    ensures { result ≡ holds_zero r }
{
    r.low <= 0 && 0 <= r.high
}

// The range of a sum.
pub fn sum(x: Range, y: Range) -> Range
    requires fact_1 { Good x }
    requires fact_2 { Good y }
    ensures { result ≡ sum_span x y }
{
    Range {
        low: x.low + y.low,
        high: x.high + y.high,
    }
}

// The range of a difference.
pub fn difference(x: Range, y: Range) -> Range
    requires fact_1 { Good x }
    requires fact_2 { Good y }
    ensures { result ≡ difference_span x y }
{
    Range {
        low: x.low - y.high,
        high: x.high - y.low,
    }
}

// The range of a product: all four end products.
pub fn product(x: Range, y: Range) -> Range
    requires fact_1 { Good x }
    requires fact_2 { Good y }
    ensures { result ≡ held_span (product_span x y) }
{
    let p = crate::product::times(x.low, y.low);
    let q = crate::product::times(x.low, y.high);
    let r = crate::product::times(x.high, y.low);
    let s = crate::product::times(x.high, y.high);
    Range {
        low: p.min(q).min(r.min(s)),
        high: p.max(q).max(r.max(s)),
    }
}

// The range of a product where neither range goes below 0: the low ends make the least and the high ends the greatest.
pub fn product_above(x: Range, y: Range) -> Range
    requires good_1 { Good x }
    requires good_2 { Good y }
    requires pos_bound_1 { pos 0 ≤ℤ x.low }
    requires pos_bound_2 { pos 0 ≤ℤ y.low }
    ensures { result ≡ held_span (product_span x y) }
{
    Range {
        low: crate::product::times(x.low, y.low),
        high: crate::product::times(x.high, y.high),
    }
}

// The range of a square.
pub fn square(x: Range) -> Range
    requires { Good x }
    ensures { result ≡ held_span (square_span x) }
{
    let p = crate::product::times(x.low, x.low);
    let q = crate::product::times(x.high, x.high);
    let high = p.max(q);
    if holds_zero(x) {
        return Range { low: 0, high };
    }
    Range {
        low: p.min(q),
        high,
    }
}
