// z = x * y.
ghost use Rattle.std.specs.Prelude.{true, false, [], ◌∷◌, ◌≡◌, pos, ◌<ℤ◌};
ghost use Rattle.whole.specs.inner.Held.{Good};
ghost use Rattle.problem.specs.Problem.{range_at};
ghost use Rattle.narrow.specs.Narrowing.{product_step, trim_step, quotient_span, quotient_step, product_steps};
ghost use Rattle.narrow.specs.inner.Done.{Has, Narrowed};
ghost use Rattle.narrow.specs.inner.Product.{Moving, Trimming};

use crate::Emptied;
use crate::frame::Frame;
use whole::Range;

// z is cut to the range of x * y.
fn cut_product(
    frame: &mut Frame,
    z: usize,
    x: usize,
    y: usize,
    changed: bool,
) -> Result<bool, Emptied>
    requires fact_1 { Has frame.old.ends.now z }
    requires fact_2 { Has frame.old.ends.now x }
    requires fact_3 { Has frame.old.ends.now y }
    ensures { Narrowed (product_step z x y ∷ []) changed frame.old.ends result frame.new.ends }
{
    let p = frame.range_at(x);
    let q = frame.range_at(y);
    if p.low < 0 || q.low < 0 {
        let s = whole::span::product(p, q);
        return frame.cut(z, s, changed);
    }
    let s = whole::span::product_above(p, q);
    frame.cut(z, s, changed)
}

// Whether y's range has a 0 at an end, and it goes because z's range holds none. A range that lies above 0 is told by its low end alone.
fn trims(frame: &Frame, y: usize, z: usize) -> bool
    requires fact_1 { Has frame.now.ends.now y }
    requires fact_2 { Has frame.now.ends.now z }
    ensures { Trimming (range_at frame.now.ends.now y) (range_at frame.now.ends.now z) result }
{
    let by = frame.range_at(y);
    if 0 < by.low {
        return false;
    }
    if by.low < 0 {
        if 0 < by.high {
            return false;
        }
        if by.high < 0 {
            return false;
        }
    }
    !whole::span::holds_zero(frame.range_at(z))
}

// y is trimmed: low 0 becomes 1, which leaves nothing of [0, 0]; high 0 becomes -1.
fn trim(frame: &mut Frame, y: usize, z: usize, changed: bool) -> Result<bool, Emptied>
    requires fact_1 { Has frame.old.ends.now y }
    requires fact_2 { Has frame.old.ends.now z }
    ensures { Narrowed (trim_step y z ∷ []) changed frame.old.ends result frame.new.ends }
{
    if !trims(frame, y, z) {
        return Ok(changed);
    }
    let old = frame.range_at(y);
    if old.low < 0 {
        let low = old.low;
        return frame.replace(y, Range { low, high: -1 });
    }
    let high = old.high;
    frame.replace(y, Range { low: 1, high })
}

// The quotients of z by y above 0: the sign of z's end says which end of y gives the least and which the greatest.
fn quotient_above(z: Range, y: Range) -> Range
    requires fact_1 { Good z }
    requires fact_2 { Good y }
    requires fact_3 { pos 0 <ℤ y.low }
    ensures { result ≡ quotient_span z y }
{
    let least = if z.low < 0 { y.low } else { y.high };
    let greatest = if z.high < 0 { y.high } else { y.low };
    Range {
        low: whole::quotient::up(z.low, least),
        high: whole::quotient::down(z.high, greatest),
    }
}

// The quotients of z by y below 0, likewise.
fn quotient_below(z: Range, y: Range) -> Range
    requires fact_1 { Good z }
    requires fact_2 { Good y }
    requires fact_3 { y.high <ℤ pos 0 }
    ensures { result ≡ quotient_span z y }
{
    let least = if 0 < z.high { y.high } else { y.low };
    let greatest = if 0 < z.low { y.low } else { y.high };
    Range {
        low: whole::quotient::ceiling(z.high, least),
        high: whole::quotient::floor(z.low, greatest),
    }
}

// Whether the quotients of z by y above 0 move an end of x: products tell, without a division.
fn moves(frame: &Frame, x: usize, z: usize, y: usize) -> bool
    requires fact_1 { Has frame.now.ends.now x }
    requires fact_2 { Has frame.now.ends.now z }
    requires fact_3 { Has frame.now.ends.now y }
    ensures { Moving (range_at frame.now.ends.now x) (range_at frame.now.ends.now z) (range_at frame.now.ends.now y) result }
{
    let by = frame.range_at(y);
    if by.low <= 0 {
        return false;
    }
    let old = frame.range_at(x);
    let of = frame.range_at(z);
    let least = if of.low < 0 { by.low } else { by.high };
    if whole::product::below(old.low, least, of.low) {
        return true;
    }
    let greatest = if of.high < 0 { by.high } else { by.low };
    whole::product::above(old.high, greatest, of.high)
}

// x is cut to the quotients of z by y if y is below 0; else it stays, as no end moves.
fn cut_below(
    frame: &mut Frame,
    x: usize,
    z: usize,
    y: usize,
    changed: bool,
) -> Result<bool, Emptied>
    requires fact_1 { Has frame.old.ends.now x }
    requires fact_2 { Has frame.old.ends.now z }
    requires fact_3 { Has frame.old.ends.now y }
    requires fact_4 { Moving (range_at frame.old.ends.now x) (range_at frame.old.ends.now z) (range_at frame.old.ends.now y) false }
    ensures { Narrowed (quotient_step x z y ∷ []) changed frame.old.ends result frame.new.ends }
{
    let by = frame.range_at(y);
    if 0 <= by.high {
        return Ok(changed);
    }
    let s = quotient_below(frame.range_at(z), by);
    frame.cut(x, s, changed)
}

// x is cut to the quotients of z by y, unless y holds 0: where y is above 0 and they move an end, x becomes what they leave of it.
// Inlined at both calls, as sweeps took a seventh longer where it was called.
#[inline(always)]
fn divide(frame: &mut Frame, x: usize, z: usize, y: usize, changed: bool) -> Result<bool, Emptied>
    requires fact_1 { Has frame.old.ends.now x }
    requires fact_2 { Has frame.old.ends.now z }
    requires fact_3 { Has frame.old.ends.now y }
    ensures { Narrowed (quotient_step x z y ∷ []) changed frame.old.ends result frame.new.ends }
{
    if !moves(frame, x, z, y) {
        return cut_below(frame, x, z, y, changed);
    }
    let s = quotient_above(frame.range_at(z), frame.range_at(y));
    let old = frame.range_at(x);
    let low = old.low.max(s.low);
    let high = old.high.min(s.high);
    frame.replace(x, Range { low, high })
}

// The five cuts of a product, until a range is empty.
pub fn narrow(
    frame: &mut Frame,
    z: usize,
    x: usize,
    y: usize,
    changed: bool,
) -> Result<bool, Emptied>
    requires fact_1 { Has frame.old.ends.now z }
    requires fact_2 { Has frame.old.ends.now x }
    requires fact_3 { Has frame.old.ends.now y }
    ensures { Narrowed (product_steps z x y) changed frame.old.ends result frame.new.ends }
{
    let changed = cut_product(frame, z, x, y, changed)?;
    let changed = trim(frame, y, z, changed)?;
    let changed = divide(frame, x, z, y, changed)?;
    let changed = trim(frame, x, z, changed)?;
    divide(frame, y, z, x, changed)
}
