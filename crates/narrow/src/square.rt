// z = x squared. A root is taken only where x's own ends, squared, say that an end moves.
ghost use Rattle.std.specs.Prelude.{[], ◌∷◌, pos, ◌≤ℤ◌};
ghost use Rattle.problem.specs.Problem.{high_at};
ghost use Rattle.narrow.specs.Narrowing.{square_step, root_step, raise_step, lower_step, square_steps};
ghost use Rattle.narrow.specs.inner.Done.{Has, Narrowed};

use crate::Emptied;
use crate::frame::Frame;
use whole::Range;

// z is cut to the range of x squared.
fn cut_square(frame: &mut Frame, z: usize, x: usize, changed: bool) -> Result<bool, Emptied>
    requires fact_1 { Has frame.old.ends.now z }
    requires fact_2 { Has frame.old.ends.now x }
    ensures { Narrowed (square_step z x ∷ []) changed frame.old.ends result frame.new.ends }
{
    let s = whole::span::square(frame.range_at(x));
    frame.cut(z, s, changed)
}

// x is cut to [-r, r], r the root of z's high end rounded down. Where the squares of both ends of x are at most z's high end, x lies there.
fn cut_root(frame: &mut Frame, x: usize, z: usize, changed: bool) -> Result<bool, Emptied>
    requires fact_1 { Has frame.old.ends.now x }
    requires fact_2 { Has frame.old.ends.now z }
    requires fact_3 { pos 0 ≤ℤ high_at frame.old.ends.now z }
    ensures { Narrowed (root_step x z ∷ []) changed frame.old.ends result frame.new.ends }
{
    let old = frame.range_at(x);
    let most = frame.range_at(z).high;
    if whole::product::times(old.low, old.low) <= most {
        if whole::product::times(old.high, old.high) <= most {
            return Ok(changed);
        }
    }
    let r = whole::root::down(most);
    let new = Range {
        low: old.low.max(-r),
        high: old.high.min(r),
    };
    frame.replace(x, new)
}

// Where x is not below 0, it is raised to at least the root of z's low end rounded up.
fn cut_raised(frame: &mut Frame, x: usize, z: usize, changed: bool) -> Result<bool, Emptied>
    requires fact_1 { Has frame.old.ends.now x }
    requires fact_2 { Has frame.old.ends.now z }
    ensures { Narrowed (raise_step x z ∷ []) changed frame.old.ends result frame.new.ends }
{
    let old = frame.range_at(x);
    if old.low < 0 {
        return Ok(changed);
    }
    let least = frame.range_at(z).low;
    if least <= whole::product::times(old.low, old.low) {
        return Ok(changed);
    }
    let high = old.high;
    let new = Range {
        low: whole::root::up(least),
        high,
    };
    frame.replace(x, new)
}

// Where x is not above 0, it is lowered to at most the negative root of z's low end rounded up.
fn cut_lowered(frame: &mut Frame, x: usize, z: usize, changed: bool) -> Result<bool, Emptied>
    requires fact_1 { Has frame.old.ends.now x }
    requires fact_2 { Has frame.old.ends.now z }
    ensures { Narrowed (lower_step x z ∷ []) changed frame.old.ends result frame.new.ends }
{
    let old = frame.range_at(x);
    if 0 < old.high {
        return Ok(changed);
    }
    let least = frame.range_at(z).low;
    if least <= whole::product::times(old.high, old.high) {
        return Ok(changed);
    }
    let low = old.low;
    let new = Range {
        low,
        high: -whole::root::up(least),
    };
    frame.replace(x, new)
}

// The four cuts of a square, until a range is empty.
pub fn narrow(frame: &mut Frame, z: usize, x: usize, changed: bool) -> Result<bool, Emptied>
    requires fact_1 { Has frame.old.ends.now z }
    requires fact_2 { Has frame.old.ends.now x }
    ensures { Narrowed (square_steps z x) changed frame.old.ends result frame.new.ends }
{
    let changed = cut_square(frame, z, x, changed)?;
    let changed = cut_root(frame, x, z, changed)?;
    let changed = cut_raised(frame, x, z, changed)?;
    cut_lowered(frame, x, z, changed)
}
