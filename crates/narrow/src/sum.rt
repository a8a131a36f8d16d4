// z = x + y.
ghost use Rattle.std.specs.Prelude.{[], ◌∷◌};
ghost use Rattle.narrow.specs.Narrowing.{sum_step, difference_step, sum_steps};
ghost use Rattle.narrow.specs.inner.Done.{Has, Narrowed};

use crate::Emptied;
use crate::frame::Frame;

// z is cut to the range of x + y.
fn cut_sum(frame: &mut Frame, z: usize, x: usize, y: usize, changed: bool) -> Result<bool, Emptied>
    requires fact_1 { Has frame.old.ends.now z }
    requires fact_2 { Has frame.old.ends.now x }
    requires fact_3 { Has frame.old.ends.now y }
    ensures { Narrowed (sum_step z x y ∷ []) changed frame.old.ends result frame.new.ends }
{
    let s = whole::span::sum(frame.range_at(x), frame.range_at(y));
    frame.cut(z, s, changed)
}

// x is cut to the range of z - y.
fn cut_difference(
    frame: &mut Frame,
    x: usize,
    z: usize,
    y: usize,
    changed: bool,
) -> Result<bool, Emptied>
    requires fact_1 { Has frame.old.ends.now x }
    requires fact_2 { Has frame.old.ends.now z }
    requires fact_3 { Has frame.old.ends.now y }
    ensures { Narrowed (difference_step x z y ∷ []) changed frame.old.ends result frame.new.ends }
{
    let s = whole::span::difference(frame.range_at(z), frame.range_at(y));
    frame.cut(x, s, changed)
}

// The three cuts of a sum.
pub fn narrow(
    frame: &mut Frame,
    z: usize,
    x: usize,
    y: usize,
    changed: bool,
) -> Result<bool, Emptied>
    requires fact_1 { Has frame.old.ends.now z }
    requires fact_2 { Has frame.old.ends.now x }
    requires fact_3 { Has frame.old.ends.now y }
    ensures { Narrowed (sum_steps z x y) changed frame.old.ends result frame.new.ends }
{
    let changed = cut_sum(frame, z, x, y, changed)?;
    let changed = cut_difference(frame, x, z, y, changed)?;
    cut_difference(frame, y, z, x, changed)
}
