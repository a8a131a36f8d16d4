// Boxes in the slots of a workspace.
ghost use Rattle.std.specs.Prelude.{◌≡◌, ◌++◌, ◌*◌, length, take};
ghost use Rattle.problem.specs.Problem.{quantities};
ghost use Rattle.search.specs.Search.{lowest, lower_part, upper_part};
ghost use Rattle.search.specs.Solve.{lows};
ghost use Rattle.search.specs.inner.Steps.{Splittable};

// The numbers of one list go to another, one by one: copied at once, they would have the archive for C ask for `memmove`.
#[inline(never)]
pub fn copy(from: &[i64], to: &mut [i64])
    requires { length from.now ≡ length to.old }
    ensures { to.new ≡ from.now }
{
    for i in 0..from.len() {
        to[i] = from[i];
    }
}

// The low end of each quantity goes to the point buffer.
pub fn lows_to(b: &[i64], point: &mut [i64])
    requires { length b.now ≡ 2 * length point.old }
    ensures { point.new ≡ lows b.now }
{
    for q in 0..point.len() {
        point[q] = b[2 * q];
    }
}

// The lowest-numbered quantity with more than one value.
pub fn lowest_open(b: &[i64]) -> Option<usize>
    ensures { result ≡ lowest (quantities b.now) b.now }
{
    for q in 0..b.len() / 2 {
        if b[2 * q] < b[2 * q + 1] {
            return Some(q);
        }
    }
    None
}

// The box in the first slot is split at quantity q: the upper part stays there to wait, the lower part goes behind it.
pub fn split(slots: &mut [i64], width: usize, q: usize)
    requires { Splittable slots.old width q }
    ensures { slots.new ≡ upper_part (take width slots.old) q ++ lower_part (take width slots.old) q }
{
    let (upper, lower) = slots.split_at_mut(width);
    copy(upper, lower);
    let middle = whole::middle(upper[2 * q], upper[2 * q + 1]);
    upper[2 * q] = middle + 1;
    lower[2 * q + 1] = middle;
}
