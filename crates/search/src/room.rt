// D, and the workspace it asks for.
ghost use Rattle.std.specs.Prelude.{◌≡◌};
ghost use Rattle.search.specs.Depth.{room_of};
ghost use Rattle.search.specs.inner.Ready.{Led};
ghost use Rattle.search.specs.inner.Steps.{Deep};

// D: the sum over the leading quantities of the least k with 2^k at least the number of values.
fn depth(ranges: &[i64], leading: usize) -> usize
    requires { Led ranges.now leading }
    ensures { Deep leading ranges.now result }
{
    let mut sum = 0;
    for q in 0..leading {
        sum += whole::power::halvings(narrow::range_at(ranges, q));
    }
    sum
}

// The workspace needed: 2n(D+1) numbers, n all quantities.
pub fn needed(ranges: &[i64], leading: usize) -> usize
    requires { Led ranges.now leading }
    ensures { result ≡ room_of leading ranges.now }
{
    let n = ranges.len() / 2;
    2 * n * (depth(ranges, leading) + 1)
}
