// How often a range can be halved.
ghost use Rattle.std.specs.Prelude.{◌≡◌, ◌≤◌};
ghost use Rattle.whole.specs.Numbers.{least_power};
ghost use Rattle.whole.specs.Ranges.{values};
ghost use Rattle.whole.specs.inner.Held.{Good};

// The least k with 2^k at least the number of values of a range: the length in binary of how far its ends are apart.
pub fn halvings(r: crate::Range) -> usize
    requires { Good r }
    ensures { (result ≡ least_power (values r)) × (result ≤ 41) }
{
    let wide = (r.high - r.low) as u64;
    (64 - wide.leading_zeros()) as usize
}
