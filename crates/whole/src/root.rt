// Whole roots of numbers up to M.
ghost use Rattle.std.specs.Prelude.{◌≡◌, ◌+◌, ◌/◌, ◌≤◌, ◌<◌};
ghost use Rattle.whole.specs.Numbers.{Near, root_down, root_up};
ghost use Rattle.whole.specs.inner.Held.{Is, Root, Nearest, Above, Start};

// Half of the length of n in binary: 2 to this power is the power of 2 nearest to the root.
fn half_length(n: u64) -> u32
    requires { n ≤ 1_000_000_000_000 }
    ensures { Nearest n result }
{
    (64 - n.leading_zeros()) / 2
}

// A number above the root of n: one of Newton's steps from 2^j, by shifts alone.
fn above(n: u64, j: u32) -> u64
    requires { Nearest n j }
    ensures { Above n j result }
{
    let p = 1u64 << j;
    (p + (n >> j)) / 2 + 1
}

// A number near the root of n, on either side: from above it, down by what the square is too large, by twice the power of 2.
fn guess(n: u64) -> u64
    requires { (0 < n) × (n ≤ 1_000_000_000_000) }
    ensures { Start n result }
{
    let j = half_length(n);
    let g = above(n, j);
    g - ((g * g - n) >> (j + 1))
}

// One of Newton's steps. From wherever it starts, it does not end below the root rounded down.
fn step(n: u64, r: u64) -> u64
    requires { Start n r }
    ensures { result ≡ (r + n / r) / 2 }
{
    (r + n / r) / 2
}

// The root of n rounded down, by Newton's steps: those that start above it fall. The library's isqrt bisects, and takes three times as long.
fn root(n: u64) -> u64
    requires { n ≤ 1_000_000_000_000 }
    ensures { Root n result }
{
    if n == 0 {
        return 0;
    }
    let mut r = step(n, guess(n));
    while n < r * r {
        r = step(n, r);
    }
    r
}

// The whole root rounded down; 0 for a number below 0.
pub fn down(z: i64) -> i64
    requires { Near z }
    ensures { Is (root_down z) result }
{
    if z < 0 {
        return 0;
    }
    root(z as u64) as i64
}

// The whole root rounded up; 0 for a number below 0.
pub fn up(z: i64) -> i64
    requires { Near z }
    ensures { Is (root_up z) result }
{
    let r = down(z);
    if r * r < z { r + 1 } else { r }
}
