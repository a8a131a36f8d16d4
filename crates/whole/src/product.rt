// Products of near numbers, held: exact up to M either way, one past M beyond. No division is needed to tell which.
ghost use Rattle.std.specs.Prelude.{false, true, ◌&&◌, ◌||◌, ◌≡◌, ℤ, pos, negsuc, ◌*ℤ◌};
ghost use Rattle.std.specs.Int.Signed.{le_z, lt_z};
ghost use Rattle.whole.specs.Numbers.{Near};
ghost use Rattle.whole.specs.inner.Held.{held};

// One past M either way.
const OVER: i64 = 1_000_000_000_001;

const UNDER: i64 = -1_000_000_000_001;

// The root of M: a factor no larger gives a product that fits, two larger factors give one beyond M.
const ROOT: i64 = 1_000_000;

// Whether a factor is at most the root of M in size.
fn small(a: i64) -> bool
    ensures { result ≡ (le_z (negsuc 999_999) a && le_z a (pos 1_000_000)) }
{
    -ROOT <= a && a <= ROOT
}

// The held product of two factors that are both larger than the root of M.
fn beyond(a: i64, b: i64) -> i64
    requires pos_value { (le_z (negsuc 999_999) a && le_z a (pos 1_000_000)) ≡ false }
    requires pos_value_2 { (le_z (negsuc 999_999) b && le_z b (pos 1_000_000)) ≡ false }
    ensures { result ≡ held (a *ℤ b) }
{
    if (a < 0) == (b < 0) { OVER } else { UNDER }
}

// The product of two factors of which one is small: it fits 64 bits.
fn plain(a: i64, b: i64) -> i64
    requires near_1 { Near a }
    requires near_2 { Near b }
    requires one_small { ((le_z (negsuc 999_999) a && le_z a (pos 1_000_000)) || (le_z (negsuc 999_999) b && le_z b (pos 1_000_000))) ≡ true }
    ensures { result ≡ a *ℤ b }
{
    a * b
}

// A number that is held as the product is: the product itself where a factor is small, and else one past M on its side.
fn reached(a: i64, b: i64) -> i64
    requires fact_1 { Near a }
    requires fact_2 { Near b }
    ensures { held result ≡ held (a *ℤ b) }
{
    if small(a) || small(b) {
        return plain(a, b);
    }
    beyond(a, b)
}

// The held product.
pub fn times(a: i64, b: i64) -> i64
    requires fact_1 { Near a }
    requires fact_2 { Near b }
    ensures { result ≡ held (a *ℤ b) }
{
    if !small(a) && !small(b) {
        return beyond(a, b);
    }
    plain(a, b).clamp(UNDER, OVER)
}

// Whether the exact product is below a near number.
pub fn below(a: i64, b: i64, z: i64) -> bool
    requires fact_1 { Near a }
    requires fact_2 { Near b }
    requires fact_3 { Near z }
    ensures { result ≡ lt_z (a *ℤ b) z }
{
    reached(a, b) < z
}

// Whether the exact product is above a near number.
pub fn above(a: i64, b: i64, z: i64) -> bool
    requires fact_1 { Near a }
    requires fact_2 { Near b }
    requires fact_3 { Near z }
    ensures { result ≡ lt_z z (a *ℤ b) }
{
    z < reached(a, b)
}
