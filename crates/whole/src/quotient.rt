// Quotients of near numbers, rounded down and rounded up. The machine rounds towards zero: one step off where the remainder says so.
ghost use Rattle.std.specs.Prelude.{◌≡◌, ℤ, pos, ◌<ℤ◌};
ghost use Rattle.whole.specs.Numbers.{Near, floor_q, ceil_q};
ghost use Rattle.whole.specs.inner.Held.{Is};

// The quotient by a divisor above 0, rounded down. The library's div_euclid gives the same, but sweeps of products lose a quarter of their speed by it.
pub fn down(a: i64, b: i64) -> i64
    requires fact_1 { Near a }
    requires fact_2 { Near b }
    requires fact_3 { pos 0 <ℤ b }
    ensures { Is (floor_q a b) result }
{
    let q = a / b;
    if a % b < 0 { q - 1 } else { q }
}

// The quotient by a divisor above 0, rounded up: with the other sign, rounded down.
pub fn up(a: i64, b: i64) -> i64
    requires fact_1 { Near a }
    requires fact_2 { Near b }
    requires fact_3 { pos 0 <ℤ b }
    ensures { Is (ceil_q a b) result }
{
    -down(-a, b)
}

// The quotient rounded down. By a divisor below 0, both signs turn.
pub fn floor(a: i64, b: i64) -> i64
    requires fact_1 { Near a }
    requires fact_2 { Near b }
    requires fact_3 { (b ≡ pos 0 → ⊥) }
    ensures { Is (floor_q a b) result }
{
    if 0 < b {
        return down(a, b);
    }
    down(-a, -b)
}

// The quotient rounded up, likewise: with the other sign, rounded down.
pub fn ceiling(a: i64, b: i64) -> i64
    requires fact_1 { Near a }
    requires fact_2 { Near b }
    requires fact_3 { (b ≡ pos 0 → ⊥) }
    ensures { Is (ceil_q a b) result }
{
    -floor(-a, b)
}
