// Whole numbers within plus or minus M: the arithmetic that cuts and translations stand on.
// Every function of this crate is inner: only our own crates call it, and its contract may ask that numbers are near.
#![tactic(auto)]

pub mod power;
pub mod product;
pub mod quotient;
pub mod root;
pub mod span;

ghost use Rattle.whole.specs.Numbers.{Near, middle_of};
ghost use Rattle.whole.specs.inner.Held.{Is};

// The values from low to high.
#[derive(Clone, Copy, PartialEq, Eq)]
pub struct Range {
    pub low: i64,
    pub high: i64,
}

// The middle of two near numbers, rounded towards minus infinity.
pub fn middle(low: i64, high: i64) -> i64
    requires fact_1 { Near low }
    requires fact_2 { Near high }
    ensures { Is (middle_of low high) result }
{
    (low + high) >> 1
}
