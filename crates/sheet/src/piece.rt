// A piece of a line as a number, a mark or a name.
ghost use Rattle.std.specs.Prelude.{◌≡◌, ◌≤◌, ◌<◌, ◌*◌, length, drop, MatchOption};
ghost use Rattle.sheet.specs.Tokens.{unit_of, limited, digits_of, digit_first, number_of, key_of, all_lower, mark_of, word_of, minus_first};
ghost use Rattle.sheet.specs.declared.Token.TheVariants.{Fixed, Bad};

use crate::{Mark, Token};

// The largest value of a number: M.
const TOP: u64 = 1_000_000_000_000;

// What K, M or G stands for: 1,024, its square or its cube; any other byte is no unit.
fn unit(b: u8) -> Option<u64>
    ensures { MatchOption result (unit_of b ≡ 0) (λ u. (u ≡ unit_of b) × (0 < u)) }
{
    match b {
        b'K' => Some(1_024),
        b'M' => Some(1_048_576),
        b'G' => Some(1_073_741_824),
        _ => None,
    }
}

// A value times a unit, if that is at most M: if the value is at most M / unit, rounded down.
fn scaled(v: u64, u: u64) -> Option<u64>
    requires { 0 < u }
    ensures { result ≡ limited (v * u) }
{
    if v <= TOP / u { Some(v * u) } else { None }
}

// What further digits, and a unit, make of the value of the digits before them.
fn digits(more: &[u8], first: u64) -> Option<u64>
    requires { first ≤ 9 }
    ensures { result ≡ digits_of first more.now }
{
    let mut v = first;
    for (i, b) in more.iter().enumerate() {
        if !b.is_ascii_digit() {
            let u = unit(*b)?;
            if i + 1 < more.len() {
                return None;
            }
            return scaled(v, u);
        }
        v = v * 10 + u64::from(*b - b'0');
        if TOP < v {
            return None;
        }
    }
    Some(v)
}

// Inner: whether a digit stands at a place.
pub fn digit_at(w: &[u8], i: usize) -> bool
    ensures { result ≡ digit_first (drop i w.now) }
{
    w.get(i).is_some_and(|b| b.is_ascii_digit())
}

// Inner: whether a piece is `-` and a digit behind it first.
pub fn minus_first(w: &[u8]) -> bool
    ensures { result ≡ minus_first w.now }
{
    let [first, more @ ..] = w else {
        return false;
    };
    *first == b'-' && digit_at(more, 0)
}

// Inner: the value of a piece that is a number.
pub fn number(w: &[u8]) -> Option<u64>
    ensures { result ≡ number_of w.now }
{
    let [first, more @ ..] = w else {
        return None;
    };
    if !first.is_ascii_digit() {
        return None;
    }
    if *first == b'0' && digit_at(more, 0) {
        return None;
    }
    digits(more, u64::from(*first - b'0'))
}

// The bytes of a piece of at most eight as one number, to the base 256.
fn key(w: &[u8]) -> u64
    requires { length w.now ≤ 8 }
    ensures { result ≡ key_of 0 w.now }
{
    let mut k: u64 = 0;
    for b in w {
        k = k * 256 + u64::from(*b);
    }
    k
}

// Whether every byte of a piece is a lower-case letter.
fn lower(w: &[u8]) -> bool
    ensures { result ≡ all_lower w.now }
{
    w.iter().all(|b| b.is_ascii_lowercase())
}

// The mark whose bytes make this number, if one is.
#[tactic(auto, unfolding(crate::specs::Tokens::mark_of))]
fn fixed(k: u64) -> Option<Mark>
    ensures { MatchOption result (mark_of k ≡ Bad) (λ m. mark_of k ≡ Fixed m) }
{
    match k {
        40 => Some(Mark::Open),
        41 => Some(Mark::Close),
        43 => Some(Mark::Plus),
        45 => Some(Mark::Minus),
        42 => Some(Mark::Times),
        24114 => Some(Mark::Square),
        15421 => Some(Mark::AtMost),
        60 => Some(Mark::Below),
        15933 => Some(Mark::AtLeast),
        62 => Some(Mark::Above),
        61 => Some(Mark::Equal),
        8509 => Some(Mark::Differ),
        491260897125 => Some(Mark::Range),
        1836413812 => Some(Mark::Must),
        26982 => Some(Mark::If),
        1952998766 => Some(Mark::Then),
        6385252 => Some(Mark::And),
        28530 => Some(Mark::Or),
        _ => None,
    }
}

// Inner: the mark or the name that a piece is.
pub fn word(w: &[u8]) -> Token
    ensures { result ≡ word_of w.now }
{
    if 8 < w.len() {
        return Token::Bad;
    }
    let k = key(w);
    if let Some(mark) = fixed(k) {
        return Token::Fixed(mark);
    }
    if !w.is_empty() && lower(w) {
        Token::Name(k)
    } else {
        Token::Bad
    }
}
