// Bytes written into a buffer, each at its place if there is one.
ghost use Rattle.std.specs.Prelude.{◌≡◌, [], ◌∷◌, ◌≤◌, ◌+◌, ◌*◌, length};
ghost use Rattle.answer.specs.Output.{decimal, signed_decimal};
ghost use Rattle.answer.specs.inner.Writing.{Puts, unpadded, lines_for};

// A byte as it is written, of a digit.
fn digit(d: usize) -> u8
    requires { d ≤ 9 }
    ensures { result ≡ 48 + d }
{
    b'0' + (d as u8)
}

// Inner: writes a byte and gives the next place.
pub fn byte(out: &mut [u8], at: usize, b: u8) -> usize
    ensures { Puts (b ∷ []) out.old at out.new result }
{
    if at < out.len() {
        out[at] = b;
        return at + 1;
    }
    at
}

// Inner: writes bytes one behind the other.
pub fn bytes(out: &mut [u8], at: usize, bs: &[u8]) -> usize
    ensures { Puts bs.now out.old at out.new result }
{
    let mut next = at;
    for b in bs {
        next = byte(out, next, *b);
    }
    next
}

// Inner: writes a number in decimal: the digits before the last, then the last.
pub fn number(out: &mut [u8], at: usize, n: usize) -> usize
    ensures { Puts (decimal n) out.old at out.new result }
{
    if n < 10 {
        return byte(out, at, digit(n));
    }
    let next = number(out, at, n / 10);
    byte(out, next, digit(n % 10))
}

// Writes a value, with `-` where it is below 0. It is negated one nearer to 0, where every value can be.
fn value(out: &mut [u8], at: usize, z: i64) -> usize
    ensures { Puts (signed_decimal z) out.old at out.new result }
{
    if 0 <= z {
        return number(out, at, z as usize);
    }
    let next = byte(out, at, b'-');
    number(out, next, (-(z + 1)) as usize + 1)
}

// Writes the bytes of a name before its padding.
fn name(out: &mut [u8], at: usize, bs: &[u8]) -> usize
    ensures { Puts (unpadded bs.now) out.old at out.new result }
{
    let mut next = at;
    for b in bs {
        if *b == b' ' {
            return next;
        }
        next = byte(out, next, *b);
    }
    next
}

// Inner: writes a line for each value of a point: its name, 8 bytes of the names each, and the value.
pub fn lines(out: &mut [u8], at: usize, names: &[u8], point: &[i64]) -> usize
    requires { 8 * length point.now ≤ length names.now }
    ensures { Puts (lines_for names.now point.now) out.old at out.new result }
{
    let mut next = at;
    for (q, z) in point.iter().enumerate() {
        next = name(out, next, &names[8 * q..8 * q + 8]);
        next = byte(out, next, b' ');
        next = value(out, next, *z);
        next = byte(out, next, b'\n');
    }
    next
}
