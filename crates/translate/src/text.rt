// The text of a sheet as a whole: its bytes (20), its first line (21) and its version (22).
ghost use Rattle.std.specs.Prelude.{◌≡◌};
ghost use Rattle.meaning.specs.Grounds.{bad_byte, any_bad_byte, bad_text, version_of, first_line, other_version};

use sheet::piece::{digit_at, number};

// The most bytes that a sheet has.
const MOST: usize = 4_096;

// The largest version.
const LATEST: u64 = 65_535;

// Whether a byte is other than LF and 32 to 126.
fn bad_byte(b: u8) -> bool
    ensures { result ≡ bad_byte b }
{
    !matches!(b, b'\n' | b' '..=b'~')
}

// Whether a text has such a byte.
fn any_bad_byte(text: &[u8]) -> bool
    ensures { result ≡ any_bad_byte text.now }
{
    text.iter().any(|b| bad_byte(*b))
}

// Whether a text is empty, too long, has a bad byte, or has no LF at its end: 20.
pub fn bad_text(text: &[u8]) -> bool
    ensures { result ≡ bad_text text.now }
{
    text.is_empty() || MOST < text.len() || any_bad_byte(text) || !text.ends_with(b"\n")
}

// The version that these bytes say: a number without a unit.
fn version(w: &[u8]) -> Option<u64>
    ensures { result ≡ version_of w.now }
{
    let v = number(w)?;
    if LATEST < v || !digit_at(w, w.len() - 1) {
        return None;
    }
    Some(v)
}

// The version that line 1 says: the mark, a space, and the version.
pub fn first_line(line: &[u8]) -> Option<u64>
    ensures { result ≡ first_line line.now }
{
    version(line.strip_prefix(b"RUL ")?)
}

// Whether a version is other than 1 or 2: 22.
pub fn other_version(version: u64) -> bool
    ensures { result ≡ other_version version }
{
    !matches!(version, 1 | 2)
}
