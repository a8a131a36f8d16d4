// Places in a text, and the lines between them.
ghost use Rattle.std.specs.Prelude.{◌≡◌};
ghost use Rattle.sheet.specs.inner.Places.{place_of};

// Inner: the first place from `at` on where the byte `m` stands, or the text's end.
pub fn place(text: &[u8], at: usize, m: u8) -> usize
    ensures { result ≡ place_of m text.now at }
{
    let Some(rest) = text.get(at..) else {
        return at;
    };
    at + rest.iter().position(|b| *b == m).unwrap_or(rest.len())
}

// Inner: where the line that starts at `at` ends: at the next LF, or at the text's end.
pub fn line_end(text: &[u8], at: usize) -> usize
    ensures { result ≡ place_of 10 text.now at }
{
    place(text, at, b'\n')
}
