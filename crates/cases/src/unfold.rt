// Texts as the data files write them: a slash stands for LF, a backslash and three digits for the byte with that code, and `{n ..}` for
// what is in it n times over; there `@` stands for two letters, others in each turn. In a table such a text ends at a bar or at the end of
// its line, and what is in `{n ..}` stands once at least.
use crate::fields::{ByteFields, Fields};
use std::alloc::{AllocError, Global};

// Writes a text, or what is repeated in a turn.
fn write(text: &str, turn: usize, out: &mut Vec<u8>) -> Result<(), AllocError> {
    for (i, part) in text.split('\\').enumerate() {
        let mut rest = part;
        if 0 < i {
            let (code, behind) = part.split_at_checked(3).unwrap_or((part, ""));
            out.push(code.parse().unwrap_or_default())?;
            rest = behind;
        }
        for byte in rest.bytes() {
            match byte {
                b'/' => out.push(b'\n')?,
                b'@' => {
                    out.push((turn / 26 % 26) as u8 + b'a')?;
                    out.push((turn % 26) as u8 + b'a')?;
                }
                _ => out.push(byte)?,
            }
        }
    }
    Ok(())
}

// The bytes of a text.
pub fn unfolded(alloc: Global, text: &str) -> Result<Vec<u8>, AllocError> {
    let mut out = Vec::new(alloc);
    for part in text.split('{') {
        match part.split_once('}') {
            Some((repeated, behind)) => {
                let mut fields = Fields::new(repeated);
                for turn in 0..fields.take() {
                    write(fields.rest, turn, &mut out)?;
                }
                write(behind, 0, &mut out)?;
            }
            None => write(part, 0, &mut out)?,
        }
    }
    Ok(out)
}

// The most bytes of a table that are looked at for one text, repeated ones counted each time.
const STEPS: usize = 10_000;

// The byte whose code the first three bytes give, as digits; LF stands for those that are not there.
fn coded(digits: &[u8]) -> u8 {
    let digits = digits.iter().chain(b"\n\n\n").take(3);
    digits.fold(0u8, |code, digit| {
        code.wrapping_mul(10).wrapping_add(digit % 48)
    })
}

// The bytes of the text that a table goes on with.
pub fn unfolded_front(alloc: Global, table: &[u8]) -> Result<Vec<u8>, AllocError> {
    let mut out = Vec::new(alloc);
    let mut rest = table;
    let mut again = table;
    let mut turn: usize = 0;
    let mut turns: usize = 0;
    for _ in 0..STEPS {
        let Some((byte, after)) = rest.split_first() else {
            break;
        };
        rest = after;
        match *byte {
            b'|' | b'\n' => break,
            b'/' => out.push(b'\n')?,
            b'\\' => {
                out.push(coded(after))?;
                rest = after.get(3..).unwrap_or(b"");
            }
            b'{' => {
                let mut fields = ByteFields::new(after);
                turns = fields.take();
                turn = 0;
                again = fields.rest;
                rest = again;
            }
            b'}' => {
                turn = turn.saturating_add(1);
                if turn < turns {
                    rest = again;
                }
            }
            b'@' => {
                out.push((turn / 26 % 26) as u8 + b'a')?;
                out.push((turn % 26) as u8 + b'a')?;
            }
            byte => out.push(byte)?,
        }
    }
    Ok(out)
}

#[cfg(test)]
mod tests {
    use super::*;
    use std::test::Fail;

    #[test]
    fn unfolds(rt: HostRuntime) -> Result<(), Fail> {
        let bytes = unfolded(rt.alloc(), "a/{3 @-}\\124b")?;
        assert_eq!(rt; bytes.as_slice(), b"a\naa-ab-ac-|b".as_slice());
        Ok(())
    }

    #[test]
    fn unfolds_whole_texts(rt: HostRuntime) -> Result<(), Fail> {
        let bytes = unfolded(rt.alloc(), "{0 a}b|\nc{28 @}\\256é")?;
        assert_eq!(rt; bytes.len(), 63);
        assert!(rt; bytes.starts_with(b"b|\ncaaab"));
        assert!(rt; bytes.ends_with(b"azbabb\x00\xc3\xa9"));
        let long = unfolded(rt.alloc(), "{20000 @}")?;
        assert_eq!(rt; long.len(), 40_000);
        Ok(())
    }

    #[test]
    fn unfolds_a_front(rt: HostRuntime) -> Result<(), Fail> {
        let bytes = unfolded_front(rt.alloc(), b"a/{3 @-}\\124b")?;
        assert_eq!(rt; bytes.as_slice(), b"a\naa-ab-ac-|b".as_slice());
        Ok(())
    }

    #[test]
    fn unfolds_odd_texts(rt: HostRuntime) -> Result<(), Fail> {
        let ended = unfolded_front(rt.alloc(), b"a\tb|c\n")?;
        assert_eq!(rt; ended.as_slice(), b"a\tb".as_slice());
        let once = unfolded_front(rt.alloc(), b"{0 a}{18446744073709551617 b}{2 c\nd")?;
        assert_eq!(rt; once.as_slice(), b"abc".as_slice());
        let nested = unfolded_front(rt.alloc(), b"{2 a{3 b}c}}@\n")?;
        assert_eq!(rt; nested.as_slice(), b"abbbcaf".as_slice());
        let coded = unfolded_front(rt.alloc(), b"\xff\\256\\12\n4")?;
        assert_eq!(rt; coded.as_slice(), b"\xff\x00\x824".as_slice());
        let long = unfolded_front(rt.alloc(), b"{20000 @}\n")?;
        assert_eq!(rt; long.len(), 10_000);
        Ok(())
    }
}
