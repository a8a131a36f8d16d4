// The data files.
ghost use Rattle.std.specs.Prelude.{◌≡◌, ◌==◌, ◌+◌, ◌<◌, length, drop, position, option_map, option_copied, IfSome};
ghost use Rattle.cases.specs.Counts.{IsPrefixLen};

use crate::report;
use std::io::Read;
use std::rt::Files;
use std::{fs, io};

// Reads a file to the front of a buffer, and gives how many bytes it has. A file that cannot be opened has none, and one that cannot be read on ends
// there; a name that is no UTF-8 names no file.
pub fn load(rt: &impl Files, name: &[u8], buffer: &mut [u8]) -> usize
    ensures { IsPrefixLen result buffer.new }
{
    let Ok(path) = str::from_utf8(name) else {
        return 0;
    };
    let Ok(mut file) = fs::open(rt, path) else {
        return 0;
    };
    let mut done: usize = 0;
    while done < buffer.len() {
        let Ok(more) = file.read(&mut buffer[done..]) else {
            return done;
        };
        if more == 0 {
            return done;
        }
        done += more;
    }
    done
}

// What stands behind the first such byte of a table.
pub fn behind(table: &[u8], byte: u8) -> Option<&[u8]>
    ensures value { option_copied result ≡ option_map (λ place. drop (place + 1) table.now) (position (λ b. b == byte) table.now) }
    ensures shorter { IfSome result (λ rest. length rest.now < length table.now) }
{
    let place = table.iter().position(|b| *b == byte)?;
    Some(&table[place + 1..])
}

// The cases that are left of a table, one in each line that ends in LF. A case is the table from its line on.
#[derive(Drop)]
pub struct Cases<'a> {
    pub rest: &'a [u8],
}

impl<'a> Cases<'a> {
    // All cases of a table.
    pub fn new(table: &'a [u8]) -> Cases<'a>
        ensures { result.rest.now ≡ table.now }
    {
        Cases { rest: table }
    }
}

impl<'a> Iterator for Cases<'a> {
    ghost use Rattle.std.specs.Iterator.{at_most};

    type Item = &'a [u8];

    ghost next_gives = { λ old r new. IfSome r (λ case. case.now ≡ old.rest.now) };

    ghost remaining = { λ cases. at_most (length cases.rest.now) };

    fn next(&mut self) -> Option<&'a [u8]> {
        let case = self.rest;
        self.rest = behind(case, b'\n')?;
        Some(case)
    }
}

// Compares the cases of a file.
pub fn compare<F: FnMut(&[u8]) -> io::Result<bool>>(
    rt: &(impl Files + Print),
    name: &str,
    file: &str,
    agrees: F,
) -> io::Result<()>
    requires { F.IsAlwaysCallable agrees }
{
    let mut buffer = [0u8; 65536];
    let length = load(rt, file.as_bytes(), &mut buffer);
    report::compare(rt, name, Cases::new(&buffer[..length]), agrees)
}

#[cfg(test)]
mod tests {
    use super::*;

    #[test]
    fn cases_end_in_lf(rt: HostRuntime) {
        let mut cases = Cases::new(b"a\n\r\xff\nb");
        assert!(rt; cases.next() == Some(b"a\n\r\xff\nb".as_slice()));
        assert!(rt; cases.next() == Some(b"\r\xff\nb".as_slice()));
        assert!(rt; cases.next().is_none());
    }

    #[test]
    fn a_bar_may_stand_in_a_later_line(rt: HostRuntime) {
        assert!(rt; behind(b"a\nb||c", b'|') == Some(b"|c".as_slice()));
        assert!(rt; behind(b"a\nb", b'|').is_none());
    }
}
