// The fields of a line of a table, one space apart: of a text, or of bytes, which may be no text.
ghost use Rattle.std.specs.Prelude.{◌≡◌, ℕ, ◌≤◌, List, length, vec_len, IfOk};
ghost use Rattle.cases.specs.Counts.{count_on, number_of, is_line_end};

use std::alloc::{AllocError, Global};
use std::str::FromStr;

// What is left of a line: its fields are taken from the front.
#[derive(Clone, Copy)]
pub struct Fields<'a> {
    pub rest: &'a str,
}

impl<'a> Fields<'a> {
    // All fields of a line.
    pub fn new(line: &'a str) -> Fields<'a>
        ensures { result.rest.now ≡ line.now }
    {
        Fields { rest: line }
    }

    // The number in the next field, 0 where there is none.
    pub fn take<T: FromStr + Default>(&mut self) -> T
    where
        T::Err: Drop,
        ensures { length self.new.rest.now ≤ length self.old.rest.now }
    {
        let (field, rest) = self.rest.split_once(' ').unwrap_or((self.rest, ""));
        self.rest = rest;
        field.parse().unwrap_or_default()
    }

    // The numbers in the next fields.
    pub fn take_list(&mut self, alloc: Global, count: usize) -> Result<Vec<i64>, AllocError>
        ensures { IfOk result (λ list. vec_len list ≡ count) }
    {
        (0..count).map(|_| self.take::<i64>()).collect(alloc)
    }
}

// How many numbers there are from 0 on; a count past them starts at 0 again.
const NUMBERS: usize = 9_223_372_036_854_775_808;

// What a field can have.
pub trait Number {
    // Bytes that say a number.
    ghost reads: { List ℕ → Self → Type 0 };

    // The number that some bytes start with, 0 where they start with none.
    fn read(bytes: &[u8]) -> Self
        ensures { reads bytes.now result };
}

// Digits; a count past 64 bits is wrapped.
impl Number for usize {
    ghost reads = { λ bytes count. count ≡ count_on 0 bytes };

    fn read(bytes: &[u8]) -> usize {
        let mut count: usize = 0;
        let mut rest = bytes;
        while let Some((byte, behind)) = rest.split_first() {
            if !byte.is_ascii_digit() {
                return count;
            }
            count = count
                .wrapping_mul(10)
                .wrapping_add(usize::from(*byte - b'0'));
            rest = behind;
        }
        count
    }
}

// Digits, with `-` before them for a number below 0.
impl Number for i64 {
    ghost reads = { λ bytes number. number ≡ number_of bytes };

    fn read(bytes: &[u8]) -> i64 {
        match bytes.strip_prefix(b"-") {
            Some(digits) => match usize::read(digits).checked_sub(1) {
                Some(count) => -1 - (count % NUMBERS) as i64,
                None => 0,
            },
            None => (usize::read(bytes) % NUMBERS) as i64,
        }
    }
}

// What is left of a line of bytes: its fields are taken from the front. The lines behind it may follow.
#[derive(Clone, Copy)]
pub struct ByteFields<'a> {
    pub rest: &'a [u8],
}

impl<'a> ByteFields<'a> {
    // All fields of a line.
    pub fn new(line: &'a [u8]) -> ByteFields<'a>
        ensures { result.rest.now ≡ line.now }
    {
        ByteFields { rest: line }
    }

    // Whether no field is left.
    pub fn is_empty(&self) -> bool
        ensures { result ≡ is_line_end self.now.rest.now }
    {
        matches!(self.rest.first(), None | Some(b'\n'))
    }

    // The number in the next field, 0 where there is none.
    pub fn take<T: Number>(&mut self) -> T
        ensures number { T.reads self.old.rest.now result }
        ensures shorter { length self.new.rest.now ≤ length self.old.rest.now }
    {
        let number = T::read(self.rest);
        let end = self.rest.iter().position(|b| b" \n".contains(b));
        let rest = &self.rest[end.unwrap_or(self.rest.len())..];
        self.rest = rest.strip_prefix(b" ").unwrap_or(rest);
        number
    }

    // The numbers in the next fields.
    pub fn take_list(&mut self, alloc: Global, count: usize) -> Result<Vec<i64>, AllocError>
        ensures { IfOk result (λ list. vec_len list ≡ count) }
    {
        (0..count).map(|_| self.take()).collect(alloc)
    }
}

#[cfg(test)]
mod tests {
    use super::*;
    use std::test::Fail;

    #[test]
    fn takes_numbers(rt: HostRuntime) -> Result<(), Fail> {
        let mut fields = Fields::new("3 -1 07 a b");
        let list = fields.take_list(rt.alloc(), 3)?;
        assert_eq!(rt; list.as_slice(), [3, -1, 7].as_slice());
        assert_eq!(rt; fields.rest, "a b");
        Ok(())
    }

    #[test]
    fn takes_what_a_type_reads(rt: HostRuntime) {
        let mut fields = Fields::new("300 +2 true é 5");
        assert_eq!(rt; fields.take::<u8>(), 0);
        assert_eq!(rt; fields.take::<u8>(), 2);
        assert!(rt; fields.take::<bool>());
        assert_eq!(rt; fields.take::<usize>(), 0);
        assert_eq!(rt; fields.rest, "5");
        assert_eq!(rt; fields.take::<i64>(), 5);
        assert_eq!(rt; fields.rest, "");
    }

    #[test]
    fn takes_numbers_of_bytes(rt: HostRuntime) -> Result<(), Fail> {
        let mut fields = ByteFields::new(b"3 -1 07 a b");
        let list = fields.take_list(rt.alloc(), 3)?;
        assert_eq!(rt; list.as_slice(), [3, -1, 7].as_slice());
        assert_eq!(rt; fields.rest, b"a b".as_slice());
        Ok(())
    }

    #[test]
    fn takes_odd_numbers(rt: HostRuntime) -> Result<(), Fail> {
        let mut fields = ByteFields::new(
            b"+2 1x -0 --3  9223372036854775809 -9223372036854775809\n7",
        );
        let list = fields.take_list(rt.alloc(), 8)?;
        assert_eq!(rt; list.as_slice(), [0, 1, 0, 0, 0, 1, -1, 0].as_slice());
        assert!(rt; fields.is_empty());
        let mut fields = ByteFields::new(b"-5 18446744073709551617 2\t3");
        assert_eq!(rt; fields.take::<usize>(), 0);
        assert_eq!(rt; fields.take::<usize>(), 1);
        assert!(rt; !fields.is_empty());
        assert_eq!(rt; fields.take::<usize>(), 2);
        assert!(rt; fields.is_empty());
        Ok(())
    }
}
