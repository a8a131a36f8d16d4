// Lists that are lent to a call with a mark at every place, so that it shows where the call wrote.
ghost use Rattle.std.specs.Prelude.{◌≡◌, length, IfOk, IfSome};

use std::alloc::{AllocError, Global};

// How many numbers of a list are not lent.
const BEHIND: usize = 8;

// What a marked list is made of.
pub trait Mark: Copy + PartialEq + From<u8> {
    // The least mark.
    const LEAST: u8;
}

// No mark is 0.
impl Mark for i64 {
    const LEAST: u8 = 5;
}

// No mark is a letter.
impl Mark for u8 {
    const LEAST: u8 = 130;
}

// The mark that stands at a place.
fn mark_of<T: Mark>(place: usize) -> T {
    T::from(T::LEAST.wrapping_add((place % 97) as u8))
}

// A list whose front is lent; the last numbers stay behind.
#[derive(Drop)]
pub struct Marked<T> {
    list: Vec<T>,
    pub lent: usize,
}

impl<T: Mark + Drop> Marked<T> {
    // A list of which so many numbers are lent.
    pub fn new(alloc: Global, lent: usize) -> Result<Marked<T>, AllocError>
        ensures { IfOk result (λ m. m.lent ≡ lent) }
    {
        let mut list = Vec::new(alloc);
        for place in 0..lent.saturating_add(BEHIND) {
            list.push(mark_of(place))?;
        }
        Ok(Marked { list, lent })
    }

    // What is lent.
    pub fn lend(&mut self) -> &mut [T] {
        let lent = self.lent.min(self.list.len());
        &mut self.list[..lent]
    }

    // The first numbers, if the list has so many and every place behind them has its mark.
    pub fn written(&self, count: usize) -> Option<&[T]>
        ensures { IfSome result (λ front. length front.now ≡ count) }
    {
        let kept = self
            .list
            .iter()
            .enumerate()
            .skip(count)
            .all(|(place, x)| *x == mark_of(place));
        if kept { self.list.get(..count) } else { None }
    }
}

#[cfg(test)]
mod tests {
    use super::*;
    use std::test::Fail;

    #[test]
    fn tells_writes(rt: HostRuntime) -> Result<(), Fail> {
        let mut marked: Marked<u8> = Marked::new(rt.alloc(), 3)?;
        assert_eq!(rt; marked.lend().len(), 3);
        marked.lend().fill(b'a');
        assert!(rt; marked.written(3) == Some(b"aaa".as_slice()));
        assert!(rt; marked.written(2).is_none());
        assert!(rt; marked.written(12).is_none());
        Ok(())
    }
}
