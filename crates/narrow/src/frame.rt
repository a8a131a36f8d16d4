// A box in hand: its list of ends, lent, every range of which can be computed with.
ghost use Rattle.std.specs.Prelude.{◌≡◌, [], ◌∷◌, ◌≤ℤ◌};
ghost use Rattle.narrow.specs.Cuts.{put_at, to};
ghost use Rattle.narrow.specs.inner.Done.{Has, Fine, Seen, Replaced, Kept, Narrowed};

use crate::Emptied;
use whole::Range;

#[derive(Drop)]
pub struct Frame<'a> {
    pub ends: &'a mut [i64],
    pub ghost fine: { Fine ends.now },
}

// The range of quantity q becomes r.
fn write(b: &mut [i64], q: usize, r: Range)
    requires { Has b.old q }
    ensures { b.new ≡ put_at b.old q r }
{
    let low = r.low;
    let high = r.high;
    b[2 * q] = low;
    b[2 * q + 1] = high;
}

impl<'a> Frame<'a> {
    // The range of quantity q.
    pub fn range_at(&self, q: usize) -> Range
        requires { Has self.now.ends.now q }
        ensures { Seen self.now.ends.now q result }
    {
        crate::range_at(self.ends, q)
    }

    // The range of quantity q becomes r.
    fn put(&mut self, q: usize, r: Range)
        requires fact_1 { Has self.old.ends.now q }
        requires fact_2 { Fine (put_at self.old.ends.now q r) }
        ensures kept { Kept self.old.ends self.new.ends }
        ensures value { self.new.ends.now ≡ put_at self.old.ends.now q r }
    {
        write(self.ends, q, r);
    }

    // Where an end of quantity q moves: its range becomes r, unless r is empty.
    pub fn replace(&mut self, q: usize, r: Range) -> Result<bool, Emptied>
        requires fact_1 { Has self.old.ends.now q }
        requires fact_2 { r.low ≤ℤ r.high → Fine (put_at self.old.ends.now q r) }
        ensures kept { Kept self.old.ends self.new.ends }
        ensures value { Replaced q r self.old.ends.now result self.new.ends.now }
    {
        if r.high < r.low {
            return Err(Emptied);
        }
        self.put(q, r);
        Ok(true)
    }

    // Quantity q is cut to s. A range may have changed before.
    pub fn cut(&mut self, q: usize, s: Range, changed: bool) -> Result<bool, Emptied>
        requires { Has self.old.ends.now q }
        ensures { Narrowed ((λ _. to q s) ∷ []) changed self.old.ends result self.new.ends }
    {
        let old = self.range_at(q);
        let low = old.low.max(s.low);
        let high = old.high.min(s.high);
        if high < low {
            return Err(Emptied);
        }
        if old.low < low {
            self.put(q, Range { low, high });
            return Ok(true);
        }
        if high < old.high {
            self.put(q, Range { low, high });
            return Ok(true);
        }
        Ok(changed)
    }
}
