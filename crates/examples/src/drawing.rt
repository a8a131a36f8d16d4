// The drawing of small sheets from a pseudo-random sequence.
ghost use Rattle.std.specs.Prelude.{◌<◌};

use crate::room;
use crate::small::{Comparison, Expression, Operation, Range, Rule, Sheet, Sign};
use cases::sequence::Sequence;
use std::alloc::{AllocError, Global};

// The sequence's first state.
const SEED: usize = 40_009;

// What sheets are drawn with: the allocator, the sequence, how many quantities the sheet in hand has, and whether the rule in hand has
// an equality demand.
#[derive(Drop)]
pub struct Drawing {
    alloc: Global,
    sequence: Sequence,
    quantities: usize,
    demanded: bool,
    ghost some: { 0 < quantities },
}

impl Drawing {
    // Before the first sheet.
    pub fn new(alloc: Global) -> Drawing {
        Drawing {
            alloc,
            sequence: Sequence::new(SEED),
            quantities: 1,
            demanded: false,
        }
    }

    // Whether a draw of so many gives 0.
    fn one_in(&mut self, many: usize) -> bool {
        self.sequence.draw(many) == 0
    }

    // A range: its low end from -6 to 5, with up to 8 values where there are one or two quantities, and up to 5 where there are three.
    fn range(&mut self) -> Range {
        let low = self.sequence.draw(12) as i64 - 6;
        let values = if self.quantities <= 2 { 8 } else { 5 };
        Range {
            low,
            high: low + self.sequence.draw(values) as i64,
        }
    }

    // A number or a name: a number one time in three.
    fn leaf(&mut self) -> Expression {
        if self.one_in(3) {
            return Expression::Number(self.sequence.draw(13) as u8);
        }
        Expression::Quantity(self.sequence.draw(self.quantities))
    }

    // An operation.
    fn operation(&mut self) -> Operation {
        match self.sequence.draw(3) {
            0 => Operation::Plus,
            1 => Operation::Minus,
            _ => Operation::Times,
        }
    }

    // A sign.
    fn sign(&mut self) -> Sign {
        match self.sequence.draw(6) {
            0 => Sign::AtMost,
            1 => Sign::Below,
            2 => Sign::AtLeast,
            3 => Sign::Above,
            4 => Sign::Equal,
            _ => Sign::Differ,
        }
    }

    // How many numbers and names a side has: 1 to 3.
    fn leaves(&mut self) -> usize
        ensures { 0 < result }
    {
        match self.sequence.draw(8) {
            0..=2 => 1,
            3..=6 => 2,
            _ => 3,
        }
    }

    // A side of a comparison. Each item is a number or a name, or an operation on the last two values that wait; a square one time in
    // five, once a side, and brackets one time in eight stand round it.
    fn side(&mut self) -> Result<Expression, AllocError> {
        let mut leaves = self.leaves();
        let mut squared = false;
        let mut waiting: Vec<Expression> = Vec::new(self.alloc);
        while leaves > 0 || waiting.len() > 1 {
            let early = self.one_in(2);
            let mut item = if leaves > 0 && (waiting.len() < 2 || early) {
                leaves -= 1;
                self.leaf()
            } else {
                let right = waiting.pop().unwrap();
                let left = waiting.pop().unwrap();
                left.operated(self.alloc, self.operation(), right)?
            };
            if self.one_in(5) && !squared {
                squared = true;
                item = item.squared(self.alloc)?;
            }
            if self.one_in(8) {
                item = item.bracketed(self.alloc)?;
            }
            waiting.push(item)?;
        }
        Ok(waiting.pop().unwrap())
    }

    // A comparison. One with the sign given is an equality demand; a second one in the rule gets `<=` instead.
    fn comparison(&mut self, equality: Sign) -> Result<Comparison, AllocError> {
        let left = self.side()?;
        let right = self.side()?;
        let mut sign = self.sign();
        if sign == equality {
            if self.demanded {
                sign = Sign::AtMost;
            }
            self.demanded = true;
        }
        Ok(Comparison { left, sign, right })
    }

    // One or two comparisons. One with the sign given is an equality demand.
    fn part(&mut self, equality: Sign) -> Result<Vec<Comparison>, AllocError> {
        let mut part = vec![in self.alloc; self.comparison(equality)?]?;
        if !self.one_in(2) {
            part.push(self.comparison(equality)?)?;
        }
        Ok(part)
    }

    // A rule, with conditions one time in two: `=` is an equality demand in a demand, `!=` in a condition.
    fn rule(&mut self) -> Result<Rule, AllocError> {
        self.demanded = false;
        let conditions = if self.one_in(2) {
            Vec::new(self.alloc)
        } else {
            self.part(Sign::Differ)?
        };
        let demands = self.part(Sign::Equal)?;
        Ok(Rule {
            conditions,
            demands,
        })
    }

    // The next sheet: one to three quantities and up to four rules, those left out with which it might need more room than the desk has.
    pub fn sheet(&mut self) -> Result<Sheet, AllocError> {
        let mut sheet = Sheet {
            ranges: Vec::new(self.alloc),
            rules: Vec::new(self.alloc),
        };
        self.quantities = 1 + self.sequence.draw(3);
        for _ in 0..self.quantities {
            sheet.ranges.push(self.range())?;
        }
        for _ in 0..1 + self.sequence.draw(4) {
            sheet.rules.push(self.rule()?)?;
            if !room::fits(&sheet) {
                let _ = sheet.rules.pop();
            }
        }
        Ok(sheet)
    }
}
