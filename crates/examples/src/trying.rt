// What a small sheet says: every assignment is tried in order, in whole numbers that are wrapped to 64 bits.
use crate::small::{Comparison, Expression, Operation, Range, Rule, Sheet, Sign};
use std::alloc::{AllocError, Global};

impl Expression {
    // The value under an assignment.
    fn value(&self, assignment: &[i64]) -> i64 {
        match self {
            Expression::Number(number) => i64::from(*number),
            Expression::Quantity(place) => assignment.get(*place).copied().unwrap_or(0),
            Expression::Brackets(inner) => inner.value(assignment),
            Expression::Square(base) => {
                let base = base.value(assignment);
                base.wrapping_mul(base)
            }
            Expression::Operated(left, operation, right) => {
                let left = left.value(assignment);
                let right = right.value(assignment);
                match operation {
                    Operation::Plus => left.wrapping_add(right),
                    Operation::Minus => left.wrapping_sub(right),
                    Operation::Times => left.wrapping_mul(right),
                }
            }
        }
    }
}

impl Comparison {
    // Whether the comparison is true under an assignment.
    fn is_true(&self, assignment: &[i64]) -> bool {
        let left = self.left.value(assignment);
        let right = self.right.value(assignment);
        match self.sign {
            Sign::AtMost => left <= right,
            Sign::Below => left < right,
            Sign::AtLeast => left >= right,
            Sign::Above => left > right,
            Sign::Equal => left == right,
            Sign::Differ => left != right,
        }
    }
}

impl Rule {
    // Whether an assignment meets the rule: a condition is false, or a demand is true.
    fn is_met(&self, assignment: &[i64]) -> bool {
        self.conditions
            .iter()
            .any(|condition| !condition.is_true(assignment))
            || self.demands.iter().any(|demand| demand.is_true(assignment))
    }
}

// Adds to an assignment the first values of the quantities that are left with which it obeys the rules, if there are such values; else
// leaves it as it was.
fn complete(
    ranges: &[Range],
    rules: &[Rule],
    assignment: &mut Vec<i64>,
) -> Result<bool, AllocError> {
    let Some((range, others)) = ranges.split_first() else {
        return Ok(rules.iter().all(|rule| rule.is_met(assignment)));
    };
    for value in range.low..=range.high {
        assignment.push(value)?;
        if complete(others, rules, assignment)? {
            return Ok(true);
        }
        let _ = assignment.pop();
    }
    Ok(false)
}

impl Sheet {
    // The first assignment that obeys the sheet, if there is one.
    pub fn first(&self, alloc: Global) -> Result<Option<Vec<i64>>, AllocError> {
        let mut assignment = Vec::new(alloc);
        let found = complete(&self.ranges, &self.rules, &mut assignment)?;
        Ok(found.then_some(assignment))
    }
}
