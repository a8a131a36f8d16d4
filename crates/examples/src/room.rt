// How much room a small sheet needs at most: 2n(D+1), with n the number of its quantities with all helpers, and D their halvings, from
// how far from 0 each helper can be.
use crate::small::{Comparison, Expression, Operation, Sheet};

// The workspace of the desk, and the most quantities.
const WORKSPACE: u64 = 8_192;

const QUANTITIES: u64 = 128;

// A declared quantity has at most 8 values, none farther from 0 than this.
const HALVINGS: u64 = 3;

const FAR: u64 = 12;

// How many quantities and halvings were counted.
#[derive(Drop)]
struct Room {
    quantities: u64,
    halvings: u64,
}

impl Room {
    // Counts a helper that can be so far from 0.
    fn count_helper(&mut self, far: u64) {
        let halvings = u64::BITS - far.saturating_add(far).leading_zeros();
        self.quantities = self.quantities.saturating_add(1);
        self.halvings = self.halvings.saturating_add(u64::from(halvings));
    }

    // Counts the helpers of an expression; gives how far from 0 it can be.
    fn count_expression(&mut self, expression: &Expression) -> u64 {
        match expression {
            Expression::Number(number) => {
                self.quantities = self.quantities.saturating_add(1);
                u64::from(*number)
            }
            Expression::Quantity(_) => FAR,
            Expression::Brackets(inner) => self.count_expression(inner),
            Expression::Square(base) => {
                let base = self.count_expression(base);
                let far = base.saturating_mul(base);
                self.count_helper(far);
                far
            }
            Expression::Operated(left, operation, right) => {
                let left = self.count_expression(left);
                let right = self.count_expression(right);
                let far = match operation {
                    Operation::Times => left.saturating_mul(right),
                    _ => left.saturating_add(right),
                };
                self.count_helper(far);
                far
            }
        }
    }

    // Counts the helpers of a comparison: the difference of its sides is the last.
    fn count_comparison(&mut self, comparison: &Comparison) {
        let left = self.count_expression(&comparison.left);
        let right = self.count_expression(&comparison.right);
        self.count_helper(left.saturating_add(right));
    }

    // Whether the desk has so much.
    fn is_enough(&self) -> bool {
        let slots = self.halvings.saturating_add(1);
        self.quantities <= QUANTITIES
            && self.quantities.saturating_mul(2).saturating_mul(slots) <= WORKSPACE
    }
}

// Whether a sheet has room for sure.
pub fn fits(sheet: &Sheet) -> bool {
    let declared = sheet.ranges.len() as u64;
    let mut room = Room {
        quantities: declared,
        halvings: declared.saturating_mul(HALVINGS),
    };
    for rule in &sheet.rules {
        for comparison in rule.conditions.iter().chain(&rule.demands) {
            room.count_comparison(comparison);
        }
    }
    room.is_enough()
}
