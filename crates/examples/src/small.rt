// A small sheet: the ranges of its quantities, and its rules as trees. A quantity is known by its place among the ranges.
use std::alloc::{AllocError, Global};

// The numbers from a low end to a high end.
#[derive(Clone, Copy)]
pub struct Range {
    pub low: i64,
    pub high: i64,
}

// An operation on two values.
#[derive(Clone, Copy)]
pub enum Operation {
    Plus,
    Minus,
    Times,
}

// The sign of a comparison.
#[derive(Clone, Copy, PartialEq, Eq)]
pub enum Sign {
    AtMost,
    Below,
    AtLeast,
    Above,
    Equal,
    Differ,
}

// How an expression binds: what may stand without brackets where so much is asked.
#[derive(Clone, Copy, PartialEq, Eq, PartialOrd, Ord)]
pub enum Rank {
    Sum,
    Product,
    Power,
    Atom,
}

// A side of a comparison, or a part of one.
#[derive(Drop)]
pub enum Expression {
    Number(u8),
    Quantity(usize),
    Brackets(Box<Expression>),
    Square(Box<Expression>),
    Operated(Box<Expression>, Operation, Box<Expression>),
}

// A comparison of two expressions.
#[derive(Drop)]
pub struct Comparison {
    pub left: Expression,
    pub sign: Sign,
    pub right: Expression,
}

// A rule: where all conditions are true, one of the demands is. One with no condition is a must.
#[derive(Drop)]
pub struct Rule {
    pub conditions: Vec<Comparison>,
    pub demands: Vec<Comparison>,
}

// A sheet.
#[derive(Drop)]
pub struct Sheet {
    pub ranges: Vec<Range>,
    pub rules: Vec<Rule>,
}

impl Expression {
    // How the expression binds.
    fn rank(&self) -> Rank {
        match self {
            Expression::Operated(_, Operation::Times, _) => Rank::Product,
            Expression::Operated(_, _, _) => Rank::Sum,
            Expression::Square(_) => Rank::Power,
            _ => Rank::Atom,
        }
    }

    // The expression in brackets.
    pub fn bracketed(self, alloc: Global) -> Result<Expression, AllocError> {
        Ok(Expression::Brackets(Box::new(alloc, self)?))
    }

    // The expression, in brackets where it binds less than is asked.
    fn raised(self, alloc: Global, asked: Rank) -> Result<Expression, AllocError> {
        if self.rank() < asked {
            return self.bracketed(alloc);
        }
        Ok(self)
    }

    // The square of the expression.
    pub fn squared(self, alloc: Global) -> Result<Expression, AllocError> {
        let base = self.raised(alloc, Rank::Atom)?;
        Ok(Expression::Square(Box::new(alloc, base)?))
    }

    // Two expressions with an operation between; equal ranks group to the left.
    pub fn operated(
        self,
        alloc: Global,
        operation: Operation,
        other: Expression,
    ) -> Result<Expression, AllocError> {
        let (first, second) = match operation {
            Operation::Times => (Rank::Product, Rank::Power),
            _ => (Rank::Sum, Rank::Product),
        };
        let left = Box::new(alloc, self.raised(alloc, first)?)?;
        let right = Box::new(alloc, other.raised(alloc, second)?)?;
        Ok(Expression::Operated(left, operation, right))
    }
}
