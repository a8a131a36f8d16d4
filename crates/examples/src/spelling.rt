// The text of a small sheet: tokens have one space between them, and each line ends in LF.
use crate::small::{Comparison, Expression, Operation, Range, Rule, Sheet, Sign};
use std::fmt;

// The name of the quantity at a place.
pub fn name(place: usize) -> char {
    char::from(b'a' + (place % 26) as u8)
}

impl fmt::Display for Operation {
    fn fmt<W: fmt::Write>(&self, f: &mut fmt::Formatter<W>) -> fmt::Result {
        f.write_str(match self {
            Operation::Plus => "+",
            Operation::Minus => "-",
            Operation::Times => "*",
        })
    }
}

impl fmt::Display for Sign {
    fn fmt<W: fmt::Write>(&self, f: &mut fmt::Formatter<W>) -> fmt::Result {
        f.write_str(match self {
            Sign::AtMost => "<=",
            Sign::Below => "<",
            Sign::AtLeast => ">=",
            Sign::Above => ">",
            Sign::Equal => "=",
            Sign::Differ => "!=",
        })
    }
}

impl fmt::Display for Expression {
    fn fmt<W: fmt::Write>(&self, f: &mut fmt::Formatter<W>) -> fmt::Result {
        match self {
            Expression::Number(number) => write!(f, "{number}"),
            Expression::Quantity(place) => {
                let name = name(*place);
                write!(f, "{name}")
            }
            Expression::Brackets(inner) => write!(f, "( {inner} )"),
            Expression::Square(base) => write!(f, "{base} ^2"),
            Expression::Operated(left, operation, right) => write!(f, "{left} {operation} {right}"),
        }
    }
}

impl fmt::Display for Comparison {
    fn fmt<W: fmt::Write>(&self, f: &mut fmt::Formatter<W>) -> fmt::Result {
        let Comparison { left, sign, right } = self;
        write!(f, "{left} {sign} {right}")
    }
}

// Writes comparisons, the first behind one word and the others behind another.
fn write_part<W: fmt::Write>(
    f: &mut fmt::Formatter<W>,
    first: &str,
    next: &str,
    part: &[Comparison],
) -> fmt::Result {
    let mut word = first;
    for comparison in part {
        write!(f, "{word} {comparison}")?;
        word = next;
    }
    Ok(())
}

impl fmt::Display for Rule {
    fn fmt<W: fmt::Write>(&self, f: &mut fmt::Formatter<W>) -> fmt::Result {
        if self.conditions.is_empty() {
            return write_part(f, "must", " or", &self.demands);
        }
        write_part(f, "if", " and", &self.conditions)?;
        write_part(f, " then", " or", &self.demands)
    }
}

impl fmt::Display for Sheet {
    fn fmt<W: fmt::Write>(&self, f: &mut fmt::Formatter<W>) -> fmt::Result {
        writeln!(f, "RUL 1")?;
        for (place, range) in self.ranges.iter().enumerate() {
            let name = name(place);
            let Range { low, high } = range;
            writeln!(f, "range {name} {low} {high}")?;
        }
        for rule in &self.rules {
            writeln!(f, "{rule}")?;
        }
        Ok(())
    }
}
