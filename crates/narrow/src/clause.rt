// A clause: one of its literals is true.
ghost use Rattle.std.specs.Prelude.{[], ◌∷◌, ◌≡◌, ◌/◌, length};
ghost use Rattle.problem.specs.Lists.{literals_of};
ghost use Rattle.narrow.specs.Narrowing.{is_false, literal_cut, clause_step};
ghost use Rattle.narrow.specs.inner.Done.{Has, Narrowed};
ghost use Rattle.narrow.specs.Named.{quantity_of};
ghost use Rattle.narrow.specs.inner.Clause.{asked_of, Lits};

use crate::Emptied;
use crate::frame::Frame;
use problem::Literal;
use whole::Range;

// The quantity of a literal.
fn quantity_of(l: Literal) -> usize
    ensures { result ≡ quantity_of l }
{
    match l {
        Literal::AtMost { quantity, .. } => quantity,
        Literal::AtLeast { quantity, .. } => quantity,
    }
}

// The range that a literal asks of its quantity: from its low end to the bound, or from the bound to its high end.
fn asked(frame: &Frame, l: Literal) -> Range
    requires { Has frame.now.ends.now (quantity_of l) }
    ensures { result ≡ asked_of frame.now.ends.now l }
{
    let own = frame.range_at(quantity_of(l));
    let low = own.low;
    let high = own.high;
    match l {
        Literal::AtMost { bound, .. } => Range { low, high: bound },
        Literal::AtLeast { bound, .. } => Range { low: bound, high },
    }
}

// Whether no value of the range meets the literal.
fn is_false(frame: &Frame, l: Literal) -> bool
    requires { Has frame.now.ends.now (quantity_of l) }
    ensures { result ≡ is_false frame.now.ends.now l }
{
    let s = asked(frame, l);
    s.high < s.low
}

// The box is cut by a literal.
fn cut_literal(frame: &mut Frame, l: Literal, changed: bool) -> Result<bool, Emptied>
    requires { Has frame.old.ends.now (quantity_of l) }
    ensures { Narrowed ((λ c. literal_cut c l) ∷ []) changed frame.old.ends result frame.new.ends }
{
    let s = asked(frame, l);
    frame.cut(quantity_of(l), s, changed)
}

// All false: empty. Exactly one position not false: cut by it. Otherwise nothing. The one that is not false is at `open`, n as long as there is none.
pub fn narrow(frame: &mut Frame, literals: &[i64], changed: bool) -> Result<bool, Emptied>
    requires { Lits frame.old.ends.now literals.now (length literals.now / 3) }
    ensures { Narrowed (clause_step (literals_of literals.now) ∷ []) changed frame.old.ends result frame.new.ends }
{
    let n = literals.len() / 3;
    let mut open = n;
    for k in 0..n {
        if !is_false(frame, problem::literal_at(literals, k)) {
            if open < n {
                return Ok(changed);
            }
            open = k;
        }
    }
    if open == n {
        return Err(Emptied);
    }
    cut_literal(frame, problem::literal_at(literals, open), changed)
}
