// Expressions, written out as they are read: a number makes a helper, a name makes none, an operation makes one when its operands are done.
ghost use Rattle.std.specs.Prelude.{cond, eqb, length};
ghost use Rattle.whole.specs.inner.Held.{Good};
ghost use Rattle.sheet.specs.Reading.{token_no, expr_f, term_f, factor_f, atom_f};
ghost use Rattle.sheet.specs.declared.Token.TheVariants.{Fixed};
ghost use Rattle.meaning.specs.Plain.{sum, difference, plain_e, plain_t, plain_f, plain_a};
ghost use Rattle.lines.specs.inner.Emission.{emitted_as, Emits, joined, Makes};

use crate::parts::{Emitted, Equations, Held, Made, Making};
use sheet::tokens::next;
use sheet::{Mark, Token};

// The sum, or the difference where the mark is not `+`.
fn added(mark: Mark, a: Held, e: Emitted, equations: &mut Equations) -> Emitted
    requires fact_1 { Good a.span }
    requires fact_2 { Good e.held.span }
    ensures { Emits (joined (cond (eqb (token_no (Fixed mark)) 6) sum difference) a (emitted_as e equations.old.ranges equations.old.primitives)) result equations.new.ranges equations.new.primitives }
{
    if mark == Mark::Plus {
        return equations.sum(a, e);
    }
    equations.difference(a, e)
}

// An expression: a term, then any number of `+` or `-` term.
#[cycle(atom_expr_factor_term)]
pub fn expr(
    line: &[u8],
    at: usize,
    keys: &[u64],
    making: Making,
    equations: &mut Equations,
) -> Option<Made>
    ensures { Makes expr_f (plain_e keys.now) 6 (length keys.now) line.now at making equations.old.ranges equations.old.primitives result equations.new.ranges equations.new.primitives }
{
    let mut left = term(line, at, keys, making, equations)?;
    loop {
        let step = next(line, left.next);
        let Token::Fixed(mark) = step.token else {
            return Some(left);
        };
        if mark != Mark::Plus && mark != Mark::Minus {
            return Some(left);
        }
        let right = term(line, step.next, keys, left.emitted.making, equations)?;
        left = Made {
            next: right.next,
            emitted: added(mark, left.emitted.held, right.emitted, equations),
        };
    }
}

// A term: a factor, then any number of `*` factor.
#[cycle(atom_expr_factor_term)]
fn term(
    line: &[u8],
    at: usize,
    keys: &[u64],
    making: Making,
    equations: &mut Equations,
) -> Option<Made>
    ensures { Makes term_f (plain_t keys.now) 4 (length keys.now) line.now at making equations.old.ranges equations.old.primitives result equations.new.ranges equations.new.primitives }
{
    let mut left = factor(line, at, keys, making, equations)?;
    loop {
        let step = next(line, left.next);
        if step.token != Token::Fixed(Mark::Times) {
            return Some(left);
        }
        let right = factor(line, step.next, keys, left.emitted.making, equations)?;
        left = Made {
            next: right.next,
            emitted: equations.product(left.emitted.held, right.emitted),
        };
    }
}

// A factor: an atom, optionally `^2`.
#[cycle(atom_expr_factor_term)]
fn factor(
    line: &[u8],
    at: usize,
    keys: &[u64],
    making: Making,
    equations: &mut Equations,
) -> Option<Made>
    ensures { Makes factor_f (plain_f keys.now) 2 (length keys.now) line.now at making equations.old.ranges equations.old.primitives result equations.new.ranges equations.new.primitives }
{
    let base = atom(line, at, keys, making, equations)?;
    let step = next(line, base.next);
    if step.token != Token::Fixed(Mark::Square) {
        return Some(base);
    }
    Some(Made {
        next: step.next,
        emitted: equations.squared(base.emitted),
    })
}

// An atom: a number, a name, or a whole expression in brackets.
#[cycle(atom_expr_factor_term)]
fn atom(
    line: &[u8],
    at: usize,
    keys: &[u64],
    making: Making,
    equations: &mut Equations,
) -> Option<Made>
    ensures { Makes atom_f (plain_a keys.now) 1 (length keys.now) line.now at making equations.old.ranges equations.old.primitives result equations.new.ranges equations.new.primitives }
{
    let step = next(line, at);
    match step.token {
        Token::Number(n) => Some(Made {
            next: step.next,
            emitted: equations.constant(n, making),
        }),
        Token::Name(name) => Some(Made {
            next: step.next,
            emitted: equations.named(name, keys, making),
        }),
        Token::Fixed(Mark::Open) => {
            let inside = expr(line, step.next, keys, making, equations)?;
            let close = next(line, inside.next);
            if close.token != Token::Fixed(Mark::Close) {
                return None;
            }
            Some(Made {
                next: close.next,
                emitted: inside.emitted,
            })
        }
        _ => None,
    }
}
