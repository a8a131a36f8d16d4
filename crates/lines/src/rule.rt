// Rules: comparisons read one after the other, each with its difference made and its literals listed into two clauses, which are alike but
// for an equality demand.
ghost use Rattle.std.specs.Prelude.{◌≡◌, cond, eqb, ◌&&◌, List, leb, ℤ, length, Some, None};
ghost use Rattle.sheet.specs.Reading.{token_no, sign_of, comparison_f, all_f, «whole», as_must, then_of};
ghost use Rattle.sheet.specs.inner.Steps.{tokens_from};
ghost use Rattle.sheet.specs.declared.Token.TheVariants.{Fixed};
ghost use Rattle.meaning.specs.Plain.{opposite};
ghost use Rattle.meaning.specs.Translation.{literals_for, equal};
ghost use Rattle.lines.specs.inner.Emission.{bump, put_literal, put_literals, count_literals, more_equals, emitted_as, listed, Rules};
ghost use Rattle.lines.specs.inner.Comparisons.{turn_of, turned_by, asks_one, asks_all, listing_of, Lists};

use crate::expression::expr;
use crate::parts::{Clause, Emitted, Equations, Listed, Making, Tally};
use crate::writing::{one_more, put_literal};
use problem::Literal;
use sheet::tokens::next;
use sheet::{Mark, Sign, Token};

// The sign that a token is, if it is one.
fn sign_of(t: Token) -> Option<Sign>
    ensures { result ≡ cond (leb 10 (token_no t) && leb (token_no t) 15) (Some (sign_of (token_no t))) None }
{
    let Token::Fixed(mark) = t else {
        return None;
    };
    match mark {
        Mark::AtMost => Some(Sign::AtMost),
        Mark::Below => Some(Sign::Below),
        Mark::AtLeast => Some(Sign::AtLeast),
        Mark::Above => Some(Sign::Above),
        Mark::Equal => Some(Sign::Equal),
        Mark::Differ => Some(Sign::Differ),
        _ => None,
    }
}

// The opposite of a sign.
fn opposite(s: Sign) -> Sign
    ensures { result ≡ opposite s }
{
    match s {
        Sign::AtMost => Sign::Above,
        Sign::Below => Sign::AtLeast,
        Sign::AtLeast => Sign::Below,
        Sign::Above => Sign::AtMost,
        Sign::Equal => Sign::Differ,
        Sign::Differ => Sign::Equal,
    }
}

// The sign to list: between `and`, in the if part, the opposite.
fn turned(mark: Mark, s: Sign) -> Sign
    ensures { result ≡ turned_by (token_no (Fixed mark)) s }
{
    if mark == Mark::And {
        return opposite(s);
    }
    s
}

// The equality demands with this sign's, up to two.
#[tactic(auto, unfolding(meaning::specs::Translation::equal))]
fn more_equals(n: usize, s: Sign) -> usize
    ensures { result ≡ more_equals n (equal s) }
{
    if s == Sign::Equal && n < 2 { n + 1 } else { n }
}

// A literal more.
fn put(list: &mut [i64], i: usize, l: Literal) -> usize
    ensures { (list.new ≡ put_literal list.old i l) × (result ≡ bump i) }
{
    put_literal(list, i, l);
    one_more(i)
}

// The literals that a sign asks of the difference d; an equality demand is at most 0 in the first clause, at least 0 in the second.
#[tactic(auto, unfolding(meaning::specs::Translation::half_of, meaning::specs::Translation::literals_for, crate::specs::inner::Emission::put_literals, crate::specs::inner::Emission::count_literals))]
fn put_literals(list: &mut [i64], i: usize, sign: Sign, clause: Clause, d: usize) -> usize
    ensures { (list.new ≡ put_literals list.old i (literals_for (turn_of clause) sign d)) × (result ≡ count_literals i (literals_for (turn_of clause) sign d)) }
{
    let at_most = |bound| Literal::AtMost { quantity: d, bound };
    let at_least = |bound| Literal::AtLeast { quantity: d, bound };
    match sign {
        Sign::AtMost => put(list, i, at_most(0)),
        Sign::Below => put(list, i, at_most(-1)),
        Sign::AtLeast => put(list, i, at_least(0)),
        Sign::Above => put(list, i, at_least(1)),
        Sign::Equal => match clause {
            Clause::First => put(list, i, at_most(0)),
            Clause::Second => put(list, i, at_least(0)),
        },
        Sign::Differ => {
            let next = put(list, i, at_most(-1));
            put(list, next, at_least(1))
        }
    }
}

// A comparison's literals into both clauses, its difference being in hand.
fn list(sign: Sign, e: Emitted, tally: Tally, firsts: &mut [i64], seconds: &mut [i64]) -> Tally
    ensures { (rs ps : List ℤ) → listing_of result rs ps firsts.new seconds.new ≡ listed sign (emitted_as e rs ps) (listing_of tally rs ps firsts.old seconds.old) }
{
    let d = e.held.place;
    let count = put_literals(firsts, tally.count, sign, Clause::First, d);
    put_literals(seconds, tally.count, sign, Clause::Second, d);
    Tally {
        making: e.making,
        count,
        equals: more_equals(tally.equals, sign),
    }
}

// A comparison: its left side, its sign, its right side, then the difference, and its literals.
fn comparison(
    line: &[u8],
    at: usize,
    keys: &[u64],
    mark: Mark,
    tally: Tally,
    equations: &mut Equations,
    firsts: &mut [i64],
    seconds: &mut [i64],
) -> Option<Listed>
    ensures { Lists comparison_f (asks_one (token_no (Fixed mark)) keys.now) (length keys.now) line.now at (listing_of tally equations.old.ranges equations.old.primitives firsts.old seconds.old) result equations.new.ranges equations.new.primitives firsts.new seconds.new }
{
    let left = expr(line, at, keys, tally.making, equations)?;
    let step = next(line, left.next);
    let sign = sign_of(step.token)?;
    let right = expr(line, step.next, keys, left.emitted.making, equations)?;
    let gap = equations.difference(left.emitted.held, right.emitted);
    Some(Listed {
        next: right.next,
        tally: list(turned(mark, sign), gap, tally, firsts, seconds),
    })
}

// Whether a token is this mark.
fn is(t: Token, mark: Mark) -> bool
    ensures { result ≡ eqb (token_no t) (token_no (Fixed mark)) }
{
    t == Token::Fixed(mark)
}

// Comparisons with this mark between them.
fn comparisons(
    line: &[u8],
    at: usize,
    keys: &[u64],
    mark: Mark,
    tally: Tally,
    equations: &mut Equations,
    firsts: &mut [i64],
    seconds: &mut [i64],
) -> Option<Listed>
    ensures { Lists (λ k. all_f k (token_no (Fixed mark))) (asks_all (token_no (Fixed mark)) keys.now) (length keys.now) line.now at (listing_of tally equations.old.ranges equations.old.primitives firsts.old seconds.old) result equations.new.ranges equations.new.primitives firsts.new seconds.new }
{
    let mut all = comparison(line, at, keys, mark, tally, equations, firsts, seconds)?;
    loop {
        let step = next(line, all.next);
        if !is(step.token, mark) {
            return Some(all);
        }
        all = comparison(
            line, step.next, keys, mark, all.tally, equations, firsts, seconds,
        )?;
    }
}

// What was listed, if no token is left.
fn ended(line: &[u8], listed: Listed) -> Option<Tally>
    ensures { result ≡ cond (leb listed.next (length line.now)) None (Some listed.tally) }
{
    if listed.next <= line.len() {
        return None;
    }
    Some(listed.tally)
}

// Inner: the demands behind `must`, read and listed.
pub fn read_must(
    line: &[u8],
    at: usize,
    keys: &[u64],
    making: Making,
    equations: &mut Equations,
    firsts: &mut [i64],
    seconds: &mut [i64],
) -> Option<Tally>
    ensures { Rules (λ k. as_must («whole» (all_f k 21 (tokens_from line.now at)))) keys.now (length (tokens_from line.now at)) (listing_of (record { making = making; count = 0; equals = 0 }) equations.old.ranges equations.old.primitives firsts.old seconds.old) result equations.new.ranges equations.new.primitives firsts.new seconds.new }
{
    let none = Tally {
        making,
        count: 0,
        equals: 0,
    };
    let demands = comparisons(line, at, keys, Mark::Or, none, equations, firsts, seconds)?;
    ended(line, demands)
}

// Inner: the conditions behind `if`, and the demands behind `then`, read and listed.
pub fn read_if(
    line: &[u8],
    at: usize,
    keys: &[u64],
    making: Making,
    equations: &mut Equations,
    firsts: &mut [i64],
    seconds: &mut [i64],
) -> Option<Tally>
    ensures { Rules (λ k. then_of k (all_f k 20 (tokens_from line.now at))) keys.now (length (tokens_from line.now at)) (listing_of (record { making = making; count = 0; equals = 0 }) equations.old.ranges equations.old.primitives firsts.old seconds.old) result equations.new.ranges equations.new.primitives firsts.new seconds.new }
{
    let none = Tally {
        making,
        count: 0,
        equals: 0,
    };
    let conditions = comparisons(line, at, keys, Mark::And, none, equations, firsts, seconds)?;
    let step = next(line, conditions.next);
    if step.token != Token::Fixed(Mark::Then) {
        return None;
    }
    let demands = comparisons(
        line,
        step.next,
        keys,
        Mark::Or,
        conditions.tally,
        equations,
        firsts,
        seconds,
    )?;
    ended(line, demands)
}
