// The tokens of a line, one after the other by their place.
ghost use Rattle.std.specs.Prelude.{◌≡◌};
ghost use Rattle.sheet.specs.Tokens.{as_number, as_negative, token_of};
ghost use Rattle.sheet.specs.Reading.{head_of, rest_of};
ghost use Rattle.sheet.specs.inner.Steps.{step_at, tokens_from};

use crate::line::place;
use crate::piece::{digit_at, minus_first, number, word};
use crate::{Step, Token};

// A number's value as a token.
fn positive(v: Option<u64>) -> Token
    ensures { result ≡ as_number v }
{
    v.map_or(Token::Bad, Token::Number)
}

// The value behind `-` as a token; with the value 0 there is none.
fn negative(v: Option<u64>) -> Token
    ensures { result ≡ as_negative v }
{
    match v {
        None | Some(0) => Token::Bad,
        Some(n) => Token::Negative(n),
    }
}

// Inner: the token that a piece is.
pub fn read(w: &[u8]) -> Token
    ensures { result ≡ token_of w.now }
{
    if digit_at(w, 0) {
        return positive(number(w));
    }
    if minus_first(w) {
        return negative(number(&w[1..]));
    }
    word(w)
}

// Inner: the token that starts at a place, and where the next one starts.
pub fn step_at(line: &[u8], at: usize) -> Step
    ensures { result ≡ step_at line.now at }
{
    if line.len() < at {
        return Step {
            token: Token::Bad,
            next: at,
        };
    }
    let end = place(line, at, b' ');
    Step {
        token: read(&line[at..end]),
        next: end + 1,
    }
}

// Inner: the first of the tokens from a place on, and the place of the others.
pub fn next(line: &[u8], at: usize) -> Step
    ensures { (result.token ≡ head_of (tokens_from line.now at)) × (tokens_from line.now result.next ≡ rest_of (tokens_from line.now at)) × (result ≡ step_at line.now at) }
{
    step_at(line, at)
}
