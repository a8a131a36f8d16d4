// What stands behind `range`.
ghost use Rattle.std.specs.Prelude.{◌≡◌, true, false, MatchOption};
ghost use Rattle.sheet.specs.Reading.{signed_of, is_signed, read_range};
ghost use Rattle.sheet.specs.inner.Steps.{tokens_from};
ghost use Rattle.sheet.specs.inner.Contents.{Proper};
ghost use Rattle.sheet.specs.inner.Forms.{declaration_of};

use crate::tokens::next;
use crate::{Declaration, Token};

// A number with its sign, if a token is a number, with `-` before it or without.
fn signed(t: Token) -> Option<i64>
    requires { Proper t }
    ensures { MatchOption result (is_signed t ≡ false) (λ z. (is_signed t ≡ true) × (z ≡ signed_of t)) }
{
    match t {
        Token::Number(n) => Some(n as i64),
        Token::Negative(n) => Some(-(n as i64)),
        Token::Name(_) | Token::Fixed(_) | Token::Bad => None,
    }
}

// Inner: what stands from a place on as a declaration: a name, and nothing or LOW and HIGH behind it.
pub fn declaration(line: &[u8], at: usize) -> Option<Declaration>
    ensures { result ≡ declaration_of (read_range (tokens_from line.now at)) }
{
    let first = next(line, at);
    let Token::Name(name) = first.token else {
        return None;
    };
    if line.len() < first.next {
        return Some(Declaration::Plain { name });
    }
    let second = next(line, first.next);
    let third = next(line, second.next);
    if third.next <= line.len() {
        return None;
    }
    let low = signed(second.token)?;
    let high = signed(third.token)?;
    Some(Declaration::Ranged { name, low, high })
}
