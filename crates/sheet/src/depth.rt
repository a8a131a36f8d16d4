// How many brackets are open.
ghost use Rattle.std.specs.Prelude.{◌≡◌};
ghost use Rattle.sheet.specs.Tokens.{tokens_of};
ghost use Rattle.sheet.specs.Depth.{too_deep};

use crate::tokens::read;
use crate::{Mark, Token};

// How many brackets may be open at a token.
const MOST: usize = 16;

// Inner: whether more than 16 brackets are open at some token of a line, opened less closed.
pub fn deep(line: &[u8]) -> bool
    ensures { result ≡ too_deep (tokens_of line.now) }
{
    let mut opened: usize = 0;
    let mut closed: usize = 0;
    for piece in line.split(|b| *b == b' ') {
        let token = read(piece);
        opened += usize::from(token == Token::Fixed(Mark::Open));
        closed += usize::from(token == Token::Fixed(Mark::Close));
        if closed + MOST < opened {
            return true;
        }
    }
    false
}
