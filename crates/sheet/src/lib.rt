// The text of sheets: lines, pieces, tokens, open brackets, and what a range line declares.
#![tactic(auto)]

pub mod depth;
pub mod line;
pub mod piece;
pub mod range;
pub mod tokens;

ghost use Rattle.std.specs.Prelude.{◌≡◌};
ghost use Rattle.sheet.specs.Lines.{span_of, IsLineOf};

// A stretch of a text: from start up to end.
#[derive(Clone, Copy)]
pub struct Stretch {
    pub start: usize,
    pub end: usize,
}

// The fixed marks: ( ) + - * ^2 <= < >= > = != range must if then and or
#[derive(Clone, Copy, PartialEq, Eq)]
pub enum Mark {
    Open,
    Close,
    Plus,
    Minus,
    Times,
    Square,
    AtMost,
    Below,
    AtLeast,
    Above,
    Equal,
    Differ,
    Range,
    Must,
    If,
    Then,
    And,
    Or,
}

// A number with its value, a number below 0 with its size, a name with its letters as one number, a fixed mark; or no token.
#[derive(Clone, Copy, PartialEq, Eq)]
pub enum Token {
    Number(u64),
    Negative(u64),
    Name(u64),
    Fixed(Mark),
    Bad,
}

// The token at a place, and where the next one starts.
#[derive(Clone, Copy)]
pub struct Step {
    pub token: Token,
    pub next: usize,
}

// How a comparison compares: <= < >= > = !=
#[derive(Clone, Copy, PartialEq, Eq)]
pub enum Sign {
    AtMost,
    Below,
    AtLeast,
    Above,
    Equal,
    Differ,
}

// What a range line declares: a name without a range, or with one.
#[derive(Clone, Copy)]
pub enum Declaration {
    Plain { name: u64 },
    Ranged { name: u64, low: i64, high: i64 },
}

// Where line `line` of a text stands, without its LF; for line 0 or a missing line, the empty stretch at the text's end.
pub fn line_span(text: &[u8], line: usize) -> Stretch
    ensures { result ≡ span_of text.now line }
{
    let none = Stretch {
        start: text.len(),
        end: text.len(),
    };
    let mut start: usize = 0;
    for earlier in 0..line {
        if text.len() <= start {
            return none;
        }
        let end = line::line_end(text, start);
        if earlier + 1 == line {
            return Stretch { start, end };
        }
        start = end + 1;
    }
    none
}

// Line `line` of a text, without its LF, as the part of the text where it stands; for line 0 or a missing line, the empty stretch at the text's end.
pub fn line_at(text: &[u8], line: usize) -> &[u8]
    ensures { IsLineOf text.entry line result }
{
    let Stretch { start, end } = line_span(text, line);
    &text[start..end]
}
