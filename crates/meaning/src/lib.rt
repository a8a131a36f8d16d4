// What a translation is and what it means: definitions and their laws. Of code here stand only the grounds that they speak of, and their numbers.
#![tactic(auto)]

ghost use Rattle.std.specs.Prelude.{◌≡◌};
ghost use Rattle.meaning.specs.Grounds.{refusal_number};

// The grounds on which a sheet is refused, 19 to 30.
#[derive(Clone, Copy, PartialEq, Eq)]
pub enum Refusal {
    Lists,
    Text,
    FirstLine,
    Version,
    Brackets,
    Form,
    Names,
    Order,
    Equalities,
    Beyond,
    Many,
    Undeclared,
}

// Document 01's number of a refusal.
impl From<Refusal> for usize {
    ghost from_gives = { λ refusal number. number ≡ refusal_number refusal };

    fn from(refusal: Refusal) -> usize {
        match refusal {
            Refusal::Lists => 19,
            Refusal::Text => 20,
            Refusal::FirstLine => 21,
            Refusal::Version => 22,
            Refusal::Brackets => 23,
            Refusal::Form => 24,
            Refusal::Names => 25,
            Refusal::Order => 26,
            Refusal::Equalities => 27,
            Refusal::Beyond => 28,
            Refusal::Many => 29,
            Refusal::Undeclared => 30,
        }
    }
}
