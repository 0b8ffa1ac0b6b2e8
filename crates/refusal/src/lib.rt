// Refusals: the closed list of reasons for which a call says no.
#![tactic(auto)]

ghost use Rattle.std.specs.Prelude.{◌≡◌};
ghost use Rattle.refusal.specs.Numbers.{number as numbered, place as placed};

use std::fmt;

#[derive(Clone, Copy, PartialEq, Eq, Debug)]
pub enum Refusal {
    // no code has this name
    Name,
    // the symbol at this place is not accepted
    Symbol { place: usize },
    // more symbols than may be taken
    Limit,
    // a buffer is too short, or made for another size
    Memory,
    // the letter at this place of the plan is not s, j or a
    Letter { place: usize },
    // the letter at this place finds too few matrices standing, or too many
    Standing { place: usize },
    // the letter j at this place would make a block of more than 32 symbols
    Block { place: usize },
    // the plan does not use up the symbols, or leaves a matrix standing
    Unfinished,
    // no element or state has this place
    Place,
    // the state has no total: no path ends there
    NoPath,
    // the rows of the store are not those of a frame: a length is not 1 to 32, the lengths are not all steps
    // together, or the trace does not reach state 0
    Rows,
    // a line is too long, or the field at this place is no number
    Text { place: usize },
}

impl Refusal {
    // The number by which a refusal is known outside, where it is two numbers and no enum: this one, and its place.
    pub fn number(self) -> u32
        ensures { result ≡ numbered self }
    {
        match self {
            Refusal::Name => 1,
            Refusal::Symbol { .. } => 2,
            Refusal::Limit => 3,
            Refusal::Memory => 4,
            Refusal::Letter { .. } => 5,
            Refusal::Standing { .. } => 6,
            Refusal::Block { .. } => 7,
            Refusal::Unfinished => 8,
            Refusal::Place => 9,
            Refusal::NoPath => 10,
            Refusal::Rows => 12,
            Refusal::Text { .. } => 13,
        }
    }

    // The place of the symbol, letter or field that was refused, else 0.
    pub fn place(self) -> usize
        ensures { result ≡ placed self }
    {
        match self {
            Refusal::Symbol { place }
            | Refusal::Letter { place }
            | Refusal::Standing { place }
            | Refusal::Text { place }
            | Refusal::Block { place } => place,
            _ => 0,
        }
    }
}

impl fmt::Display for Refusal {
    fn fmt<W: fmt::Write>(&self, f: &mut fmt::Formatter<W>) -> fmt::Result {
        write!(f, "refused {} at {}", self.number(), self.place())
    }
}
