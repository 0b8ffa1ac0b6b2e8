// Symbols: two soft values, what a branch costs against them, and whether they admit it.
ghost use Rattle.std.specs.Prelude.{◌≡◌};
ghost use Rattle.code.specs.Symbols.{accepted, soft_cost, branch_cost, agrees, admitted};

use super::description::Code;

// a symbol is BASE × first + second
pub const BASE: u32 = 16;

// a soft value goes from 0, surely 0, to SURE, surely 1
pub const SURE: u32 = 7;

// stands for a value that was not received; a symbol is a number, and so this is no `None`
pub const ERASED: u32 = 8;

// the greatest soft value on the side of code bit 0, and the least on the side of 1
const MOST_ZERO: u32 = 3;

const LEAST_ONE: u32 = 4;

// Whether both values are soft values or erased.
pub fn accepts(symbol: u32) -> bool
    ensures { result ≡ accepted symbol }
{
    symbol / BASE <= ERASED && symbol % BASE <= ERASED
}

impl Code {
    // What the branch costs against the symbol.
    pub fn cost(self, symbol: u32, register: u32) -> u32
        ensures { result ≡ branch_cost self symbol register }
    {
        let (first, second) = self.code_bits(register);
        value_cost(symbol / BASE, first) + value_cost(symbol % BASE, second)
    }

    // Whether the symbol admits the branch.
    pub fn admits(self, symbol: u32, register: u32) -> bool
        ensures { result ≡ admitted self symbol register }
    {
        let (first, second) = self.code_bits(register);
        accepts(symbol) && agrees(symbol / BASE, first) && agrees(symbol % BASE, second)
    }
}

// What a value costs against a code bit. A value is a digit of a symbol, and a code bit is sent as a number: so both
// are matched as numbers here, with no type of their own between.
fn value_cost(value: u32, bit: u32) -> u32
    ensures { result ≡ soft_cost value bit }
{
    match (value, bit) {
        (ERASED, _) => 0,
        (_, 0) => value,
        _ => SURE.saturating_sub(value),
    }
}

// Whether a value is erased or on the side of a code bit.
fn agrees(value: u32, bit: u32) -> bool
    ensures { result ≡ agrees value bit }
{
    match (value, bit) {
        (ERASED, _) => true,
        (_, 0) => value <= MOST_ZERO,
        _ => value >= LEAST_ONE,
    }
}
