// Two algebras whose elements are single numbers: bits, and counts modulo 4,294,967,296. They are two types, not one
// over `bool` and `u32`: values, operations and laws differ, and what they write alike is a line each.
#![tactic(auto)]

mod bit;
mod count;

pub use bit::{Bit, bit_formulas};
pub use count::{Count, count_formulas};
