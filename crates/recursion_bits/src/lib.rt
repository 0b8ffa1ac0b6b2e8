// Two recursions over bits: the check register, and the sequence of nine stages.
#![tactic(auto)]

mod register;
mod sequence;

pub use register::{CheckRegister, POLYNOMIAL};
pub use sequence::Sequence;
