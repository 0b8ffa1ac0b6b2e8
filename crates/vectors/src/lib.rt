// Test vectors made by other software: which lines are cases, what their fields list, and how many agreed.
#![tactic(auto)]

ghost use Rattle.std.specs.Prelude.{◌≡◌};
ghost use Rattle.vectors.specs.Lines.{case_line};

mod field;
mod tally;

pub use field::{FieldError, bits, listed};
pub use tally::Tally;

// Whether a line is a case: it is not empty, and no remark, which begins with #.
pub fn is_case(line: &str) -> bool
    ensures { result ≡ case_line line.now }
{
    !matches!(line.as_bytes(), [] | [b'#', ..])
}
