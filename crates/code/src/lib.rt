// Convolutional codes of rate 1/2: their names, their branches, and what a branch costs.
#![tactic(auto)]

ghost use Rattle.std.specs.Prelude.{◌≡◌};
ghost use Rattle.code.specs.Codes.{named};

use refusal::Refusal;

mod branch;
mod description;
mod symbol;

pub use description::Code;
pub use symbol::{BASE, ERASED, SURE, accepts};

// The code of this name, k3 or k7. It is no `FromStr`, since `text.parse()` would not say that the text is a name.
pub fn by_name(name: &str) -> Result<Code, Refusal>
    ensures { result ≡ named name.now }
{
    match name {
        "k3" => Ok(Code {
            constraint: 3,
            first: 0o7,
            second: 0o5,
        }),
        "k7" => Ok(Code {
            constraint: 7,
            first: 0o171,
            second: 0o133,
        }),
        _ => Err(Refusal::Name),
    }
}
