// What the fields of a case hold: a list, or a dash where there is nothing to list.
ghost use Rattle.std.specs.Prelude.{◌≡◌, ℕ, All, map, filter, IfOk, IsErrOf};
ghost use Rattle.vectors.specs.Lines.{IsDigit, bit, listing, no_dash};
ghost use Rattle.vectors.specs.declared.field.FieldError.TheVariants.{OutOfMemory};

use std::alloc::{AllocFailed, Global};
use thiserror::Error;

#[derive(Clone, Copy, PartialEq, Eq, Debug, Error)]
pub enum FieldError {
    #[error("a field of bits has another character")]
    Character,
    #[error("memory allocation failed")]
    OutOfMemory,
}

// By hand: the derive's From has no contract, and bits says which error comes when.
impl<T: Drop> From<AllocFailed<T>> for FieldError {
    ghost from_gives = { λ _ e. e ≡ OutOfMemory };

    fn from(_e: AllocFailed<T>) -> FieldError {
        FieldError::OutOfMemory
    }
}

// What a field lists: - is an empty list.
pub fn listed(field: &str) -> &str
    ensures { result.now ≡ listing field.now }
{
    match field {
        "-" => "",
        _ => field,
    }
}

// The bits of a field of characters 0 and 1, where a dash stands for no bit.
pub fn bits(heap: Global, field: &str) -> Result<Vec<u8>, FieldError>
    ensures digits { IfOk result (λ bits. All IsDigit (filter no_dash field.now)) }
    ensures bits { IfOk result (λ bits. bits.items ≡ map bit (filter no_dash field.now)) }
    ensures refused { IsErrOf result FieldError.Character → All IsDigit (filter no_dash field.now) → ⊥ }
{
    let mut bits = Vec::new(heap);
    for character in field.bytes() {
        match character {
            b'0' => bits.push(0)?,
            b'1' => bits.push(1)?,
            b'-' => {}
            _ => return Err(FieldError::Character),
        }
    }
    Ok(bits)
}
