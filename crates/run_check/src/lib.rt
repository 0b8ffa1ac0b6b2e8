// The check of a bit list: the check register's run from ones, computed by shifting a 32-bit number.
#![tactic(auto)]

ghost use Rattle.std.specs.Prelude.{◌≡◌};
ghost use Rattle.refusal.specs.Questions.{asked};
ghost use Rattle.run_check.specs.Check.{bit_questions, register_value, check_value};
ghost use Rattle.run_check.specs.Shift.{shifted, shifts};

use recursion_bits::POLYNOMIAL;
use refusal::Refusal;

// the most bits that are taken: a limit of its own, as many as that of a run
const LIMIT: usize = 1_000_000;

// 32 ones, from which the register starts, and by which it is inverted
const ONES: u32 = 0xFFFF_FFFF;

// Whether the bits may be taken: each byte is 0 or 1, and there are not too many.
fn ask(bits: &[u8]) -> Result<(), Refusal>
    ensures { result ≡ asked (bit_questions bits.now) tt }
{
    match bits.iter().position(|bit| *bit > 1) {
        Some(place) => Err(Refusal::Symbol { place }),
        None if bits.len() > LIMIT => Err(Refusal::Limit),
        None => Ok(()),
    }
}

// The register after one more bit.
#[tactic(auto, unfolding(crate::specs::Shift::shifted))]
fn shift(register: u32, bit: u8) -> u32
    ensures { result ≡ shifted register bit }
{
    if (register ^ u32::from(bit)) % 2 == 1 {
        (register / 2) ^ POLYNOMIAL
    } else {
        register / 2
    }
}

// The register after all bits.
fn shift_all(bits: &[u8]) -> u32
    ensures { result ≡ shifts 0xFFFFFFFF bits.now }
{
    bits.iter()
        .fold(ONES, |register, bit| shift(register, *bit))
}

// The check register after the bits, before inversion: the run from 33 ones, place k of the
// register weighing 2^k. Refused 2 with its place at the first byte that is neither 0 nor 1, then 3
// where there are more than 1,000,000 bytes.
pub fn register(bits: &[u8]) -> Result<u32, Refusal>
    ensures { result ≡ asked (bit_questions bits.now) (register_value bits.now) }
{
    ask(bits)?;
    Ok(shift_all(bits))
}

// The check of the bits: the same run with each of the 32 places inverted. Refused as `register` is.
pub fn check(bits: &[u8]) -> Result<u32, Refusal>
    ensures { result ≡ asked (bit_questions bits.now) (check_value bits.now) }
{
    Ok(register(bits)? ^ ONES)
}
