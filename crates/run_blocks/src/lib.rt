// The check of a bit list by look-ahead: the check register's run from ones, taken in blocks under a plan.
#![tactic(auto)]

ghost use Rattle.std.specs.Prelude.{◌≡◌, ◌^◌, ◌<◌, ◌≤◌, not, length, if◌then◌else◌};
ghost use Rattle.refusal.specs.Questions.{asked};
ghost use Rattle.run_check.specs.Check.{weigh};
ghost use Rattle.run_blocks.specs.Blocks.{Kept, block_questions, checked, place_of};

use algebra_scalars::Bit;
use engine::Run;
use recursion_bits::CheckRegister;
use refusal::Refusal;

// the places of the run's state: the register's bits, and one that stays 1
pub const PLACES: usize = 33;

// the places of the register's bits
const BITS: usize = 32;

// A check, and how many joins it took.
#[derive(Clone, Copy)]
pub struct Checked {
    pub value: u32,
    pub joins: usize,
}

// The places as a number, each inverted.
fn inverted(places: &[Bit]) -> u32
    requires { length places.now ≤ 32 }
    ensures { result ≡ weigh (length places.now) (λ k. not (place_of places.now k)) }
{
    let mut value = 0;
    for (place, bit) in places.iter().enumerate() {
        value += u32::from(!bit.0) << place;
    }
    value
}

// The check of bits, which are taken as symbols in one delivery, and how many joins the plan made. Whatever
// the plan, the check by blocks is the check: its value is that of `run_check::check`. The work area and the
// row are those of `Run::take`, and so are the refusals, as for a fresh run of 33 places: 5 to 8 for the plan,
// 2 with its place at a symbol that is neither 0 nor 1, 3 where there are more than 1,000,000, 4 where work
// area or row are too short. A refusal leaves both as found; else they are free.
pub fn check_by_blocks(
    symbols: &[u32],
    plan: &[u8],
    work: &mut [Bit],
    row: &mut [Bit],
) -> Result<Checked, Refusal>
    ensures answer { result ≡ asked (block_questions symbols.now plan.now (length work.old) (length row.old))
        (checked symbols.now plan.now) }
    ensures kept { Kept result work.old row.old work.new row.new }
{
    let mut state = [Bit(true); PLACES];
    let mut run = Run::over(&mut state);
    run.make(&CheckRegister)?;
    let (_, joins) = run.take(&CheckRegister, symbols, plan, work, row)?;
    Ok(Checked {
        value: inverted(&state[0..BITS]),
        joins,
    })
}
