// The sequence of nine stages: a state of nine bits that is shifted, and the bits that it gives.
#![tactic(auto)]

ghost use Rattle.std.specs.Prelude.{◌≡◌, ℕ, ◌<◌, ◌≤◌, length, drop};
ghost use Rattle.refusal.specs.Questions.{asked};
ghost use Rattle.algebra_scalars.specs.Bits.{bit_ops};
ghost use Rattle.recursion.specs.Steps.{stepped};
ghost use Rattle.recursion_bits.specs.Sequence.{sequence_entry};
ghost use Rattle.run_sequence.specs.Sequence.{Ran, bit_at, sequence_questions};

use algebra::Algebra;
use algebra_scalars::Bit;
use refusal::Refusal;

// the most steps of one call: a limit of its own, as many as that of a run
const LIMIT: usize = 1_000_000;

// the stages, and so the places of the state
const STAGES: usize = 9;

// the place of the newest bit; the recursion numbers its places itself, and shares no code with this shift
const NEWEST: usize = 8;

// Whether so many steps may be made on a state of so many elements.
#[tactic(auto, using(std::proofs::lemmas::Bool::Decides::nat_tests), unfolding(refusal::specs::Questions::least))]
fn ask(steps: usize, elements: usize) -> Result<(), Refusal>
    ensures { result ≡ asked (sequence_questions steps elements) tt }
{
    if steps > LIMIT {
        return Err(Refusal::Limit);
    }
    if elements < STAGES {
        return Err(Refusal::Memory);
    }
    Ok(())
}

// One step: each bit moves down a place, and the bits that stood at places 0 and 4 give the newest.
fn shift(state: &mut [Bit])
    requires { 9 ≤ length state.old }
    ensures after { (j : ℕ) → j < 9 → bit_at state.new j ≡ stepped bit_ops 9 (bit_at state.old) (sequence_entry 0) j }
    ensures rest { drop 9 state.new ≡ drop 9 state.old }
{
    let newest = state[0].sum(state[4]);
    state.copy_within(1..STAGES, 0);
    state[NEWEST] = newest;
}

// Makes one step for each byte of `bits`, and writes there the newest bit after it, 0 or 1. The state
// is the first nine elements, place 8 the newest bit; nine ones give 0 0 0 0 0 1 1 1 1 0 1. Refused
// 3 where there are more than 1,000,000 bytes, then 4 where the state has fewer than nine elements;
// a refusal leaves both as found.
pub fn sequence(state: &mut [Bit], bits: &mut [u8]) -> Result<(), Refusal>
    ensures answer { result ≡ asked (sequence_questions (length bits.old) (length state.old)) tt }
    ensures ran { Ran state.old bits.old result state.new bits.new }
{
    ask(bits.len(), state.len())?;
    for bit in bits.iter_mut() {
        shift(state);
        *bit = u8::from(state[NEWEST].0);
    }
    Ok(())
}
