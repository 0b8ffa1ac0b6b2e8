// Branches: where they go, and their code bits.
ghost use Rattle.std.specs.Prelude.{◌≡◌, ℕ, ◌-◌, ◌/◌, ◌<◌, IfSome, Some};
ghost use Rattle.code.specs.Codes.{states, register_of, next, branch, code_bit};

use super::description::Code;

impl Code {
    // The number of input bits that a state holds, K − 1.
    pub fn memory(self) -> u32
        ensures { result ≡ self.constraint - 1 }
    {
        self.constraint - 1
    }

    // The number of states.
    pub fn states(self) -> usize
        ensures { result ≡ states self }
    {
        1 << self.memory()
    }

    // The register of the branch from one state to another, if a branch goes there.
    pub fn branch(self, from: usize, to: usize) -> Option<u32>
        ensures value { result ≡ branch self from to }
        ensures leads { (u : ℕ) → from < states self → u < 2 → next self from u ≡ to → result ≡ Some (register_of self from u) }
        ensures ends { IfSome result (λ held. held / 2 ≡ to) }
    {
        let states = self.states();
        if from < states && to < states && to & (states / 2 - 1) == from >> 1 {
            let input = to >> (self.memory() - 1);
            Some((input * states + from) as u32)
        } else {
            None
        }
    }

    // The two code bits of a branch.
    pub fn code_bits(self, register: u32) -> (u32, u32)
        ensures { result ≡ (code_bit register self.first, code_bit register self.second) }
    {
        (
            common_parity(register, self.first),
            common_parity(register, self.second),
        )
    }
}

// The parity of the ones common to the register and a generator.
#[tactic(auto, unfolding(crate::specs::Codes::code_bit))]
fn common_parity(register: u32, generator: u32) -> u32
    ensures { result ≡ code_bit register generator }
{
    (register & generator).count_ones() % 2
}
