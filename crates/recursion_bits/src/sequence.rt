// The sequence of nine stages: each new bit is the exclusive or of the bits nine and five before it.
ghost use Rattle.std.specs.Prelude.{◌==◌};
ghost use Rattle.recursion_bits.specs.Sequence.{sequence_entry};
ghost use Rattle.std.proofs.Common.{arith, rules};
ghost use Rattle.std.proofs.lemmas.Bool.Decides.{nat_tests};

use algebra_scalars::Bit;
use recursion::Recursion;

// the place of the newest bit
const NEWEST: usize = 8;

#[derive(Clone, Copy)]
pub struct Sequence;

impl Recursion for Sequence {
    type Element = Bit;

    ghost dim = { λ _. 9 };

    ghost takes = { λ _ symbol. (symbol == 0) };

    ghost cell = { λ _ symbol i j. record { 0 = sequence_entry symbol i j } };

    ghost bounded = { Prim.search rules };

    ghost positive = { Prim.search rules };

    ghost outside = { unfold sequence_entry in λ r y i j h. Prim.grind (arith, nat_tests) };

    ghost refused = { unfold sequence_entry in λ r y i j h. Prim.grind (arith, nat_tests) };

    fn size(&self) -> usize {
        9
    }

    fn accepts(&self, symbol: u32) -> bool {
        symbol == 0
    }

    #[tactic(auto, using(std::proofs::lemmas::Bool::Decides::nat_tests), unfolding(crate::specs::Sequence::sequence_entry))]
    fn entry(&self, symbol: u32, i: usize, j: usize) -> Bit {
        let is_one = match j {
            NEWEST => i == 0 || i == 4,
            _ => j < NEWEST && i == j + 1,
        };
        Bit(self.accepts(symbol) && is_one)
    }
}
