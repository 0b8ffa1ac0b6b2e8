// The count trellis of a code: an admitted branch counts as one.
ghost use Rattle.code.specs.Codes.{states};
ghost use Rattle.code.specs.Symbols.{accepted};
ghost use Rattle.recursion_trellis.specs.Counts.{count_entry};
ghost use Rattle.code.proofs.Sizes.{states_bounded, states_positive};
ghost use Rattle.std.proofs.Common.{ap};
ghost use Rattle.std.specs.Prelude.{if◌then◌else◌};
ghost use Rattle.std.proofs.lemmas.Bool.{and_left, and_right};
ghost use Rattle.algebra_scalars.specs.Counts.{residue_of};
ghost use Rattle.code.proofs.Next.{goes_outside};

use algebra_scalars::Count;
use code::Code;
use recursion::Recursion;

#[derive(Clone, Copy)]
pub struct CountTrellis {
    pub code: Code,
}

impl Recursion for CountTrellis {
    type Element = Count;

    ghost dim = { λ t. states t.code };

    ghost takes = { λ _ y. accepted y };

    ghost cell = { λ t y i j. record { 0 = count_entry t.code y i j } };

    ghost bounded = { λ t. states_bounded t.code };

    ghost positive = { λ t. states_positive t.code };

    ghost outside = { λ t y i j h. ap (λ b. residue_of (if b then 1 else 0)) (and_left _ _ (goes_outside t.code i j h)) };

    ghost refused = { λ t y i j h. ap (λ b. residue_of (if b then 1 else 0)) (and_right _ _ (and_left _ _ h)) };

    fn size(&self) -> usize {
        self.code.states()
    }

    fn accepts(&self, symbol: u32) -> bool {
        code::accepts(symbol)
    }

    fn entry(&self, symbol: u32, i: usize, j: usize) -> Count {
        match self.code.branch(i, j) {
            Some(register) if self.code.admits(symbol, register) => Count(1),
            _ => Count(0),
        }
    }
}
