// The survivor trellis of a code: a branch is a path of one step.
ghost use Rattle.std.specs.Prelude.{◌≡◌, ◌&&◌};
ghost use Rattle.std.proofs.Common.{ap};
ghost use Rattle.algebra_survivor.specs.Survivors.{path_of, row_ranged};
ghost use Rattle.code.specs.Codes.{states, goes};
ghost use Rattle.code.specs.Symbols.{accepted};
ghost use Rattle.recursion_trellis.specs.Survivors.{survivor_entry};
ghost use Rattle.code.proofs.Sizes.{states_bounded, states_positive};
ghost use Rattle.std.proofs.lemmas.Bool.{and_left, and_right};
ghost use Rattle.code.proofs.Next.{goes_outside};
ghost use Rattle.recursion_trellis.specs.SurvivorsLemmas.{entry_none};

use algebra::Algebra;
use algebra_survivor::Survivor;
use code::Code;
use recursion::Recursion;

#[derive(Clone, Copy)]
pub struct SurvivorTrellis {
    pub code: Code,
}

impl Recursion for SurvivorTrellis {
    type Element = Survivor;

    ghost dim = { λ t. states t.code };

    ghost takes = { λ _ y. accepted y };

    ghost cell = { λ t y i j. survivor_entry t.code y i j };

    ghost bounded = { λ t. states_bounded t.code };

    ghost positive = { λ t. states_positive t.code };

    ghost outside = { λ t y i j h. ap path_of (entry_none t.code y i j (and_left _ _ (goes_outside t.code i j h))) };

    ghost refused = { λ t y i j h. ap path_of (entry_none t.code y i j (and_right _ _ h)) };

    fn size(&self) -> usize {
        self.code.states()
    }

    fn accepts(&self, symbol: u32) -> bool {
        code::accepts(symbol)
    }

    // The row is in range, and so means its three numbers, exactly where a branch goes and the symbol is accepted.
    fn entry(&self, symbol: u32, i: usize, j: usize) -> Survivor
        ensures value { path_of result ≡ path_of (survivor_entry self.now.code symbol i j) }
        ensures ranged { row_ranged result ≡ (goes self.now.code i j && accepted symbol) }
    {
        match self.code.branch(i, j) {
            Some(register) if self.accepts(symbol) => Survivor {
                word: (i % 2) as u32,
                cost: self.code.cost(symbol, register) as u16,
                length: 1,
            },
            _ => Survivor::zero(),
        }
    }
}
