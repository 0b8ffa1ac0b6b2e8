// Bits: the sum is exclusive or, the product is and.
ghost use Rattle.std.specs.Prelude.{Bool, true};
ghost use Rattle.algebra_scalars.specs.Bits.{bit_ops, BitFormulas};
ghost use Rattle.algebra_scalars.specs.BitsLemmas.{bit_laws};

use algebra::Algebra;

#[derive(Clone, Copy, PartialEq, Eq, Debug)]
pub struct Bit(pub bool);

impl Algebra for Bit {
    ghost Value = { Bool };

    ghost mean = { λ b. b.0 };

    ghost ops = { bit_ops };

    ghost normal = { λ _. true };

    ghost lawful = { bit_laws };

    fn zero() -> Bit {
        Bit(false)
    }

    fn one() -> Bit {
        Bit(true)
    }

    fn sum(self, other: Bit) -> Bit {
        Bit(self.0 ^ other.0)
    }

    fn product(self, other: Bit) -> Bit {
        Bit(self.0 & other.0)
    }

    fn same(self, other: Bit) -> bool {
        self == other
    }

    fn normalized(self) -> Bit {
        self
    }
}

// The operations on bits, in numbers.
pub fn bit_formulas()
    ensures { BitFormulas }
{}
