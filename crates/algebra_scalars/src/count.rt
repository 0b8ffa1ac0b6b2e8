// Counts: sum and product modulo 4,294,967,296.
ghost use Rattle.std.specs.Prelude.{true};
ghost use Rattle.algebra_scalars.specs.Counts.{Residue, residue_of, count_ops, CountFormulas};
ghost use Rattle.algebra_scalars.specs.CountsLemmas.{count_laws};

use algebra::Algebra;

#[derive(Clone, Copy, PartialEq, Eq, Debug)]
pub struct Count(pub u32);

impl Algebra for Count {
    ghost Value = { Residue };

    ghost mean = { λ c. residue_of c.0 };

    ghost ops = { count_ops };

    ghost normal = { λ _. true };

    ghost lawful = { count_laws };

    fn zero() -> Count {
        Count(0)
    }

    fn one() -> Count {
        Count(1)
    }

    fn sum(self, other: Count) -> Count {
        Count(self.0.wrapping_add(other.0))
    }

    fn product(self, other: Count) -> Count {
        Count(self.0.wrapping_mul(other.0))
    }

    fn same(self, other: Count) -> bool {
        self == other
    }

    fn normalized(self) -> Count {
        self
    }
}

// The operations on counts, in numbers.
pub fn count_formulas()
    ensures { CountFormulas }
{}
