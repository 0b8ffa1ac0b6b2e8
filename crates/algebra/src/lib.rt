// Algebras: elements with a sum, a product, a zero and a one.
#![tactic(auto)]

ghost use Rattle.std.specs.Prelude.{◌≡◌, Bool, true, false, ◌≢◌};
ghost use Rattle.algebra.specs.Laws.{Ops, Laws};

// An element lies in a buffer as a plain row. What counts is the value that it means: two rows are
// equal when they mean the same.
pub trait Algebra: Copy {
    // the values
    ghost Value: { Type 0 };

    // the value that a row means
    ghost mean: { Self → Value };

    // sum, product, zero and one, on values
    ghost ops: { Ops Value };

    // whether a row is of the form that `normalized` gives, on which `accumulate` may rely
    ghost normal: { Self → Bool };

    fn zero() -> Self
        ensures value { mean result ≡ ops.zero }
        ensures normal { normal result ≡ true };

    fn one() -> Self
        ensures { mean result ≡ ops.one };

    fn sum(self, other: Self) -> Self
        ensures { mean result ≡ ops.add (mean self) (mean other) };

    fn product(self, other: Self) -> Self
        ensures { mean result ≡ ops.mul (mean self) (mean other) };

    // Equality by meaning, and no operator: on rows that mean the same in two forms, `==` would compare the forms.
    fn same(self, other: Self) -> bool
        ensures equal { result ≡ true → mean self ≡ mean other }
        ensures differ { result ≡ false → mean self ≢ mean other };

    // The same value in normal form: a range is tested here, and not again in an inner loop.
    fn normalized(self) -> Self
        ensures value { mean result ≡ mean self }
        ensures normal { normal result ≡ true };

    // Whether a normal row means zero; on other rows any answer will do.
    fn is_zero(self) -> bool
        ensures zero { normal self ≡ true → result ≡ true → mean self ≡ ops.zero }
        ensures other { normal self ≡ true → result ≡ false → mean self ≢ ops.zero }
    {
        self.same(Self::zero())
    }

    // self ⊕ a ⊗ b of three normal rows; on other rows any answer will do.
    fn accumulate(self, a: Self, b: Self) -> Self
        ensures value { normal self ≡ true → normal a ≡ true → normal b ≡ true →
            mean result ≡ ops.add (mean self) (ops.mul (mean a) (mean b)) }
        ensures normal { normal self ≡ true → normal a ≡ true → normal b ≡ true → normal result ≡ true }
    {
        self.sum(a.product(b)).normalized()
    }

    ghost lawful: { Laws ops };
}

// The eight laws hold in every algebra.
pub fn laws_hold<E: Algebra>()
    ensures { Laws E.Algebra.ops }
{}
