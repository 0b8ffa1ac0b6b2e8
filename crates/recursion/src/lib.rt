// Recursions: which symbols move a state of d elements, and by which matrix.
#![tactic(auto)]

ghost use Rattle.std.specs.Prelude.{Bool, false, ◌⊎◌, ◌≡◌, ℕ, ◌≤◌};

use algebra::Algebra;

// The matrix of each symbol is the recursion's meaning. Its answers depend on the recursion's value
// and the arguments alone.
pub trait Recursion {
    type Element: Algebra;

    // the number of places of the state
    ghost dim: { Self → ℕ };

    // whether a symbol is accepted
    ghost takes: { Self → ℕ → Bool };

    // the entry of a symbol's matrix at two places
    ghost cell: { Self → ℕ → ℕ → ℕ → Self.Element };

    fn size(&self) -> usize
        ensures { result ≡ dim self.now };

    fn accepts(&self, symbol: u32) -> bool
        ensures { result ≡ takes self.now symbol };

    fn entry(&self, symbol: u32, i: usize, j: usize) -> Self::Element
        ensures { Self.Element.Algebra.mean result ≡ Self.Element.Algebra.mean (cell self.now symbol i j) };

    ghost bounded: { (r : Self) → dim r ≤ 64 };

    ghost positive: { (r : Self) → 1 ≤ dim r };

    ghost outside: { (r : Self) (y i j : ℕ) → (dim r ≤ i) ⊎ (dim r ≤ j) → Self.Element.Algebra.mean (cell r y i j) ≡ Self.Element.Algebra.ops.zero };

    ghost refused: { (r : Self) (y i j : ℕ) → takes r y ≡ false → Self.Element.Algebra.mean (cell r y i j) ≡ Self.Element.Algebra.ops.zero };
}
