// Targets: what letter a applies a block to.
ghost use Rattle.std.specs.Prelude.{◌≡◌, ℕ, ◌+◌, Bool, true, List, length};
ghost use Rattle.engine.specs.Matrices.{Blocked};

use algebra::Algebra;

// A target is a value with a buffer that is lent beside it: of a run the state, of a frame path metrics and a store of
// rows.
pub trait Target<E: Algebra> {
    // what the lent buffer is made of
    type Kept;

    // whether a buffer of so many elements has room for so many blocks more, of size d
    ghost roomy: { Self → ℕ → ℕ → ℕ → Bool };

    // what value and buffer become by a block of size d and so many symbols, whose matrix is a list, row by row
    ghost Applied: { Self → List Self.Kept → ℕ → ℕ → List E → Self → List Self.Kept → Type 0 };

    fn has_room(&self, d: usize, room: usize, blocks: usize) -> bool
        ensures { result ≡ roomy self.now d room blocks };

    // Applies a block of up to 32 symbols, whose matrix is d × d elements in normal form, where there is room for it;
    // else any outcome will do. The row helps.
    fn apply(
        &mut self,
        buffer: &mut [Self::Kept],
        block: &[E],
        d: usize,
        symbols: usize,
        row: &mut [E],
    )
        ensures applied { Blocked E.Algebra d symbols block.now (length row.old) → (n : ℕ) → roomy self.old d (length buffer.old) (n + 1) ≡ true →
            Applied self.old buffer.old d symbols block.now self.new buffer.new
            × (roomy self.new d (length buffer.new) n ≡ true) };
}
