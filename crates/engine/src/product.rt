// The product of two matrices, as a call of its own.
ghost use Rattle.std.specs.Prelude.{◌≡◌, ◌*◌, ◌&&◌, [], ◌∷◌, length, nat_le};
ghost use Rattle.refusal.specs.Questions.{asked};
ghost use Rattle.engine.specs.Matrices.{Multiplied, multiplies};

use crate::matrix::{join_pair, normalize};
use crate::size::Size;
use algebra::Algebra;
use refusal::Refusal;

// Whether so many elements hold two matrices of d × d, and a row of them its d.
fn has_two(d: usize, work: usize, row: usize) -> bool
    ensures { result ≡ (nat_le d 64 && (nat_le d row && nat_le (2 * (d * d)) work)) }
{
    d <= Size::LARGEST && d <= row && 2 * (d * d) <= work
}

// Multiplies the matrix of d × d elements at the front of the work area by the one after it. The product
// takes the place of the first; the second and the row are free then. Refused 4 where d is above 64, the
// work area has not two matrices or the row not d elements; nothing is changed then.
pub fn multiply<E: Algebra>(work: &mut [E], row: &mut [E], d: usize) -> Result<(), Refusal>
    ensures answer { result ≡ asked (multiplies d (length work.old) (length row.old) ∷ []) (record {}) }
    ensures product { Multiplied E.Algebra d work.old row.old result work.new row.new }
{
    if !has_two(d, work.len(), row.len()) {
        return Err(Refusal::Memory);
    }
    let size = Size { rows: d };
    let pair = &mut work[..2 * size.elements()];
    normalize(pair);
    join_pair(size, pair, &mut row[..d]);
    Ok(())
}
