// The state of a run as what letter a applies a block to.
ghost use Rattle.std.specs.Prelude.{◌&&◌, ◌==◌, nat_le};
ghost use Rattle.engine.specs.Vectors.{Moved};

use crate::matrix::apply;
use crate::size::Size;
use crate::target::Target;
use algebra::Algebra;

// A state of so many elements, in the lent buffer: its first `size` elements.
#[derive(Clone, Copy)]
pub(crate) struct Vector {
    pub(crate) size: usize,
}

impl<E: Algebra> Target<E> for Vector {
    type Kept = E;

    ghost roomy = { λ v d room n. (d == v.size && nat_le d room) };

    ghost Applied = { Moved E.Algebra };

    fn has_room(&self, d: usize, room: usize, blocks: usize) -> bool {
        d == self.size && d <= room
    }

    fn apply(&mut self, buffer: &mut [E], block: &[E], d: usize, symbols: usize, row: &mut [E]) {
        if d <= Size::LARGEST && block.len() == d * d && d <= buffer.len() && d <= row.len() {
            apply(Size { rows: d }, buffer, block, row);
        }
    }
}
