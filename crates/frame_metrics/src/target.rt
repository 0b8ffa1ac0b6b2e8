// Metrics as what letter a of a plan applies a block to, with the store of rows as the lent buffer.
ghost use Rattle.frame_metrics.specs.Metrics.{Applies};
ghost use Rattle.frame_metrics.specs.Totals.{has_room};

use crate::metrics::Metrics;
use algebra_survivor::Survivor;
use engine::Target;

impl Target<Survivor> for Metrics {
    type Kept = u32;

    ghost roomy = { λ m d room n. has_room m.rows d room n };

    ghost Applied = { Applies };

    fn has_room(&self, d: usize, room: usize, blocks: usize) -> bool {
        self.has_room_for(d, room, blocks)
    }

    fn apply(
        &mut self,
        buffer: &mut [u32],
        block: &[Survivor],
        d: usize,
        symbols: usize,
        row: &mut [Survivor],
    ) {
        self.select(block, d, symbols, buffer);
    }
}
