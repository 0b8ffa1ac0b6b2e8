// Letter a: of what all states offer each state over a block, the least.
ghost use Rattle.std.specs.Prelude.{◌≡◌, ℕ, ◌+◌, true, false, length};
ghost use Rattle.frame_metrics.specs.Metrics.{Selects};
ghost use Rattle.frame_metrics.specs.Totals.{has_room, selection_allowed};

use crate::metrics::{Metrics, STATES};
use crate::offer::{settle, write_row};
use algebra_survivor::Survivor;
use plan::BLOCK;

impl Metrics {
    // Whether a block of so many symbols with a matrix of so many survivors may be selected from. The sizes
    // stand beside the matrix, as the evaluator of plans hands them on.
    fn may_select(&self, d: usize, symbols: usize, survivors: usize, room: usize) -> bool
        ensures { result ≡ selection_allowed self.now.rows d symbols survivors room }
    {
        d <= STATES && symbols <= BLOCK && survivors == d * d && self.has_room_for(d, room, 1)
    }

    // Add, compare and select over a block, whose matrix is d × d survivors, row by row, of so many symbols:
    // state j gets the least of all total(i) + cost(i, j), and of equal ones that of the lowest word. The row
    // of the block goes into the store: the number of symbols, and each state's word, 0 where it gets no
    // total. Without room for a row, or where the sizes do not fit, nothing happens.
    pub fn select(&mut self, matrix: &[Survivor], d: usize, symbols: usize, store: &mut [u32])
        ensures selected { Selects d symbols matrix.now self.old self.new store.old store.new }
        ensures stays { selection_allowed self.old.rows d symbols (length matrix.now) (length store.old) ≡ false
            → (self.new ≡ self.old) × (store.new ≡ store.old) }
        ensures long { length store.new ≡ length store.old }
        ensures room { (n : ℕ) → has_room self.old.rows d (length store.old) (n + 1) ≡ true
            → has_room self.new.rows d (length store.new) n ≡ true }
    {
        if !self.may_select(d, symbols, matrix.len(), store.len()) {
            return;
        }
        // on a copy: where a loop goes over the totals of a frame itself, a compiler cannot hold its code as a constant
        let mut after = *self;
        let best = after.best_offers(matrix, d);
        settle(&best[..d], &mut after.totals);
        let start = self.rows * (1 + d);
        write_row(
            &best[..d],
            symbols as u32,
            &mut store[start..start + (1 + d)],
        );
        after.rows += 1;
        *self = after;
    }
}
