// The metrics of a frame.
ghost use Rattle.std.specs.Prelude.{◌≡◌, ℕ, ◌*◌, ◌<◌, ◌≤◌, length, Some, None};
ghost use Rattle.frame_rows.specs.Traces.{state_total, total_of};
ghost use Rattle.frame_metrics.specs.Totals.{has_room, most_cost, most_rows};

// The most states, as many as the rows of the engine's largest matrix. Arrays have room for as many in every frame, since
// no call uses a heap.
pub(crate) const STATES: usize = 64;

// The most rows that may be written.
pub(crate) const MOST_ROWS: usize = 4096;

// The total of the best path to each state, none where no path ends, and how many rows letter a has
// written.
#[derive(Clone, Copy)]
pub struct Metrics {
    pub(crate) totals: [Option<u32>; STATES],
    pub(crate) rows: usize,
    ghost full: { length totals ≡ 64 },
    ghost few: { rows ≤ most_rows },
    // each row was of a block whose cost has 16 bits, so no total ever comes near 32 bits
    ghost low: { (j : ℕ) → total_of totals j ≤ most_cost * rows },
}

impl Metrics {
    // The metrics before any block: total 0 at state 0, and none elsewhere.
    pub fn fresh() -> Metrics
        ensures start { state_total result.totals 0 ≡ Some 0 }
        ensures others { (j : ℕ) → 0 < j → state_total result.totals j ≡ None }
        ensures rows { result.rows ≡ 0 }
    {
        let mut totals = [None; STATES];
        totals[0] = Some(0);
        Metrics { totals, rows: 0 }
    }

    // How many rows were written.
    pub fn rows(&self) -> usize
        ensures { result ≡ self.now.rows }
    {
        self.rows
    }

    // The total of each state, if it has one.
    pub fn totals(&self) -> &[Option<u32>]
        ensures { result.now ≡ self.now.totals }
    {
        &self.totals
    }

    // Whether so many more blocks of d states may be taken, with a store of so many words for the rows.
    pub fn has_room_for(&self, d: usize, room: usize, blocks: usize) -> bool
        ensures { result ≡ has_room self.now.rows d room blocks }
    {
        if blocks > MOST_ROWS - self.rows {
            return false;
        }
        let rows = self.rows + blocks;
        // a quotient, since 1 + d and the product with it could overflow
        rows == 0 || d < room / rows
    }
}
