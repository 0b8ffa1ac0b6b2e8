// Offers: what the states offer each state over a block, and the best of it.
ghost use Rattle.std.specs.Prelude.{◌≡◌, ℕ, ◌+◌, ◌*◌, ◌<◌, ◌≤◌, length, drop, slice_index, slice_index_or};
ghost use Rattle.algebra_survivor.specs.Survivors.{none_row};
ghost use Rattle.frame_rows.specs.Traces.{state_total};
ghost use Rattle.frame_metrics.specs.Offers.{best_offer, bettered, least, offer_high, offer_total, offer_word};
ghost use Rattle.frame_metrics.specs.Totals.{most_cost, most_rows};

use crate::metrics::{Metrics, STATES};
use algebra_survivor::{LONGEST, Survivor};

// What a state is offered: the total that it would get, and the word of the path over the block. Offers are in the
// order of their totals, and then of their words: the least is the best.
#[derive(Clone, Copy, PartialEq, Eq, PartialOrd, Ord)]
pub(crate) struct Offer {
    pub(crate) total: u32,
    pub(crate) word: u32,
}

impl Offer {
    // The better of this offer and the best so far, if there is one.
    fn or_better(self, best: Option<Offer>) -> Offer
        ensures { result ≡ least best self }
    {
        best.map_or(self, |best| best.min(self))
    }
}

// Offers each state what a state of this total has for it over a row of survivors: the best stays.
fn offer_row(total: u32, row: &[Survivor], best: &mut [Option<Offer>])
    requires total_bound { total ≤ most_cost * most_rows }
    requires row_in_bounds { length row.now ≤ length best.old }
    ensures better { (j : ℕ) → j < length row.now → slice_index_or best.new j None
        ≡ bettered (slice_index_or best.old j None) total (slice_index_or row.now j none_row) }
    ensures low { (most j : ℕ) → total ≤ most → offer_high (slice_index_or best.old j None) ≤ most + most_cost
        → offer_high (slice_index_or best.new j None) ≤ most + most_cost }
{
    // by places, here and below: a proof does not know what an iterator over `&mut` elements beside another wrote
    for (j, cell) in row.iter().enumerate() {
        if cell.length <= LONGEST {
            let offer = Offer {
                total: total + cell.cost as u32,
                word: cell.word,
            };
            best[j] = Some(offer.or_better(best[j]));
        }
    }
}

impl Metrics {
    // The best offer to each of d states over a matrix of d × d survivors.
    pub(crate) fn best_offers(&self, matrix: &[Survivor], d: usize) -> [Option<Offer>; STATES]
        requires d_bound { d ≤ 64 }
        requires matrix_len { length matrix.now ≡ d * d }
        ensures long { length result ≡ 64 }
        ensures best { (j : ℕ) → j < d → slice_index_or result j None ≡ best_offer self.now.totals matrix.now d j d }
        ensures low { (j : ℕ) → offer_high (slice_index_or result j None) ≤ most_cost * self.now.rows + most_cost }
    {
        let mut best = [None; STATES];
        // chunks have one element or more, and a size of 0 has no rows
        for (total, row) in self.totals.iter().zip(matrix.chunks_exact(d.max(1))) {
            if let Some(total) = total {
                offer_row(*total, row, &mut best);
            }
        }
        best
    }
}

// Gives each state the total of its best offer.
pub(crate) fn settle(best: &[Option<Offer>], totals: &mut [Option<u32>])
    requires { length best.now ≤ length totals.old }
    ensures settled { (j : ℕ) → j < length best.now → state_total totals.new j ≡ offer_total (slice_index_or best.now j None) }
    ensures rest { drop (length best.now) totals.new ≡ drop (length best.now) totals.old }
{
    for (j, offer) in best.iter().enumerate() {
        totals[j] = offer.map(|offer| offer.total);
    }
}

// Writes a row: the number of symbols of the block, and the word of each state's best offer.
pub(crate) fn write_row(best: &[Option<Offer>], symbols: u32, row: &mut [u32])
    requires { length row.old ≡ 1 + length best.now }
    ensures steps { slice_index row.new 0 ≡ symbols }
    ensures words { (j : ℕ) → j < length best.now → slice_index row.new (1 + j) ≡ offer_word (slice_index_or best.now j None) }
{
    row[0] = symbols;
    for (j, offer) in best.iter().enumerate() {
        row[1 + j] = offer.map_or(0, |offer| offer.word);
    }
}
