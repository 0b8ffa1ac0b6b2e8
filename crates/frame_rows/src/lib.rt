// Rows in a lent store of words, and their trace back to the input bits of a frame.
#![tactic(auto)]

ghost use Rattle.std.specs.Prelude.{◌≡◌, ◌+◌, ◌*◌, ◌<◌, ◌≤◌, true, length, take, MatchOption};
ghost use Rattle.std.specs.Slice.Exact.{rchunks_exact_rest, rchunks_exact_size};
ghost use Rattle.code.specs.Codes.{input, states};
ghost use Rattle.refusal.specs.Questions.{asked};
ghost use Rattle.frame_paths.specs.Rows.{all_steps, decoded, rows_in_range, origin, traced};
ghost use Rattle.frame_rows.specs.Traces.{Decoded, decode_questions, row_words, rows_in, sound, total_of};

use code::Code;
use plan::BLOCK;
use refusal::Refusal;
use std::slice::RChunksExact;

// A state of a code.
#[derive(Clone, Copy)]
struct State {
    code: Code,
    number: usize,
    ghost below: { number < states code },
}

impl State {
    // The state of this number, if the code has it.
    fn of(code: Code, number: usize) -> Option<State>
        ensures { MatchOption result (states code ≤ number) (λ s. (number < states code) × (s.code ≡ code) × (s.number ≡ number)) }
    {
        if number < code.states() {
            Some(State { code, number })
        } else {
            None
        }
    }

    // The input bit of each branch to this state.
    fn input(self) -> u8
        ensures { result ≡ input self.code self.number }
    {
        (self.number / (self.code.states() / 2)) as u8
    }

    // The state before so many steps that end in this state and drop the bits of this word, the earliest lowest: those
    // come back in below, and as many input bits go.
    fn before(self, steps: usize, word: u32) -> State
        requires { steps ≤ 32 }
        ensures code { result.code ≡ self.code }
        ensures number { result.number ≡ origin self.code steps self.number word }
    {
        let weight = 1 << steps;
        let number = (self.number * weight + word as usize % weight) % self.code.states();
        State {
            code: self.code,
            number,
        }
    }

    // Traces one row back from this state: writes the input bits, one for each step that dropped a bit of this word,
    // and answers the state before them.
    fn trace(self, word: u32, bits: &mut [u8]) -> State
        requires { length bits.old ≤ 32 }
        ensures code { result.code ≡ self.code }
        ensures before { result.number ≡ origin self.code (length bits.old) self.number word }
        ensures path { bits.new ≡ traced self.code (length bits.old) self.number word }
    {
        let mut state = self;
        // by places: a proof does not know what an iterator over `&mut` elements wrote from the back
        for t in (0..bits.len()).rev() {
            bits[t] = state.input();
            state = state.before(1, word >> t);
        }
        state
    }
}

// The rows in front of a store, and the state that the last of them ends in.
#[derive(Clone, Copy)]
struct Rows<'a> {
    end: State,
    count: usize,
    store: &'a [u32],
    ghost inside: { count * row_words end.code ≤ length store.now },
}

impl Rows<'_> {
    // So many rows, if the store has them.
    fn of(end: State, count: usize, store: &[u32]) -> Option<Rows<'_>>
        ensures { MatchOption result (length store.now < count * row_words end.code)
            (λ r. (count * row_words end.code ≤ length store.now) × (r.end ≡ end) × (r.count ≡ count) × (r.store.now ≡ store.now)) }
    {
        // a quotient, where a product could overflow
        if count <= store.len() / (1 + end.code.states()) {
            Some(Rows { end, count, store })
        } else {
            None
        }
    }

    // The words of each row, the latest first: the number of its steps, and a word for each state.
    fn latest_first(&self) -> RChunksExact<'_, u32>
        ensures rest { rchunks_exact_rest result ≡ take (self.now.count * row_words self.now.end.code) self.now.store.now }
        ensures size { rchunks_exact_size result ≡ row_words self.now.end.code }
    {
        let words = 1 + self.end.code.states();
        self.store[..self.count * words].rchunks_exact(words)
    }

    // Whether the rows are those of a frame of so many steps. The walk is that of `write_bits`, but trusts no length and
    // writes no bit, since a refusal leaves the buffer as found.
    fn is_sound(&self, steps: usize) -> bool
        ensures { result ≡ sound self.now.end.code (rows_in self.now.end.code self.now.store.now self.now.count) steps self.now.end.number }
    {
        let mut state = self.end;
        let mut left = steps;
        for row in self.latest_first() {
            let length = row[0] as usize;
            if length == 0 || length > BLOCK || length > left {
                return false;
            }
            left -= length;
            state = state.before(length, row[1 + state.number]);
        }
        left == 0 && state.number == 0
    }

    // Writes the bits that the rows decode to.
    fn write_bits(&self, bits: &mut [u8])
        requires range { rows_in_range (rows_in self.now.end.code self.now.store.now self.now.count) ≡ true }
        requires steps { all_steps (rows_in self.now.end.code self.now.store.now self.now.count) ≡ length bits.old }
        ensures { bits.new ≡ decoded self.now.end.code (rows_in self.now.end.code self.now.store.now self.now.count) self.now.end.number }
    {
        let mut state = self.end;
        // where a part of the buffer begins, only its row tells, so no iterator gives the parts
        let mut end = bits.len();
        for row in self.latest_first() {
            let start = end - row[0] as usize;
            state = state.trace(row[1 + state.number], &mut bits[start..end]);
            end = start;
        }
    }
}

// Decodes a frame of so many rows and steps that ends in this state: writes its input bits, the earliest
// first, and answers the total of the state. Asked in order, and refused at the first no, with nothing
// written: is there such a state (9); has the store the rows, and the buffer room for the steps (4); has
// the state a total (10); are the rows those of a frame of so many steps, by lengths of 1 to 32 and a
// trace that reaches state 0 (12)?
pub fn decode(
    code: Code,
    rows: usize,
    steps: usize,
    totals: &[Option<u32>],
    state: usize,
    store: &[u32],
    bits: &mut [u8],
) -> Result<u32, Refusal>
    ensures answer { result ≡ asked (decode_questions code rows steps totals.now state store.now (length bits.old))
        (total_of totals.now state) }
    ensures bits { Decoded code rows steps state store.now bits.old result bits.new }
{
    let end = State::of(code, state).ok_or(Refusal::Place)?;
    let rows = Rows::of(end, rows, store).ok_or(Refusal::Memory)?;
    if steps > bits.len() {
        return Err(Refusal::Memory);
    }
    let total = totals.get(state).copied().flatten().ok_or(Refusal::NoPath)?;
    if !rows.is_sound(steps) {
        return Err(Refusal::Rows);
    }
    rows.write_bits(&mut bits[..steps]);
    Ok(total)
}
