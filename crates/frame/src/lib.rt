// Frames: the decoder that answers the cheapest path to a state.
#![tactic(auto)]

ghost use Rattle.std.specs.Prelude.{◌≡◌, ℕ, ◌<◌, length, Some, None};
ghost use Rattle.frame_rows.specs.Traces.{state_total};
ghost use Rattle.frame.specs.Frames.{Took, Traced};
ghost use Rattle.frame.specs.Histories.{Alike, Counted, Whole};

use algebra_survivor::Survivor;
use code::Code;
use engine::deliver;
use frame_metrics::Metrics;
use recursion_trellis::SurvivorTrellis;
use refusal::Refusal;

mod counts;

// The most symbols that one frame may take.
pub const LIMIT: usize = 4096;

// A frame of a code: how many symbols it has taken, and for each state the least cost of a path to it, if any path
// ends there. What the paths are is kept in a lent store of rows.
#[derive(Drop)]
pub struct Frame {
    code: Code,
    steps: usize,
    metrics: Metrics,
}

impl Frame {
    // A fresh frame. Whatever takes and decodes then follow, with one store that nothing else writes, in any order, with
    // repeats and refusals, every answer and every bit is that of the plain frame, which knows only paths: `Whole` says
    // so. `Counted` says the same of its counts, and `Alike` that plans do not matter.
    pub fn new(code: Code) -> Frame
        ensures code { result.code ≡ code }
        ensures steps { result.steps ≡ 0 }
        ensures rows { result.metrics.rows ≡ 0 }
        ensures start { state_total result.metrics.totals 0 ≡ Some 0 }
        ensures others { (j : ℕ) → 0 < j → state_total result.metrics.totals j ≡ None }
        ensures whole { Whole code result }
        ensures counted { Counted code result }
        ensures alike { Alike code }
    {
        Frame {
            code,
            steps: 0,
            metrics: Metrics::fresh(),
        }
    }

    // Takes symbols under a plan, and answers how many and how many joins that made. Work area and row are as for a run.
    // Each letter a appends a row to the store. The questions are those of a delivery, in its order: 5, 6, 7 and 8 of the
    // plan, 2 of the symbols, 3 of the limit of 4,096 symbols; and 4: has the store a row for each letter a so far and to
    // come, and do work area and row suffice? A refusal leaves everything as found. A run's take is no twin of this one: it
    // has a target and a limit of its own, and what both do is `deliver`.
    pub fn take(
        &mut self,
        symbols: &[u32],
        plan: &[u8],
        work: &mut [Survivor],
        row: &mut [Survivor],
        store: &mut [u32],
    ) -> Result<(usize, usize), Refusal>
        ensures took { Took symbols.now plan.now self.old store.old work.old row.old
            result self.new store.new work.new row.new }
    {
        let trellis = SurvivorTrellis { code: self.code };
        let answer = deliver(
            &trellis,
            symbols,
            plan,
            self.steps,
            LIMIT,
            &mut self.metrics,
            store,
            work,
            row,
        )?;
        self.steps += symbols.len();
        Ok(answer)
    }

    // The cost of the cheapest path to a state; its input bits go to the front of the bit buffer. Asked in order: is
    // there such a state (9); are store and bit buffer long enough (4); does a path end there (10); are the rows those of
    // this frame (12)? The last is never refused where the store holds what take wrote. A refusal writes nothing.
    pub fn decode(&self, state: usize, store: &[u32], bits: &mut [u8]) -> Result<u32, Refusal>
        ensures traced { Traced self.now state store.now bits.old result bits.new }
    {
        frame_rows::decode(
            self.code,
            self.metrics.rows(),
            self.steps,
            self.metrics.totals(),
            state,
            store,
            bits,
        )
    }
}
