// The path counter: a run over the count trellis of a code, from 1 at state 0 and 0 at the others.
#![tactic(auto)]

ghost use Rattle.std.specs.Prelude.{◌≡◌, ℕ, ◌%◌, ◌<◌, ◌≤◌, length, drop};
ghost use Rattle.algebra.specs.Sums.{at};
ghost use Rattle.algebra_scalars.specs.Counts.{modulus, residue_of};
ghost use Rattle.algebra_scalars.specs.contracts.count.CountAlgebra.TheImpl.{ghosts as counts};
ghost use Rattle.engine.specs.Runs.{Taken, asking, looked};
ghost use Rattle.plan.specs.Asks.{joins};
ghost use Rattle.refusal.specs.Questions.{asked};
ghost use Rattle.run_counter.specs.Counter.{CountsPaths, Laid, MadeRoom, Shows, TakeCounts, made, present, start_of, trellis_rule};

use algebra_scalars::Count;
use code::Code;
use engine::Run;
use recursion_trellis::CountTrellis;
use refusal::Refusal;

// the state in which every path starts
const START: usize = 0;

// A counter over a buffer: its first elements, one for each state, are the counts.
#[derive(Drop)]
pub struct Counter<'a> {
    trellis: CountTrellis,
    run: Run<'a, Count>,
}

// Writes 1 at the start state and 0 at the others, or nothing where there is not an element for each.
fn begin(buffer: &mut [Count], states: usize)
    requires { 1 ≤ states }
    ensures starts { states ≤ length buffer.old → (s : ℕ) → s < states → at (residue_of 0) counts.mean buffer.new s ≡ start_of s }
    ensures rest { drop states buffer.new ≡ drop states buffer.old }
    ensures short { length buffer.old < states → buffer.new ≡ buffer.old }
{
    if buffer.len() < states {
        return;
    }
    buffer[..states].fill(Count(0));
    buffer[START] = Count(1);
}

// A count, absent where it is 0.
fn present(count: Count) -> Option<u32>
    ensures { result ≡ present (count.0 % modulus) }
{
    match count.0 {
        0 => None,
        paths => Some(paths),
    }
}

impl<'a> Counter<'a> {
    // Lays a counter of a code over a buffer, which gets 1 at state 0 and 0 at the others. Where it has not an
    // element for each state, nothing is written and the counter is not made: no take or count is then accepted.
    pub fn over(code: Code, buffer: &'a mut [Count]) -> Counter<'a>
        ensures over { result.run.state.ghost_name ≡ buffer.entry.ghost_name }
        ensures laid { Laid code buffer.old result }
    {
        let trellis = CountTrellis { code };
        begin(buffer, code.states());
        let mut run = Run::over(buffer);
        // where this is refused the run stays as laid, and `made` says so
        let _ = run.make(&trellis);
        Counter { trellis, run }
    }

    // Whether the counter was made; refused 4 where its buffer has not an element for each state.
    pub fn made(&self) -> Result<(), Refusal>
        ensures answer { result ≡ made self.now }
        ensures room { MadeRoom self.now result }
    {
        self.run.read(0).map(|_| ()).map_err(|_| Refusal::Memory)
    }

    // Takes symbols under a plan, and answers how many and how many joins that made. The questions are those
    // of a run's take, and a refusal leaves everything as found.
    pub fn take(
        &mut self,
        symbols: &[u32],
        plan: &[u8],
        work: &mut [Count],
        row: &mut [Count],
    ) -> Result<(usize, usize), Refusal>
        ensures over { self.new.run.state.ghost_name ≡ self.old.run.state.ghost_name }
        ensures same { self.new.trellis ≡ self.old.trellis }
        ensures answer { result ≡ asked (asking counts self.old.run (trellis_rule self.old.trellis.code) symbols.now plan.now (length work.old) (length row.old))
            (length symbols.now, joins plan.now) }
        ensures taken { Taken counts (trellis_rule self.old.trellis.code) symbols.now plan.now
            self.old.run work.old row.old result self.new.run work.new row.new }
        ensures counts { TakeCounts symbols.now plan.now (length work.old) (length row.old)
            self.old result self.new }
    {
        self.run.take(&self.trellis, symbols, plan, work, row)
    }

    // The number of admitted paths from state 0 to a state over all symbols taken, modulo 4,294,967,296;
    // absent where that is 0. Refused 9 for a state that the code does not have.
    pub fn count(&self, state: usize) -> Result<Option<u32>, Refusal>
        ensures answer { Shows result (looked counts self.now.run state) }
        ensures paths { CountsPaths state self.now result }
    {
        let count = self.run.read(state)?;
        Ok(present(count))
    }
}
