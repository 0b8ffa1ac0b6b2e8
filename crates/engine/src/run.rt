// Runs: a state kept in a buffer, which symbols move under a plan.
ghost use Rattle.std.specs.Prelude.{◌≡◌, ◌<◌, length};
ghost use Rattle.algebra.specs.Sums.{at};
ghost use Rattle.plan.specs.Asks.{joins};
ghost use Rattle.recursion.specs.Steps.{rule};
ghost use Rattle.refusal.specs.Questions.{asked};
ghost use Rattle.engine.specs.Runs.{Heard, Made, ReadServes, TakeServes, Taken, asking, looked};

use crate::delivery::deliver;
use crate::vector::Vector;
use algebra::Algebra;
use recursion::Recursion;
use refusal::Refusal;

// The most symbols that one run may take.
pub const LIMIT: usize = 1_000_000;

// A run over a buffer: its first `size` elements are the state.
#[derive(Drop)]
pub struct Run<'a, E> {
    state: &'a mut [E],
    // what the run was made for; a run that was only laid is one of size 0 by its rules, and so no `None`
    size: usize,
    // how many symbols it has taken
    taken: usize,
}

// The element at a place.
fn pick<E: Algebra>(xs: &[E], place: usize) -> E
    requires { place < length xs.now }
    ensures { E.Algebra.mean result ≡ at E.Algebra.ops.zero E.Algebra.mean xs.now place }
{
    xs[place]
}

impl<'a, E: Algebra> Run<'a, E> {
    // Lays a run over a buffer. It is not made yet: its size is 0.
    pub fn over(buffer: &'a mut [E]) -> Run<'a, E>
        ensures size { result.size ≡ 0 }
        ensures taken { result.taken ≡ 0 }
        ensures state { result.state.now ≡ buffer.old }
        ensures over { result.state.ghost_name ≡ buffer.entry.ghost_name }
    {
        Run {
            state: buffer,
            size: 0,
            taken: 0,
        }
    }

    // Makes the run with a recursion: it is fresh, and the buffer's first d elements are its start state.
    // Refused 4 where there are fewer than d. Whatever takes and reads then follow, in any order, with repeats
    // and refusals, every answer and what the run holds after each are those of single steps: `Made` says so.
    pub fn make<R: Recursion<Element = E>>(&mut self, r: &R) -> Result<(), Refusal>
        ensures over { self.new.state.ghost_name ≡ self.old.state.ghost_name }
        ensures made { Made E.Algebra (R.Recursion.dim r.now) self.old result self.new }
    {
        let d = r.size();
        if self.state.len() < d {
            return Err(Refusal::Memory);
        }
        self.size = d;
        self.taken = 0;
        Ok(())
    }

    // The element at a place of the state; refused 9 past its end.
    pub fn read(&self, place: usize) -> Result<E, Refusal>
        ensures answer { Heard E.Algebra result (looked E.Algebra self.now place) }
        ensures serves { ReadServes E.Algebra place self.now result }
    {
        if place >= self.size.min(self.state.len()) {
            return Err(Refusal::Place);
        }
        Ok(pick(self.state, place))
    }

    // Takes symbols under a plan, and answers how many and how many joins that made. The work area holds
    // the standing matrices and the row helps a join. Asked in order, and refused at the first no, with
    // everything left as found: is each letter s, j or a (5, its place); does each j find two matrices or
    // more and each a exactly one (6, its place); does each j make at most 32 symbols (7, its place); are
    // all symbols used and does no matrix stand at the end (8); is each symbol accepted (2, its place); does
    // the run stay within its limit (3); was it made for this size, and do work area and row suffice (4)?
    pub fn take<R: Recursion<Element = E>>(
        &mut self,
        r: &R,
        symbols: &[u32],
        plan: &[u8],
        work: &mut [E],
        row: &mut [E],
    ) -> Result<(usize, usize), Refusal>
        ensures over { self.new.state.ghost_name ≡ self.old.state.ghost_name }
        ensures answer { result ≡ asked (asking E.Algebra self.old (rule E.Algebra R.Recursion r.now) symbols.now plan.now (length work.old) (length row.old))
            (length symbols.now, joins plan.now) }
        ensures taken { Taken E.Algebra (rule E.Algebra R.Recursion r.now) symbols.now plan.now
            self.old work.old row.old result self.new work.new row.new }
        ensures serves { TakeServes E.Algebra (rule E.Algebra R.Recursion r.now) symbols.now plan.now
            (length work.old) (length row.old) self.old result self.new }
    {
        let answer = deliver(
            r,
            symbols,
            plan,
            self.taken,
            LIMIT,
            &mut Vector { size: self.size },
            self.state,
            work,
            row,
        )?;
        self.taken += symbols.len();
        Ok(answer)
    }
}
