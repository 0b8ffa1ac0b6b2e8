// The engine's kernels for the benchmark, as functions that C can call. C lends each buffer as a parameter of its own,
// so none are put together in a struct, here and in what is called.
#![tactic(auto)]

ghost use Rattle.std.specs.Prelude.{◌≡◌, length};
ghost use Rattle.engine.specs.Matrices.{Multiplied};
ghost use Rattle.bench_kernels.specs.Kernels.{Took, multiplying, survivors, taking};
ghost use Rattle.bench_status.specs.Status.{status_of};

use algebra_survivor::Survivor;
use bench_status::status;
use engine::{Run, multiply};
use recursion_trellis::SurvivorTrellis;
use refusal::Refusal;

// The product of two matrices of d × d survivors, as `engine::multiply` makes it.
#[unsafe(no_mangle)]
pub extern "C" fn bench_multiply(work: &mut [Survivor], row: &mut [Survivor], d: usize) -> u32
    ensures answer { result ≡ status_of (multiplying d (length work.old) (length row.old)) }
    ensures product { Multiplied survivors d work.old row.old
        (multiplying d (length work.old) (length row.old)) work.new row.new }
{
    status(multiply(work, row, d))
}

// Takes symbols with a fresh run of the survivors of k7.
fn take(
    state: &mut [Survivor],
    symbols: &[u32],
    plan: &[u8],
    work: &mut [Survivor],
    row: &mut [Survivor],
) -> Result<(usize, usize), Refusal>
    ensures answer { result ≡ taking state.old symbols.now plan.now (length work.old) (length row.old) }
    ensures took { Took symbols.now plan.now state.old work.old row.old
        result state.new work.new row.new }
{
    let trellis = SurvivorTrellis {
        code: code::by_name("k7")?,
    };
    let mut run = Run::over(state);
    run.make(&trellis)?;
    run.take(&trellis, symbols, plan, work, row)
}

// The same for C: the state is the buffer that the run was laid over.
#[unsafe(no_mangle)]
pub extern "C" fn bench_take(
    state: &mut [Survivor],
    symbols: &[u32],
    plan: &[u8],
    work: &mut [Survivor],
    row: &mut [Survivor],
) -> u32
    ensures answer { result ≡ status_of (taking state.old symbols.now plan.now (length work.old) (length row.old)) }
    ensures took { Took symbols.now plan.now state.old work.old row.old
        (taking state.old symbols.now plan.now (length work.old) (length row.old))
        state.new work.new row.new }
{
    status(take(state, symbols, plan, work, row))
}
