// Whole frames of k7 for the benchmark, as functions that C can call. C lends each buffer as a parameter of its own, so
// none are put together in a struct, here and in what is called.
#![tactic(auto)]

ghost use Rattle.std.specs.Prelude.{◌≡◌, length};
ghost use Rattle.code.specs.Codes.{k7};
ghost use Rattle.frame_rows.specs.Traces.{Decoded};
ghost use Rattle.bench_frames.specs.Frames.{Begun, Ended, Handed, Told, framing, tracing};
ghost use Rattle.bench_status.specs.Status.{status_of};

use algebra_survivor::Survivor;
use bench_status::status;
use frame::Frame;
use refusal::Refusal;

// Takes symbols with a fresh frame.
fn take(
    symbols: &[u32],
    plan: &[u8],
    work: &mut [Survivor],
    row: &mut [Survivor],
    store: &mut [u32],
) -> Result<Frame, Refusal>
    ensures { Handed symbols.now plan.now store.old work.old row.old
        result store.new work.new row.new }
{
    let mut frame = Frame::new(code::by_name("k7")?);
    frame.take(symbols, plan, work, row, store)?;
    Ok(frame)
}

// The same for C.
#[unsafe(no_mangle)]
pub extern "C" fn bench_frame_take(
    symbols: &[u32],
    plan: &[u8],
    work: &mut [Survivor],
    row: &mut [Survivor],
    store: &mut [u32],
) -> u32
    ensures answer { result ≡ status_of (framing symbols.now plan.now (length work.old) (length row.old) (length store.old)) }
    ensures took { Begun symbols.now plan.now store.old work.old row.old
        store.new work.new row.new }
{
    status(take(symbols, plan, work, row, store))
}

// Takes symbols with a fresh frame, and decodes it to a state.
fn decode(
    symbols: &[u32],
    plan: &[u8],
    work: &mut [Survivor],
    row: &mut [Survivor],
    store: &mut [u32],
    state: usize,
    bits: &mut [u8],
) -> Result<u32, Refusal>
    ensures { Ended symbols.now plan.now state store.old work.old row.old bits.old
        result store.new work.new row.new bits.new }
{
    let frame = take(symbols, plan, work, row, store)?;
    frame.decode(state, store, bits)
}

// The same for C: the cost is written where there is one.
#[unsafe(no_mangle)]
pub extern "C" fn bench_frame_decode(
    symbols: &[u32],
    plan: &[u8],
    work: &mut [Survivor],
    row: &mut [Survivor],
    store: &mut [u32],
    state: usize,
    bits: &mut [u8],
    cost: &mut u32,
) -> u32
    ensures { Told symbols.now plan.now state store.old work.old row.old bits.old cost.old
        result store.new work.new row.new bits.new cost.new }
{
    let answer = decode(symbols, plan, work, row, store, state, bits);
    if let Ok(least) = answer {
        *cost = least;
    }
    status(answer)
}

// Decodes to state 0, as a frame does that has so many rows and steps, and this total there.
fn trace(
    rows: usize,
    steps: usize,
    total: u32,
    store: &[u32],
    bits: &mut [u8],
) -> Result<u32, Refusal>
    ensures answer { result ≡ tracing rows steps total store.now (length bits.old) }
    ensures bits { Decoded k7 rows steps 0 store.now bits.old result bits.new }
{
    frame_rows::decode(
        code::by_name("k7")?,
        rows,
        steps,
        &[Some(total)],
        0,
        store,
        bits,
    )
}

// The same for C.
#[unsafe(no_mangle)]
pub extern "C" fn bench_trace(
    rows: usize,
    steps: usize,
    total: u32,
    store: &[u32],
    bits: &mut [u8],
) -> u32
    ensures answer { result ≡ status_of (tracing rows steps total store.now (length bits.old)) }
    ensures bits { Decoded k7 rows steps 0 store.now bits.old
        (tracing rows steps total store.now (length bits.old)) bits.new }
{
    status(trace(rows, steps, total, store, bits))
}
