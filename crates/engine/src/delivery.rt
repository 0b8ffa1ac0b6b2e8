// Deliveries: symbols under a plan, given to a target.
ghost use Rattle.std.specs.Prelude.{◌≡◌, ◌+◌, ◌*◌, ◌&&◌, [], ◌∷◌, length, nat_le};
ghost use Rattle.plan.specs.Asks.{blocks, joins};
ghost use Rattle.recursion.specs.Steps.{rule};
ghost use Rattle.refusal.specs.Questions.{asked};
ghost use Rattle.engine.specs.Deliveries.{Delivered, delivery};
ghost use Rattle.engine.specs.Plain.{accepted};

use crate::letters::evaluate;
use crate::size::Size;
use crate::target::Target;
use algebra::Algebra;
use plan::{Shape, read};
use recursion::Recursion;
use refusal::Refusal;

// Is each symbol accepted? By `position` the proof would be twice as long, and the call no plainer.
fn ask_symbols<R: Recursion>(r: &R, symbols: &[u32]) -> Result<(), Refusal>
    ensures { result ≡ asked (accepted (rule R.Element.Algebra R.Recursion r.now) symbols.now ∷ []) (record {}) }
{
    for (place, symbol) in symbols.iter().enumerate() {
        if !r.accepts(*symbol) {
            return Err(Refusal::Symbol { place });
        }
    }
    Ok(())
}

// Whether so many symbols more stay within a limit.
fn is_within(taken: usize, symbols: usize, limit: usize) -> bool
    ensures { result ≡ nat_le (taken + symbols) limit }
{
    taken.checked_add(symbols).is_some_and(|n| n <= limit)
}

// Whether target, work area and row suffice for a plan of this shape and so many blocks.
fn has_memory<E: Algebra, T: Target<E>>(
    target: &T,
    size: Size,
    shape: Shape,
    blocks: usize,
    buffer: usize,
    work: usize,
    row: usize,
) -> bool
    ensures { result ≡ (T.Target.roomy target.now size.rows buffer blocks && (nat_le (shape.most * (size.rows * size.rows)) work && nat_le size.rows row)) }
{
    target.has_room(size.rows, buffer, blocks)
        && shape
            .most
            .checked_mul(size.elements())
            .is_some_and(|n| n <= work)
        && size.rows <= row
}

// Gives the symbols to a target by the blocks of a plan, and answers how many symbols and how many joins that made.
// `taken` of `limit` symbols were given before. Asked in order, and refused at the first no, with everything left as
// found: is each letter s, j or a (5, its place); does each j find two matrices or more and each a exactly one (6, its
// place); does each j make at most 32 symbols (7, its place); are all symbols used and does no matrix stand at the end
// (8); is each symbol accepted (2, its place); do they stay within the limit (3); do the target's buffer, work area
// and row suffice (4)?
pub fn deliver<E: Algebra, R: Recursion<Element = E>, T: Target<E>>(
    r: &R,
    symbols: &[u32],
    plan: &[u8],
    taken: usize,
    limit: usize,
    target: &mut T,
    buffer: &mut [T::Kept],
    work: &mut [E],
    row: &mut [E],
) -> Result<(usize, usize), Refusal>
    ensures answer { result ≡ asked (delivery (rule E.Algebra R.Recursion r.now) symbols.now plan.now limit taken
        (T.Target.roomy target.old (R.Recursion.dim r.now) (length buffer.old) (blocks plan.now))
        (length work.old) (length row.old)) (length symbols.now, joins plan.now) }
    ensures delivered { Delivered T.Target.Applied E.Algebra (rule E.Algebra R.Recursion r.now) symbols.now plan.now
        target.old buffer.old work.old row.old result target.new buffer.new work.new row.new }
{
    let size = Size { rows: r.size() };
    let shape = read(plan, symbols.len())?;
    ask_symbols(r, symbols)?;
    if !is_within(taken, symbols.len(), limit) {
        return Err(Refusal::Limit);
    }
    // each block has one symbol more than it has joins
    let blocks = symbols.len() - shape.joins;
    if !has_memory(
        target,
        size,
        shape,
        blocks,
        buffer.len(),
        work.len(),
        row.len(),
    ) {
        return Err(Refusal::Memory);
    }
    evaluate(r, symbols, plan, size, target, buffer, work, row);
    Ok((symbols.len(), shape.joins))
}
