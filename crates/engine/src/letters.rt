// The letters of a plan: they build matrices in the work area, and apply them to a target.
ghost use Rattle.std.specs.Prelude.{◌≡◌, ℕ, ◌+◌, ◌-◌, ◌*◌, ◌<◌, ◌≤◌, true, List, length, Ok};
ghost use Rattle.plan.specs.Letters.{code};
ghost use Rattle.plan.specs.Plans.{Progress, after, letter as after_letter};
ghost use Rattle.plan.specs.declared.letter.Letter.TheVariants.{Apply};
ghost use Rattle.plan.specs.Asks.{asks, blocks, most, shape};
ghost use Rattle.recursion.specs.Steps.{rule};
ghost use Rattle.refusal.specs.Questions.{asked};
ghost use Rattle.engine.specs.Blocks.{Ready, Stands, chosen};
ghost use Rattle.engine.specs.Letters.{Doing, applies};
ghost use Rattle.engine.specs.Matrices.{Normal};
ghost use Rattle.engine.specs.Targets.{Fed};

use crate::load::load;
use crate::matrix::join;
use crate::size::Size;
use crate::target::Target;
use algebra::Algebra;
use plan::Letter;
use recursion::Recursion;

// How many matrices stand, the place of the next symbol, and how many symbols were applied.
#[derive(Clone, Copy, Default)]
struct Standing {
    top: usize,
    next: usize,
    applied: usize,
}

// One letter of a plan, which finds what it needs. What is lent stands as parameters of its own, as in the public
// calls: a struct of slices to write to would have to be lent anew at each call.
fn turn<E: Algebra, R: Recursion<Element = E>, T: Target<E>>(
    r: &R,
    letter: Letter,
    symbols: &[u32],
    size: Size,
    stack: Standing,
    target: &mut T,
    buffer: &mut [T::Kept],
    work: &mut [E],
    row: &mut [E],
) -> Standing
    requires row_in_bounds { size.rows ≤ length row.old }
    requires normal { Normal E.Algebra.normal work.old (stack.top * (size.rows * size.rows)) }
    requires ready { Ready (code letter) (length symbols.now) size.rows stack.top stack.next (length work.old) }
    requires applied_le_next { stack.applied ≤ stack.next }
    requires applied_bound { letter ≡ Apply → stack.next - stack.applied ≤ 32 }
    ensures room { (n : ℕ) → T.Target.roomy target.old size.rows (length buffer.old) (n + applies (code letter)) ≡ true →
        T.Target.roomy target.new size.rows (length buffer.new) n ≡ true }
    ensures does { (was : T) (start : List T.Kept) (w : Progress) (n : ℕ) → T.Target.roomy target.old size.rows (length buffer.old) (n + applies (code letter)) ≡ true →
        Doing T.Target.Applied E.Algebra size.rows (chosen (rule E.Algebra R.Recursion r.now).entry symbols.now) was start w stack.top stack.next stack.applied target.old buffer.old work.old →
        Doing T.Target.Applied E.Algebra size.rows (chosen (rule E.Algebra R.Recursion r.now).entry symbols.now) was start (after_letter w (code letter)) result.top result.next result.applied target.new buffer.new work.new }
{
    match letter {
        Letter::Single => {
            load(
                r,
                symbols[stack.next],
                size,
                work,
                stack.top * size.elements(),
            );
            Standing {
                top: stack.top + 1,
                next: stack.next + 1,
                ..stack
            }
        }
        Letter::Join => {
            join(size, work, row, (stack.top - 2) * size.elements());
            Standing {
                top: stack.top - 1,
                ..stack
            }
        }
        Letter::Apply => {
            target.apply(
                buffer,
                &work[..size.elements()],
                size.rows,
                stack.next - stack.applied,
                row,
            );
            Standing {
                top: 0,
                applied: stack.next,
                ..stack
            }
        }
    }
}

// A whole plan that passed its questions for these symbols, this target and this work area.
pub(crate) fn evaluate<E: Algebra, R: Recursion<Element = E>, T: Target<E>>(
    r: &R,
    symbols: &[u32],
    plan: &[u8],
    size: Size,
    target: &mut T,
    buffer: &mut [T::Kept],
    work: &mut [E],
    row: &mut [E],
)
    requires row_in_bounds { size.rows ≤ length row.old }
    requires passed { asked (asks plan.now (length symbols.now)) (shape plan.now) ≡ Ok (shape plan.now) }
    requires work_in_bounds { most plan.now * (size.rows * size.rows) ≤ length work.old }
    requires target_has_room { T.Target.roomy target.old size.rows (length buffer.old) (blocks plan.now) ≡ true }
    ensures fed { Fed T.Target.Applied E.Algebra size.rows (chosen (rule E.Algebra R.Recursion r.now).entry symbols.now)
        target.old buffer.old (after plan.now (length plan.now)).blocks target.new buffer.new }
    ensures block { Stands E.Algebra size.rows (chosen (rule E.Algebra R.Recursion r.now).entry symbols.now)
        work.new (after plan.now (length plan.now)).last }
{
    let mut stack = Standing::default();
    for code in plan {
        let letter = Letter::of(*code);
        stack = turn(r, letter, symbols, size, stack, target, buffer, work, row);
    }
}
