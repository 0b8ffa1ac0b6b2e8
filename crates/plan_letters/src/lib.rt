// Letters of plans, for the tests.
#![tactic(auto)]

ghost use Rattle.std.specs.Prelude.{◌≡◌, [], ◌∷◌, ◌++◌, IfOk, replicate};

use std::alloc::{AllocError, Global};

// A plan is bytes, so its letters are too: a symbol of its own, a join, and the end of a block.
const SINGLE: u8 = b's';

const JOIN: u8 = b'j';

const APPLY: u8 = b'a';

// So many letters s, then so many letters j, then a.
pub fn nested(heap: Global, singles: usize, joins: usize) -> Result<Vec<u8>, AllocError>
    ensures { IfOk result (λ plan. plan.items ≡ replicate singles SINGLE ++ (replicate joins JOIN ++ (APPLY ∷ []))) }
{
    let mut plan = vec![in heap; SINGLE; singles]?;
    plan.extend_from_slice(vec![in heap; JOIN; joins]?.as_slice())?;
    plan.push(APPLY)?;
    Ok(plan)
}
