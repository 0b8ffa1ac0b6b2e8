// What C is told of an answer, for the benchmark's libraries.
#![tactic(auto)]

ghost use Rattle.std.specs.Prelude.{◌≡◌};
ghost use Rattle.bench_status.specs.Status.{status_of};

use refusal::Refusal;

// 0 for an answer, and the number of a refusal.
pub fn status<T: Drop>(answer: Result<T, Refusal>) -> u32
    ensures { result ≡ status_of answer }
{
    match answer {
        Ok(_) => 0,
        Err(refusal) => refusal.number(),
    }
}
