// Cases of counts: what they give, and what the library answers.
use algebra_scalars::Count;
use anyhow::anyhow;
use code::{Code, by_name};
use engine::Run;
use recursion_trellis::CountTrellis;
use refusal::Refusal;
use run_counter::Counter;
use std::alloc::{AllocError, Global};
use vectors::listed;

// Elements of the work area: 32 matrices of k3, and 9 of k7.
const WORK: usize = 36_864;

// The states of k7, the larger code.
pub(crate) const STATES: usize = 64;

// What a take is lent. Each case that takes makes its own, so that a line of another kind needs no memory for it.
#[derive(Drop)]
pub struct Desk {
    work: Vec<Count>,
    row: [Count; STATES],
}

impl Desk {
    pub(crate) fn new(heap: Global) -> Result<Desk, AllocError> {
        Ok(Desk {
            work: vec![in heap; Count(0); WORK]?,
            row: [Count(0); STATES],
        })
    }
}

pub(crate) fn named(code: &str) -> anyhow::Result<Code> {
    by_name(code).map_err(|_| anyhow!("a line names no code"))
}

// Decimal numbers between commas, or - for none; an empty field is no list.
pub(crate) fn numbers(heap: Global, field: &str) -> anyhow::Result<Vec<u32>> {
    match field {
        "-" => Ok(Vec::new(heap)),
        list => list
            .split(',')
            .map(|part| -> anyhow::Result<u32> { Ok(part.parse::<u32>()?) })
            .try_collect(heap),
    }
}

// The symbols of a case, and their plan.
#[derive(Drop)]
pub struct Delivery<'a> {
    symbols: Vec<u32>,
    plan: &'a [u8],
}

impl<'a> Delivery<'a> {
    pub(crate) fn read(heap: Global, symbols: &str, plan: &'a str) -> anyhow::Result<Delivery<'a>> {
        Ok(Delivery {
            symbols: numbers(heap, symbols)?,
            plan: listed(plan).as_bytes(),
        })
    }

    // A run from this start that took the symbols.
    pub(crate) fn run<'b>(
        &self,
        code: Code,
        start: &'b mut [Count],
        desk: &mut Desk,
    ) -> Result<Run<'b, Count>, Refusal> {
        let trellis = CountTrellis { code };
        let mut run = Run::over(start);
        run.make(&trellis)?;
        run.take(
            &trellis,
            self.symbols.as_slice(),
            self.plan,
            desk.work.as_mut_slice(),
            &mut desk.row,
        )?;
        Ok(run)
    }

    // Has a counter take the symbols. It is lent and not answered: a Result of one has no borrow check yet.
    pub(crate) fn count(&self, counter: &mut Counter<'_>, desk: &mut Desk) -> Result<(), Refusal> {
        counter.take(
            self.symbols.as_slice(),
            self.plan,
            desk.work.as_mut_slice(),
            &mut desk.row,
        )?;
        Ok(())
    }
}
