// Shows the engine at work: the CRC-32 of standard input by blocks under several plans, beside the one by
// shifting; the nine-stage sequence; and path counts over a list of symbols.
#![tactic(auto)]

mod plans;
mod show;

use std::io::Read;

// One byte more than the bits of a run: a longer input is refused by the run, and not cut.
const BYTES: u64 = 125_001;

fn main(rt: HostRuntime) -> anyhow::Result<()> {
    let mut input = Vec::new(rt.alloc());
    rt.stdin().take(BYTES).read_to_end(&mut input)?;
    show::checks(&rt, input.as_slice())?;
    show::sequence(&rt)?;
    show::counts(&rt)
}
