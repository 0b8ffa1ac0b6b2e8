// Compares the library with what other software answers, a case on each line of standard input.
#![tactic(auto)]

mod cases;
mod counts;

use cases::Kind;
use std::collections::BTreeMap;
use std::io::Read;
use vectors::{Tally, is_case};

// More than the vectors have.
const BYTES: u64 = 1_000_000;

fn main(rt: HostRuntime) -> anyhow::Result<()> {
    let heap = rt.alloc();
    let mut input = String::new(heap);
    rt.stdin().take(BYTES).read_to_string(&mut input)?;
    let mut tallies = BTreeMap::new(heap);
    for line in input.as_str().lines().filter(|line| is_case(line)) {
        let (kind, agrees) = cases::run(heap, line)?;
        if !agrees {
            println!(rt; "differs: {line}")?;
        }
        *tallies.entry(kind)?.or_insert(Tally::default()) += Tally::of(agrees);
    }
    for kind in Kind::ALL {
        let tally = tallies.get(&kind).copied().unwrap_or_default();
        println!(rt; "{kind}: {tally}")?;
    }
    Ok(())
}
