// Compares frames with what other decoders answer, a frame on each line of standard input.
#![tactic(auto)]

mod cases;
mod fields;

use cases::{Kind, Subject};
use frame::LIMIT;
use frame_desk::Desk;
use plan::BLOCK;
use std::collections::BTreeMap;
use std::io::Read;
use vectors::{Tally, is_case};

// More than the vectors have.
const BYTES: u64 = 10_000_000;

fn main(rt: HostRuntime) -> anyhow::Result<()> {
    let heap = rt.alloc();
    let mut input = String::new(heap);
    rt.stdin().take(BYTES).read_to_string(&mut input)?;
    // room for any frame of either code: as many matrices as a block has symbols, and a row for each symbol
    let mut desk = Desk::new(heap, fields::code("k7")?, BLOCK, LIMIT, LIMIT)?;
    let mut tallies = BTreeMap::new(heap);
    for line in input.as_str().lines().filter(|line| is_case(line)) {
        let (subject, tally) = cases::run(heap, &mut desk, line)?;
        if !tally.is_whole() {
            println!(rt; "differs: {line}")?;
        }
        *tallies.entry(subject)?.or_insert(Tally::default()) += tally;
    }
    for code in ["k3", "k7"] {
        for kind in Kind::ALL {
            let subject = Subject { code, kind };
            let tally = tallies.get(&subject).copied().unwrap_or_default();
            println!(rt; "{code}, {kind} frames: {tally}")?;
        }
    }
    Ok(())
}
