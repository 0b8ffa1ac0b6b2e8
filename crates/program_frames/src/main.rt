// Decodes a frame of the code k3 from standard input, delivery by delivery.
#![tactic(auto)]

use frame_report::{BYTES, report};
use std::io;
use std::io::Read;

fn main(rt: HostRuntime) -> io::Result<()> {
    let heap = rt.alloc();
    let mut input = Vec::new(heap);
    // one byte more than is accepted: a longer input is refused, and not cut
    rt.stdin().take(BYTES as u64 + 1).read_to_end(&mut input)?;
    rt.print(report(heap, input.as_slice())?)
}
