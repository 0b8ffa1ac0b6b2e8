// What the program prints, a line for each plan.
use crate::plans::Bracketing;
use algebra_scalars::{Bit, Count};
use anyhow::anyhow;
use code::by_name;
use plan::BLOCK;
use run_blocks::{Checked, PLACES, check_by_blocks};
use run_check::check;
use run_counter::Counter;
use std::alloc::{AllocError, Global};

// The bits of bytes, the lowest of each byte first.
fn bits_of(heap: Global, bytes: &[u8]) -> Result<Vec<u8>, AllocError> {
    bytes
        .iter()
        .flat_map(|byte| (0..8u32).map(|k| (*byte >> k) & 1))
        .collect(heap)
}

// The CRC-32 of the bytes by blocks under each plan, and by shifting.
pub(crate) fn checks(rt: &HostRuntime, bytes: &[u8]) -> anyhow::Result<()> {
    let heap = rt.alloc();
    let bits = bits_of(heap, bytes)?;
    let symbols: Vec<u32> = bits.iter().copied().map(u32::from).collect(heap)?;
    let length = bytes.len();
    match check(bits.as_slice()) {
        Ok(value) => println!(rt; "crc-32 of {length} bytes by shifting: {value:08X}")?,
        Err(refusal) => println!(rt; "crc-32 of {length} bytes by shifting: {refusal}")?,
    }
    for bracketing in Bracketing::ALL {
        blocks(rt, symbols.as_slice(), bracketing)?;
    }
    Ok(())
}

fn blocks(rt: &HostRuntime, symbols: &[u32], bracketing: Bracketing) -> anyhow::Result<()> {
    let heap = rt.alloc();
    let plan = bracketing.plan(heap, symbols)?;
    let mut row = [Bit(false); PLACES];
    let mut work = vec![in heap; Bit(false); BLOCK * PLACES * PLACES]?;
    let taken = symbols.len();
    match check_by_blocks(symbols, plan.as_slice(), work.as_mut_slice(), &mut row) {
        Ok(Checked { value, joins }) => {
            println!(rt;
                "crc-32 by blocks, {bracketing}: {value:08X} after {taken} symbols and {joins} joins"
            )?;
        }
        Err(refusal) => println!(rt; "crc-32 by blocks, {bracketing}: {refusal}")?,
    }
    Ok(())
}

// The first bits of the nine-stage sequence from nine ones.
pub(crate) fn sequence(rt: &HostRuntime) -> anyhow::Result<()> {
    let mut state = [Bit(true); 9];
    let mut bits = [0u8; 40];
    match run_sequence::sequence(&mut state, &mut bits) {
        Ok(()) => print!(rt; "sequence from nine ones, newest bits: ")?,
        Err(refusal) => print!(rt; "sequence from nine ones: {refusal}")?,
    }
    for bit in bits {
        print!(rt; "{bit}")?;
    }
    println!(rt; "")?;
    Ok(())
}

// Pairs of which most values are erased, so that many paths are admitted.
const SYMBOLS: [u32; 12] = [136, 128, 136, 136, 120, 136, 136, 8, 136, 136, 136, 119];

// The admitted paths of k3 to each state over those symbols, under each plan.
pub(crate) fn counts(rt: &HostRuntime) -> anyhow::Result<()> {
    for bracketing in Bracketing::ALL {
        counts_by_blocks(rt, bracketing)?;
    }
    Ok(())
}

fn counts_by_blocks(rt: &HostRuntime, bracketing: Bracketing) -> anyhow::Result<()> {
    let heap = rt.alloc();
    let code = by_name("k3").map_err(|_| anyhow!("k3 is a code"))?;
    let plan = bracketing.plan(heap, &SYMBOLS)?;
    let mut state = [Count(0); 4];
    let mut row = [Count(0); 4];
    let mut work = [Count(0); 512];
    let mut counter = Counter::over(code, &mut state);
    match counter.take(&SYMBOLS, plan.as_slice(), &mut work, &mut row) {
        Ok((taken, joins)) => print!(rt;
            "paths of k3, {bracketing}: {taken} symbols and {joins} joins:"
        )?,
        Err(refusal) => print!(rt; "paths of k3, {bracketing}: {refusal}:")?,
    }
    for end in 0..code.states() {
        match counter.count(end) {
            Ok(Some(paths)) => print!(rt; " {paths} to {end}")?,
            Ok(None) => print!(rt; " none to {end}")?,
            Err(refusal) => print!(rt; " {refusal}")?,
        }
    }
    println!(rt; "")?;
    Ok(())
}
