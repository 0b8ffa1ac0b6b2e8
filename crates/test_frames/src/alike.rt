// Under every plan a frame answers what the direct search finds, to every end state.
use crate::letters::every_plan;
use crate::search::{Best, Encoder, K3, K7, input_bits, search};
use code::{Code, by_name};
use frame_desk::{BYTE, Desk};
use refusal::Refusal;
use std::process::Abort;
use std::test::Fail;

// Lists full of ties: all erased; one value known; a path and a half of one; odd values and erased ones.
const ERASED: [u32; 7] = [136, 136, 136, 136, 136, 136, 136];

const ONE_KNOWN: [u32; 7] = [136, 120, 136, 136, 136, 136, 136];

const TURNED: [u32; 7] = [119, 112, 7, 119, 112, 7, 119];

const MIXED: [u32; 7] = [51, 136, 67, 8, 128, 52, 120];

const HALVES: [u32; 7] = [52, 67, 52, 67, 51, 68, 136];

// Decodes to one state, and compares with the best path there.
fn decodes(
    rt: &(impl Abort + AllocGlobal),
    desk: &mut Desk,
    state: usize,
    best: Option<Best>,
) -> Result<(), Fail> {
    desk.bits.as_mut_slice().fill(BYTE);
    assert_eq!(rt;
        desk.decode(state),
        best.map(|best| best.cost).ok_or(Refusal::NoPath)
    );
    if let Some(best) = best {
        let wanted = input_bits(rt.alloc(), best.path, desk.bits.len())?;
        assert!(rt; desk.bits.as_slice() == wanted.as_slice());
    }
    Ok(())
}

// Takes the symbols under a plan, and compares every end state.
fn takes(
    rt: &(impl Abort + AllocGlobal),
    code: Code,
    symbols: &[u32],
    plan: &[u8],
    wanted: &[Option<Best>],
) -> Result<(), Fail> {
    let steps = symbols.len();
    let mut desk = Desk::new(rt.alloc(), code, steps, steps, steps)?;
    assert!(rt; desk.take(symbols, plan).is_ok());
    for (state, best) in wanted.iter().enumerate() {
        decodes(rt, &mut desk, state, *best)?;
    }
    Ok(())
}

// Every plan of the symbols.
fn all_alike(
    rt: &(impl Abort + AllocGlobal),
    encoder: Encoder,
    symbols: &[u32],
) -> Result<(), Fail> {
    let code = by_name(encoder.name)?;
    let wanted = search(rt.alloc(), encoder, symbols)?;
    let plans = every_plan(rt.alloc(), symbols.len())?;
    for plan in plans.as_slice() {
        takes(rt, code, symbols, plan.as_slice(), wanted.as_slice())?;
    }
    Ok(())
}

// Every plan of the first 1 to 6 symbols, and of all 7.
fn all_prefixes_alike(rt: &(impl Abort + AllocGlobal), symbols: &[u32; 7]) -> Result<(), Fail> {
    for length in 1..=7usize {
        all_alike(rt, K3, &symbols[0..length])?;
    }
    Ok(())
}

#[test]
fn k3_all_erased(rt: HostRuntime) -> Result<(), Fail> {
    all_prefixes_alike(&rt, &ERASED)
}

#[test]
fn k3_one_value_known(rt: HostRuntime) -> Result<(), Fail> {
    all_prefixes_alike(&rt, &ONE_KNOWN)
}

#[test]
fn k3_a_path_with_errors(rt: HostRuntime) -> Result<(), Fail> {
    all_prefixes_alike(&rt, &TURNED)
}

#[test]
fn k3_odd_and_erased_values(rt: HostRuntime) -> Result<(), Fail> {
    all_prefixes_alike(&rt, &MIXED)
}

#[test]
fn k3_doubtful_values(rt: HostRuntime) -> Result<(), Fail> {
    all_prefixes_alike(&rt, &HALVES)
}

// Up to five symbols, and for k7 each state has one path at most.
#[test]
fn k7_short(rt: HostRuntime) -> Result<(), Fail> {
    all_alike(&rt, K7, &MIXED[0..1])?;
    all_alike(&rt, K7, &MIXED[0..3])?;
    all_alike(&rt, K7, &TURNED[0..5])
}

// Seven symbols are the fewest with which two paths of k7 can meet.
#[test]
fn k7_all_erased(rt: HostRuntime) -> Result<(), Fail> {
    all_alike(&rt, K7, &ERASED)
}
