// Frames of 4,096 symbols, and one more.
use crate::marks::is_untouched;
use code::{Code, by_name};
use frame::LIMIT;
use frame_desk::Desk;
use plan_letters::nested;
use refusal::Refusal;
use std::process::Abort;
use std::test::Fail;

// Gives so many erased symbols as single steps, and compares the answer.
fn answers_erased(
    rt: &(impl Abort + AllocGlobal),
    desk: &mut Desk,
    count: usize,
    answer: Result<(usize, usize), Refusal>,
) -> Result<(), Fail> {
    let heap = rt.alloc();
    let symbols = vec![in heap; 136u32; count]?;
    let plan = b"sa".repeat(heap, count)?;
    assert_eq!(rt; desk.take(symbols.as_slice(), plan.as_slice()), answer);
    Ok(())
}

// Nothing but zeros to state 0.
fn decodes_zeros(rt: &impl Abort, desk: &mut Desk) {
    assert_eq!(rt; desk.decode(0), Ok(0));
    assert!(rt; desk.bits.iter().all(|bit| *bit == 0));
}

fn full_and_one_more(rt: &(impl Abort + AllocGlobal), code: Code) -> Result<(), Fail> {
    let mut desk = Desk::new(rt.alloc(), code, 1, LIMIT, LIMIT)?;
    answers_erased(rt, &mut desk, LIMIT, Ok((4096, 0)))?;
    assert_eq!(rt; desk.take(&[0], b"sa"), Err(Refusal::Limit));
    assert_eq!(rt; desk.take(&[], b""), Ok((0, 0)));
    decodes_zeros(rt, &mut desk);
    Ok(())
}

#[test]
fn k3_full_and_one_more(rt: HostRuntime) -> Result<(), Fail> {
    full_and_one_more(&rt, by_name("k3")?)
}

#[test]
fn k7_full_and_one_more(rt: HostRuntime) -> Result<(), Fail> {
    full_and_one_more(&rt, by_name("k7")?)
}

// Gives 127 blocks of 32 symbols, each in a delivery of its own.
fn give_blocks(rt: &(impl Abort + AllocGlobal), desk: &mut Desk) -> Result<(), Fail> {
    let plan = nested(rt.alloc(), 32, 31)?;
    for _ in 0..127 {
        assert_eq!(rt; desk.take(&[136; 32], plan.as_slice()), Ok((32, 31)));
    }
    Ok(())
}

// By deliveries up to 4,095; then two symbols are too many, and one is not.
#[test]
fn full_by_deliveries(rt: HostRuntime) -> Result<(), Fail> {
    let mut desk = Desk::new(rt.alloc(), by_name("k3")?, 32, 159, LIMIT)?;
    give_blocks(&rt, &mut desk)?;
    answers_erased(&rt, &mut desk, 31, Ok((31, 0)))?;
    answers_erased(&rt, &mut desk, 2, Err(Refusal::Limit))?;
    answers_erased(&rt, &mut desk, 1, Ok((1, 0)))?;
    answers_erased(&rt, &mut desk, 1, Err(Refusal::Limit))?;
    decodes_zeros(&rt, &mut desk);
    Ok(())
}

// The limit is asked before the memory: as many as may be, and then one more, where the store has four rows.
#[test]
fn one_too_many_at_once(rt: HostRuntime) -> Result<(), Fail> {
    let mut desk = Desk::new(rt.alloc(), by_name("k3")?, 1, 4, 0)?;
    answers_erased(&rt, &mut desk, 4096, Err(Refusal::Memory))?;
    answers_erased(&rt, &mut desk, 4097, Err(Refusal::Limit))?;
    assert!(rt; is_untouched(&desk));
    Ok(())
}

// And after the symbols.
#[test]
fn a_bad_symbol_past_the_limit(rt: HostRuntime) -> Result<(), Fail> {
    let heap = rt.alloc();
    let mut desk = Desk::new(heap, by_name("k3")?, 1, 4, 0)?;
    let mut symbols = vec![in heap; 136u32; LIMIT]?;
    symbols.push(9)?;
    let plan = b"sa".repeat(heap, symbols.len())?;
    assert_eq!(rt;
        desk.take(symbols.as_slice(), plan.as_slice()),
        Err(Refusal::Symbol { place: 4096 })
    );
    Ok(())
}
