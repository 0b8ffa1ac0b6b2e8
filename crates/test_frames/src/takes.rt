// Takes that are refused: the reason, its place, and that nothing is written.
use crate::marks::is_untouched;
use code::by_name;
use frame::Frame;
use frame_desk::{Desk, MARK, WORD};
use plan_letters::nested;
use refusal::Refusal;
use std::process::Abort;
use std::test::Fail;

// A fresh frame refuses, and stays fresh. Work area, row and store have room for 3 matrices, 4 states and 3 rows.
fn refuses(
    rt: &(impl Abort + AllocGlobal),
    symbols: &[u32],
    plan: &[u8],
    refusal: Refusal,
) -> Result<(), Fail> {
    let mut desk = Desk::new(rt.alloc(), by_name("k3")?, 3, 3, 0)?;
    assert_eq!(rt; desk.take(symbols, plan), Err(refusal));
    assert!(rt; is_untouched(&desk));
    assert_eq!(rt; desk.frame.decode(0, &[], &mut []), Ok(0));
    assert_eq!(rt; desk.frame.decode(2, &[], &mut []), Err(Refusal::NoPath));
    Ok(())
}

#[test]
fn letters(rt: HostRuntime) -> Result<(), Fail> {
    refuses(&rt, &[0, 0], b"sasx", Refusal::Letter { place: 3 })?;
    refuses(&rt, &[0, 0], b"SAsa", Refusal::Letter { place: 0 })?;
    // every letter is asked before the first needs anything
    refuses(&rt, &[0], b"ja\n", Refusal::Letter { place: 2 })
}

#[test]
fn standing(rt: HostRuntime) -> Result<(), Fail> {
    refuses(&rt, &[0], b"sj", Refusal::Standing { place: 1 })?;
    refuses(&rt, &[0, 0], b"ssa", Refusal::Standing { place: 2 })?;
    refuses(&rt, &[0], b"a", Refusal::Standing { place: 0 })
}

#[test]
fn unfinished(rt: HostRuntime) -> Result<(), Fail> {
    refuses(&rt, &[0, 0], b"ss", Refusal::Unfinished)?;
    refuses(&rt, &[0, 0], b"sa", Refusal::Unfinished)?;
    refuses(&rt, &[0], b"sasa", Refusal::Unfinished)?;
    refuses(&rt, &[0], b"", Refusal::Unfinished)?;
    refuses(&rt, &[], b"sa", Refusal::Unfinished)
}

// A block of 33 symbols; the question comes before those of the symbols and of the memory.
#[test]
fn blocks(rt: HostRuntime) -> Result<(), Fail> {
    let plan = nested(rt.alloc(), 33, 32)?;
    refuses(
        &rt,
        &[999; 33],
        plan.as_slice(),
        Refusal::Block { place: 64 },
    )
}

// Both values go to 8, and nothing stands above them.
#[test]
fn symbols(rt: HostRuntime) -> Result<(), Fail> {
    refuses(&rt, &[9], b"sa", Refusal::Symbol { place: 0 })?;
    refuses(&rt, &[136, 137], b"sasa", Refusal::Symbol { place: 1 })?;
    refuses(&rt, &[136, 0, 144], b"sssjja", Refusal::Symbol { place: 2 })?;
    refuses(
        &rt,
        &[0, 256, u32::MAX],
        b"sasasa",
        Refusal::Symbol { place: 1 },
    )?;
    refuses(&rt, &[u32::MAX], b"sa", Refusal::Symbol { place: 0 })
}

// The plan is asked before the symbols, and these before the memory.
#[test]
fn order_of_the_questions(rt: HostRuntime) -> Result<(), Fail> {
    refuses(&rt, &[999], b"sax", Refusal::Letter { place: 2 })?;
    refuses(&rt, &[999], b"saa", Refusal::Standing { place: 2 })?;
    refuses(&rt, &[999], b"sasa", Refusal::Unfinished)?;
    refuses(
        &rt,
        &[0, 0, 0, 999],
        b"sasasasa",
        Refusal::Symbol { place: 3 },
    )?;
    refuses(&rt, &[0, 0, 0, 0], b"sasasasa", Refusal::Memory)?;
    refuses(&rt, &[0, 0, 0, 0], b"ssssjjja", Refusal::Memory)
}

// Three symbols in two blocks, with buffers of these lengths.
fn asks_for(
    rt: &(impl Abort + AllocGlobal),
    work: usize,
    row: usize,
    store: usize,
    answer: Result<(usize, usize), Refusal>,
) -> Result<(), Fail> {
    let heap = rt.alloc();
    let mut desk = Desk {
        frame: Frame::new(by_name("k3")?),
        work: vec![in heap; MARK; work]?,
        row: vec![in heap; MARK; row]?,
        store: vec![in heap; WORD; store]?,
        bits: Vec::new(heap),
    };
    let accepted = answer.is_ok();
    assert_eq!(rt; desk.take(&[119, 112, 7], b"ssjasa"), answer);
    assert!(rt; accepted || is_untouched(&desk));
    Ok(())
}

#[test]
fn short_buffers(rt: HostRuntime) -> Result<(), Fail> {
    asks_for(&rt, 32, 4, 10, Ok((3, 1)))?;
    asks_for(&rt, 31, 4, 10, Err(Refusal::Memory))?;
    asks_for(&rt, 32, 3, 10, Err(Refusal::Memory))?;
    asks_for(&rt, 32, 4, 9, Err(Refusal::Memory))
}

#[test]
fn empty_buffers(rt: HostRuntime) -> Result<(), Fail> {
    asks_for(&rt, 0, 4, 10, Err(Refusal::Memory))?;
    asks_for(&rt, 32, 0, 10, Err(Refusal::Memory))?;
    asks_for(&rt, 32, 4, 0, Err(Refusal::Memory))?;
    asks_for(&rt, 0, 0, 0, Err(Refusal::Memory))
}

// The store needs a row for each letter a so far as well as to come. It ends within a row, so it is no desk's.
#[test]
fn a_store_that_is_full(rt: HostRuntime) -> Result<(), Fail> {
    let mut frame = Frame::new(by_name("k3")?);
    let mut work = [MARK; 16];
    let mut row = [MARK; 4];
    let mut store = [WORD; 14];
    assert_eq!(rt;
        frame.take(&[119, 112], b"sasa", &mut work, &mut row, &mut store),
        Ok((2, 0))
    );
    let full = store;
    assert_eq!(rt;
        frame.take(&[7], b"sa", &mut work, &mut row, &mut store),
        Err(Refusal::Memory)
    );
    assert!(rt; store == full);
    // no symbols need no row
    assert_eq!(rt;
        frame.take(&[], b"", &mut work, &mut row, &mut store),
        Ok((0, 0))
    );
    assert!(rt; store == full);
    Ok(())
}

// After a refusal a frame goes on as if nothing had been asked.
#[test]
fn a_refusal_between_two_takes(rt: HostRuntime) -> Result<(), Fail> {
    let mut desk = Desk::new(rt.alloc(), by_name("k3")?, 2, 2, 3)?;
    assert_eq!(rt; desk.take(&[119], b"sa"), Ok((1, 0)));
    assert_eq!(rt;
        desk.take(&[0, 0, 9], b"ssjasa"),
        Err(Refusal::Symbol { place: 2 })
    );
    assert_eq!(rt; desk.take(&[112, 7], b"ssja"), Ok((2, 1)));
    assert_eq!(rt; desk.decode(0), Ok(7));
    assert!(rt; desk.bits.as_slice() == [1, 0, 0].as_slice());
    Ok(())
}
