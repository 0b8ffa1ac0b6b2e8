// Decodes that are refused: states, buffers, and stores that are not a frame's.
use crate::marks::is_marked;
use code::by_name;
use frame::Frame;
use frame_desk::{BYTE, MARK, WORD};
use refusal::Refusal;
use std::process::Abort;
use std::test::Fail;

// A frame of the symbols 119 112 7 under the plan sassja, in rows of 1 and 2 steps; the best path to state 0 is 1 0 0,
// at a cost of 7. The buffers are arrays and no desk: the tests cut the store and write to places of it, which asks for
// its length.
fn framed(rt: &impl Abort, store: &mut [u32; 10]) -> Result<Frame, Fail> {
    let mut frame = Frame::new(by_name("k3")?);
    let mut work = [MARK; 32];
    let mut row = [MARK; 4];
    assert_eq!(rt;
        frame.take(&[119, 112, 7], b"sassja", &mut work, &mut row, store),
        Ok((3, 1))
    );
    Ok(frame)
}

// A refusal that leaves the bit buffer as it was.
fn refuses(rt: &impl Abort, frame: &Frame, state: usize, store: &[u32], refusal: Refusal) {
    let mut bits = [BYTE; 4];
    assert_eq!(rt; frame.decode(state, store, &mut bits), Err(refusal));
    assert!(rt; is_marked(&bits));
}

#[test]
fn states(rt: HostRuntime) -> Result<(), Fail> {
    let mut store = [WORD; 10];
    let frame = framed(&rt, &mut store)?;
    refuses(&rt, &frame, 4, &store, Refusal::Place);
    refuses(&rt, &frame, usize::MAX, &store, Refusal::Place);
    refuses(&rt, &Frame::new(by_name("k7")?), 64, &store, Refusal::Place);
    refuses(
        &rt,
        &Frame::new(by_name("k7")?),
        usize::MAX,
        &store,
        Refusal::Place,
    );
    refuses(
        &rt,
        &Frame::new(by_name("k7")?),
        63,
        &store,
        Refusal::NoPath,
    );
    Ok(())
}

#[test]
fn short_stores(rt: HostRuntime) -> Result<(), Fail> {
    let mut store = [WORD; 10];
    let frame = framed(&rt, &mut store)?;
    refuses(&rt, &frame, 0, &store[0..9], Refusal::Memory);
    refuses(&rt, &frame, 0, &store[0..5], Refusal::Memory);
    refuses(&rt, &frame, 0, &[], Refusal::Memory);
    Ok(())
}

#[test]
fn short_bit_buffers(rt: HostRuntime) -> Result<(), Fail> {
    let mut store = [WORD; 10];
    let frame = framed(&rt, &mut store)?;
    let mut short = [BYTE; 2];
    assert_eq!(rt; frame.decode(0, &store, &mut short), Err(Refusal::Memory));
    assert!(rt; short == [BYTE; 2]);
    assert_eq!(rt; frame.decode(0, &store, &mut []), Err(Refusal::Memory));
    let mut bits = [BYTE; 3];
    assert_eq!(rt; frame.decode(0, &store, &mut bits), Ok(7));
    assert!(rt; bits == [1, 0, 0]);
    Ok(())
}

#[test]
fn stores_of_noise(rt: HostRuntime) -> Result<(), Fail> {
    let mut store = [WORD; 10];
    let frame = framed(&rt, &mut store)?;
    refuses(&rt, &frame, 0, &[0; 10], Refusal::Rows);
    refuses(&rt, &frame, 0, &[1; 10], Refusal::Rows);
    refuses(&rt, &frame, 0, &[WORD; 10], Refusal::Rows);
    refuses(&rt, &frame, 0, &[u32::MAX; 10], Refusal::Rows);
    // the store of nobody's frame, one word off
    refuses(
        &rt,
        &frame,
        0,
        &[0, 1, 2, 0, 0, 1, 0, 2, 0, 0, 0],
        Refusal::Rows,
    );
    Ok(())
}

// A word of a sound store changed.
fn refuses_changed(rt: &impl Abort, place: usize, word: u32) -> Result<(), Fail> {
    assert!(rt; place < 10);
    let mut store = [WORD; 10];
    let frame = framed(rt, &mut store)?;
    store[place] = word;
    refuses(rt, &frame, 0, &store, Refusal::Rows);
    Ok(())
}

#[test]
fn a_first_row_of_another_length(rt: HostRuntime) -> Result<(), Fail> {
    refuses_changed(&rt, 0, 0)?;
    refuses_changed(&rt, 0, 2)?;
    refuses_changed(&rt, 0, 33)?;
    refuses_changed(&rt, 0, u32::MAX)
}

#[test]
fn a_last_row_of_another_length(rt: HostRuntime) -> Result<(), Fail> {
    refuses_changed(&rt, 5, 0)?;
    refuses_changed(&rt, 5, 1)?;
    refuses_changed(&rt, 5, 3)?;
    refuses_changed(&rt, 5, 33)
}

// The lengths together are right, and one of them is not from 1 to 32.
#[test]
fn lengths_that_only_sum_up(rt: HostRuntime) -> Result<(), Fail> {
    let mut store = [WORD; 10];
    let frame = framed(&rt, &mut store)?;
    store[0] = 0;
    store[5] = 3;
    refuses(&rt, &frame, 0, &store, Refusal::Rows);
    store[0] = 4;
    store[5] = u32::MAX;
    refuses(&rt, &frame, 0, &store, Refusal::Rows);
    Ok(())
}

// The path stands in state 2 after the first row. Where that row has a 1 dropped on the way there, it came from 1.
#[test]
fn a_trace_that_misses_state_0(rt: HostRuntime) -> Result<(), Fail> {
    let mut store = [WORD; 10];
    let frame = framed(&rt, &mut store)?;
    assert!(rt; store[0] == 1 && store[3] == 0);
    refuses_changed(&rt, 3, 1)?;
    // another end state's word is not on the way
    let mut bits = [BYTE; 3];
    store[1] = 1;
    store[7] = 99;
    assert_eq!(rt; frame.decode(0, &store, &mut bits), Ok(7));
    assert!(rt; bits == [1, 0, 0]);
    Ok(())
}

// State, memory, path, rows: after one symbol k3 has paths to 0 and 2 only.
#[test]
fn order_of_the_questions(rt: HostRuntime) -> Result<(), Fail> {
    let mut frame = Frame::new(by_name("k3")?);
    let mut work = [MARK; 16];
    let mut row = [MARK; 4];
    let mut store = [WORD; 5];
    assert_eq!(rt;
        frame.take(&[0], b"sa", &mut work, &mut row, &mut store),
        Ok((1, 0))
    );
    refuses(&rt, &frame, 4, &[], Refusal::Place);
    refuses(&rt, &frame, 1, &[], Refusal::Memory);
    assert_eq!(rt; frame.decode(3, &store, &mut []), Err(Refusal::Memory));
    refuses(&rt, &frame, 1, &[WORD; 5], Refusal::NoPath);
    refuses(&rt, &frame, 3, &store, Refusal::NoPath);
    refuses(&rt, &frame, 2, &[WORD; 5], Refusal::Rows);
    Ok(())
}
