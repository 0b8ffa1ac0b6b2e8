// Worked lines.
use code::by_name;
use frame::Frame;
use frame_desk::{BYTE, Desk, MARK, WORD};
use refusal::Refusal;
use std::process::Abort;
use std::test::Fail;

// Takes the symbols under a plan and decodes to state 0, as it must.
fn decodes(
    rt: &(impl Abort + AllocGlobal),
    symbols: &[u32],
    plan: &[u8],
    joins: usize,
    cost: u32,
    wanted: &[u8],
) -> Result<(), Fail> {
    let mut desk = Desk::new(rt.alloc(), by_name("k3")?, 4, 4, 4)?;
    assert_eq!(rt; desk.take(symbols, plan), Ok((symbols.len(), joins)));
    assert_eq!(rt; desk.decode(0), Ok(cost));
    assert!(rt; desk.bits.starts_with(wanted));
    Ok(())
}

#[test]
fn one_value_wrong(rt: HostRuntime) -> Result<(), Fail> {
    decodes(&rt, &[119, 112, 7], b"sasasa", 0, 7, &[1, 0, 0])?;
    decodes(&rt, &[119, 112, 7], b"ssjsja", 2, 7, &[1, 0, 0])?;
    decodes(&rt, &[119, 112, 7], b"sssjja", 2, 7, &[1, 0, 0])
}

#[test]
fn a_tie_has_its_0_late(rt: HostRuntime) -> Result<(), Fail> {
    decodes(&rt, &[136, 120, 136, 136], b"sasasasa", 0, 0, &[1, 0, 0, 0])?;
    decodes(&rt, &[136, 120, 136, 136], b"ssjsjsja", 3, 0, &[1, 0, 0, 0])?;
    decodes(&rt, &[136, 120, 136, 136], b"ssjssjja", 3, 0, &[1, 0, 0, 0])
}

#[test]
fn a_tie_cut_after_its_first_step(rt: HostRuntime) -> Result<(), Fail> {
    decodes(&rt, &[136, 120, 136, 136], b"sasssjja", 2, 0, &[1, 0, 0, 0])?;
    decodes(&rt, &[136, 120, 136, 136], b"sassjsja", 2, 0, &[1, 0, 0, 0])
}

// The same cut between two deliveries.
#[test]
fn a_tie_in_two_deliveries(rt: HostRuntime) -> Result<(), Fail> {
    let mut desk = Desk::new(rt.alloc(), by_name("k3")?, 3, 2, 4)?;
    assert_eq!(rt; desk.take(&[136], b"sa"), Ok((1, 0)));
    assert_eq!(rt; desk.take(&[120, 136, 136], b"sssjja"), Ok((3, 2)));
    assert_eq!(rt; desk.decode(0), Ok(0));
    assert!(rt; desk.bits.as_slice() == [1, 0, 0, 0].as_slice());
    Ok(())
}

#[test]
fn no_symbols(rt: HostRuntime) -> Result<(), Fail> {
    let mut frame = Frame::new(by_name("k3")?);
    assert_eq!(rt;
        frame.take(&[], b"", &mut [], &mut [MARK; 4], &mut []),
        Ok((0, 0))
    );
    assert_eq!(rt; frame.decode(0, &[], &mut []), Ok(0));
    assert_eq!(rt; frame.decode(2, &[], &mut []), Err(Refusal::NoPath));
    Ok(())
}

// A frame answers before any take, whatever the store holds, and writes no bit.
#[test]
fn a_frame_asked_before_any_symbol(rt: HostRuntime) -> Result<(), Fail> {
    let frame = Frame::new(by_name("k3")?);
    let mut bits = [BYTE; 3];
    assert_eq!(rt; frame.decode(0, &[WORD; 7], &mut bits), Ok(0));
    assert_eq!(rt;
        frame.decode(1, &[WORD; 7], &mut bits),
        Err(Refusal::NoPath)
    );
    assert_eq!(rt; frame.decode(4, &[], &mut bits), Err(Refusal::Place));
    assert!(rt; bits == [BYTE; 3]);
    Ok(())
}

// Bytes past the last step stay as they are, and a second decode answers the same. The store ends within a row, so it
// is no desk's.
#[test]
fn bytes_past_the_last_step(rt: HostRuntime) -> Result<(), Fail> {
    let mut frame = Frame::new(by_name("k3")?);
    let mut work = [MARK; 48];
    let mut row = [MARK; 4];
    let mut store = [WORD; 7];
    let mut bits = [BYTE; 5];
    assert_eq!(rt;
        frame.take(&[119, 112, 7], b"sssjja", &mut work, &mut row, &mut store),
        Ok((3, 2))
    );
    assert!(rt; store[5] == WORD && store[6] == WORD);
    assert_eq!(rt; frame.decode(0, &store, &mut bits), Ok(7));
    assert!(rt; bits == [1, 0, 0, BYTE, BYTE]);
    assert_eq!(rt; frame.decode(0, &store, &mut bits), Ok(7));
    assert!(rt; bits == [1, 0, 0, BYTE, BYTE]);
    Ok(())
}
