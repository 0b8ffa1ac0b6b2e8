// Runs: bad input, limits, and the memory that a take leaves.
use algebra::Algebra;
use algebra_scalars::Bit;
use algebra_survivor::Survivor;
use code::by_name;
use engine::Run;
use recursion_bits::{CheckRegister, Sequence};
use recursion_trellis::SurvivorTrellis;
use refusal::Refusal;
use std::process::Abort;
use std::test::Fail;

#[test]
fn a_run_that_was_never_made(rt: HostRuntime) {
    let mut state = [Bit(true); 9];
    let mut work = [Bit(false); 81];
    let mut row = [Bit(false); 9];
    let mut run = Run::over(&mut state);
    assert_eq!(rt; run.read(0).err(), Some(Refusal::Place));
    assert_eq!(rt;
        run.take(&Sequence, &[0], b"sa", &mut work, &mut row),
        Err(Refusal::Memory)
    );
    // the earlier questions come first
    assert_eq!(rt;
        run.take(&Sequence, &[1], b"sa", &mut work, &mut row),
        Err(Refusal::Symbol { place: 0 })
    );
}

#[test]
fn a_run_made_for_another_size(rt: HostRuntime) {
    let mut state = [Bit(true); 40];
    let mut work = [Bit(false); 1089];
    let mut row = [Bit(false); 33];
    let mut run = Run::over(&mut state);
    assert!(rt; run.make(&Sequence).is_ok());
    assert_eq!(rt;
        run.take(&CheckRegister, &[0], b"sa", &mut work, &mut row),
        Err(Refusal::Memory)
    );
    assert!(rt; run.make(&CheckRegister).is_ok());
    assert_eq!(rt;
        run.take(&CheckRegister, &[0], b"sa", &mut work, &mut row),
        Ok((1, 0))
    );
    assert_eq!(rt; run.read(33).err(), Some(Refusal::Place));
}

#[test]
fn buffers_that_are_short(rt: HostRuntime) {
    let mut state = [Bit(true); 9];
    let mut work = [Bit(false); 162];
    let mut row = [Bit(false); 9];
    let mut none: [Bit; 0] = [];
    assert_eq!(rt; Run::over(&mut none).make(&Sequence), Err(Refusal::Memory));
    let mut run = Run::over(&mut state);
    assert!(rt; run.make(&Sequence).is_ok());
    assert_eq!(rt;
        run.take(&Sequence, &[0, 0], b"ssja", &mut work[0..161], &mut row),
        Err(Refusal::Memory)
    );
    assert_eq!(rt;
        run.take(&Sequence, &[0, 0], b"ssja", &mut work, &mut row[0..8]),
        Err(Refusal::Memory)
    );
    assert_eq!(rt;
        run.take(&Sequence, &[0, 0], b"ssja", &mut work, &mut row),
        Ok((2, 1))
    );
    assert_eq!(rt;
        run.take(&Sequence, &[], b"", &mut [], &mut row),
        Ok((0, 0))
    );
}

// A refused delivery leaves the state as it was: a bad letter anywhere refuses all of it.
#[test]
fn a_bad_letter_refuses_the_whole_delivery(rt: HostRuntime) {
    let mut state = [Bit(true); 9];
    let mut work = [Bit(false); 81];
    let mut row = [Bit(false); 9];
    let mut run = Run::over(&mut state);
    assert!(rt; run.make(&Sequence).is_ok());
    assert_eq!(rt;
        run.take(&Sequence, &[0, 0], b"sasx", &mut work, &mut row),
        Err(Refusal::Letter { place: 3 })
    );
    assert!(rt; state[8].same(Bit(true)));
}

// Takes a thousand symbols, in blocks of two.
fn take_thousand(rt: &impl Abort, run: &mut Run<'_, Bit>, symbols: &[u32], plan: &[u8]) {
    let mut work = [Bit(false); 162];
    let mut row = [Bit(false); 9];
    assert_eq!(rt;
        run.take(&Sequence, symbols, plan, &mut work, &mut row),
        Ok((1000, 500))
    );
}

#[test]
fn a_million_symbols_and_one_more(rt: HostRuntime) -> Result<(), Fail> {
    let heap = rt.alloc();
    let symbols = vec![in heap; 0u32; 1000]?;
    let plan = b"ssja".repeat(heap, 500)?;
    let mut state = [Bit(true); 9];
    let mut run = Run::over(&mut state);
    assert!(rt; run.make(&Sequence).is_ok());
    for _ in 0..1000 {
        take_thousand(&rt, &mut run, symbols.as_slice(), plan.as_slice());
    }
    let mut work = [Bit(false); 81];
    let mut row = [Bit(false); 9];
    assert_eq!(rt;
        run.take(&Sequence, &[0], b"sa", &mut work, &mut row),
        Err(Refusal::Limit)
    );
    Ok(())
}

// Rows out of range mean none, also in the start state.
#[test]
fn survivors_out_of_range_in_the_start_state(rt: HostRuntime) -> Result<(), Fail> {
    let trellis = SurvivorTrellis {
        code: by_name("k3")?,
    };
    let one = Survivor {
        word: 0,
        cost: 0,
        length: 0,
    };
    // too long, too dear, and a word that is too large
    let long = Survivor {
        word: 0,
        cost: 0,
        length: 33,
    };
    let dear = Survivor {
        word: 0,
        cost: 15,
        length: 1,
    };
    let large = Survivor {
        word: 2,
        cost: 0,
        length: 1,
    };
    let mut state = [one, long, dear, large];
    let mut work = [long; 16];
    let mut row = [dear; 4];
    let mut run = Run::over(&mut state);
    assert!(rt; run.make(&trellis).is_ok());
    assert_eq!(rt;
        run.take(&trellis, &[0], b"sa", &mut work, &mut row),
        Ok((1, 0))
    );
    // only state 0 has branches to follow: to 0 at no cost, to 2 at 14
    assert!(rt;
        state[0].same(Survivor {
            word: 0,
            cost: 0,
            length: 1,
        })
    );
    assert!(rt; state[1].same(Survivor::zero()));
    assert!(rt;
        state[2].same(Survivor {
            word: 0,
            cost: 14,
            length: 1,
        })
    );
    assert!(rt; state[3].same(Survivor::zero()));
    Ok(())
}
