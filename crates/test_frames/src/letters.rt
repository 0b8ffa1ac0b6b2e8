// Every plan, found among all words of letters.
use plan::read;
use std::alloc::{AllocError, Global};
use std::iter::successors;
use std::test::Fail;

// The word of so many letters s, j and a that has this number: its digits to base 3. Its letters are bytes, for a plan
// is bytes.
fn spell(heap: Global, number: u32, letters: usize) -> Result<Vec<u8>, AllocError> {
    successors(Some(number), |rest| Some(*rest / 3))
        .map(|rest| match rest % 3 {
            0 => b's',
            1 => b'j',
            _ => b'a',
        })
        .take(letters)
        .collect(heap)
}

// Every plan of so many symbols. Each symbol brings a letter s, and a letter j or a takes its matrix away: so there are
// two letters for each, and nine words of these.
pub(crate) fn every_plan(heap: Global, symbols: usize) -> Result<Vec<Vec<u8>>, Fail> {
    let mut plans = Vec::new(heap);
    for number in 0..9u32.wrapping_pow(u32::try_from(symbols)?) {
        let word = spell(heap, number, symbols.wrapping_mul(2))?;
        if read(word.as_slice(), symbols).is_ok() {
            plans.push(word)?;
        }
    }
    Ok(plans)
}

#[test]
fn plans_of_up_to_six_symbols(rt: HostRuntime) -> Result<(), Fail> {
    let counts = [(1, 1), (2, 2), (3, 5), (4, 14), (5, 42), (6, 132)];
    for (symbols, count) in counts {
        assert_eq!(rt; every_plan(rt.alloc(), symbols)?.len(), count);
    }
    Ok(())
}

#[test]
fn plans_of_seven_symbols(rt: HostRuntime) -> Result<(), Fail> {
    assert_eq!(rt; every_plan(rt.alloc(), 7)?.len(), 429);
    Ok(())
}
