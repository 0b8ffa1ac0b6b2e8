// Fields of a case of frames.
use anyhow::anyhow;
use code::{BASE, Code, by_name};
use std::alloc::Global;

pub(crate) fn code(name: &str) -> anyhow::Result<Code> {
    by_name(name).map_err(|_| anyhow!("a line names no code"))
}

// The soft value of a digit.
fn soft_value(digit: u8) -> anyhow::Result<u8> {
    match digit {
        b'0'..=b'8' => Ok(digit - b'0'),
        _ => Err(anyhow!("a field of symbols has another character")),
    }
}

// Two digits for each symbol, its two soft values; a dash ends them, and a last digit alone is none. The digits are not
// listed before they are paired: the list would be as large as the field.
pub(crate) fn symbols(heap: Global, field: &str) -> anyhow::Result<Vec<u32>> {
    let digits = match field.split_once('-') {
        Some((digits, _)) => digits,
        None => field,
    };
    let (pairs, alone) = digits.as_bytes().as_chunks::<2>();
    let mut symbols = Vec::new(heap);
    for [first, second] in pairs {
        let first = soft_value(*first)?;
        let second = soft_value(*second)?;
        symbols.push(BASE * u32::from(first) + u32::from(second))?;
    }
    for digit in alone {
        soft_value(*digit)?;
    }
    Ok(symbols)
}
