// The four kinds of cases, and whether the library agrees.
use crate::counts::{Delivery, Desk, STATES, named, numbers};
use algebra_scalars::{Bit, Count};
use anyhow::anyhow;
use run_check::check;
use run_counter::Counter;
use std::alloc::Global;
use std::fmt;
use vectors::bits;

#[derive(Clone, Copy, PartialEq, Eq, PartialOrd, Ord)]
pub enum Kind {
    Check,
    Sequence,
    Count,
    Paths,
}

impl Kind {
    pub const ALL: [Kind; 4] = [Kind::Check, Kind::Sequence, Kind::Count, Kind::Paths];
}

impl fmt::Display for Kind {
    fn fmt<W: fmt::Write>(&self, f: &mut fmt::Formatter<W>) -> fmt::Result {
        f.write_str(match self {
            Kind::Check => "check values",
            Kind::Sequence => "sequences",
            Kind::Count => "counts from any start",
            Kind::Paths => "path counts",
        })
    }
}

// Runs the case on a line. A kind is no `FromStr`: its name says which fields follow, so one match reads both.
pub(crate) fn run(heap: Global, line: &str) -> anyhow::Result<(Kind, bool)> {
    let fields: Vec<&str> = line.split(' ').collect(heap)?;
    match fields.as_slice() {
        ["crc", bits, value] => Ok((Kind::Check, agrees_check(heap, bits, value)?)),
        ["seq", start, _, bits] => Ok((Kind::Sequence, agrees_sequence(heap, start, bits)?)),
        ["count", code, start, symbols, plan, state, value] => {
            let code = named(code)?;
            let mut start: Vec<Count> = numbers(heap, start)?.into_iter().map(Count).collect(heap)?;
            let delivery = Delivery::read(heap, symbols, plan)?;
            let mut desk = Desk::new(heap)?;
            // a take that is refused differs, whatever state is asked for and whatever is wanted there
            let Ok(run) = delivery.run(code, start.as_mut_slice(), &mut desk) else {
                return Ok((Kind::Count, false));
            };
            let wanted = value.parse::<u32>()?;
            let agrees = match run.read(state.parse::<usize>()?) {
                Ok(Count(found)) => found == wanted,
                Err(_) => false,
            };
            Ok((Kind::Count, agrees))
        }
        ["paths", code, symbols, plan, state, value] => {
            let delivery = Delivery::read(heap, symbols, plan)?;
            let mut desk = Desk::new(heap)?;
            let mut buffer = [Count(0); STATES];
            let mut counter = Counter::over(named(code)?, &mut buffer);
            // the same of a take that is refused
            if delivery.count(&mut counter, &mut desk).is_err() {
                return Ok((Kind::Paths, false));
            }
            let agrees = match counter.count(state.parse::<usize>()?) {
                Ok(Some(found)) => value.parse::<u32>() == Ok(found),
                Ok(None) => *value == "absent",
                Err(_) => false,
            };
            Ok((Kind::Paths, agrees))
        }
        _ => Err(anyhow!("a line is no case")),
    }
}

fn agrees_check(heap: Global, list: &str, value: &str) -> anyhow::Result<bool> {
    match check(bits(heap, list)?.as_slice()) {
        Ok(found) => Ok(format!(in heap; "{found:08X}")?.as_str() == value),
        Err(_) => Ok(false),
    }
}

fn agrees_sequence(heap: Global, start: &str, list: &str) -> anyhow::Result<bool> {
    let start = bits(heap, start)?;
    let wanted = bits(heap, list)?;
    let mut state: Vec<Bit> = start.iter().map(|bit| Bit(*bit == 1)).collect(heap)?;
    let mut found = vec![in heap; 0u8; wanted.len()]?;
    let answer = run_sequence::sequence(state.as_mut_slice(), found.as_mut_slice());
    Ok(answer.is_ok() && found.as_slice() == wanted.as_slice())
}
