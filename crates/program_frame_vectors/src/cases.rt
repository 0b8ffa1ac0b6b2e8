// The cases: frames, each with what other software answers at some of its end states.
use crate::fields;
use anyhow::{Context, anyhow};
use frame::Frame;
use frame_desk::Desk;
use plan::Letter;
use refusal::Refusal;
use std::alloc::Global;
use std::fmt;
use std::str::FromStr;
use vectors::{Tally, bits, listed};

// How the symbols of a frame were chosen.
#[derive(Clone, Copy, PartialEq, Eq, PartialOrd, Ord)]
pub enum Kind {
    Short,
    Noisy,
    Erased,
    Tied,
    Random,
    Full,
}

impl Kind {
    pub const ALL: [Kind; 6] = [
        Kind::Short,
        Kind::Noisy,
        Kind::Erased,
        Kind::Tied,
        Kind::Random,
        Kind::Full,
    ];

    fn name(self) -> &'static str {
        match self {
            Kind::Short => "short",
            Kind::Noisy => "noisy",
            Kind::Erased => "erased",
            Kind::Tied => "tied",
            Kind::Random => "random",
            Kind::Full => "full",
        }
    }
}

impl fmt::Display for Kind {
    fn fmt<W: fmt::Write>(&self, f: &mut fmt::Formatter<W>) -> fmt::Result {
        f.write_str(self.name())
    }
}

impl FromStr for Kind {
    type Err = anyhow::Error;

    fn from_str(name: &str) -> anyhow::Result<Kind> {
        Kind::ALL
            .into_iter()
            .find(|kind| kind.name() == name)
            .context("a line is of no kind")
    }
}

// What a case is about: the name of a code, and a kind.
#[derive(Clone, Copy, PartialEq, Eq, PartialOrd, Ord)]
pub struct Subject<'a> {
    pub code: &'a str,
    pub kind: Kind,
}

// Runs the case on a line.
pub(crate) fn run<'a>(
    heap: Global,
    desk: &mut Desk,
    line: &'a str,
) -> anyhow::Result<(Subject<'a>, Tally)> {
    let fields: Vec<&'a str> = line.split(' ').collect(heap)?;
    let [kind, name, symbols, plans, answers] = fields.as_slice() else {
        return Err(anyhow!("a line is no case"));
    };
    let code = fields::code(name)?;
    let subject = Subject {
        code: name,
        kind: kind.parse::<Kind>()?,
    };
    let symbols = fields::symbols(heap, symbols)?;
    desk.frame = Frame::new(code);
    if !takes(desk, symbols.as_slice(), plans) {
        return Ok((subject, Tally::of(false)));
    }
    let mut tally = Tally::default();
    for answer in answers.split(',') {
        tally += Tally::of(agrees(heap, desk, answer)?);
    }
    Ok((subject, tally))
}

// Delivers the symbols under plans between commas, each as many as it has letters s.
fn takes(desk: &mut Desk, symbols: &[u32], plans: &str) -> bool {
    let mut rest = symbols;
    for plan in plans.split(',') {
        let plan = listed(plan).as_bytes();
        let singles = plan
            .iter()
            .filter(|letter| Letter::of(**letter) == Letter::Single)
            .count();
        let Some((now, later)) = rest.split_at_checked(singles) else {
            return false;
        };
        if desk.take(now, plan).is_err() {
            return false;
        }
        rest = later;
    }
    rest.is_empty()
}

// Whether the frame answers STATE:COST:BITS, or STATE:absent.
fn agrees(heap: Global, desk: &mut Desk, answer: &str) -> anyhow::Result<bool> {
    let parts: Vec<&str> = answer.split(':').collect(heap)?;
    match parts.as_slice() {
        [state, "absent"] => Ok(desk.decode(state.parse::<usize>()?) == Err(Refusal::NoPath)),
        [state, cost, path] => {
            let found = desk.decode(state.parse::<usize>()?);
            let path = bits(heap, path)?;
            Ok(
                found == Ok(cost.parse::<u32>()?)
                    && desk.bits.get(0..desk.frame.steps()) == Some(path.as_slice()),
            )
        }
        _ => Err(anyhow!("a line has no answer")),
    }
}
