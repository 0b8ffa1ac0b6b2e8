// The best paths by a direct search over all paths, which shares nothing with the library: so it has costs and branches
// of its own.
use std::alloc::{AllocError, Global};
use std::iter::successors;
use std::test::Fail;

// A code: its name in the library, the bits of a state, and the generators.
#[derive(Clone, Copy)]
pub(crate) struct Encoder {
    pub(crate) name: &'static str,
    memory: u32,
    first: u32,
    second: u32,
}

pub(crate) const K3: Encoder = Encoder {
    name: "k3",
    memory: 2,
    first: 0o7,
    second: 0o5,
};

pub(crate) const K7: Encoder = Encoder {
    name: "k7",
    memory: 6,
    first: 0o171,
    second: 0o133,
};

// Where a path stands, and what it has cost.
#[derive(Clone, Copy)]
struct Standing {
    state: u32,
    cost: u32,
}

// The cost of a soft value against a code bit.
fn cost(value: u32, bit: u32) -> u32 {
    match (value, bit) {
        (8, _) => 0,
        (_, 0) => value,
        _ => 7u32.wrapping_sub(value),
    }
}

fn parity(ones: u32) -> u32 {
    ones.count_ones() % 2
}

impl Encoder {
    fn states(self) -> u32 {
        1u32.wrapping_shl(self.memory)
    }

    fn step(self, from: Standing, input: u32, symbol: u32) -> Standing {
        let register = input.wrapping_mul(self.states()).wrapping_add(from.state);
        let first = cost(symbol / 16, parity(register & self.first));
        let second = cost(symbol % 16, parity(register & self.second));
        Standing {
            state: register / 2,
            cost: from.cost.wrapping_add(first).wrapping_add(second),
        }
    }

    // Follows the path whose input bits are those of a number, the earliest lowest.
    fn follow(self, path: u32, symbols: &[u32]) -> Standing {
        symbols
            .iter()
            .zip(successors(Some(path), |rest| Some(*rest / 2)))
            .fold(Standing { state: 0, cost: 0 }, |standing, (symbol, rest)| {
                self.step(standing, rest % 2, *symbol)
            })
    }
}

// A cheapest path. Of two paths the one with the 0 at the latest bit where they differ has the lower number, so the
// better comes first in the derived order.
#[derive(Clone, Copy, PartialEq, Eq, PartialOrd, Ord, Debug)]
pub(crate) struct Best {
    pub(crate) cost: u32,
    pub(crate) path: u32,
}

// The best path to each state.
pub(crate) fn search(
    heap: Global,
    encoder: Encoder,
    symbols: &[u32],
) -> Result<Vec<Option<Best>>, Fail> {
    let mut found: Vec<Option<Best>> = vec![in heap; None; encoder.states() as usize]?;
    for path in 0..2u32.wrapping_pow(u32::try_from(symbols.len())?) {
        let Standing { state, cost } = encoder.follow(path, symbols);
        let best = Best { cost, path };
        if let Some(place) = found.get_mut(state as usize) {
            *place = Some(place.map_or(best, |found| found.min(best)));
        }
    }
    Ok(found)
}

// The input bits of a path of so many steps.
pub(crate) fn input_bits(heap: Global, path: u32, steps: usize) -> Result<Vec<u8>, AllocError> {
    successors(Some(path), |rest| Some(*rest / 2))
        .map(|rest| (rest % 2) as u8)
        .take(steps)
        .collect(heap)
}

// The search itself, on a list whose answer is known.
#[test]
fn the_search_knows_the_worked_line(rt: HostRuntime) -> Result<(), Fail> {
    let found = search(rt.alloc(), K3, &[136, 120, 136, 136])?;
    assert_eq!(rt; found.len(), 4);
    assert_eq!(rt;
        found.get(0).copied(),
        Some(Some(Best { cost: 0, path: 1 }))
    );
    Ok(())
}
