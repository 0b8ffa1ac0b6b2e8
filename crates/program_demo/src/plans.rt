// Plans of whole deliveries: blocks of up to 32 symbols, bracketed one way or another.
use plan::BLOCK;
use std::alloc::{AllocError, Global};
use std::fmt;
use std::iter::repeat_n;

// How the symbols of a block are joined.
#[derive(Clone, Copy)]
pub enum Bracketing {
    // each symbol is a block of its own
    Single,
    // each next symbol onto the block so far
    Left,
    // the last symbols first
    Right,
    // halves, and halves of halves
    Balanced,
}

impl fmt::Display for Bracketing {
    fn fmt<W: fmt::Write>(&self, f: &mut fmt::Formatter<W>) -> fmt::Result {
        f.write_str(match self {
            Bracketing::Single => "single steps",
            Bracketing::Left => "left-nested",
            Bracketing::Right => "right-nested",
            Bracketing::Balanced => "balanced",
        })
    }
}

impl Bracketing {
    pub const ALL: [Bracketing; 4] = [
        Bracketing::Single,
        Bracketing::Left,
        Bracketing::Right,
        Bracketing::Balanced,
    ];

    // The plan of a delivery of these symbols.
    pub(crate) fn plan(self, heap: Global, symbols: &[u32]) -> Result<Vec<u8>, AllocError> {
        let size = match self {
            Bracketing::Single => 1,
            _ => BLOCK,
        };
        let mut plan = Vec::new(heap);
        for block in symbols.chunks(size) {
            self.push_block(&mut plan, block.len())?;
        }
        Ok(plan)
    }

    // The letters of one block.
    fn push_block(self, plan: &mut Vec<u8>, size: usize) -> Result<(), AllocError> {
        let mut standing = 0usize;
        // i numbers the symbols, for the carries below, and is no index; letters are bytes, as a plan is
        for i in 1..=size {
            plan.push(b's')?;
            let joins = match self {
                Bracketing::Left if i > 1 => 1,
                // as a binary counter carries
                Bracketing::Balanced => i.trailing_zeros() as usize,
                _ => 0,
            };
            plan.extend(repeat_n(b'j', joins))?;
            standing = standing.saturating_add(1).saturating_sub(joins);
        }
        plan.extend(repeat_n(b'j', standing.saturating_sub(1)))?;
        plan.push(b'a')?;
        Ok(())
    }
}
