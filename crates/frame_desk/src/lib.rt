// A frame at work: the frame, and the memory that it is lent, full of marks that show what was written.
#![tactic(auto)]

use algebra_survivor::Survivor;
use code::Code;
use frame::Frame;
use refusal::Refusal;
use std::alloc::{AllocError, Global};

// An element that no test's take writes.
pub const MARK: Survivor = Survivor {
    word: 5,
    cost: 77,
    length: 6,
};

// A word that no test's take writes into a store, and a byte that no decode writes into a bit buffer.
pub const WORD: u32 = 0xdead_beef;

pub const BYTE: u8 = 9;

#[derive(Drop)]
pub struct Desk {
    pub frame: Frame,
    pub work: Vec<Survivor>,
    pub row: Vec<Survivor>,
    pub store: Vec<u32>,
    pub bits: Vec<u8>,
}

impl Desk {
    ghost use Rattle.std.specs.Prelude.{◌≡◌, ℕ, ◌+◌, ◌-◌, ◌*◌, ◌^◌, IfOk, min, replicate};
    ghost use Rattle.code.specs.Codes.{states};
    ghost use Rattle.frame.specs.Frames.{Took, Traced};
    ghost use Rattle.frame.specs.Histories.{Whole};

    // A fresh frame, and memory for so many matrices, rows and bits.
    pub fn new(
        heap: Global,
        code: Code,
        matrices: usize,
        rows: usize,
        bits: usize,
    ) -> Result<Desk, AllocError>
        ensures whole { IfOk result (λ desk. Whole code desk.frame) }
        ensures work { IfOk result (λ desk. desk.work.items ≡ replicate (min (states code * states code * matrices) (2 ^ 64 - 1)) MARK) }
        ensures row { IfOk result (λ desk. desk.row.items ≡ replicate (states code) MARK) }
        ensures store { IfOk result (λ desk. desk.store.items ≡ replicate (min ((states code + 1) * rows) (2 ^ 64 - 1)) WORD) }
        ensures bits { IfOk result (λ desk. desk.bits.items ≡ replicate bits BYTE) }
    {
        let states = code.states();
        Ok(Desk {
            frame: Frame::new(code),
            work: vec![in heap; MARK; (states * states).saturating_mul(matrices)]?,
            row: vec![in heap; MARK; states]?,
            store: vec![in heap; WORD; (states + 1).saturating_mul(rows)]?,
            bits: vec![in heap; BYTE; bits]?,
        })
    }

    // Takes symbols under a plan as the frame does.
    pub fn take(&mut self, symbols: &[u32], plan: &[u8]) -> Result<(usize, usize), Refusal>
        ensures took { Took symbols.now plan.now self.old.frame self.old.store.items self.old.work.items self.old.row.items
            result self.new.frame self.new.store.items self.new.work.items self.new.row.items }
        ensures bits { self.new.bits.items ≡ self.old.bits.items }
    {
        self.frame.take(
            symbols,
            plan,
            self.work.as_mut_slice(),
            self.row.as_mut_slice(),
            self.store.as_mut_slice(),
        )
    }

    // Decodes to a state as the frame does, into the bits.
    pub fn decode(&mut self, state: usize) -> Result<u32, Refusal>
        ensures traced { Traced self.old.frame state self.old.store.items self.old.bits.items result self.new.bits.items }
        ensures frame { self.new.frame ≡ self.old.frame }
        ensures store { self.new.store.items ≡ self.old.store.items }
        ensures work { self.new.work.items ≡ self.old.work.items }
        ensures row { self.new.row.items ≡ self.old.row.items }
    {
        self.frame
            .decode(state, self.store.as_slice(), self.bits.as_mut_slice())
    }
}
