// A frame's deliveries and its closing line, in memory of its own.
ghost use Rattle.std.specs.Prelude.{◌≡◌, ◌≤◌, string_bytes, OnOk};
ghost use Rattle.code.specs.Codes.{k3};
ghost use Rattle.frame.specs.Plain.{Plain, nothing};
ghost use Rattle.frame_report.specs.Deliveries.{Bounded};
ghost use Rattle.frame_report.specs.Follows.{Closes, Follows, Gave, Listed, Shows};
ghost use Rattle.frame_report.specs.Lines.{deliveries, lines as all_lines};

use crate::columns::{Decoded, Delivered, Refused};
use crate::fields::{FIELDS, read_numbers};
use crate::lines::{Deliveries, Delivery, LINE};
use algebra_survivor::Survivor;
use code::Code;
use frame::{Frame, LIMIT};
use refusal::Refusal;
use std::alloc::AllocError;

// The states of k3.
const STATES: usize = 4;

// A work area of a matrix for each letter of a plan: no plan ever has more standing.
const WORK: usize = LINE * STATES * STATES;

// A store of 512 rows, each a length and a word for each state.
const STORE: usize = 512 * (1 + STATES);

// What a row of the work area holds before it is used.
const UNUSED: Survivor = Survivor {
    word: 0,
    cost: 0,
    length: 0,
};

// The state that every path starts in, and that is decoded.
const STATE: usize = 0;

// The memory that a frame of the code k3 works in. The frame is no field of it: beside the work area in one struct, a take
// reads the code again for each entry, and a full frame takes 1.4 times as long.
#[derive(Drop)]
struct Memory {
    work: [Survivor; WORK],
    row: [Survivor; STATES],
    store: [u32; STORE],
}

impl Memory {
    fn new() -> Memory {
        Memory {
            work: [UNUSED; WORK],
            row: [UNUSED; STATES],
            store: [0; STORE],
        }
    }

    // Gives a delivery to the frame, after the questions of its text.
    fn give(&mut self, frame: &mut Frame, delivery: Delivery) -> Result<(usize, usize), Refusal>
        ensures { Gave (delivery.entry.plan.now, delivery.entry.symbols.now) frame.old self.old.store result
            frame.new self.new.store }
    {
        let Delivery { plan, symbols } = delivery;
        if plan.len() > LINE || symbols.len() > LINE {
            return Err(Refusal::Text { place: 0 });
        }
        let mut numbers = [0; FIELDS];
        let count = read_numbers(symbols, &mut numbers)?;
        frame.take(
            &numbers[..count],
            plan,
            &mut self.work,
            &mut self.row,
            &mut self.store,
        )
    }

    // Writes the line of each delivery of a text.
    fn write_deliveries(
        &mut self,
        frame: &mut Frame,
        text: &[u8],
        out: &mut String,
    ) -> Result<(), AllocError>
        requires fresh { Follows nothing frame.old self.old.store }
        ensures { OnOk result (Listed (deliveries (all_lines text.now)) (string_bytes out.old) (string_bytes out.new)
            frame.new self.new.store) }
    {
        for delivery in Deliveries(text) {
            let answer = self.give(frame, delivery);
            write!(out, "{}", Delivered(answer))?;
        }
        Ok(())
    }

    // Writes the closing line.
    fn write_closing(&self, frame: &Frame, out: &mut String) -> Result<(), AllocError>
        requires { frame.now.steps ≤ LIMIT }
        ensures { OnOk result ((p : Plain) → Follows p frame.now self.now.store → Bounded p
            → Closes p.symbols (string_bytes out.old) (string_bytes out.new)) }
    {
        let steps = frame.steps();
        let mut bits = [0; LIMIT];
        match frame.decode(STATE, &self.store, &mut bits) {
            Ok(cost) => {
                let bits = &bits[..steps];
                write!(out, "{}", Decoded { cost, bits })
            }
            Err(refusal) => write!(out, "{}", Refused(refusal)),
        }
    }
}

// Writes the line of each delivery of a text to a fresh frame of the code k3, and the closing line.
pub(crate) fn write_frame(code: Code, text: &[u8], out: &mut String) -> Result<(), AllocError>
    requires { code ≡ k3 }
    ensures { OnOk result (Shows (deliveries (all_lines text.now)) (string_bytes out.old) (string_bytes out.new)) }
{
    let mut frame = Frame::new(code);
    let mut memory = Memory::new();
    memory.write_deliveries(&mut frame, text, out)?;
    memory.write_closing(&frame, out)
}
