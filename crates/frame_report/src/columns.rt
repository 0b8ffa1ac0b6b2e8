// The lines that are printed, in columns.
ghost use Rattle.std.specs.Prelude.{Ok, Err, Some};
ghost use Rattle.frame_report.specs.Columns.{characters, closed, delivered};

use refusal::Refusal;
use std::fmt;

// The line of a delivery that was answered so.
#[derive(Clone, Copy)]
pub(crate) struct Delivered(pub(crate) Result<(usize, usize), Refusal>);

impl fmt::Display for Delivered {
    ghost output = { λ line. Some (delivered line.0) };

    fn fmt<W: fmt::Write>(&self, f: &mut fmt::Formatter<W>) -> fmt::Result {
        let (symbols, joins, number, place) = match self.0 {
            Ok((symbols, joins)) => (symbols, joins, 0, 0),
            Err(refusal) => (0, 0, refusal.number(), refusal.place()),
        };
        writeln!(f, "{symbols:>6}{joins:>6}{number:>4}{place:>6}")
    }
}

// Bits as characters.
#[derive(Clone, Copy)]
struct Bits<'a>(&'a [u8]);

impl<'a> fmt::Display for Bits<'a> {
    ghost output = { λ bits. Some (characters bits.0.now) };

    fn fmt<W: fmt::Write>(&self, f: &mut fmt::Formatter<W>) -> fmt::Result {
        for bit in self.0 {
            f.write_str(if *bit == 0 { "0" } else { "1" })?;
        }
        Ok(())
    }
}

// The closing line of a path that was decoded.
#[derive(Clone, Copy)]
pub(crate) struct Decoded<'a> {
    pub(crate) cost: u32,
    pub(crate) bits: &'a [u8],
}

impl<'a> fmt::Display for Decoded<'a> {
    ghost output = { λ line. Some (closed (Ok (line.cost, line.bits.now))) };

    fn fmt<W: fmt::Write>(&self, f: &mut fmt::Formatter<W>) -> fmt::Result {
        let cost = self.cost;
        let bits = Bits(self.bits);
        writeln!(f, "{cost:>6}{:>4} {bits}", 0)
    }
}

// The closing line of a refusal.
#[derive(Clone, Copy)]
pub(crate) struct Refused(pub(crate) Refusal);

impl fmt::Display for Refused {
    ghost output = { λ line. Some (closed (Err line.0)) };

    fn fmt<W: fmt::Write>(&self, f: &mut fmt::Formatter<W>) -> fmt::Result {
        let number = self.0.number();
        writeln!(f, "{:>6}{number:>4}", 0)
    }
}
