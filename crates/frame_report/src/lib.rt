// The report of a frame decoder: what it prints for the bytes of an input.
#![tactic(auto)]

ghost use Rattle.std.specs.Prelude.{◌≡◌, IfOk, string_bytes};
ghost use Rattle.frame_report.specs.Report.{Printed, coded};

use code::{Code, by_name};
use columns::Refused;
use decoding::write_frame;
use lines::split_line;
use refusal::Refusal;
use std::alloc::{AllocError, Global};

mod columns;
mod decoding;
mod fields;
mod lines;

// The most bytes that an input may have.
pub const BYTES: usize = 1_000_000;

// The code that a line names: k3 alone.
fn code_named(line: &[u8]) -> Result<Code, Refusal>
    ensures { result ≡ coded line.now }
{
    match line {
        b"k3" => by_name("k3"),
        _ => Err(Refusal::Name),
    }
}

// What is printed for an input: its first line names the code, k3, and then each delivery has two lines, a plan and its
// symbols. A line ends with byte 10; a last line may lack its end, and a last line of symbols may be missing: it counts as
// empty. Symbols stand right-justified in fields of four columns. Asked of each delivery before the frame's own questions:
// has each line at most 200 characters (13); is each field blanks and then at least one digit (13 with its place)? The
// frame has a store of 512 rows.
// Printed is a line for each delivery: symbols and joins in six columns each, the refusal's number or 0 in four, its place
// in six; a refused one shows no symbols and no joins. Then the closing line, for the path to state 0: its cost in six
// columns, the refusal's number or 0 in four, a blank and the bits. Any other first line gives the closing line alone, with
// refusal 1, and an input of more than 1,000,000 bytes with refusal 3; neither has bits.
pub fn report(heap: Global, input: &[u8]) -> Result<String, AllocError>
    ensures { IfOk result (λ s. Printed input.now (string_bytes s)) }
{
    let mut out = String::new(heap);
    if input.len() > BYTES {
        write!(out, "{}", Refused(Refusal::Limit))?;
        return Ok(out);
    }
    let (name, text) = split_line(input);
    match code_named(name) {
        Ok(code) => write_frame(code, text, &mut out)?,
        Err(refusal) => write!(out, "{}", Refused(refusal))?,
    }
    Ok(out)
}
