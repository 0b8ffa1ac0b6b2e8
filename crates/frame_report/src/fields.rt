// Fields of four columns.
ghost use Rattle.std.specs.Prelude.{◌≡◌, ◌*◌, ◌≤◌, [], ◌∷◌, length, take, IfOk};
ghost use Rattle.refusal.specs.Questions.{asked};
ghost use Rattle.frame_report.specs.Fields.{field_count, number_of_field, fields as each_field, numbers as all_numbers};

use crate::lines::LINE;
use refusal::Refusal;

// The columns of a field.
const FIELD: usize = 4;

// The most fields of a line.
pub(crate) const FIELDS: usize = LINE / FIELD;

// The number in a field: blanks, and then at least one digit. By digits: `parse` would take a sign, too.
fn field_number(field: &[u8]) -> Option<u32>
    ensures { result ≡ number_of_field field.now }
{
    if field.len() != FIELD {
        return None;
    }
    let start = field.iter().position(|byte| *byte != b' ')?;
    let mut value = 0;
    for byte in &field[start..] {
        if !byte.is_ascii_digit() {
            return None;
        }
        value = value * 10 + u32::from(*byte - b'0');
    }
    Some(value)
}

// Reads the numbers of a line's fields to the front of a list, and says how many they are. It is no `ArrayVec`: what is
// printed would rest on the statements of one more crate of the kit.
pub(crate) fn read_numbers(line: &[u8], numbers: &mut [u32]) -> Result<usize, Refusal>
    requires { length line.now ≤ 4 * length numbers.old }
    ensures answer { result ≡ asked (each_field line.now ∷ []) (field_count line.now) }
    ensures read { IfOk result (λ n. take n numbers.new ≡ all_numbers line.now) }
{
    for (place, field) in line.chunks(FIELD).enumerate() {
        let number = field_number(field).ok_or(Refusal::Text { place })?;
        numbers[place] = number;
    }
    Ok(line.len().div_ceil(FIELD))
}
