// A line: fields, one after the other.

ghost use Rattle.std.specs.Prelude.{◌≡◌, length};
ghost use Rattle.columns.specs.Line.{line_answer, numbers_over, put_over};

use crate::field::{FIELD, read_field};
use std::error::Error;
use std::fmt;

// The fields of a line of document 01's kinds, at most.
pub const LINE_FIELDS: usize = 130;

// Why a line's numbers are not answered: it is no sheet line, or it has more fields than the array has places.
#[derive(Clone, Copy, Debug, PartialEq, Eq, Hash)]
pub enum LineError {
    Broken,
    NoRoom,
}

impl fmt::Display for LineError {
    fn fmt<W: fmt::Write>(&self, f: &mut fmt::Formatter<W>) -> fmt::Result {
        f.write_str(match self {
            LineError::Broken => "no line of a sheet",
            LineError::NoRoom => "more fields than places",
        })
    }
}

impl Error for LineError {}

// How many numbers a line has that may have so many fields: they are in the array, from its start on, as far as the first bad field.
#[tactic(auto, using(crate::proofs::LineAgain::length_right, crate::proofs::LineAgain::length_none, crate::proofs::LineAgain::length_uneven, crate::proofs::LineAgain::length_long, crate::proofs::LineOver::bad_answer, crate::proofs::LineOver::bad_over, crate::proofs::LineOver::few_answer, crate::proofs::LineOver::few_over))]
pub fn read_line(line: &[u8], limit: usize, numbers: &mut [u32]) -> Result<usize, LineError>
    ensures value { result ≡ line_answer limit line.now (length numbers.old) }
    ensures numbers_after { numbers.new ≡ numbers_over limit line.now numbers.old }
{
    let (fields, []) = line.as_chunks::<FIELD>() else {
        return Err(LineError::Broken);
    };
    let count = fields.len();
    if count == 0 || limit < count {
        return Err(LineError::Broken);
    }
    if numbers.len() < count {
        return Err(LineError::NoRoom);
    }
    // No zip: a proof knows nothing of the array after a loop that zips its iter_mut.
    for (k, field) in fields.iter().enumerate() {
        numbers[k] = read_field(field).ok_or(LineError::Broken)?;
    }
    Ok(count)
}

// These numbers in the array, from `at` on, where it has room for all of them; else nothing.
#[tactic(auto, using(crate::proofs::Writing::put_short, crate::proofs::Writing::put_part, crate::proofs::Writing::put_room))]
pub fn put_numbers(numbers: &mut [u32], at: usize, part: &[u32])
    ensures { numbers.new ≡ put_over at part.now numbers.old }
{
    if numbers.len() < part.len() || numbers.len() - part.len() < at {
        return;
    }
    numbers[at..at + part.len()].copy_from_slice(part);
}
