// From a line's bytes to what it asks.
ghost use Rattle.std.specs.Prelude.{◌≡◌, length};
ghost use Rattle.requests.specs.Kinds.{Asks};
ghost use Rattle.requests.specs.Parse.{line_asks, numbers_after};
ghost use Rattle.requests.specs.ByLine.{most_needed};

use crate::kinds::{LineCall, numbers_ask};
use crate::need::RECORD_NEED;
use columns::line::{LINE_FIELDS, read_line};
use falcon_core::refusal::Refusal;

// The most fields of a line of any kind.
pub const MOST_FIELDS: usize = LINE_FIELDS;

// The places of an array that takes a line's numbers and then its answer's: as many as the longest answer needs.
pub const NUMBER_PLACES: usize = RECORD_NEED;

// What a line asks. The array takes the line's numbers; it has a place for each number of any line, and of its answer.
#[tactic(auto, using(crate::proofs::Asking::read_most, crate::proofs::Asking::numbers_after_is, crate::proofs::Asking::line_asks_broken, crate::proofs::Asking::numbers_read_some))]
pub fn line_asks(line: &[u8], numbers: &mut [u32; NUMBER_PLACES]) -> Result<LineCall, Refusal>
    ensures asks { Asks result numbers.new (line_asks line.now) }
    ensures numbers_len { length numbers.new ≡ most_needed }
    ensures numbers_after { numbers.new ≡ numbers_after line.now numbers.old }
{
    let Ok(count) = read_line(line, MOST_FIELDS, numbers) else {
        return Err(Refusal::NotALine);
    };
    numbers_ask(&numbers[..count])
}
