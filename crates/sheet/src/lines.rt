// Many lines.

ghost use Rattle.std.specs.Prelude.{◌==◌, ◌≡◌, ◌++◌, length, drop, position};
ghost use Rattle.sheet.specs.Lines.{newline, newline_at, kept_bytes_of};

use columns::field::FIELD;
use requests::parse::MOST_FIELDS;

// The bytes that `find_newline` tries at once.
const BLOCK: usize = 16;

// The place of the first newline, byte by byte.
fn next_newline(bytes: &[u8]) -> Option<usize>
    ensures { result ≡ position (λ b. b == newline) bytes.now }
{
    bytes.iter().position(|b| *b == b'\n')
}

// The place of the first newline from `from` on, where there is one.
#[tactic(auto, using(crate::proofs::LinesTurns::place_none, crate::proofs::LinesTurns::no_place))]
pub fn find_newline(input: &[u8], from: usize) -> Option<usize>
    ensures { result ≡ newline_at input.now from }
{
    let mut behind = input.get(from..)?;
    while let Some((block, rest)) = behind.split_first_chunk::<BLOCK>() {
        if block.contains(&b'\n') {
            break;
        }
        behind = rest;
    }
    let place = next_newline(behind)?;
    Some(input.len() - behind.len() + place)
}

// The bytes of a line begun that are kept from one read to the next.
pub const KEPT: usize = FIELD * MOST_FIELDS + 1;

// What is kept of the bytes from `from` to `have`, moved to the front of the whole buffer. Answers how many they are.
#[tactic(auto, using(crate::proofs::LinesTurns::kept_length, crate::proofs::LinesTurns::kept_moved))]
pub fn keep(buf: &mut [u8], from: usize, have: usize) -> usize
    ensures value { result ≡ length (kept_bytes_of buf.old from have) }
    ensures buf_after { buf.new ≡ kept_bytes_of buf.old from have ++ drop (length (kept_bytes_of buf.old from have)) buf.old }
{
    let end = have.min(buf.len());
    let start = from.min(end);
    let n = KEPT.min(end - start);
    buf.copy_within(start..start + n, 0);
    n
}
