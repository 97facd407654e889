// A field: one decimal number, right-justified in spaces.

ghost use Rattle.std.specs.Prelude.{◌≡◌, ℕ, ◌+◌, ◌-◌, ◌/◌, ◌%◌, ◌^◌, ◌<◌, ◌≤◌, not, ◌==◌, List, ◌∷◌, length, slice_set, position, option_and_then, IfSome, SomeIff};
ghost use Rattle.columns.specs.Field.{field_width, space, in_range, digits, spaced, field_read, kind_of, field_of};
ghost use Rattle.columns.specs.Line.{written_over};

// The bytes of a field.
pub const FIELD: usize = 11;

// Eight spaces.
const EIGHT_SPACES: u64 = 0x2020_2020_2020_2020;

// Eight digits 0.
const ZEROS: u64 = 0x3030_3030_3030_3030;

// The upper half of each of eight bytes.
const HIGH_HALVES: u64 = 0xf0f0_f0f0_f0f0_f0f0;

// Six in each of eight bytes: what takes a digit above 9 to the next half.
const SIXES: u64 = 0x0606_0606_0606_0606;

// The lower byte of each of four pairs.
const PAIRS: u64 = 0x00ff_00ff_00ff_00ff;

// The lower half of each of two fours.
const FOURS: u64 = 0x0000_ffff_0000_ffff;

// The number of a digit.
fn digit(b: u8) -> Option<u64>
    ensures { SomeIff result ((48 ≤ b) × (b ≤ 57)) (b - 48) }
{
    let d = b.wrapping_sub(b'0');
    (d < 10).then_some(u64::from(d))
}

// The place of a field's first byte that is no space.
fn start_of(field: &[u8; FIELD]) -> Option<usize>
    ensures { result ≡ position (λ b. not (b == space)) field.now }
{
    field.iter().position(|b| *b != b' ')
}

// The number of a field, read byte by byte, in range or not. No `parse`: it takes a sign and leading zeros. By itself, so that the loop of the faster readers stays short (docs/SPEED.md).
#[tactic(auto, using(crate::proofs::FieldTurns::plain_none, crate::proofs::FieldTurns::number_from, crate::proofs::FieldTurns::plain_leading, crate::proofs::FieldTurns::plain_digits, crate::proofs::FieldTurns::digits_stop, crate::proofs::FieldTurns::digits_last))]
#[inline(never)]
fn read_plain(field: &[u8; FIELD]) -> Option<u64>
    ensures { option_and_then in_range result ≡ field_read field.now }
{
    let start = start_of(field)?;
    let number = &field[start..];
    if number[0] == b'0' && number.len() > 1 {
        return None;
    }
    let mut v: u64 = 0;
    for b in number {
        v = v * 10 + digit(*b)?;
    }
    Some(v)
}

// The number that eight digits write: digits are joined to pairs, pairs to fours, and fours to the number.
#[tactic(auto, using(crate::proofs::Words::eight_most, crate::proofs::Words::eight_digits, crate::proofs::Words::eight_small, crate::proofs::FieldAgain::in_range_some))]
fn read_eight(bytes: &[u8; 8]) -> Option<u64>
    ensures { IfSome result (λ v. (v < 10 ^ 8) × (digits 0 bytes.now ≡ Some v)) }
{
    let w = u64::from_le_bytes(*bytes);
    if w & HIGH_HALVES != ZEROS || (w + SIXES) & HIGH_HALVES != ZEROS {
        return None;
    }
    let x = w - ZEROS;
    let y = (x * 10 + x / 256) & PAIRS;
    let z = (y * 100 + y / 65_536) & FOURS;
    Some((z * 10_000 + z / 4_294_967_296) % 4_294_967_296)
}

// The number of a digit that may begin a number: any but 0.
fn nonzero_digit(b: u8) -> Option<u64>
    ensures { SomeIff result ((48 < b) × (b ≤ 57)) (b - 48) }
{
    digit(b).filter(|d| *d != 0)
}

// The number that `a` and `b` write in front of further digits: two digits, or a digit behind a space.
#[tactic(auto, using(crate::proofs::Words::lead_one, crate::proofs::Words::lead_two))]
fn lead(a: u8, b: u8) -> Option<u64>
    ensures { IfSome result (λ v. (v < 100) × ((s : List ℕ) → spaced (a ∷ b ∷ s) ≡ digits v s)) }
{
    if a == b' ' {
        return nonzero_digit(b);
    }
    Some(nonzero_digit(a)? * 10 + digit(b)?)
}

// The number of a field of nine or ten digits, in range or not.
#[tactic(auto, using(crate::proofs::Words::field_long))]
fn read_long(field: &[u8; FIELD]) -> Option<u64>
    ensures { IfSome result (λ v. in_range v ≡ field_read field.now) }
{
    if field[0] != b' ' {
        return None;
    }
    let high = lead(field[1], field[2])?;
    let low = read_eight(field.last_chunk::<8>()?)?;
    Some(high * 100_000_000 + low)
}

// The number of a field of one digit.
fn read_one(field: &[u8; FIELD]) -> Option<u64>
    ensures { IfSome result (λ v. in_range v ≡ field_read field.now) }
{
    let front = u64::from_le_bytes(*field.first_chunk::<8>()?);
    if front != EIGHT_SPACES || field[8] != b' ' || field[9] != b' ' {
        return None;
    }
    digit(field[10])
}

// What a field says: the commonest forms first.
#[tactic(auto, unfolding(crate::specs::Field::in_range))]
pub(crate) fn read_field(field: &[u8; FIELD]) -> Option<u32>
    ensures { result ≡ field_read field.now }
{
    let v = read_one(field)
        .or_else(|| read_long(field))
        .or_else(|| read_plain(field))?;
    u32::try_from(v).ok()
}

// What bytes that are to be one field say.
#[tactic(auto, unfolding(crate::specs::Field::field_read))]
pub fn read_field_of(field: &[u8]) -> Option<u32>
    ensures { result ≡ field_read field.now }
{
    read_field(field.as_array::<FIELD>()?)
}

// What a line's first field says.
#[tactic(auto, unfolding(crate::specs::Field::kind_of), using(crate::proofs::LineAgain::kind_short))]
pub fn read_kind(line: &[u8]) -> Option<u32>
    ensures { result ≡ kind_of line.now }
{
    read_field(line.first_chunk::<FIELD>()?)
}

// The two digits of `k` at `at`.
fn write_pair(field: &mut [u8], at: usize, k: u32)
    requires { (k < 100) × (at + 2 ≤ length field.old) }
    ensures { field.new ≡ slice_set (slice_set field.old (at + 1) (48 + k % 10)) at (48 + k / 10) }
{
    field[at + 1] = (48 + k % 10) as u8;
    field[at] = (48 + k / 10) as u8;
}

// The field of `n`: spaces, and then two digits a turn, the last ones first. A slice: once a part of the buffer is lent as an array nothing is known of its bytes.
// No `write!` of `{n:>11}`: with it the program takes half as many instructions again.
fn write_field(field: &mut [u8], n: u32)
    requires { length field.old ≡ field_width }
    ensures { field.new ≡ field_of n }
{
    field.fill(b' ');
    let mut rest = n;
    for at in [9, 7, 5, 3, 1] {
        if rest < 10 {
            field[at + 1] = (48 + rest) as u8;
            return;
        }
        write_pair(field, at, rest % 100);
        rest /= 100;
        if rest == 0 {
            return;
        }
    }
}

// A field for each number, from the start on, where the buffer has room for all of them; else nothing.
#[tactic(auto, using(crate::proofs::Writing::no_room, crate::proofs::Writing::wrote_first, crate::proofs::Writing::wrote_next, crate::proofs::Writing::wrote_all))]
pub fn write_numbers(out: &mut [u8], numbers: &[u32])
    ensures { out.new ≡ written_over numbers.now out.old }
{
    if out.len() / FIELD < numbers.len() {
        return;
    }
    // No zip: a proof knows nothing of the buffer after a loop over its chunks_exact_mut.
    for (k, n) in numbers.iter().enumerate() {
        write_field(&mut out[k * FIELD..(k + 1) * FIELD], *n);
    }
}
