// How much room a line's answer needs, by the line's kind.
ghost use Rattle.std.specs.Prelude.{◌≡◌, leb, ltb};
ghost use Rattle.requests.specs.ByLine.{need_fields_of, need_of};

use crate::kinds::Kind;
use columns::field::{FIELD, read_kind};
use falcon_core::answer::Answer;
use falcon_record::RECORD_ROOM;

// The fields that an answer with the state needs: room for a record of every form that its line may have.
pub(crate) const RECORD_NEED: usize = Answer::FIELDS + RECORD_ROOM;

// The bytes that the answer to a line of any kind needs at most.
const MOST_NEED: usize = FIELD * RECORD_NEED;

// How many fields the answer to a line needs whose first field says this.
#[tactic(auto, unfolding(crate::specs::ByLine::need_fields_of, crate::specs::Kinds::kind_at))]
fn need_fields(kind: Option<u32>) -> usize
    ensures { result ≡ need_fields_of kind }
{
    match kind.map(Kind::try_from) {
        Some(Ok(Kind::Totals)) => Answer::WITH_TOTALS,
        Some(Ok(Kind::Saves)) => RECORD_NEED,
        _ => Answer::FIELDS,
    }
}

// How many bytes the answer to a line needs.
#[tactic(auto, unfolding(crate::specs::ByLine::need_of), using(crate::proofs::Buffer::need_most))]
fn need_of(line: &[u8]) -> usize
    ensures { result ≡ need_of line.now }
{
    FIELD * need_fields(read_kind(line))
}

// Whether so many bytes are too few for the answer to a line. The kind is read only where that matters.
#[tactic(auto, using(crate::proofs::Buffer::needs_most))]
pub fn is_short(line: &[u8], room: usize) -> bool
    ensures { result ≡ ltb room (need_of line.now) }
{
    room < MOST_NEED && room < need_of(line)
}

// Whether so many bytes are too few for the answer to a line and a newline.
#[tactic(auto, using(crate::proofs::Buffer::needs_least))]
pub fn lacks_room(line: &[u8], room: usize) -> bool
    ensures { result ≡ leb room (need_of line.now) }
{
    is_short(line, room.saturating_sub(1))
}
