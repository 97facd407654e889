// A call by line, with the buffer for its answer.
ghost use Rattle.std.specs.Prelude.{◌≡◌, ◌++◌, ◌≤◌, length, take, drop, map};
ghost use Rattle.std.specs.Float.{binary32};
ghost use Rattle.std.specs.Float.Ieee.{of_bits};
ghost use Rattle.falcon_state.specs.Zone.{zone_numbers_of};
ghost use Rattle.falcon_core.specs.Answer.{answer_fields, numbers_of};
ghost use Rattle.falcon_core.specs.Flown.{flight_step_of};
ghost use Rattle.falcon_core.specs.Calls.{step_of};
ghost use Rattle.requests.specs.Kinds.{asked_step, list_fields, flight_asks, other_asks, Listed};
ghost use Rattle.requests.specs.Parse.{line_asks};
ghost use Rattle.requests.specs.ByLine.{line_step, buffer_after};
ghost use Rattle.sheet.specs.Entry.{line_answered, Replied};

use columns::field::write_numbers;
use falcon_core::answer::{Answer, Output};
use falcon_core::flown::{Flown, FlownAnswered};
use falcon_core::refusal::Refusal;
use falcon_core::supervisor::{Answered, Supervisor, refused};
use falcon_guidance::legs::legs;
use falcon_record::{RECORD_FIELDS, record_columns};
use falcon_state::{Legs, Point, Zone};
use relay_math::from_bits;
use requests::kinds::{FlightCall, Kind, LineCall, OtherCall};
use requests::need::is_short;
use requests::parse::{NUMBER_PLACES, line_asks};

// The numbers of an answer with a record.
const WITH_RECORD: usize = Answer::FIELDS + RECORD_FIELDS;

// The state after a line, and whether it was accepted or why not.
#[derive(Clone, Copy)]
pub struct LineAnswered {
    pub supervisor: Supervisor,
    pub outcome: Result<(), Refusal>,
}

// A tick, a report or a command, with the waypoints of the active leg and of the next.
#[tactic(auto, using(crate::proofs::Entries::report_legs, crate::proofs::Entries::command_legs))]
pub(crate) fn flight_step(flown: Flown, legs: Legs, call: FlightCall) -> FlownAnswered
    ensures { result ≡ flight_step_of flown legs (flight_asks call) }
{
    match call {
        FlightCall::Ticks(t) => flown.tick(legs, t),
        FlightCall::Reports(failed) => flown.report(failed),
        FlightCall::Commands {
            ev,
            level,
            throttle_low,
        } => flown.command(ev, level, throttle_low),
    }
}

// The numbers as floats, at the front of an array. The places behind them are not converted: most lists are short.
fn floats_of(numbers: &[u32]) -> [f32; NUMBER_PLACES]
    requires { length numbers.now ≤ NUMBER_PLACES }
    ensures { take (length numbers.now) result ≡ map (of_bits binary32) numbers.now }
{
    let mut floats = [0.0; NUMBER_PLACES];
    // No zip: a proof knows nothing of the array after a loop that zips its iter_mut.
    for (k, number) in numbers.iter().enumerate() {
        floats[k] = from_bits(*number);
    }
    floats
}

// How many of these numbers are those of a line of points or zones, with `width` for each.
fn list_end(numbers: &[u32; NUMBER_PLACES], width: usize) -> usize
    requires { width ≤ zone_numbers_of }
    ensures { result ≡ list_fields width numbers.now }
{
    Kind::LIST_HEAD + width * numbers[1] as usize
}

// What any other line is answered with; its numbers are the first of these.
pub(crate) fn other_step(s: Supervisor, call: OtherCall, numbers: &[u32; NUMBER_PLACES]) -> Answered
    requires { Listed call numbers.now }
    ensures { result ≡ step_of s (other_asks numbers.now call) }
{
    match call {
        OtherCall::Opens(o) => s.opening(o),
        OtherCall::Points => {
            let lent = &numbers[Kind::LIST_HEAD..list_end(numbers, Point::NUMBERS)];
            s.set_mission_waypoints(&floats_of(lent)[..lent.len()])
        }
        OtherCall::Zones => {
            let lent = &numbers[Kind::LIST_HEAD..list_end(numbers, Zone::NUMBERS)];
            s.set_keepout_zones(&floats_of(lent)[..lent.len()])
        }
        OtherCall::Totals => s.totals(),
        OtherCall::Saves => s.save(),
    }
}

// What a line is answered with. The array takes the line's numbers.
pub(crate) fn answer_line(
    s: Supervisor,
    line: &[u8],
    numbers: &mut [u32; NUMBER_PLACES],
) -> Answered
    ensures { result ≡ asked_step s (line_asks line.now) }
{
    match line_asks(line, numbers) {
        Ok(LineCall::Flight(call)) => {
            let legs = legs(s.flight.config, s.waypoints, s.flight.mission);
            let told = flight_step(s.flown(), legs, call);
            Answered {
                supervisor: s.with_flown(told.flown),
                answer: told.answer,
            }
        }
        Ok(LineCall::Other(call)) => other_step(s, call, numbers),
        Err(refusal) => refused(s, refusal),
    }
}

// The answer's ten numbers, at the front of the array.
pub(crate) fn put_answer(numbers: &mut [u32; NUMBER_PLACES], a: Answer)
    ensures { numbers.new ≡ numbers_of a ++ drop answer_fields numbers.old }
{
    numbers[..Answer::FIELDS].copy_from_slice(&a.numbers());
}

// All numbers of an answer, at the front of the array: the ten, and what it tells of the state. Answers how many they are: one array serves all lines (docs/SPEED.md).
#[tactic(auto, using(crate::proofs::Entries::told_none, crate::proofs::Entries::replied_ten))]
pub(crate) fn put_reply(numbers: &mut [u32; NUMBER_PLACES], answered: Answered) -> usize
    ensures { Replied answered answered.supervisor numbers.new result }
{
    put_answer(numbers, answered.answer);
    let s = answered.supervisor;
    // In two steps: in one match over `Ok(Output::Totals)` and `_` the proof knows nothing of the rest.
    let Ok(output) = answered.answer.outcome else {
        return Answer::FIELDS;
    };
    match output {
        Output::Totals => {
            let totals = s.totals;
            numbers[Answer::FIELDS..Answer::WITH_TOTALS].copy_from_slice(&totals.numbers());
            Answer::WITH_TOTALS
        }
        Output::Record => {
            numbers[Answer::FIELDS..WITH_RECORD].copy_from_slice(&record_columns(s));
            WITH_RECORD
        }
        _ => Answer::FIELDS,
    }
}

// Answers a line. Under what its kind needs, 209 bytes for kind 7, 1,870 for kind 8 and 110 for any other, nothing is written and the line is refused.
pub fn answer(s: Supervisor, line: &[u8], out: &mut [u8]) -> LineAnswered
    ensures answered { result ≡ line_answered (line_step s line.now out.old) }
    ensures buffer { out.new ≡ buffer_after s line.now out.old }
    ensures unchanged { line.exit.now ≡ line.entry.now }
{
    if is_short(line, out.len()) {
        return LineAnswered {
            supervisor: s,
            outcome: Err(Refusal::ShortBuffer),
        };
    }
    let mut numbers = [0u32; NUMBER_PLACES];
    let answered = answer_line(s, line, &mut numbers);
    let count = put_reply(&mut numbers, answered);
    write_numbers(out, &numbers[..count]);
    LineAnswered {
        supervisor: answered.supervisor,
        outcome: answered.answer.outcome.map(|_| ()),
    }
}
