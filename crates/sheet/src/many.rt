// Many lines answered into one buffer, each answer with a newline after it.

ghost use Rattle.std.specs.Prelude.{◌+◌, ◌*◌, ◌≤◌, ◌≡◌, ◌++◌, ◌∷◌, [], length};
ghost use Rattle.falcon_core.specs.Calls.{unopened};
ghost use Rattle.columns.specs.Field.{field_width, put};
ghost use Rattle.columns.specs.Line.{line_of};
ghost use Rattle.sheet.specs.Lines.{newline, whole_lines, last_line, lines_of};
ghost use Rattle.sheet.specs.Many.{fitting, EndsFitting, state_of, progress_of, answers_over};

use crate::entry::{answer_line, flight_step, other_step, put_answer, put_reply};
use crate::lines::find_newline;
use columns::field::{FIELD, write_numbers};
use falcon_core::answer::Answer;
use falcon_core::flown::Flown;
use falcon_core::supervisor::{Supervisor, refused};
use falcon_guidance::legs::{here_place, legs_from, next_place};
use falcon_state::Point;
use requests::kinds::LineCall;
use requests::need::lacks_room;
use requests::parse::{NUMBER_PLACES, line_asks};

// What was answered: the state after it, the bytes read and written, and the lines.
#[derive(Clone, Copy)]
pub struct Progress {
    pub supervisor: Supervisor,
    pub used: usize,
    pub written: usize,
    pub lines: usize,
}

// Writes an answer of these numbers at `at`, with a newline after it. Answers the place behind it.
fn write_reply(numbers: &[u32], out: &mut [u8], at: usize) -> usize
    requires { at + (field_width * length numbers.now + 1) ≤ length out.old }
    ensures value { result ≡ at + (field_width * length numbers.now + 1) }
    ensures out_after { out.new ≡ put out.old at (line_of numbers.now ++ (newline ∷ [])) }
{
    write_numbers(&mut out[at..], numbers);
    let last = at + FIELD * numbers.len();
    out[last] = b'\n';
    last + 1
}

// The end of the line at `from`, where a newline ends it and its answer with a newline fits so many bytes.
#[tactic(auto, unfolding(crate::specs::Lines::newline_at), using(std::proofs::lemmas::Bool::Decides::nat_tests, crate::proofs::Replies::ends_fitting))]
fn next_fitting(input: &[u8], from: usize, room: usize) -> Option<usize>
    ensures { EndsFitting input.now from room result }
{
    let end = find_newline(input, from)?;
    if lacks_room(&input[from..end], room) {
        return None;
    }
    Some(end)
}

// The state of its two parts. `Supervisor::with_flown` puts the first part into a whole state, and the loop has none.
fn whole_state(flown: Flown, waypoints: [Point; Point::MAX_WAYPOINTS]) -> Supervisor
    ensures { result ≡ state_of flown waypoints }
{
    Supervisor {
        flight: flown.flight,
        waypoints,
        opened: flown.opened,
        report_due: flown.report_due,
        totals: flown.totals,
    }
}

// Answers the lines that a newline ends, in order, as many as fit the buffer. That the input is unchanged is said at each entry, where a reader looks for it.
#[tactic(auto, using(falcon_guidance::proofs::LegPlaces::place_below))]
pub fn answer_lines(s: Supervisor, input: &[u8], out: &mut [u8]) -> Progress
    ensures progress { result ≡ progress_of input.now s (fitting s (whole_lines input.now) (length out.old)) }
    ensures buffer { out.new ≡ answers_over s (fitting s (whole_lines input.now) (length out.old)) out.old }
    ensures unchanged { input.exit.now ≡ input.entry.now }
{
    let mut numbers = [0u32; NUMBER_PLACES];
    // The state in two parts: ticks, reports and commands then copy no waypoints (docs/SPEED.md).
    let mut flown = s.flown();
    let mut waypoints = s.waypoints;
    let mut used = 0;
    let mut written = 0;
    let mut lines = 0;
    while let Some(end) = next_fitting(input, used, out.len() - written) {
        let mut count = Answer::FIELDS;
        match line_asks(&input[used..end], &mut numbers) {
            Ok(LineCall::Flight(call)) => {
                let config = flown.flight.config;
                let mission = flown.flight.mission;
                let here = waypoints[here_place(mission)];
                let next = waypoints[next_place(mission)];
                let told = flight_step(flown, legs_from(config, mission, here, next), call);
                flown = told.flown;
                put_answer(&mut numbers, told.answer);
            }
            Ok(LineCall::Other(call)) => {
                let answered = other_step(whole_state(flown, waypoints), call, &numbers);
                let after = answered.supervisor;
                flown = after.flown();
                waypoints = after.waypoints;
                count = put_reply(&mut numbers, answered);
            }
            Err(refusal) => {
                let answered = refused(whole_state(flown, waypoints), refusal);
                put_answer(&mut numbers, answered.answer);
            }
        }
        written = write_reply(&numbers[..count], out, written);
        used = end + 1;
        lines += 1;
    }
    Progress {
        supervisor: whole_state(flown, waypoints),
        used,
        written,
        lines,
    }
}

// What was answered where no line was.
#[tactic(auto, unfolding(crate::specs::Many::progress_of, crate::specs::Many::states_after, crate::specs::Many::replies, crate::specs::Lines::joined_lines))]
fn none_answered(supervisor: Supervisor) -> Progress
    ensures { result ≡ progress_of [] supervisor [] }
{
    Progress {
        supervisor,
        used: 0,
        written: 0,
        lines: 0,
    }
}

// Answers a last line without newline, where there is one and its answer fits.
pub fn answer_last(s: Supervisor, input: &[u8], out: &mut [u8]) -> Progress
    ensures progress { result ≡ progress_of input.now s (fitting s (last_line input.now) (length out.old)) }
    ensures buffer { out.new ≡ answers_over s (fitting s (last_line input.now) (length out.old)) out.old }
    ensures unchanged { input.exit.now ≡ input.entry.now }
{
    if input.is_empty() || lacks_room(input, out.len()) {
        return none_answered(s);
    }
    let mut numbers = [0u32; NUMBER_PLACES];
    let answered = answer_line(s, input, &mut numbers);
    let count = put_reply(&mut numbers, answered);
    Progress {
        supervisor: answered.supervisor,
        used: input.len(),
        written: write_reply(&numbers[..count], out, 0),
        lines: 1,
    }
}

// Answers a sheet from the state with no opening, as many of its lines as fit the buffer: all where all its bytes are used.
#[tactic(auto, using(crate::proofs::Replies::progress_used, crate::proofs::Replies::progress_written))]
pub fn answer_sheet(input: &[u8], out: &mut [u8]) -> Progress
    ensures progress { result ≡ progress_of input.now unopened (fitting unopened (lines_of input.now) (length out.old)) }
    ensures buffer { out.new ≡ answers_over unopened (fitting unopened (lines_of input.now) (length out.old)) out.old }
    ensures unchanged { input.exit.now ≡ input.entry.now }
{
    let whole = answer_lines(Supervisor::new(), input, out);
    let used = whole.used;
    let written = whole.written;
    if find_newline(input, used).is_some() {
        return whole;
    }
    let last = answer_last(whole.supervisor, &input[used..], &mut out[written..]);
    Progress {
        supervisor: last.supervisor,
        used: used + last.used,
        written: written + last.written,
        lines: whole.lines + last.lines,
    }
}
