// Answers document 01's examples, the harness's cases and a sample of generated sheets, which standard input has one after the other.
#![tactic(auto)]

ghost use Rattle.std.specs.Prelude.{◌≡◌, ◌+◌, ◌≤◌, true, length};
ghost use Rattle.falcon_core.specs.Calls.{unopened};
ghost use Rattle.sheet.specs.Lines.{lines_of};
ghost use Rattle.sheet.specs.Many.{fitting};

use columns::field::{FIELD, read_field_of, write_numbers};
use falcon_core::refusal::Refusal;
use falcon_core::supervisor::Supervisor;
use falcon_record::save;
use falcon_state::{Opening, OpeningKind, Point};
use sheet::entry::answer;
use sheet::many::answer_sheet;
use std::io::{Read, Write};
use std::rt::{Stdin, Stdout};

// The columns of a sheet's name.
const NAME: usize = 52;

// The bytes before each sheet: its name, its length in a field, and a newline.
const HEAD: usize = NAME + FIELD + 1;

// The bytes of a sheet, and those of its answers, at most.
const ROOM: usize = 131072;

// Prints bytes, as far as they can be written.
fn print(output: &mut Stdout, bytes: &[u8]) {
    output.write_all(bytes).is_ok();
}

// Prints a number and a newline, as far as they can be written.
fn print_number(output: &mut Stdout, n: u32) {
    writeln!(output, "{n}").is_ok();
}

// Answers a sheet, with no opening yet, on standard output. Answers whether the answers to all its lines fit the buffer.
#[tactic(auto, using(sheet::proofs::Replies::progress_written, sheet::proofs::Sheets::all_answered))]
fn write_answers(output: &mut Stdout, sheet: &[u8], out: &mut [u8; ROOM]) -> bool
    ensures { result ≡ true → fitting unopened (lines_of sheet.now) (length out.old) ≡ lines_of sheet.now }
{
    let progress = answer_sheet(sheet, out);
    print(output, &out[..progress.written]);
    progress.used == sheet.len()
}

// The length of the sheet that follows, where the bytes before it say one.
fn length_in(head: &[u8; HEAD]) -> Option<usize> {
    let count = read_field_of(&head[NAME..NAME + FIELD])?;
    Some(count as usize)
}

// One sheet: its answers are written behind its name. None where it is not there, or not all its answers fit.
fn replay_next(
    input: &mut Stdin,
    output: &mut Stdout,
    head: &mut [u8; HEAD],
    sheet: &mut [u8; ROOM],
    out: &mut [u8; ROOM],
) -> Option<()> {
    input.read_exact(head).ok()?;
    // Where no length stands, the sheet is one of no bytes.
    let n = length_in(head).unwrap_or(0);
    if ROOM < n {
        return None;
    }
    input.read_exact(&mut sheet[..n]).ok()?;
    print(output, head);
    write_answers(output, &sheet[..n], out).then_some(())
}

// Every sheet, up to one whose answers do not fit.
fn replay_all(input: &mut Stdin, output: &mut Stdout) {
    let mut head = [0; HEAD];
    let mut sheet = [0; ROOM];
    let mut out = [0; ROOM];
    // A proved loop has to end, so it has a number of turns that no run uses up.
    for _ in 0..u64::MAX {
        if replay_next(input, output, &mut head, &mut sheet, &mut out).is_none() {
            return;
        }
    }
}

// Answers a line into a buffer of N bytes, which has to fit memory, and prints its refusal and the whole buffer.
fn print_answer<const N: usize>(output: &mut Stdout, s: Supervisor, line: &[u8])
    requires { N ≤ 2048 }
{
    let mut out = [b'?'; N];
    let answered = answer(s, line, &mut out);
    print_number(output, Refusal::outcome_number(&answered.outcome));
    print(output, &out);
    print(output, b"\n");
}

// Refusal 9's example: a buffer of 109 bytes stays as it was.
fn short_buffer(output: &mut Stdout) {
    print_answer::<109>(output, Supervisor::new(), b"12");
}

// A state with an opening.
fn opened() -> Supervisor {
    let answered = Supervisor::new().opening(Opening {
        home: Point::origin(),
        fence_radius: 100.0,
        cruise_alt: 10.0,
        low_batt_v: 21.0,
        required: 0,
        passed: 0,
        calibration_configured: false,
        opening_kind: OpeningKind::Ground,
    });
    answered.supervisor
}

// A line of kind 7: a buffer of 208 bytes stays as it was, of 209 a refused answer takes 110, and of 212 an accepted one takes 209.
fn totals_buffers(output: &mut Stdout) {
    let line = b"          7";
    print_answer::<208>(output, Supervisor::new(), line);
    print_answer::<209>(output, Supervisor::new(), line);
    print_answer::<212>(output, opened(), line);
}

// A line of kind 8: buffers of 110 and 1,869 bytes stay as they were, and of 1,870 a refused answer takes 110 and an accepted one 1,606.
fn record_buffers(output: &mut Stdout) {
    let line = b"          8";
    print_answer::<110>(output, Supervisor::new(), line);
    print_answer::<1869>(output, Supervisor::new(), line);
    print_answer::<1870>(output, Supervisor::new(), line);
    print_answer::<1870>(output, opened(), line);
}

// Saves a state by values into an array of N places, and prints the refusal and the whole array, of BYTES bytes; both have to fit memory.
fn print_saved<const N: usize, const BYTES: usize>(output: &mut Stdout, s: Supervisor)
    requires { N + BYTES ≤ 2048 }
{
    let mut numbers = [7u32; N];
    let mut out = [b'?'; BYTES];
    let saved = save(s, &mut numbers);
    print_number(output, Refusal::outcome_number(&saved.answer.outcome));
    write_numbers(&mut out, &numbers);
    print(output, &out);
    print(output, b"\n");
}

// The state by values: an array of 159 places stays as it was, of 161 the columns take 136.
fn record_arrays(output: &mut Stdout) {
    print_saved::<159, 1749>(output, opened());
    print_saved::<161, 1771>(output, opened());
}

fn main(rt: HostRuntime) {
    let mut output = rt.stdout();
    short_buffer(&mut output);
    totals_buffers(&mut output);
    record_buffers(&mut output);
    record_arrays(&mut output);
    replay_all(&mut rt.stdin(), &mut output);
}
