// Reads a sheet from standard input and answers each of its lines on standard output. A read or a write that fails is said on standard error.
#![tactic(auto)]

ghost use Rattle.std.specs.Prelude.{◌≤◌, ◌<◌, ◌≡◌, [], length, take, IfOk};
ghost use Rattle.sheet.specs.Lines.{kept_width, whole_lines, joined_lines, last_line};
ghost use Rattle.sheet.specs.Many.{states_after, answers_over};
ghost use Rattle.daysheet.specs.Reader.{ReadsPart, ReadsAll};

use falcon_core::supervisor::Supervisor;
use sheet::lines::keep;
use sheet::many::answer_lines;
use std::error::Error;
use std::fmt;
use std::io::{Read, Write};
use std::rt::{Stdin, Stdout};

// The bytes of a read with what is at hand, and those of the answers that are written at once.
const ROOM: usize = 65536;

// What failed.
#[derive(Clone, Copy, Debug, PartialEq, Eq, Hash)]
enum Failure {
    Read,
    Write,
}

// With its newline, so that it goes out in one write and nothing comes between.
impl fmt::Display for Failure {
    fn fmt<W: fmt::Write>(&self, f: &mut fmt::Formatter<W>) -> fmt::Result {
        f.write_str(match self {
            Failure::Read => "daysheet: standard input cannot be read\n",
            Failure::Write => "daysheet: standard output cannot be written\n",
        })
    }
}

impl Error for Failure {}

// The state after the lines of a read, the bytes that they took, and whether their answers were written.
#[derive(Clone, Copy)]
struct Drained {
    supervisor: Supervisor,
    used: usize,
    outcome: Result<(), Failure>,
}

// The state after all whole lines, and how many bytes of the line begun are at the front of the buffer, which is fixed memory and no Vec.
#[derive(Clone, Copy)]
struct Begun {
    supervisor: Supervisor,
    have: usize,
    ghost short: { have ≤ kept_width },
}

// What a read leaves, and where the bytes at hand ended behind it or what failed.
#[derive(Clone, Copy)]
struct Turned {
    begun: Begun,
    outcome: Result<usize, Failure>,
}

// What all reads leave, and whether none of them and no write failed.
#[derive(Clone, Copy)]
struct Kept {
    begun: Begun,
    outcome: Result<(), Failure>,
}

// One read behind the bytes at hand, which stay. There is room, so that a read of no bytes is the input's end. Answers where the bytes at hand end.
fn fill(input: &mut Stdin, buf: &mut [u8; ROOM], have: usize) -> Result<usize, Failure>
    requires { have < ROOM }
    ensures end { IfOk result (λ end. (have ≤ end) × (end ≤ ROOM)) }
    ensures buf_unchanged { take have buf.new ≡ take have buf.old }
{
    let count = input.read(&mut buf[have..]).map_err(|_| Failure::Read)?;
    Ok(have + count)
}

// Writes the first n bytes.
fn write(output: &mut Stdout, out: &[u8; ROOM], n: usize) -> Result<(), Failure>
    requires { n ≤ ROOM }
{
    output.write_all(&out[..n]).map_err(|_| Failure::Write)
}

// Answers every line that a newline ends, a buffer of answers at a time. Once a write has failed nothing more is written; the lines behind it are answered
// all the same, so that the state after all of them is said whether or not a write fails.
#[tactic(auto, using(sheet::proofs::Replies::progress_written, crate::proofs::Draining::used_fits))]
fn drain(output: &mut Stdout, s: Supervisor, input: &[u8], out: &mut [u8; ROOM]) -> Drained
    ensures supervisor { result.supervisor ≡ states_after s (whole_lines input.now) }
    ensures used { result.used ≡ length (joined_lines (whole_lines input.now)) }
{
    let mut supervisor = s;
    let mut used = 0;
    let mut outcome = Ok(());
    loop {
        let progress = answer_lines(supervisor, &input[used..], out);
        if progress.lines == 0 {
            return Drained {
                supervisor,
                used,
                outcome,
            };
        }
        if outcome.is_ok() {
            outcome = write(output, out, progress.written);
        }
        supervisor = progress.supervisor;
        used += progress.used;
    }
}

// One read, the answers of the lines that it ends, and what is kept of the line begun. A read that fails gives no bytes.
fn turn(
    input: &mut Stdin,
    output: &mut Stdout,
    begun: Begun,
    buf: &mut [u8; ROOM],
    out: &mut [u8; ROOM],
) -> Turned
    ensures { ReadsPart begun.supervisor (take begun.have buf.old) result.begun.supervisor (take result.begun.have buf.new) }
{
    let filled = fill(input, buf, begun.have);
    let end = filled.unwrap_or(begun.have);
    let drained = drain(output, begun.supervisor, &buf[..end], out);
    Turned {
        begun: Begun {
            supervisor: drained.supervisor,
            have: keep(buf, drained.used, end),
        },
        outcome: drained.outcome.and(filled),
    }
}

// Reads until the input ends or a read or a write fails.
fn read_all(
    input: &mut Stdin,
    output: &mut Stdout,
    buf: &mut [u8; ROOM],
    out: &mut [u8; ROOM],
) -> Kept
    ensures { ReadsAll result.begun.supervisor (take result.begun.have buf.new) }
{
    let mut begun = Begun {
        supervisor: Supervisor::new(),
        have: 0,
    };
    // A proved loop has to end, so it has a number of turns that no run uses up.
    for _ in 0..u64::MAX {
        let have = begun.have;
        let turned = turn(input, output, begun, buf, out);
        begun = turned.begun;
        match turned.outcome {
            Ok(end) if end != have => {}
            outcome => {
                return Kept {
                    begun,
                    outcome: outcome.map(|_| ()),
                };
            }
        }
    }
    Kept {
        begun,
        outcome: Ok(()),
    }
}

// Answers a last line without newline, where there is one. A newline is put behind the line and not `answer_last` called: what a line goes through then
// has one caller and is inlined into the loop over the lines (docs/SPEED.md).
#[tactic(auto, using(crate::proofs::Draining::finish_none, crate::proofs::Draining::finish_one, sheet::proofs::Replies::progress_written))]
fn finish(
    output: &mut Stdout,
    begun: Begun,
    buf: &mut [u8; ROOM],
    out: &mut [u8; ROOM],
) -> Result<(), Failure>
    requires { whole_lines (take begun.have buf.old) ≡ [] }
    ensures { out.new ≡ answers_over begun.supervisor (last_line (take begun.have buf.old)) out.old }
{
    let have = begun.have;
    if have == 0 {
        return Ok(());
    }
    buf[have] = b'\n';
    let last = answer_lines(begun.supervisor, &buf[..have + 1], out);
    write(output, out, last.written)
}

// A line begun is answered at the input's end alone: where a read fails nobody knows how it goes on.
fn answer_all(rt: &HostRuntime) -> Result<(), Failure> {
    let mut buf = [0; ROOM];
    let mut out = [0; ROOM];
    let mut output = rt.stdout();
    let kept = read_all(&mut rt.stdin(), &mut output, &mut buf, &mut out);
    kept.outcome?;
    finish(&mut output, kept.begun, &mut buf, &mut out)
}

fn main(rt: HostRuntime) {
    if let Err(failure) = answer_all(&rt) {
        write!(rt.stderr(), "{failure}").is_ok();
    }
}
