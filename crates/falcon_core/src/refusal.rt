// The refusals of document 01, and their numbers.
ghost use Rattle.std.specs.Prelude.{◌≡◌};
ghost use Rattle.falcon_core.specs.Refusals.{refusal_number, outcome_number};

use std::error::Error;
use std::fmt;

// The refusals, in the order in which they are tried.
#[derive(Clone, Copy, Debug, PartialEq, Eq, Hash)]
pub enum Refusal {
    // The answer buffer is too short.
    ShortBuffer,
    // Not a sheet line.
    NotALine,
    // The kind is not 1..8.
    UnknownKind,
    // A wrong field count; lent points not three each, or zones not four each.
    WrongCount,
    // An event, a flag, a battery number or a mask out of its range, or volts or amps where none are said.
    OutOfRange,
    // No opening yet. From here on a refusal needs the state.
    NoOpening,
    // A report is due, and the call is no report or opening.
    ReportDue,
    // A report, and none is due.
    NoReportDue,
    // A tried point is inadmissible.
    Inadmissible,
}

impl Refusal {
    // The number that an answer line begins with: 0 where it is accepted.
    pub fn outcome_number<T>(outcome: &Result<T, Refusal>) -> u32
        ensures { result ≡ outcome_number outcome.now }
    {
        match outcome {
            Ok(_) => 0,
            Err(refusal) => u32::from(*refusal),
        }
    }
}

impl From<Refusal> for u32 {
    ghost from_gives = { λ refusal n. n ≡ refusal_number refusal };

    fn from(refusal: Refusal) -> u32 {
        match refusal {
            Refusal::ShortBuffer => 9,
            Refusal::NotALine => 2,
            Refusal::UnknownKind => 3,
            Refusal::WrongCount => 4,
            Refusal::OutOfRange => 5,
            Refusal::NoOpening => 1,
            Refusal::ReportDue => 6,
            Refusal::NoReportDue => 7,
            Refusal::Inadmissible => 8,
        }
    }
}

impl fmt::Display for Refusal {
    fn fmt<W: fmt::Write>(&self, f: &mut fmt::Formatter<W>) -> fmt::Result {
        f.write_str(match self {
            Refusal::ShortBuffer => "the answer buffer is too short",
            Refusal::NotALine => "not a sheet line",
            Refusal::UnknownKind => "unknown kind",
            Refusal::WrongCount => "wrong field count",
            Refusal::OutOfRange => "a field out of its range",
            Refusal::NoOpening => "no opening yet",
            Refusal::ReportDue => "a report is due",
            Refusal::NoReportDue => "no report is due",
            Refusal::Inadmissible => "a point is inadmissible",
        })
    }
}

impl Error for Refusal {}
