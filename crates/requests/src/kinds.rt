// The kinds of lines: from the numbers of a line to what it asks.
ghost use Rattle.std.specs.Prelude.{◌≡◌, ◌≢◌, ◌+◌, ◌<◌, ◌≤◌, cond, eqb, leb, length, MatchResult, ok_or};
ghost use Rattle.falcon_state.specs.Zone.{zone_numbers_of};
ghost use Rattle.falcon_core.specs.declared.refusal.Refusal.TheVariants.{UnknownKind as unknown_kind};
ghost use Rattle.falcon_record.specs.From.{point_from_of};
ghost use Rattle.requests.specs.Kinds.{opening_line_of, reading_from_of, battery_ok_of, tick_line_of};
ghost use Rattle.requests.specs.Kinds.{report_line_of, command_line_of, is_list_of, kind_at, numbers_ask, Asks};

use falcon_core::refusal::Refusal;
use falcon_state::{Opening, OpeningKind, Point, Tick, Zone};
use relay_batt::Reading;
use relay_fsm::Event;
use relay_math::from_bits;
use std::error::Error;
use std::fmt;

// The kinds of lines. Their numbers are those of `try_from`.
#[derive(Clone, Copy, Debug, PartialEq, Eq, Hash)]
pub enum Kind {
    Opening(OpeningKind),
    Tick,
    Report,
    Command,
    Points,
    Zones,
    Totals,
    Saves,
}

// A number that no kind of line has. An error of its own, whose Display says of what.
#[derive(Clone, Copy, Debug, PartialEq, Eq, Hash)]
pub struct UnknownKind(pub u32);

// What a line asks.
#[derive(Clone, Copy)]
pub enum LineCall {
    Flight(FlightCall),
    Other(OtherCall),
}

// A tick, a report or a command: what changes the flight and leaves the waypoints.
#[derive(Clone, Copy)]
pub enum FlightCall {
    Ticks(Tick),
    Reports(bool),
    Commands {
        ev: Event,
        level: bool,
        throttle_low: bool,
    },
}

// What any other line asks. The points or zones of a line stand in its numbers.
#[derive(Clone, Copy)]
pub enum OtherCall {
    Opens(Opening),
    Points,
    Zones,
    Totals,
    Saves,
}

impl Kind {
    // The fields of a line of each kind.
    pub const OPENING_FIELDS: usize = 10;

    pub const TICK_FIELDS: usize = 18;

    pub const REPORT_FIELDS: usize = 2;

    pub const COMMAND_FIELDS: usize = 4;

    pub const ALONE_FIELDS: usize = 1;
    // The fields before the points or zones of a line: the kind, and how many follow.
    pub const LIST_HEAD: usize = 2;
}

impl TryFrom<u32> for Kind {
    type Error = UnknownKind;

    ghost try_from_gives = { λ n r. r ≡ ok_or (kind_at n) (record { 0 = n }) };

    #[tactic(auto, unfolding(crate::specs::Kinds::kind_at))]
    fn try_from(number: u32) -> Result<Kind, UnknownKind> {
        match number {
            1 => Ok(Kind::Opening(OpeningKind::Ground)),
            2 => Ok(Kind::Tick),
            3 => Ok(Kind::Report),
            4 => Ok(Kind::Command),
            5 => Ok(Kind::Points),
            6 => Ok(Kind::Zones),
            7 => Ok(Kind::Totals),
            8 => Ok(Kind::Saves),
            10 => Ok(Kind::Opening(OpeningKind::Raised)),
            _ => Err(UnknownKind(number)),
        }
    }
}

impl fmt::Display for UnknownKind {
    fn fmt<W: fmt::Write>(&self, f: &mut fmt::Formatter<W>) -> fmt::Result {
        write!(f, "no kind of line has number {}", self.0)
    }
}

impl Error for UnknownKind {}

impl From<UnknownKind> for Refusal {
    ghost from_gives = { λ _ refusal. refusal ≡ unknown_kind };

    fn from(_unknown: UnknownKind) -> Refusal {
        Refusal::UnknownKind
    }
}

// A flag is 0 or 1.
fn flag(n: u32) -> Result<bool, Refusal>
    ensures { result ≡ cond (leb n 1) (Ok (eqb n 1)) (Err Refusal.OutOfRange) }
{
    match n {
        0 => Ok(false),
        1 => Ok(true),
        _ => Err(Refusal::OutOfRange),
    }
}

// The point that starts at number k. A function and no From: Point is another crate's.
fn point_from(ns: &[u32], k: usize) -> Point
    requires { k + 2 < length ns.now }
    ensures { result ≡ point_from_of ns.now k }
{
    Point {
        x: from_bits(ns[k]),
        y: from_bits(ns[k + 1]),
        z: from_bits(ns[k + 2]),
    }
}

// The numbers of a line that has as many as its kind.
fn counted<const N: usize>(ns: &[u32]) -> Result<&[u32; N], Refusal>
    ensures { MatchResult result (λ all. (all.now ≡ ns.now) × (length ns.now ≡ N)) (λ e. (e ≡ Refusal.WrongCount) × (length ns.now ≢ N)) }
{
    ns.try_into().map_err(|_| Refusal::WrongCount)
}

// A line of kind 1 or 10.
#[tactic(auto, unfolding(crate::specs::Kinds::opening_line_of, crate::specs::Kinds::opening_from_of))]
fn opening_line(
    ns: &[u32; Kind::OPENING_FIELDS],
    opening_kind: OpeningKind,
) -> Result<LineCall, Refusal>
    ensures { Asks result ns.now (opening_line_of opening_kind ns.now) }
{
    Ok(LineCall::Other(OtherCall::Opens(Opening {
        home: point_from(ns, 1),
        fence_radius: from_bits(ns[4]),
        cruise_alt: from_bits(ns[5]),
        low_batt_v: from_bits(ns[6]),
        required: ns[7],
        passed: ns[8],
        calibration_configured: flag(ns[9])?,
        opening_kind,
    })))
}

// The battery reading of a line of kind 2: what it leaves out is 0.
#[tactic(auto, unfolding(crate::specs::Kinds::battery_ok_of, crate::specs::Kinds::reading_from_of))]
fn reading(ns: &[u32; Kind::TICK_FIELDS]) -> Result<Reading, Refusal>
    ensures { result ≡ cond (battery_ok_of ns.now) (Ok (reading_from_of ns.now)) (Err Refusal.OutOfRange) }
{
    let volts = from_bits(ns[16]);
    let amps = from_bits(ns[17]);
    match (ns[15], ns[16], ns[17]) {
        (0, 0, 0) => Ok(Reading::Nothing),
        (1, _, 0) => Ok(Reading::Volts(volts)),
        (2, _, _) => Ok(Reading::VoltsAmps { volts, amps }),
        _ => Err(Refusal::OutOfRange),
    }
}

// A line of kind 2.
#[tactic(auto, unfolding(crate::specs::Kinds::tick_line_of, crate::specs::Kinds::tick_from_of, crate::specs::Kinds::tick_ok_of))]
fn tick_line(ns: &[u32; Kind::TICK_FIELDS]) -> Result<LineCall, Refusal>
    ensures { Asks result ns.now (tick_line_of ns.now) }
{
    Ok(LineCall::Flight(FlightCall::Ticks(Tick {
        dt: from_bits(ns[1]),
        p: point_from(ns, 2),
        v: point_from(ns, 5),
        tilt: from_bits(ns[8]),
        tilt_uncertainty: from_bits(ns[9]),
        max_motor: from_bits(ns[10]),
        nav_compromised: flag(ns[11])?,
        gnss_diverged: flag(ns[12])?,
        failed_motor: flag(ns[13])?,
        motor_rpm: flag(ns[14])?,
        reading: reading(ns)?,
    })))
}

// A line of kind 3.
#[tactic(auto, unfolding(crate::specs::Kinds::report_line_of))]
fn report_line(ns: &[u32; Kind::REPORT_FIELDS]) -> Result<LineCall, Refusal>
    ensures { Asks result ns.now (report_line_of ns.now) }
{
    Ok(LineCall::Flight(FlightCall::Reports(flag(ns[1])?)))
}

// A line of kind 4.
#[tactic(auto, unfolding(crate::specs::Kinds::command_line_of))]
fn command_line(ns: &[u32; Kind::COMMAND_FIELDS]) -> Result<LineCall, Refusal>
    ensures { Asks result ns.now (command_line_of ns.now) }
{
    Ok(LineCall::Flight(FlightCall::Commands {
        ev: Event::try_from(ns[1]).map_err(|_| Refusal::OutOfRange)?,
        level: flag(ns[2])?,
        throttle_low: flag(ns[3])?,
    }))
}

// A line of points or zones has the numbers that it says, `width` for each.
fn counted_list(ns: &[u32], width: usize) -> Result<(), Refusal>
    requires { width ≤ zone_numbers_of }
    ensures { result ≡ cond (is_list_of width ns.now) (Ok tt) (Err Refusal.WrongCount) }
{
    let count = *ns.get(1).ok_or(Refusal::WrongCount)?;
    if ns.len() != Kind::LIST_HEAD + width * count as usize {
        return Err(Refusal::WrongCount);
    }
    Ok(())
}

// What the numbers of a line ask, by its kind.
#[tactic(auto, unfolding(crate::specs::Kinds::numbers_ask, crate::specs::Kinds::kind_at, crate::specs::Kinds::points_line_of, crate::specs::Kinds::zones_line_of, crate::specs::Kinds::alone_line_of, crate::specs::Kinds::opening_line_of, crate::specs::Kinds::tick_line_of, crate::specs::Kinds::report_line_of, crate::specs::Kinds::command_line_of))]
pub(crate) fn numbers_ask(ns: &[u32]) -> Result<LineCall, Refusal>
    requires { 0 < length ns.now }
    ensures { Asks result ns.now (numbers_ask ns.now) }
{
    match Kind::try_from(ns[0])? {
        Kind::Opening(kind) => opening_line(counted(ns)?, kind),
        Kind::Tick => tick_line(counted(ns)?),
        Kind::Report => report_line(counted(ns)?),
        Kind::Command => command_line(counted(ns)?),
        Kind::Points => {
            counted_list(ns, Point::NUMBERS)?;
            Ok(LineCall::Other(OtherCall::Points))
        }
        Kind::Zones => {
            counted_list(ns, Zone::NUMBERS)?;
            Ok(LineCall::Other(OtherCall::Zones))
        }
        Kind::Totals => {
            counted::<{ Kind::ALONE_FIELDS }>(ns)?;
            Ok(LineCall::Other(OtherCall::Totals))
        }
        Kind::Saves => {
            counted::<{ Kind::ALONE_FIELDS }>(ns)?;
            Ok(LineCall::Other(OtherCall::Saves))
        }
    }
}
