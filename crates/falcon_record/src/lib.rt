// The record: the state of a supervisor as the columns of a line of kind 9, which docs/RECORD.md lists.
#![tactic(auto)]

ghost use Rattle.std.specs.Prelude.{◌≡◌, ℕ, ◌+◌, false, List, [], ◌∷◌, ◌++◌, length};
ghost use Rattle.falcon_core.specs.SoundState.{first_of};
ghost use Rattle.relay_batt.specs.Numbers.{battery_numbers_of};
ghost use Rattle.falcon_totals.specs.Totals.{totals_numbers};
ghost use Rattle.falcon_record.specs.Columns.{record_kind, config_columns, check_columns, hold_columns, count_columns, use_columns};
ghost use Rattle.falcon_record.specs.Columns.{scalar_columns, place_in, point_columns, zone_columns, place_columns};
ghost use Rattle.falcon_record.specs.Saved.{written_form, columns_of, save_step, saved_over};

use columns::line::put_numbers;
use falcon_core::refusal::Refusal;
use falcon_core::supervisor::{Answered, Supervisor, refused};
use falcon_state::{Config, FlightSupervisor, Place, Point, Zone};
use falcon_totals::DayTotals;
use relay_batt::Battery;
use relay_batt::numbers::{estimator_numbers, silence_numbers, state_numbers};
use relay_math::to_bits;

// The kind of the line whose columns these are. No line of it is taken, so it is none of the kinds of requests.
const RECORD_KIND: u32 = 9;

// The columns of what an opening sets and of the mode, those of the battery, and those of what is counted and in use: all before the first point.
const OPENING: usize = 12;

const BATTERY: usize = 21;

const FLOWN: usize = 22;

const SCALARS: usize = OPENING + BATTERY + FLOWN;

// Those of the points and those of the zones, and behind them one for the opening's kind.
const POINTS: usize = Point::NUMBERS * Point::MAX_WAYPOINTS;

const ZONES: usize = Zone::NUMBERS * Zone::MAX_KEEPOUT_ZONES;

const LATER: usize = 1;

const PLACES: usize = POINTS + ZONES + LATER;

// The columns of a record. Each part is a named function and no From, which would not say which part.
pub const RECORD_FIELDS: usize = SCALARS + PLACES;

// The fields that a line of kind 9 may have: a buffer or an array for a record has room for so many.
pub const RECORD_ROOM: usize = 160;

// Home, fence, cruise height, opening volts, cells, calibration.
#[tactic(auto, unfolding(crate::specs::Columns::config_columns))]
fn config_numbers(c: Config, cells: u32) -> [u32; 8]
    ensures { result ≡ config_columns c cells }
{
    [
        to_bits(c.home.x),
        to_bits(c.home.y),
        to_bits(c.home.z),
        to_bits(c.fence_radius),
        to_bits(c.cruise_alt),
        to_bits(c.low_batt_v),
        cells,
        u32::from(c.calibration_configured),
    ]
}

// The masks and the mode.
#[tactic(auto, unfolding(crate::specs::Columns::check_columns))]
fn check_numbers(f: FlightSupervisor) -> [u32; 3]
    ensures { result ≡ check_columns f }
{
    [
        f.check_table.required,
        f.check_table.passed,
        u32::from(f.fsm.mode),
    ]
}

// The hold point, the regime, braking and its two times; the tilt and wind counts, the failsafe latch, the motors.
#[tactic(auto, unfolding(crate::specs::Columns::hold_columns, crate::specs::Columns::count_columns))]
fn hold_numbers(f: FlightSupervisor) -> [u32; 10]
    ensures { result ≡ hold_columns f.hold ++ count_columns f }
{
    [
        to_bits(f.hold.hold_xy.x),
        to_bits(f.hold.hold_xy.y),
        u32::from(f.hold.hold_regime),
        u32::from(f.hold.hold_braking),
        to_bits(f.hold.brake_s),
        to_bits(f.hold.brake_rest_s),
        f.counts.runaway_count,
        f.counts.wind_count,
        u32::from(f.rtl_latched),
        u32::from(f.motors_were_off),
    ]
}

// Point count, leg, zone count.
#[tactic(auto, unfolding(crate::specs::Columns::use_columns))]
fn use_numbers(f: FlightSupervisor) -> [u32; 3]
    ensures { result ≡ use_columns f }
{
    [f.mission.wp_count, f.mission.wp_index, f.zones.zone_count]
}

// Three parts as one, each behind the one before it.
fn joined<const N: usize>(a: &[u32], b: &[u32], c: &[u32]) -> [u32; N]
    requires { length a.now + (length b.now + length c.now) ≡ N }
    ensures { result ≡ a.now ++ (b.now ++ c.now) }
{
    let mut numbers = [0u32; N];
    put_numbers(&mut numbers, 0, a);
    put_numbers(&mut numbers, a.len(), b);
    put_numbers(&mut numbers, a.len() + b.len(), c);
    numbers
}

// The kind, the configuration, the masks and the mode.
#[tactic(auto, unfolding(crate::specs::Columns::config_columns, crate::specs::Columns::check_columns))]
fn opening_numbers(f: FlightSupervisor) -> [u32; OPENING]
    ensures { result ≡ (record_kind ∷ []) ++ (config_columns f.config f.battery.est.cfg.cells ++ check_columns f) }
{
    let cells = f.battery.est.cfg.cells;
    joined(
        &[RECORD_KIND],
        &config_numbers(f.config, cells),
        &check_numbers(f),
    )
}

// The battery.
#[tactic(auto, unfolding(relay_batt::specs::Numbers::battery_numbers_of, relay_batt::specs::Numbers::estimator_numbers_of, relay_batt::specs::Numbers::state_numbers_of, relay_batt::specs::Numbers::silence_numbers_of))]
fn battery_numbers(b: Battery) -> [u32; BATTERY]
    ensures { result ≡ battery_numbers_of b }
{
    joined(
        &estimator_numbers(b.est),
        &state_numbers(b.state),
        &silence_numbers(b),
    )
}

// The hold, the counts, the totals and what is in use.
#[tactic(auto, unfolding(crate::specs::Columns::hold_columns, crate::specs::Columns::count_columns, crate::specs::Columns::use_columns, falcon_totals::specs::Totals::totals_numbers))]
fn flown_numbers(f: FlightSupervisor, totals: DayTotals) -> [u32; FLOWN]
    ensures { result ≡ (hold_columns f.hold ++ count_columns f) ++ (totals_numbers totals ++ use_columns f) }
{
    joined(&hold_numbers(f), &totals.numbers(), &use_numbers(f))
}

// The columns before the first point.
#[tactic(auto, unfolding(crate::specs::Columns::scalar_columns))]
fn scalar_numbers(s: Supervisor) -> [u32; SCALARS]
    ensures { result ≡ scalar_columns s }
{
    joined(
        &opening_numbers(s.flight),
        &battery_numbers(s.flight.battery),
        &flown_numbers(s.flight, s.totals),
    )
}

// What stands in places of the state, and its columns. How many is a parameter: an array's length can't be a constant of a type parameter.
trait Recorded<const W: usize>: Place {
    ghost columns: { Self → List ℕ };

    fn columns(self) -> [u32; W]
        ensures { result ≡ columns self };
}

impl Recorded<{ Point::NUMBERS }> for Point {
    ghost columns = { point_columns };

    #[tactic(auto, unfolding(crate::specs::Columns::point_columns))]
    fn columns(self) -> [u32; Point::NUMBERS] {
        [to_bits(self.x), to_bits(self.y), to_bits(self.z)]
    }
}

impl Recorded<{ Zone::NUMBERS }> for Zone {
    ghost columns = { zone_columns false 0 };

    #[tactic(auto, unfolding(crate::specs::Columns::zone_columns))]
    fn columns(self) -> [u32; Zone::NUMBERS] {
        [
            to_bits(self.center.x),
            to_bits(self.center.y),
            to_bits(self.center.z),
            to_bits(self.radius),
        ]
    }
}

// The columns of places: those in use, and for every other what an unused place holds.
fn rows<T: Recorded<W>, const W: usize, const N: usize>(
    places: &[T; N],
    count: u32,
) -> [[u32; W]; N]
    ensures { result ≡ first_of (λ i. T.columns (place_in T.empty T.empty places.now count i)) N }
{
    let mut used = places[..N.min(count as usize)].iter();
    let mut rows = [T::unused().columns(); N];
    // No zip: a proof knows nothing of the rows after a loop that zips their iter_mut.
    for row in rows.iter_mut() {
        if let Some(place) = used.next() {
            *row = place.columns();
        }
    }
    rows
}

// The columns from the first point on: the points, the zones and the opening's kind.
#[tactic(auto, using(crate::proofs::Saving::places_parts), unfolding(crate::specs::Columns::later_columns))]
fn place_numbers(s: Supervisor) -> [u32; PLACES]
    ensures { result ≡ place_columns written_form s }
{
    let points = rows(&s.waypoints, s.flight.mission.wp_count);
    let zones = rows(&s.flight.zones.zones, s.flight.zones.zone_count);
    joined(
        points.as_flattened(),
        zones.as_flattened(),
        &[u32::from(s.flight.config.opening_kind)],
    )
}

// The state as the columns of a line of kind 9.
pub fn record_columns(s: Supervisor) -> [u32; RECORD_FIELDS]
    ensures { result ≡ columns_of s }
{
    let mut numbers = [0u32; RECORD_FIELDS];
    put_numbers(&mut numbers, 0, &scalar_numbers(s));
    put_numbers(&mut numbers, SCALARS, &place_numbers(s));
    numbers
}

// The state by values: the array takes the columns. Under 160 places nothing is put and the refusal is 9.
#[tactic(auto, using(crate::proofs::Saving::short_refused, crate::proofs::Saving::short_saved, crate::proofs::Saving::full_saved, crate::proofs::Saving::saved_accepted, crate::proofs::Saving::saved_refused))]
pub fn save(s: Supervisor, numbers: &mut [u32]) -> Answered
    ensures answered { result ≡ save_step s numbers.old }
    ensures array { numbers.new ≡ saved_over s numbers.old }
{
    if numbers.len() < RECORD_ROOM {
        return refused(s, Refusal::ShortBuffer);
    }
    let saved = s.save();
    if saved.answer.outcome.is_ok() {
        put_numbers(numbers, 0, &record_columns(s));
    }
    saved
}
