// The failsafes: breach, attitude runaway, high wind, and the report of a failed motor.
ghost use Rattle.std.specs.Prelude.{◌≡◌, cond};
ghost use Rattle.relay_math.specs.Small.{saturating_add_of};
ghost use Rattle.falcon_events.specs.Failsafe.{mode_given_of, cleared_of, breach_of, wanted_rank, failsafe_given_of, breached_of};
ghost use Rattle.falcon_events.specs.Failsafe.{tilted_of, runaway_of, gusty_of, wind_of, motor_lost_of, report_of};

use falcon_state::{Counts, FlightSupervisor, Tick};
use relay_batt::Battery;
use relay_fsm::{Event, FlightFsm, Gates, Mode};

// What the failsafes change: the mode, the counts and the latch.
#[derive(Clone, Copy)]
pub struct FailsafeState {
    pub mode: Mode,
    pub counts: Counts,
    pub rtl_latched: bool,
}

// The gates of a tick: all hold.
pub const IN_FLIGHT: Gates = Gates {
    level: true,
    throttle_low: true,
    have_position: true,
    prearm_ok: true,
};

// The gates of a report of a failed motor: no position.
const WITHOUT_POSITION: Gates = Gates {
    have_position: false,
    ..IN_FLIGHT
};

// The mode after an event that is given or not. Inlined, so that each caller's event is a constant here.
#[inline(always)]
pub fn mode_given(mode: Mode, given: Option<Event>, g: Gates) -> Mode
    ensures { result ≡ mode_given_of mode given g }
{
    match given {
        Some(ev) => FlightFsm { mode }.on(ev, g).mode,
        None => mode,
    }
}

// Ticks in a row.
fn counted(again: bool, n: u32) -> u32
    ensures { result ≡ cond again (saturating_add_of n 1) 0 }
{
    if again { n.saturating_add(1) } else { 0 }
}

// The latch is cleared while Disarmed: a failsafe long past is no reason to refuse arming. What still blocks it is the hazard itself, which the checks read anew.
pub fn cleared(mode: Mode, latched: bool) -> bool
    ensures { result ≡ cleared_of mode latched }
{
    (mode != Mode::Disarmed) & latched
}

// Outside the fence, or a battery that is low, critical or lost.
fn breach(b: Battery, outside: bool) -> bool
    ensures { result ≡ breach_of b outside }
{
    outside | (b.state.low | b.state.critical | b.lost())
}

// The rank that a breach wants: a critical pack must reach Land even from Rtl.
fn wanted_rank(critical: bool) -> u32
    ensures { result ≡ wanted_rank critical }
{
    if critical { 3 } else { 2 }
}

// More tilt than any attitude that can be flown; a NaN is not more.
#[tactic(auto, unfolding(crate::specs::Failsafe::tilted_of))]
fn tilted(t: Tick) -> bool
    ensures { result ≡ tilted_of t }
{
    t.tilt > Tick::TILT_RUNAWAY_LIMIT
}

// The motors are saturated while the vehicle leans hard and does not tumble: it fights a wind that it cannot hold against.
#[tactic(auto, unfolding(crate::specs::Failsafe::gusty_of))]
fn gusty(t: Tick) -> bool
    ensures { result ≡ gusty_of t }
{
    let leaning = (Tick::WIND_TILT_MIN <= t.tilt) & (t.tilt <= Tick::WIND_TILT_CEIL);
    (t.max_motor >= Tick::WIND_SAT_THRESHOLD) & leaning
}

impl FailsafeState {
    // A given `Failsafe` sets the latch.
    fn failsafe_given(self, given: Option<Event>) -> FailsafeState
        ensures { result ≡ failsafe_given_of self given }
    {
        FailsafeState {
            mode: mode_given(self.mode, given, IN_FLIGHT),
            rtl_latched: given.is_some() | self.rtl_latched,
            ..self
        }
    }

    // A breach is a failsafe where it wants a higher rank than the present one: it lasts as long as the vehicle is outside, and given again in each tick it
    // would turn the return into a landing outside.
    #[tactic(auto, unfolding(crate::specs::Failsafe::breached_of, crate::specs::Failsafe::breach_gives))]
    pub fn breached(self, b: Battery, outside: bool) -> FailsafeState
        ensures { result ≡ breached_of self b outside }
    {
        let mode = self.mode;
        let wants_more = mode.rank() < wanted_rank(b.state.critical);
        let fails = mode.is_airborne() & wants_more & breach(b, outside);
        self.failsafe_given(fails.then_some(Event::Failsafe))
    }

    // Too much tilt for too many ticks in a row is a tumble, which neither return nor landing arrests: it cuts the motors.
    #[tactic(auto, unfolding(crate::specs::Failsafe::runaway_of, crate::specs::Failsafe::runaway_gives, crate::specs::Failsafe::runaway_counted, crate::specs::Failsafe::runaway_enough))]
    pub fn runaway(self, t: Tick) -> FailsafeState
        ensures { result ≡ runaway_of self t }
    {
        let again = self.mode.is_airborne() & tilted(t);
        let runaway_count = counted(again, self.counts.runaway_count);
        let ends = again & (runaway_count >= Tick::TILT_RUNAWAY_CYCLES);
        FailsafeState {
            mode: mode_given(self.mode, ends.then_some(Event::Terminate), IN_FLIGHT),
            counts: Counts {
                runaway_count,
                ..self.counts
            },
            ..self
        }
    }

    // High wind for too many ticks in a row is a failsafe where the rank is below that of Rtl, so that it does not turn a return into a landing.
    #[tactic(auto, unfolding(crate::specs::Failsafe::wind_of, crate::specs::Failsafe::wind_gives, crate::specs::Failsafe::wind_counted, crate::specs::Failsafe::wind_enough))]
    pub fn wind(self, t: Tick) -> FailsafeState
        ensures { result ≡ wind_of self t }
    {
        let mode = self.mode;
        let again = mode.is_airborne() & (mode != Mode::Land) & gusty(t);
        let wind_count = counted(again, self.counts.wind_count);
        let fails = again & ((wind_count >= Tick::WIND_CYCLES) & (mode.rank() < 2));
        FailsafeState {
            counts: Counts {
                wind_count,
                ..self.counts
            },
            ..self
        }
        .failsafe_given(fails.then_some(Event::Failsafe))
    }
}

// A motor failed in flight, before Land.
fn motor_lost(mode: Mode, failed: bool) -> bool
    ensures { result ≡ motor_lost_of mode failed }
{
    mode.is_airborne() & (mode != Mode::Land) & failed
}

// A failed motor in flight leads to Land, and not to Rtl: with three rotors there is no yaw to return by.
#[tactic(auto, unfolding(crate::specs::Failsafe::report_of))]
pub fn report(f: FlightSupervisor, failed: bool) -> FlightSupervisor
    ensures { result ≡ report_of f failed }
{
    let mode = f.fsm.mode;
    let lost = motor_lost(mode, failed);
    FlightSupervisor {
        fsm: FlightFsm {
            mode: mode_given(mode, lost.then_some(Event::Failsafe), WITHOUT_POSITION),
        },
        rtl_latched: lost | f.rtl_latched,
        ..f
    }
}
