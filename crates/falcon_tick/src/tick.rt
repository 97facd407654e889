// The tick: the paragraphs of the Rust's `step` in their order.
ghost use Rattle.std.specs.Prelude.{◌≡◌};
ghost use Rattle.falcon_tick.specs.Tick.{tick_of};

use crate::preflight::{esc_telemetry, update_preflight};
use falcon_events::failsafe::{FailsafeState, cleared};
use falcon_events::milestone::milestone;
use falcon_guidance::geometry::{distance, height};
use falcon_guidance::hold::held;
use falcon_guidance::setpoint::{landing, motors_off, setpoint};
use falcon_guidance::zones::avoid;
use falcon_state::{FlightSupervisor, Legs, Mission, Point, Tick};
use relay_fsm::FlightFsm;

// What a tick answers. An enum of its own and no Option: the cases have names that a reader of a day knows (docs/DECISIONS.md, Forms).
#[derive(Clone, Copy)]
pub enum TickAnswer {
    MotorsOff,
    // Where to fly, whether the descent is on, and whether the motors start with this tick.
    Setpoint {
        ned: Point,
        landing: bool,
        rearm: bool,
    },
}

// The flight after a tick, and the tick's answer.
#[derive(Clone, Copy)]
pub struct Ticked {
    pub flight: FlightSupervisor,
    pub answer: TickAnswer,
}

// One tick, with the waypoints of the active leg and of the next. The flight is put together once, behind the paragraphs that it needs, so that it is
// copied once.
#[tactic(auto, unfolding(crate::specs::Tick::tick_of, crate::specs::Tick::after_tick, crate::specs::Tick::answered, crate::specs::Tick::reached, crate::specs::Tick::after_wind, crate::specs::Tick::after_runaway, crate::specs::Tick::after_breach, crate::specs::Tick::before_breach))]
pub fn tick(f: FlightSupervisor, legs: Legs, t: Tick) -> Ticked
    ensures { result ≡ tick_of f legs t }
{
    let c = f.config;
    let dist_home = distance(t.p, c.home);
    let alt_agl = height(c, t.p);
    let outside = dist_home > c.fence_radius;
    // Latch cleared if Disarmed, before the checks, so that they see it in the same tick.
    let rtl_latched = cleared(f.fsm.mode, f.rtl_latched);
    // Checks, from the battery before this tick's reading.
    let checked = update_preflight(f.check_table, c, f.battery, rtl_latched, outside, t);
    // Battery.
    let battery = f.battery.update(t.dt, t.reading);
    // Rpm.
    let check_table = esc_telemetry(checked, t.motor_rpm);
    // Breach, runaway, wind.
    let before_breach = FailsafeState {
        mode: f.fsm.mode,
        counts: f.counts,
        rtl_latched,
    };
    let after_wind = before_breach.breached(battery, outside).runaway(t).wind(t);
    // Mode.
    let reached = milestone(
        after_wind.mode,
        c,
        f.mission,
        legs.here,
        dist_home,
        alt_agl,
        t.p,
    );
    let off = motors_off(reached.mode);
    // Hold.
    let hold = held(f.hold, reached.mode, t);
    let flight = FlightSupervisor {
        fsm: FlightFsm { mode: reached.mode },
        battery,
        mission: Mission {
            wp_index: reached.wp_index,
            ..f.mission
        },
        hold,
        counts: after_wind.counts,
        check_table,
        rtl_latched: after_wind.rtl_latched,
        motors_were_off: off,
        ..f
    };
    if off {
        return Ticked {
            flight,
            answer: TickAnswer::MotorsOff,
        };
    }
    // Landing flag, setpoint, `avoid`: behind the hold, since only a flying tick answers them. `avoid` is skipped while landing: the vehicle is over home.
    let landing = landing(reached.mode, dist_home, t);
    let waypoint = if f.mission.wp_index == reached.wp_index {
        legs.here
    } else {
        legs.next
    };
    let sp = setpoint(reached.mode, c, waypoint, hold.hold_xy, t);
    let ned = if (f.zones.zone_count > 0) & !landing {
        avoid(f.zones, t.p, sp)
    } else {
        sp
    };
    Ticked {
        flight,
        answer: TickAnswer::Setpoint {
            ned,
            landing,
            rearm: f.motors_were_off,
        },
    }
}
