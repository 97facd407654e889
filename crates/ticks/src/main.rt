// The tick with no text: a day flown again and again, and the sum of its answers. `harness/bench tick` times it beside the Rust's `step`.
#![tactic(auto)]

use falcon_core::supervisor::Supervisor;
use falcon_guidance::legs::legs;
use falcon_state::{Opening, OpeningKind, Point, Tick};
use falcon_tick::tick::{TickAnswer, tick};
use relay_batt::Reading;
use relay_fsm::Event;
use relay_math::to_bits;

// The days of a run, and the ticks of each part of a day: in Takeoff and Loiter, in Mission, and on the way home.
const DAYS: u32 = 500;

const PART: u32 = 1_000;

// Where the shuttle is, tick by tick: one of the places north and one of those east.
const NORTH_PLACES: u32 = 16;

const EAST_PLACES: u32 = 8;

const NORTH: [f32; NORTH_PLACES as usize] = [
    0.0, 1.5, 3.0, 4.5, 6.0, 7.5, 9.0, 10.5, 12.0, 13.5, 15.0, 16.5, 18.0, 19.5, 20.0, 2.0,
];

const EAST: [f32; EAST_PLACES as usize] = [0.0, 0.5, 1.0, 6.5, 7.0, 7.5, -2.0, -1.0];

// The sum with the numbers of an answer. It wraps.
fn summed(sum: u32, answer: TickAnswer) -> u32 {
    match answer {
        TickAnswer::MotorsOff => sum.wrapping_add(1),
        TickAnswer::Setpoint {
            ned,
            landing,
            rearm,
        } => {
            let mut s = sum.wrapping_add(to_bits(ned.x));
            s = s.wrapping_add(to_bits(ned.y));
            s = s.wrapping_add(to_bits(ned.z));
            if landing {
                s = s.wrapping_add(2);
            }
            if rearm {
                s = s.wrapping_add(4);
            }
            s
        }
    }
}

fn tick_at(i: u32) -> Tick {
    let n = (i % NORTH_PLACES) as usize;
    let e = (i / NORTH_PLACES % EAST_PLACES) as usize;
    Tick {
        dt: 0.02,
        p: Point::new(NORTH[n], EAST[e], -10.0),
        v: Point::new(0.5, -0.25, 0.0),
        tilt: 0.1,
        tilt_uncertainty: 0.01,
        max_motor: 0.6,
        nav_compromised: false,
        gnss_diverged: false,
        failed_motor: false,
        motor_rpm: true,
        reading: Reading::VoltsAmps {
            volts: 22.8,
            amps: 12.0,
        },
    }
}

// The flight and the sum after the ticks of a part.
fn fly(begun: Supervisor, sum: u32) -> (Supervisor, u32) {
    let config = begun.flight.config;
    let waypoints = begun.waypoints;
    let mut flight = begun.flight;
    let mut s = sum;
    for i in 0..PART {
        let legs = legs(config, waypoints, flight.mission);
        let ticked = tick(flight, legs, tick_at(i));
        flight = ticked.flight;
        s = summed(s, ticked.answer);
    }
    (Supervisor { flight, ..begun }, s)
}

// The state after a command.
fn commanded(s: Supervisor, ev: Event) -> Supervisor {
    s.command(ev, true, true).supervisor
}

// Opened, with two points and a zone, armed and taking off.
fn started() -> Supervisor {
    let opened = Supervisor::new().opening(Opening {
        home: Point::origin(),
        fence_radius: 100.0,
        cruise_alt: 10.0,
        low_batt_v: 21.0,
        required: 0,
        passed: 0,
        calibration_configured: true,
        opening_kind: OpeningKind::Ground,
    });
    let points = [15.0f32, 1.0, -10.0, 0.0, 7.5, -10.0];
    let listed = opened.supervisor.set_mission_waypoints(&points);
    let zone = [9.0f32, 3.0, 0.0, 2.0];
    let zoned = listed.supervisor.set_keepout_zones(&zone);
    let armed = commanded(zoned.supervisor, Event::Arm);
    commanded(armed, Event::RequestTakeoff)
}

fn day(sum: u32) -> u32 {
    let (s, sum) = fly(started(), sum);
    let (s, sum) = fly(commanded(s, Event::RequestMission), sum);
    let (_, sum) = fly(commanded(s, Event::RequestRtl), sum);
    sum
}

fn main(rt: HostRuntime) {
    let mut sum = 0;
    for _ in 0..DAYS {
        sum = day(sum);
    }
    println!(rt; "{sum}").is_ok();
}
