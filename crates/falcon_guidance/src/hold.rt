// The hold point: latched on entry to Takeoff or Loiter, after braking where Loiter is entered while moving. A point made anew from each tick's estimate
// has no error to fly back from, and drifts with the wind.
ghost use Rattle.std.specs.Prelude.{◌≡◌};
ghost use Rattle.falcon_guidance.specs.Hold.{horiz_speed_of, holds_of, horiz_position_of, brake_point_of, entered_of, brake_rest_of, braked_of, left_of, held_of};

use crate::geometry::norm;
use falcon_state::{Hold, Horizontal, Tick};
use relay_fsm::Mode;

// The horizontal speed.
#[tactic(auto, unfolding(crate::specs::Hold::horiz_speed_of))]
pub fn horiz_speed(t: Tick) -> f32
    ensures { result ≡ horiz_speed_of t }
{
    norm(t.v.x, t.v.y)
}

// The modes that fly to the hold point. They are one regime: a new point at the top of the climb would keep what the wind did during it.
fn holds(mode: Mode) -> bool
    ensures { result ≡ holds_of mode }
{
    matches!(mode, Mode::Takeoff | Mode::Loiter)
}

// Where the vehicle is.
fn horiz_position(t: Tick) -> Horizontal
    ensures { result ≡ horiz_position_of t }
{
    Horizontal { x: t.p.x, y: t.p.y }
}

// The brake point lies behind the vehicle along its own velocity: `HOLD_BRAKE_LEAD_S` says why.
#[tactic(auto, unfolding(crate::specs::Hold::brake_point_of))]
fn brake_point(t: Tick) -> Horizontal
    ensures { result ≡ brake_point_of t }
{
    Horizontal {
        x: t.p.x - t.v.x * Hold::HOLD_BRAKE_LEAD_S,
        y: t.p.y - t.v.y * Hold::HOLD_BRAKE_LEAD_S,
    }
}

// Entry latches the point where the vehicle is. Loiter entered while moving brakes first: no point that is latched before rest is held, since the integral
// that the leg has charged drives the vehicle past it.
#[tactic(auto, unfolding(crate::specs::Hold::entered_of))]
fn entered(h: Hold, mode: Mode, t: Tick) -> Hold
    ensures { result ≡ entered_of h mode t }
{
    if h.hold_regime {
        return h;
    }
    Hold {
        hold_xy: horiz_position(t),
        hold_regime: true,
        hold_braking: (mode == Mode::Loiter) & (horiz_speed(t) > Hold::HOLD_BRAKE_ENTRY_MS),
        brake_s: 0.0,
        brake_rest_s: 0.0,
    }
}

// The time at rest without a break.
#[tactic(auto, unfolding(crate::specs::Hold::brake_rest_of))]
fn brake_rest(h: Hold, t: Tick) -> f32
    ensures { result ≡ brake_rest_of h t }
{
    if horiz_speed(t) < Hold::HOLD_REST_MS {
        h.brake_rest_s + t.dt
    } else {
        0.0
    }
}

// At rest long enough, or out of time, the point is latched where the vehicle is; until then it is the brake point.
#[tactic(auto, unfolding(crate::specs::Hold::braked_of))]
fn braked(h: Hold, t: Tick) -> Hold
    ensures { result ≡ braked_of h t }
{
    let brake_s = h.brake_s + t.dt;
    let brake_rest_s = brake_rest(h, t);
    let latched = (brake_rest_s >= Hold::HOLD_REST_S) | (brake_s >= Hold::HOLD_BRAKE_MAX_S);
    Hold {
        hold_xy: if latched {
            horiz_position(t)
        } else {
            brake_point(t)
        },
        hold_braking: !latched,
        brake_s,
        brake_rest_s,
        ..h
    }
}

// In another mode: the next entry latches afresh.
#[tactic(auto, unfolding(crate::specs::Hold::left_of))]
fn left(h: Hold) -> Hold
    ensures { result ≡ left_of h }
{
    Hold {
        hold_regime: false,
        hold_braking: false,
        ..h
    }
}

// The hold after a tick in this mode: entry where it is new, then braking where that goes on.
#[tactic(auto, unfolding(crate::specs::Hold::held_of, crate::specs::Hold::in_regime_of))]
pub fn held(h: Hold, mode: Mode, t: Tick) -> Hold
    ensures { result ≡ held_of h mode t }
{
    if !holds(mode) {
        return left(h);
    }
    let e = entered(h, mode, t);
    if e.hold_braking { braked(e, t) } else { e }
}
