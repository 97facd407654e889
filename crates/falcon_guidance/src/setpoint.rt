// The landing flag, the setpoint of each mode, and the modes that command motors off.
ghost use Rattle.std.specs.Prelude.{◌≡◌};
ghost use Rattle.falcon_guidance.specs.Setpoint.{landing_of, cruise_over_of, setpoint_of, motors_off_of};

use crate::geometry::pad_less;
use crate::hold::horiz_speed;
use falcon_state::{Config, Horizontal, Point, Tick};
use relay_fsm::Mode;

// The descent is on in Land, slow and over home: it is fast, and begun off home or while moving it would touch down in the wrong place. Speed alone is not
// enough: it is zero at the turning point of an overshoot, far from home. With a failed motor it is on at once: three rotors can neither fly home nor hover.
pub fn landing(mode: Mode, dist_home: f32, t: Tick) -> bool
    ensures { result ≡ landing_of mode dist_home t }
{
    mode == Mode::Land
        && (t.failed_motor
            || (horiz_speed(t) < Tick::LANDING_SPEED) & (dist_home < Tick::LANDING_RADIUS))
}

// A point at the cruise height over the pad.
#[tactic(auto, unfolding(crate::specs::Setpoint::cruise_over_of))]
fn cruise_over(c: Config, x: f32, y: f32) -> Point
    ensures { result ≡ cruise_over_of c x y }
{
    Point {
        x,
        y,
        z: pad_less(c, c.cruise_alt),
    }
}

// The setpoint of the mode, with the active leg's waypoint and the hold point. Land waits over home at the cruise height. With a failed motor it stays where
// it is, and no point is latched: three rotors that fly back against the wind tilt more and land further away.
pub fn setpoint(mode: Mode, c: Config, waypoint: Point, hold_xy: Horizontal, t: Tick) -> Point
    ensures { result ≡ setpoint_of mode c waypoint hold_xy t }
{
    match mode {
        Mode::Takeoff | Mode::Loiter => cruise_over(c, hold_xy.x, hold_xy.y),
        Mode::Mission => waypoint,
        Mode::Land if t.failed_motor => cruise_over(c, t.p.x, t.p.y),
        Mode::Rtl | Mode::Land => cruise_over(c, c.home.x, c.home.y),
        Mode::Disarmed | Mode::Armed | Mode::Terminated => t.p,
    }
}

// The modes that command motors off.
pub fn motors_off(mode: Mode) -> bool
    ensures { result ≡ motors_off_of mode }
{
    matches!(mode, Mode::Disarmed | Mode::Armed | Mode::Terminated)
}
