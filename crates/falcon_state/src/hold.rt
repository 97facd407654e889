// The hold point of Takeoff and Loiter.
use crate::point::Horizontal;

// The hold point, and the braking before it is latched. No Option: the point and the times outlive the flags, and a record has them.
#[derive(Clone, Copy)]
pub struct Hold {
    pub hold_xy: Horizontal,
    // The latest tick's setpoint was that of Takeoff or Loiter.
    pub hold_regime: bool,
    pub hold_braking: bool,
    pub brake_s: f32,
    pub brake_rest_s: f32,
}

impl Hold {
    // The brake point lies so many seconds of the velocity behind the vehicle: the position term then brakes beside the damping, and unwinds the integral
    // that the leg has charged.
    pub const HOLD_BRAKE_LEAD_S: f32 = 8.0;
    // Loiter entered faster than this brakes first.
    pub const HOLD_BRAKE_ENTRY_MS: f32 = 0.3;
    // At rest below this speed, for so long: a shorter rest may be the turning point of a swing.
    pub const HOLD_REST_MS: f32 = 0.1;

    pub const HOLD_REST_S: f32 = 3.0;
    // The longest braking: past it the point is latched wherever the vehicle is.
    pub const HOLD_BRAKE_MAX_S: f32 = 30.0;
}
