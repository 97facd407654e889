// What one tick brings, and the limits that it is compared with.
use crate::point::Point;
use relay_batt::Reading;

// The estimate, the core's figures and flags, and the battery reading.
#[derive(Clone, Copy)]
pub struct Tick {
    pub dt: f32,
    pub p: Point,
    pub v: Point,
    pub tilt: f32,
    pub tilt_uncertainty: f32,
    pub max_motor: f32,
    pub nav_compromised: bool,
    pub gnss_diverged: bool,
    pub failed_motor: bool,
    pub motor_rpm: bool,
    pub reading: Reading,
}

impl Tick {
    // The estimator has converged below this uncertainty: one that has just started or diverges blocks arming.
    pub const PREARM_TILT_UNCERT_MAX: f32 = 0.02;
    // More tilt than this is a tumble, since the lift no longer arrests the fall; only so many ticks in a row cut the motors, and no single spike.
    pub const TILT_RUNAWAY_LIMIT: f32 = 1.05;

    pub const TILT_RUNAWAY_CYCLES: u32 = 50;
    // A motor command from here on with a tilt in this band is high wind, after so many ticks in a row: a gust is shorter. The band ends below the tumble's
    // tilt, so that a tumble ends in Terminated and not in Rtl.
    pub const WIND_SAT_THRESHOLD: f32 = 0.95;

    pub const WIND_TILT_MIN: f32 = 0.30;

    pub const WIND_TILT_CEIL: f32 = 0.70;

    pub const WIND_CYCLES: u32 = 125;
    // The climb is done above the cruise height less this.
    pub const ALTITUDE_MARGIN: f32 = 0.2;
    // Home is reached nearer than this.
    pub const HOME_RADIUS: f32 = 0.4;
    // The ground is reached below this height.
    pub const TOUCHDOWN_ALT: f32 = 0.15;
    // The descent begins slower and nearer to home than this.
    pub const LANDING_SPEED: f32 = 0.4;

    pub const LANDING_RADIUS: f32 = 0.5;
    // A charge from here on has margin for the takeoff draw: armed with less, the return would follow seconds after the takeoff.
    pub const TAKEOFF_MARGIN_SOC: f32 = 0.30;
}
