// The flight: all that a tick reads and changes.
ghost use Rattle.std.specs.Prelude.{◌≡◌};
ghost use Rattle.falcon_state.specs.Flight.{opened_of};

use crate::config::{Config, OpeningKind};
use crate::hold::Hold;
use crate::mission::Mission;
use crate::point::{Horizontal, Point};
use crate::zone::{Zone, Zones};
use relay_batt::{BattConfig, Battery};
use relay_fsm::{FlightFsm, Mode};
use relay_preflight::CheckTable;

// Ticks in a row of too much tilt and of high wind.
#[derive(Clone, Copy)]
pub struct Counts {
    pub runaway_count: u32,
    pub wind_count: u32,
}

// The flight. A failsafe sets the latch, which one check shows, and a tick that begins Disarmed clears it.
#[derive(Clone, Copy)]
pub struct FlightSupervisor {
    pub config: Config,
    pub fsm: FlightFsm,
    pub battery: Battery,
    pub mission: Mission,
    pub zones: Zones,
    pub hold: Hold,
    pub counts: Counts,
    pub check_table: CheckTable,
    pub rtl_latched: bool,
    pub motors_were_off: bool,
}

// What an opening gives.
#[derive(Clone, Copy)]
pub struct Opening {
    pub home: Point,
    pub fence_radius: f32,
    pub cruise_alt: f32,
    pub low_batt_v: f32,
    pub required: u32,
    pub passed: u32,
    pub calibration_configured: bool,
    pub opening_kind: OpeningKind,
}

impl FlightSupervisor {
    // The flight as an opening leaves it: Disarmed, no points, no zones, nothing read.
    #[tactic(auto, unfolding(crate::specs::Flight::opened_of))]
    pub fn opened(o: Opening) -> FlightSupervisor
        ensures { result ≡ opened_of o }
    {
        FlightSupervisor {
            config: Config {
                home: o.home,
                fence_radius: o.fence_radius,
                cruise_alt: o.cruise_alt,
                low_batt_v: o.low_batt_v,
                calibration_configured: o.calibration_configured,
                opening_kind: o.opening_kind,
            },
            fsm: FlightFsm::new(),
            battery: Battery::new(BattConfig::for_opening_volts(o.low_batt_v)),
            mission: Mission {
                wp_count: 0,
                wp_index: 0,
            },
            zones: Zones {
                zones: [Zone::none(); Zone::MAX_KEEPOUT_ZONES],
                zone_count: 0,
            },
            hold: Hold {
                hold_xy: Horizontal {
                    x: o.home.x,
                    y: o.home.y,
                },
                hold_regime: false,
                hold_braking: false,
                brake_s: 0.0,
                brake_rest_s: 0.0,
            },
            counts: Counts {
                runaway_count: 0,
                wind_count: 0,
            },
            check_table: CheckTable::new(o.required, o.passed).legacy_passed(),
            rtl_latched: false,
            motors_were_off: true,
        }
    }
}
