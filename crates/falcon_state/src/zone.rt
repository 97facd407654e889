// Keep-out zones.
ghost use Rattle.std.specs.Prelude.{◌≡◌};
ghost use Rattle.falcon_state.specs.Zone.{zone_of, no_zone};

use crate::point::Point;

// A circular keep-out zone: its centre and radius, judged horizontally.
#[derive(Clone, Copy)]
pub struct Zone {
    pub center: Point,
    pub radius: f32,
}

// The keep-out zones and how many are in use. Unused places hold no zone; all places are always there: the state is copied by value, with no heap.
#[derive(Clone, Copy)]
pub struct Zones {
    pub zones: [Zone; Zone::MAX_KEEPOUT_ZONES],
    pub zone_count: u32,
}

impl Zone {
    // How many zones are kept.
    pub const MAX_KEEPOUT_ZONES: usize = 8;
    // How many numbers of a lent list are a zone: its centre and radius.
    pub const NUMBERS: usize = 4;
    // The stand-off beyond the radius: a vehicle with momentum toward its goal cuts inside the ring that it is told to fly.
    pub const KEEPOUT_MARGIN: f32 = 1.6;
    // How far beyond the stand-off a zone deflects, so that there is room to turn before it.
    pub const KEEPOUT_INFLUENCE: f32 = 4.0;
    // How far ahead along the tangent the deflected setpoint lies: around the zone and not merely away from it, which stalls where the goal is behind it.
    pub const KEEPOUT_LOOKAHEAD: f32 = 3.0;
    // The least distance that is divided by.
    pub const MIN_DISTANCE: f32 = 1e-3;

    pub fn new(center: Point, radius: f32) -> Zone
        ensures { result ≡ zone_of center radius }
    {
        Zone { center, radius }
    }

    // What an unused place holds. No Default: the name says that there is no zone.
    pub fn none() -> Zone
        ensures { result ≡ no_zone }
    {
        Zone {
            center: Point::origin(),
            radius: 0.0,
        }
    }
}
