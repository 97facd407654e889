// Positions, velocities and horizontal directions.
ghost use Rattle.std.specs.Prelude.{◌≡◌};
ghost use Rattle.falcon_state.specs.Point.{point_of, origin};

// A position or velocity: north, east, down, in metres or metres a second.
#[derive(Clone, Copy)]
pub struct Point {
    pub x: f32,
    pub y: f32,
    pub z: f32,
}

// A horizontal position or direction: north, east.
#[derive(Clone, Copy)]
pub struct Horizontal {
    pub x: f32,
    pub y: f32,
}

impl Point {
    // How many waypoints are tried and kept.
    pub const MAX_WAYPOINTS: usize = 16;
    // How many numbers of a lent list are a point.
    pub const NUMBERS: usize = 3;
    // The lowest and the highest waypoint above home: one below home cuts the motors in flight, and the other limit is the ceiling of the open category.
    pub const MISSION_MIN_ALT_AGL_M: f32 = 1.0;

    pub const MISSION_MAX_ALT_AGL_M: f32 = 120.0;
    // A waypoint is reached nearer than this: near enough that the path is flown, far enough that the position need not settle on each leg.
    pub const WAYPOINT_RADIUS: f32 = 1.2;

    pub fn new(x: f32, y: f32, z: f32) -> Point
        ensures { result ≡ point_of x y z }
    {
        Point { x, y, z }
    }

    // What an unused place holds. No Default: zeros are a point like any other, and the name says which one is meant.
    pub fn origin() -> Point
        ensures { result ≡ origin }
    {
        Point {
            x: 0.0,
            y: 0.0,
            z: 0.0,
        }
    }
}
