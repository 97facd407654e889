// What stands in places of the state.
ghost use Rattle.std.specs.Prelude.{◌≡◌};
ghost use Rattle.falcon_state.specs.Point.{origin};
ghost use Rattle.falcon_state.specs.Zone.{no_zone};

use crate::point::Point;
use crate::zone::Zone;

// A place holds one, used or not.
pub trait Place: Copy {
    ghost empty: { Self };

    // What an unused place holds.
    fn unused() -> Self
        ensures { result ≡ empty };
}

impl Place for Point {
    ghost empty = { origin };

    fn unused() -> Point {
        Point::origin()
    }
}

impl Place for Zone {
    ghost empty = { no_zone };

    fn unused() -> Zone {
        Zone::none()
    }
}
