// All that a tick reads of the waypoints: that of the active leg and that of the next, by their places in the list.
ghost use Rattle.std.specs.Prelude.{◌≡◌, ◌+◌, ◌-◌, min};
ghost use Rattle.falcon_guidance.specs.Legs.{here_leg_of, next_leg_of, place_of, waypoint_in_place, legs_from_of};
ghost use Rattle.falcon_guidance.specs.Mission.{legs_of};

use falcon_state::{Config, Legs, Mission, Point};

// The last leg, 0 where there is none.
fn last_leg(m: Mission) -> u32
    ensures { result ≡ m.wp_count - 1 }
{
    m.wp_count.saturating_sub(1)
}

// The active leg, at most the last.
fn here_leg(m: Mission) -> u32
    ensures { result ≡ here_leg_of m }
{
    m.wp_index.min(last_leg(m))
}

// The leg after the active one, at most the last. A test and no `min`: a sum that stops at the limit takes longer.
fn next_leg(m: Mission) -> u32
    ensures { result ≡ next_leg_of m }
{
    let last = last_leg(m);
    if m.wp_index < last {
        m.wp_index + 1
    } else {
        last
    }
}

// The place of a leg's waypoint, the first where the leg is beyond the places. No Option: a caller indexes the list with it, and `waypoint_in_place` tells
// whether what stands there counts.
#[tactic(auto, unfolding(crate::specs::Legs::place_of))]
fn place_of(leg: u32) -> usize
    ensures { result ≡ place_of leg }
{
    let at = leg as usize;
    if at < Point::MAX_WAYPOINTS { at } else { 0 }
}

// The waypoint of a leg whose place holds this point; the origin where the leg is beyond the places.
#[tactic(auto, unfolding(crate::specs::Legs::waypoint_in_place))]
fn waypoint_in_place(leg: u32, point: Point) -> Point
    ensures { result ≡ waypoint_in_place leg point }
{
    if (leg as usize) < Point::MAX_WAYPOINTS {
        point
    } else {
        Point::origin()
    }
}

// The place of the active leg's waypoint.
#[tactic(auto, unfolding(crate::specs::Legs::place_of))]
pub fn here_place(m: Mission) -> usize
    ensures { result ≡ place_of (here_leg_of m) }
{
    place_of(here_leg(m))
}

// The place of the next leg's waypoint.
#[tactic(auto, unfolding(crate::specs::Legs::place_of))]
pub fn next_place(m: Mission) -> usize
    ensures { result ≡ place_of (next_leg_of m) }
{
    place_of(next_leg(m))
}

// The waypoints of the active leg and of the next, whose places hold these points; home where there is none.
#[tactic(auto, unfolding(crate::specs::Legs::legs_from_of))]
pub fn legs_from(c: Config, m: Mission, here: Point, next: Point) -> Legs
    ensures { result ≡ legs_from_of c m here next }
{
    if m.wp_count == 0 {
        return Legs {
            here: c.home,
            next: c.home,
        };
    }
    Legs {
        here: waypoint_in_place(here_leg(m), here),
        next: waypoint_in_place(next_leg(m), next),
    }
}

// The same from the whole list.
#[tactic(auto, using(crate::proofs::LegPlaces::place_below, crate::proofs::LegPlaces::legs_are))]
pub fn legs(c: Config, points: [Point; Point::MAX_WAYPOINTS], m: Mission) -> Legs
    ensures { result ≡ legs_of c points m }
{
    legs_from(c, m, points[here_place(m)], points[next_place(m)])
}
