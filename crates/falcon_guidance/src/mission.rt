// The waypoints: which are admissible, and how a lent list is stored.
ghost use Rattle.std.specs.Prelude.{◌≡◌};
ghost use Rattle.falcon_guidance.specs.Mission.{waypoint_admissible_of, tried_of, all_admissible_of, loaded_of, no_points_of, loaded_points_of};

use crate::geometry::distance;
use crate::lent::{Lent, kept_count, stored};
use falcon_state::{Config, Mission, Point};
use relay_math::is_finite;

// Inside the flight envelope: finite, between floor and ceiling above home, and within the fence. A NaN fence admits nothing.
#[tactic(auto, unfolding(crate::specs::Mission::waypoint_admissible_of))]
fn waypoint_admissible(c: Config, p: Point) -> bool
    ensures { result ≡ waypoint_admissible_of c p }
{
    let home = c.home;
    let agl = c.home.z - p.z;
    let finite = is_finite(p.x) & is_finite(p.y) & is_finite(p.z);
    let height = (Point::MISSION_MIN_ALT_AGL_M <= agl) & (agl <= Point::MISSION_MAX_ALT_AGL_M);
    finite & height & (distance(p, home) <= c.fence_radius)
}

// The points of a lent list that are tried are all admissible: one that is not refuses the whole list.
pub fn tried_admissible(c: Config, lent: &[f32]) -> bool
    ensures { result ≡ all_admissible_of c lent.now (tried_of lent.now) }
{
    let (points, _) = lent.as_chunks::<{ Point::NUMBERS }>();
    let tried = points.len().min(Point::MAX_WAYPOINTS);
    points[..tried].iter().all(|numbers| waypoint_admissible(c, Point::from_numbers(numbers)))
}

// The mission of an accepted list.
#[tactic(auto, unfolding(crate::specs::Mission::loaded_of, crate::specs::Mission::tried_of))]
pub fn loaded(lent: &[f32]) -> Mission
    ensures { result ≡ loaded_of lent.now }
{
    Mission {
        wp_count: kept_count::<Point>(lent, Point::MAX_WAYPOINTS) as u32,
        wp_index: 0,
    }
}

// The waypoints of an accepted list.
#[tactic(auto, unfolding(crate::specs::Mission::loaded_points_of, crate::specs::Mission::stored_points_of, crate::specs::Mission::tried_of))]
pub fn loaded_points(lent: &[f32]) -> [Point; Point::MAX_WAYPOINTS]
    ensures { result ≡ loaded_points_of lent.now }
{
    stored(lent)
}

// The places with no waypoint in use.
pub fn no_points() -> [Point; Point::MAX_WAYPOINTS]
    ensures { result ≡ no_points_of }
{
    [Point::origin(); Point::MAX_WAYPOINTS]
}
