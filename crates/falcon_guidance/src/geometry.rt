// Distances and heights.
ghost use Rattle.std.specs.Prelude.{◌≡◌};
ghost use Rattle.falcon_guidance.specs.Geometry.{norm_of, distance_of, distance3_of, pad_less_of, height_of};

use falcon_state::{Config, OpeningKind, Point};
use relay_math::sqrtf;

// The norm of a horizontal vector.
#[tactic(auto, unfolding(crate::specs::Geometry::norm_of))]
pub fn norm(x: f32, y: f32) -> f32
    ensures { result ≡ norm_of x y }
{
    sqrtf(x * x + y * y)
}

// The horizontal distance of two points.
#[tactic(auto, unfolding(crate::specs::Geometry::distance_of))]
pub fn distance(p: Point, q: Point) -> f32
    ensures { result ≡ distance_of p q }
{
    norm(p.x - q.x, p.y - q.y)
}

// The distance of two points.
#[tactic(auto, unfolding(crate::specs::Geometry::distance3_of))]
pub fn distance3(p: Point, q: Point) -> f32
    ensures { result ≡ distance3_of p q }
{
    let dx = p.x - q.x;
    let dy = p.y - q.y;
    let dz = p.z - q.z;
    sqrtf(dx * dx + dy * dy + dz * dz)
}

// The pad's z less x. By kind 1 the pad is at height zero: that is -x, as in the Rust, and not 0 - x, which is another zero where x is 0.
#[tactic(auto, unfolding(crate::specs::Geometry::pad_less_of))]
pub fn pad_less(c: Config, x: f32) -> f32
    ensures { result ≡ pad_less_of c.opening_kind c.home.z x }
{
    match c.opening_kind {
        OpeningKind::Ground => -x,
        OpeningKind::Raised => c.home.z - x,
    }
}

// The height of a position over the pad.
#[tactic(auto, unfolding(crate::specs::Geometry::height_of))]
pub fn height(c: Config, p: Point) -> f32
    ensures { result ≡ height_of c p }
{
    pad_less(c, p.z)
}
