// The setpoint is deflected around the keep-out zones that the vehicle is near.
ghost use Rattle.std.specs.Prelude.{◌≡◌, min};
ghost use Rattle.falcon_state.specs.Zone.{max_keepout_zones};
ghost use Rattle.falcon_guidance.specs.Zones.{goal_of, bearing_of, along_of, perp_of, obstructs_of, threatens_of, tangent_of, urgency_of};
ghost use Rattle.falcon_guidance.specs.Zones.{ring_of, deflected_of, around_of, avoid_of, loaded_zones_of};

use crate::geometry::norm;
use crate::lent::{kept_count, stored};
use falcon_state::{Horizontal, Point, Zone, Zones};
use relay_math::{clamp, max, sqrtf};

// The unit vector from the vehicle toward the goal, and the distance to it.
#[derive(Clone, Copy)]
pub struct Goal {
    pub ux: f32,
    pub uy: f32,
    pub glen: f32,
}

// From a zone to the vehicle: the vector, the distance and the safe ring.
#[derive(Clone, Copy)]
pub struct Bearing {
    pub rx: f32,
    pub ry: f32,
    pub d: f32,
    pub safe: f32,
}

impl Bearing {
    #[tactic(auto, unfolding(crate::specs::Zones::bearing_of))]
    fn from_zone(z: Zone, p: Point) -> Bearing
        ensures { result ≡ bearing_of p z }
    {
        let rx = p.x - z.center.x;
        let ry = p.y - z.center.y;
        Bearing {
            rx,
            ry,
            d: max(norm(rx, ry), Zone::MIN_DISTANCE),
            safe: z.radius + Zone::KEEPOUT_MARGIN,
        }
    }

    // How far beside the way the zone is.
    #[tactic(auto, unfolding(crate::specs::Zones::perp_of))]
    fn perp(self, along: f32) -> f32
        ensures { result ≡ perp_of self along }
    {
        sqrtf(max((self.rx * self.rx + self.ry * self.ry) - along * along, 0.0))
    }

    // From 0 at the edge of the influence to 1 at the safe ring.
    #[tactic(auto, unfolding(crate::specs::Zones::urgency_of))]
    fn urgency(self) -> f32
        ensures { result ≡ urgency_of self }
    {
        clamp(
            (self.safe + Zone::KEEPOUT_INFLUENCE - self.d) / Zone::KEEPOUT_INFLUENCE,
            0.0,
            1.0,
        )
    }
}

// One coordinate of the deflected setpoint.
#[tactic(auto, unfolding(crate::specs::Zones::ring_of))]
fn ring(center: f32, n: f32, safe: f32, t: f32, urgency: f32) -> f32
    ensures { result ≡ ring_of center n safe t urgency }
{
    center + n * safe + t * Zone::KEEPOUT_LOOKAHEAD * urgency
}

impl Goal {
    #[tactic(auto, unfolding(crate::specs::Zones::goal_of))]
    fn toward(p: Point, sp: Point) -> Goal
        ensures { result ≡ goal_of p sp }
    {
        let gx = sp.x - p.x;
        let gy = sp.y - p.y;
        let glen = max(norm(gx, gy), Zone::MIN_DISTANCE);
        Goal {
            ux: gx / glen,
            uy: gy / glen,
            glen,
        }
    }

    // How far ahead of the vehicle the zone is on the way to the goal.
    #[tactic(auto, unfolding(crate::specs::Zones::along_of))]
    fn along(self, b: Bearing) -> f32
        ensures { result ≡ along_of self b }
    {
        -b.rx * self.ux + -b.ry * self.uy
    }

    // Ahead, before the goal, and laterally close.
    #[tactic(auto, unfolding(crate::specs::Zones::obstructs_of))]
    fn is_obstructed(self, b: Bearing) -> bool
        ensures { result ≡ obstructs_of self b }
    {
        let a = self.along(b);
        (a > 0.0) & (a < self.glen + b.safe) & (b.perp(a) < b.safe + Zone::KEEPOUT_INFLUENCE)
    }

    // The zone blocks the way and the vehicle is within its reach, or the vehicle is inside the safe ring. A zone that is merely near, as beside home at the
    // end of the way, deflects nothing.
    #[tactic(auto, unfolding(crate::specs::Zones::threatens_of))]
    fn is_threatened(self, b: Bearing) -> bool
        ensures { result ≡ threatens_of self b }
    {
        self.is_obstructed(b) & (b.d < b.safe + Zone::KEEPOUT_INFLUENCE) | (b.d < b.safe)
    }

    // The tangent to the outward radial n, signed toward the goal: so the vehicle circles around the zone and does not stall in front of it.
    #[tactic(auto, unfolding(crate::specs::Zones::tangent_of))]
    fn tangent(self, n: Horizontal) -> Horizontal
        ensures { result ≡ tangent_of self n }
    {
        let tx = -n.y;
        let ty = n.x;
        if tx * self.ux + ty * self.uy < 0.0 {
            Horizontal { x: -tx, y: -ty }
        } else {
            Horizontal { x: tx, y: ty }
        }
    }

    // The point on the zone's safe ring that replaces the setpoint.
    #[tactic(auto, unfolding(crate::specs::Zones::deflected_of))]
    fn deflected(self, z: Zone, b: Bearing) -> Horizontal
        ensures { result ≡ deflected_of self z b }
    {
        let n = Horizontal {
            x: b.rx / b.d,
            y: b.ry / b.d,
        };
        let t = self.tangent(n);
        let u = b.urgency();
        Horizontal {
            x: ring(z.center.x, n.x, b.safe, t.x, u),
            y: ring(z.center.y, n.y, b.safe, t.y, u),
        }
    }

    // One zone's deflection.
    #[tactic(auto, unfolding(crate::specs::Zones::around_of))]
    fn around(self, p: Point, z: Zone, out: Horizontal) -> Horizontal
        ensures { result ≡ around_of p self z out }
    {
        let b = Bearing::from_zone(z, p);
        if self.is_threatened(b) {
            self.deflected(z, b)
        } else {
            out
        }
    }
}

// How many zones are in use.
fn used(zs: Zones) -> usize
    ensures { result ≡ min zs.zone_count max_keepout_zones }
{
    (zs.zone_count as usize).min(Zone::MAX_KEEPOUT_ZONES)
}

// The setpoint deflected around every zone in use; its height is untouched.
#[tactic(auto, unfolding(crate::specs::Zones::avoid_of, crate::specs::Zones::around_all_of))]
pub fn avoid(zs: Zones, p: Point, sp: Point) -> Point
    ensures { result ≡ avoid_of zs p sp }
{
    let g = Goal::toward(p, sp);
    let mut out = Horizontal { x: sp.x, y: sp.y };
    for z in &zs.zones[..used(zs)] {
        out = g.around(p, *z, out);
    }
    Point {
        x: out.x,
        y: out.y,
        z: sp.z,
    }
}

// The zones of a lent list.
#[tactic(auto, unfolding(crate::specs::Zones::loaded_zones_of, crate::specs::Zones::stored_zones_of, crate::specs::Zones::zones_kept_of))]
pub fn loaded_zones(lent: &[f32]) -> Zones
    ensures { result ≡ loaded_zones_of lent.now }
{
    Zones {
        zones: stored(lent),
        zone_count: kept_count::<Zone>(lent, Zone::MAX_KEEPOUT_ZONES) as u32,
    }
}
