// The milestones: altitude, home and ground reached, and the mission's legs.
ghost use Rattle.std.specs.Prelude.{◌≡◌, ◌+◌, cond, Some, None};
ghost use Rattle.falcon_events.specs.Milestone.{high_of, near_home_of, near_ground_of, arrived_of, more_of, milestone_of};

use crate::failsafe::{IN_FLIGHT, mode_given};
use falcon_guidance::geometry::distance3;
use falcon_state::{Config, Mission, Point, Tick};
use relay_fsm::{Event, Mode};

// What the milestone changes: the mode and the active leg.
#[derive(Clone, Copy)]
pub struct Reached {
    pub mode: Mode,
    pub wp_index: u32,
}

// The climb is done.
#[tactic(auto, unfolding(crate::specs::Milestone::high_of))]
fn high(c: Config, alt_agl: f32) -> bool
    ensures { result ≡ high_of c alt_agl }
{
    alt_agl > c.cruise_alt - Tick::ALTITUDE_MARGIN
}

// Home is reached.
#[tactic(auto, unfolding(crate::specs::Milestone::near_home_of))]
fn near_home(dist_home: f32) -> bool
    ensures { result ≡ near_home_of dist_home }
{
    dist_home < Tick::HOME_RADIUS
}

// The ground is reached.
#[tactic(auto, unfolding(crate::specs::Milestone::near_ground_of))]
fn near_ground(alt_agl: f32) -> bool
    ensures { result ≡ near_ground_of alt_agl }
{
    alt_agl < Tick::TOUCHDOWN_ALT
}

// The active leg's waypoint is reached.
#[tactic(auto, unfolding(crate::specs::Milestone::arrived_of))]
fn arrived(here: Point, p: Point) -> bool
    ensures { result ≡ arrived_of here p }
{
    distance3(p, here) < Point::WAYPOINT_RADIUS
}

// The leg after the active one, if a further one follows.
fn further_leg(m: Mission) -> Option<u32>
    ensures { result ≡ cond (more_of m) (Some (m.wp_index + 1)) None }
{
    m.wp_index.checked_add(1).filter(|leg| *leg < m.wp_count)
}

// The milestone of the mode, with the waypoint of the active leg.
#[tactic(auto, unfolding(crate::specs::Milestone::milestone_of, crate::specs::Milestone::milestone_gives))]
pub fn milestone(
    mode: Mode,
    c: Config,
    m: Mission,
    here: Point,
    dist_home: f32,
    alt_agl: f32,
    p: Point,
) -> Reached
    ensures { result ≡ milestone_of mode c m here dist_home alt_agl p }
{
    let leg = m.wp_index;
    let (event, wp_index) = match mode {
        Mode::Takeoff => (high(c, alt_agl).then_some(Event::ReachedAltitude), leg),
        Mode::Rtl => (near_home(dist_home).then_some(Event::ReachedHome), leg),
        Mode::Land => (near_ground(alt_agl).then_some(Event::Touchdown), leg),
        Mode::Mission if arrived(here, p) => match further_leg(m) {
            Some(next) => (None, next),
            None => (Some(Event::RequestRtl), leg),
        },
        _ => (None, leg),
    };
    Reached {
        mode: mode_given(mode, event, IN_FLIGHT),
        wp_index,
    }
}
