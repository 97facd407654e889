// The mission, and what a tick reads of its waypoints.
use crate::point::Point;

// How many waypoints are in use, and the active leg. The list stands beside it, always with all its places: the state is copied by value, with no heap.
#[derive(Clone, Copy)]
pub struct Mission {
    pub wp_count: u32,
    pub wp_index: u32,
}

// The waypoint of the active leg, and that of the next one.
#[derive(Clone, Copy)]
pub struct Legs {
    pub here: Point,
    pub next: Point,
}
